// The steps at the box, each of one device call at most.
mod advancing;
mod filling;
mod lingering;
mod opening;
mod placing;
mod serving;
mod shutting;
mod stepping;
mod syncing;
mod writing;

pub use filling::fill_one;
pub use lingering::{may_place, oldest};
pub use opening::open_one;
pub use placing::place_one;
pub use shutting::shut_one;
pub use stepping::{others_write, step_oldest};
pub use syncing::sync_all;
