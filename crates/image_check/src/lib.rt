//! A verdict on an image, by a certificate that is accepted without trust in who wrote it.
#![tactic(auto)]

mod certificate;
mod checking;
mod climb;
mod fault;
mod files;
mod laws;
mod making;
mod owners;
mod places;
mod reading;

pub use certificate::{Certificate, Holder, HolderList, Owner, OwnerList};
pub use checking::accept;
pub use fault::{AcceptFault, VerifyFault};
pub use laws::{
    certificates_are_one, faultless_images_are_certified, valid_images_are_faultless,
    valid_images_have_sound_trees,
};
pub use making::certify;
