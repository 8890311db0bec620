// The touched blocks of a file.
ghost use Rattle.disk_change.specs.Pages.{page_block};

use keyed_list::{Keyed, KeyedList, Numbered};

/// A block of a file that a change touched, as it is then.
#[derive(Clone, Copy)]
pub struct Page {
    pub block: u32,
    pub bytes: [u8; 4096],
}

impl Numbered for Page {
    ghost number = { page_block };
}

impl Keyed for Page {
    fn key(&self) -> u32 {
        self.block
    }
}

/// The pages of a file, ascending by block.
pub type PageList = KeyedList<Page>;
