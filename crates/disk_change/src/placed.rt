use fmt_slots::SlotBlock;

// A block of a directory's slots that a commit changes, at its place.
#[derive(Drop)]
pub(crate) struct PlacedSlots {
    pub(crate) place: usize,
    pub(crate) slots: SlotBlock,
}
