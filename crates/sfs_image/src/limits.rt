/// The most slots that a core's journal has.
pub const MOST_SLOTS: u32 = 8;
