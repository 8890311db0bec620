/// A cell that a core holds: its place and its value.
#[derive(Drop)]
pub struct HeldCell<C> {
    pub place: usize,
    pub value: C,
}
