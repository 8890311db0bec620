use crate::CoreId;

/// Where a core can be held: before its stamp with the cells held, with its own log part held, and
/// between the writing of a journal's body and of its gate.
#[derive(Clone, Copy, PartialEq, Eq)]
pub enum Place {
    Held,
    Part,
    Body,
}

/// A hook by which tests hold a core at a place. It can't change an answer.
pub trait Gate: Sync {
    fn at(&self, core: CoreId, place: Place);
}

/// The hook that does nothing.
#[derive(Clone, Copy)]
pub struct NoGate;

impl Gate for NoGate {
    fn at(&self, _core: CoreId, _place: Place) {}
}
