// What a seat at the table knows, for the proofs alone.
use std::collections::LinkedList;

/// What a seat at the table knows: of a core, or of the one seat that gathers the cores' lists. No value of it is made.
pub struct View<T, E> {
    /// Whether this seat gathers lists. It makes no calls.
    pub gathers: bool,
    /// Whether this core's list was gathered.
    pub gone: bool,
    /// What stood before the first call.
    pub first: T,
    pub core: u64,
    /// The history that this core has seen.
    pub seen: LinkedList<E>,
    /// Its own calls in it.
    pub mine: LinkedList<E>,
    /// The places of the cells that it holds, the last one first.
    pub held: LinkedList<u64>,
    /// How many cores there are.
    pub cores: u64,
    /// The lists that were gathered, that of core 0 first.
    pub lists: LinkedList<LinkedList<E>>,
    /// What these cores had seen, in the same order.
    pub saws: LinkedList<LinkedList<E>>,
}
