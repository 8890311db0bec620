use journal_set::{Ack, CommitFault, Flight, Writing};

/// What is due of a core.
#[derive(Drop)]
pub enum Due {
    /// Nothing.
    Rests,
    /// It has reserved, and waits for a slot in which its commit begins.
    Waits { writing: Writing },
    /// Its commit is under way in a slot.
    Flies { flight: Flight },
    /// A failure has stopped it.
    Over,
}

/// What a turn of a core came to.
#[derive(Clone, Copy)]
pub enum Came {
    /// Nothing that is told.
    Goes,
    /// It has reserved, and this block was granted.
    Granted { block: u32 },
    /// Its slot is filled.
    Filled,
    /// Its commit is durable.
    Durable { ack: Ack },
    /// Its commit was refused, or failed.
    Refused { fault: CommitFault },
}
