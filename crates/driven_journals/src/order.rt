use crate::due::Came;

/// Whose turn is next.
#[derive(Clone, Copy)]
pub enum Order {
    /// All cores, by their numbers, beginning with this one.
    InStep { next: u32 },
    /// Drawn, from this number on.
    Drawn { state: u64 },
    /// This one alone.
    Alone { core: u32 },
}

/// When cores stop.
#[derive(Clone, Copy)]
pub enum Until {
    /// Once nothing is due of them and no commit is left to make.
    Rest,
    /// Once a slot is filled.
    Filled,
    /// Once a commit is durable.
    Durable,
}

impl Order {
    /// The next of so many cores.
    pub(crate) fn take_next(&mut self, cores: u32) -> u32 {
        match self {
            Order::InStep { next } => {
                let core = *next;
                *next = if core >= cores.saturating_sub(1) {
                    0
                } else {
                    core + 1
                };
                core
            }
            Order::Drawn { state } => {
                *state = state
                    .wrapping_mul(6_364_136_223_846_793_005)
                    .wrapping_add(1_442_695_040_888_963_407);
                (*state >> 33) as u32 % cores.max(1)
            }
            Order::Alone { core } => *core,
        }
    }
}

impl Until {
    /// Whether they stop behind what a turn came to.
    pub(crate) fn is_met(self, came: Came) -> bool {
        match (self, came) {
            (Until::Filled, Came::Filled) => true,
            (Until::Durable, Came::Durable { .. }) => true,
            _ => false,
        }
    }
}
