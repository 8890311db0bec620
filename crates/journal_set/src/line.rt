// In which order cores take the box.
use std::hint;
use std::sync::atomic::{AtomicU64, Ordering};

// How often a core looks at most whether those that came before it have had the box: some turns long. It doesn't give its processor away meanwhile:
// where other programs wait for that too, it would have it back milliseconds later, and all that come behind it would wait as long.
const LOOKS: u32 = 20_000;

/// How many turns at the box cores came for, and how many they have had: who comes first is served first, as far as so many looks go. The box alone
/// keeps no order: a core that lets it go would have it again before one that sleeps is awake. No contract speaks of it.
#[derive(Drop)]
pub struct Line {
    came: AtomicU64,
    had: AtomicU64,
}

impl Line {
    /// Nobody came yet.
    pub(crate) fn new() -> Line {
        Line {
            came: AtomicU64::new(0),
            had: AtomicU64::new(0),
        }
    }

    /// A core comes for a turn. It waits while another that came before it has not had its own, but for so many looks at most.
    pub(crate) fn join(&self) {
        let before = self.came.fetch_add(1, Ordering::SeqCst);
        for _ in 0..LOOKS {
            if self.had.load(Ordering::SeqCst) >= before {
                return;
            }
            hint::spin_loop();
        }
    }

    /// It has had it, and whoever came next may have its own.
    pub(crate) fn pass_on(&self) {
        self.had.fetch_add(1, Ordering::SeqCst);
    }
}
