// What is measured, and what comes of it.
ghost use Rattle.std.specs.Prelude.{◌≡◌, ◌<◌, ◌≤◌};

use crate::loads::Load;

/// How many threads there are at most, each with a directory of its own.
pub(crate) const THREADS: u8 = 4;

/// Where threads call.
#[derive(Clone, Copy)]
pub(crate) enum Place {
    /// Each in a directory of its own, on one table.
    Apart,
    /// Each in that directory, on a table of its own.
    OwnTables,
    /// All in one directory.
    Together,
    /// One thread alone, in that directory.
    Alone,
}

impl Place {
    /// Its name.
    pub(crate) fn name(self) -> &'static str {
        match self {
            Place::Apart => "own directories",
            Place::OwnTables => "own tables",
            Place::Together => "one directory",
            Place::Alone => "one thread",
        }
    }

    /// How many threads call.
    pub(crate) fn threads(self) -> u8
        ensures { (0 < result) × (result ≤ 4) }
    {
        match self {
            Place::Alone => 1,
            _ => THREADS,
        }
    }

    /// How many of them call in one directory.
    pub(crate) fn together(self) -> u32 {
        match self {
            Place::Together => THREADS as u32,
            _ => 1,
        }
    }
}

/// A load, where threads call, whether the calls are made before the clock, how many rows of a directory can be looked up, how many calls each
/// thread makes on a table, and how many tables there are, one after another.
#[derive(Clone, Copy)]
pub(crate) struct Case {
    pub(crate) load: Load,
    pub(crate) place: Place,
    pub(crate) made: bool,
    pub(crate) rows: u32,
    pub(crate) rounds: u32,
    pub(crate) tables: u32,
}

/// How many calls each thread has done, and in how many nanoseconds of its own.
#[derive(Clone, Copy)]
pub(crate) struct Tally {
    done: [u64; 4],
    nanos: [u64; 4],
}

impl Tally {
    /// None yet.
    pub(crate) fn new() -> Self {
        Tally {
            done: [0; 4],
            nanos: [0; 4],
        }
    }

    /// With what a thread did on a table.
    pub(crate) fn add(&mut self, thread: u8, done: u64, nanos: u64) {
        let at = thread as usize;
        if at < 4 {
            self.done[at] = self.done[at].saturating_add(done);
            self.nanos[at] = self.nanos[at].saturating_add(nanos);
        }
    }

    /// How many calls all threads have done.
    pub(crate) fn done(&self) -> u64 {
        let mut all = 0u64;
        for thread in 0..4 {
            all = all.saturating_add(self.done[thread]);
        }
        all
    }

    /// The own rate of a thread, in thousands a second.
    pub(crate) fn rate(&self, thread: u8) -> u64 {
        let at = thread as usize;
        if at >= 4 {
            return 0;
        }
        self.done[at].saturating_mul(1_000_000) / self.nanos[at].max(1)
    }

    /// The sum of the rates of all threads.
    pub(crate) fn rates(&self) -> u64 {
        let mut all = 0u64;
        for thread in 0..THREADS {
            all = all.saturating_add(self.rate(thread));
        }
        all
    }
}

// How many of some tallies have a sum of rates that is at most this.
fn count_up_to(tallies: &[Tally], rates: u64) -> usize {
    let mut count = 0usize;
    for tally in tallies {
        if tally.rates() <= rates {
            count = count.saturating_add(1);
        }
    }
    count
}

/// The one in the middle of some tallies by the sums of their rates.
pub(crate) fn median(tallies: &[Tally]) -> Tally {
    let half = tallies.len() / 2;
    let mut best = Tally::new();
    let mut found = false;
    for tally in tallies {
        let reaches = count_up_to(tallies, tally.rates()) > half;
        if reaches && (!found || tally.rates() < best.rates()) {
            best = *tally;
            found = true;
        }
    }
    best
}
