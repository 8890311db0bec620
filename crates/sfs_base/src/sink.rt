ghost use Rattle.std.specs.Prelude.{◌≡◌, ◌<◌, ◌≤◌, List, ℕ, Option, length, take, IfOk, OnErr};
ghost use Rattle.std.specs.Io.KnownBytes.{Appends, Keeps};
ghost use Rattle.sfs_base.specs.Ends.{HasCause};

use crate::Failed;

/// Where bytes go.
pub trait Sink {
    /// The bytes written so far, where the sink tells them. Of one that did not tell them before a
    /// call nothing is said.
    ghost written: { Self → Option (List ℕ) };

    /// How often the sink has failed.
    ghost faults: { Self → ℕ };

    /// Appends the first bytes of a piece, at least one, and says how many. `Failed` appends
    /// nothing. A sink that takes nothing has failed.
    fn write(&mut self, from: &[u8]) -> Result<usize, Failed>
        requires { 0 < length from.now }
        ensures some { IfOk result (λ count. 0 < count) }
        ensures within { IfOk result (λ count. count ≤ length from.now) }
        ensures written { IfOk result (λ count.
            Appends (written self.old) (written self.new) (take count from.now)) }
        ensures err { OnErr result (Keeps (written self.old) (written self.new)) }
        ensures cause { HasCause (faults self.old) (faults self.new) result };

    /// How often the sink has failed: a count that never falls, and stays at the last value of
    /// `u64`.
    fn faults(&self) -> u64
        ensures { result ≡ faults self.now };
}
