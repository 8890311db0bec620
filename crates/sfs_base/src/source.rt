ghost use Rattle.std.specs.Prelude.{◌≡◌, ◌<◌, ◌≤◌, ◌↔◌, List, [], ℕ, Option, length, take, IfOk, IfSome, OnErr};
ghost use Rattle.std.specs.Io.KnownBytes.{Consumes, Keeps};
ghost use Rattle.sfs_base.specs.Ends.{HasCause};

use crate::Failed;

/// Where bytes come from.
pub trait Source {
    /// The bytes that are left, where the source tells them. Of one that did not tell them before a
    /// call nothing is said.
    ghost left: { Self → Option (List ℕ) };

    /// How often the source has failed.
    ghost faults: { Self → ℕ };

    /// Moves the first bytes that are left to the front of the buffer, and says how many they are.
    /// What the buffer has behind them is any. `Failed` takes nothing.
    fn read(&mut self, into: &mut [u8]) -> Result<usize, Failed>
        requires { 0 < length into.old }
        ensures within { IfOk result (λ count. count ≤ length into.new) }
        ensures taken { IfOk result (λ count.
            Consumes (left self.old) (left self.new) (take count into.new)) }
        // It moves nothing exactly where nothing is left.
        ensures end { IfOk result (λ count. IfSome (left self.old) (λ bytes.
            (count ≡ 0) ↔ (bytes ≡ []))) }
        ensures err { OnErr result (Keeps (left self.old) (left self.new)) }
        ensures cause { HasCause (faults self.old) (faults self.new) result };

    /// How often the source has failed: a count that never falls, and stays at the last value of
    /// `u64`.
    fn faults(&self) -> u64
        ensures { result ≡ faults self.now };
}
