ghost use Rattle.std.specs.Prelude.{◌≡◌, ◌<◌, ◌≤◌, ◌↔◌, List, [], ℕ, Some, length, take, min, IsOk, IfOk, IfSome, OnErr};
ghost use Rattle.std.specs.Io.KnownBytes.{Consumes, Keeps};
ghost use Rattle.sfs_base.specs.Ends.{HasCause};
ghost use Rattle.sfs_base.specs.Memory.{IsPlannedRead};

use crate::plan::FaultPlan;
use crate::{Failed, Source};
use std::marker::Model;

/// A source over bytes in memory that never fails. Contracts see the list of the bytes left.
#[derive(Drop)]
pub struct SureSource {
    bytes: Vec<u8>,
    at: usize,
}

impl Model for SureSource {
    ghost use Rattle.std.specs.Prelude.{ℕ, List, ◌≤◌, drop, length};

    ghost Value = { List ℕ };

    ghost view = { λ source. drop source.at source.bytes.items };

    ghost invariant = { λ source. source.at ≤ length source.bytes.items };
}

impl SureSource {
    /// A source that gives these bytes. It takes no memory.
    pub fn new(bytes: Vec<u8>) -> Self
        ensures { result ≡ bytes.items }
    {
        SureSource { bytes, at: 0 }
    }
}

impl Source for SureSource {
    ghost left = { λ source. Some source };

    ghost faults = { λ _. 0 };

    fn read(&mut self, into: &mut [u8]) -> Result<usize, Failed>
        requires { 0 < length into.old }
        ensures within { IfOk result (λ count. count ≤ length into.new) }
        ensures taken { IfOk result (λ count.
            Consumes (Some self.old) (Some self.new) (take count into.new)) }
        ensures end { IfOk result (λ count. IfSome (Some self.old) (λ bytes.
            (count ≡ 0) ↔ (bytes ≡ []))) }
        ensures err { OnErr result (Keeps (Some self.old) (Some self.new)) }
        ensures cause { HasCause 0 0 result }
        ensures sure { IsOk result }
        ensures moved { IfOk result (λ count. count ≡ min (length into.old) (length self.old)) }
    {
        let count = into.len().min(self.bytes.len() - self.at);
        into[..count].copy_from_slice(&self.bytes[self.at..self.at + count]);
        self.at += count;
        Ok(count)
    }

    fn faults(&self) -> u64 {
        0
    }
}

/// A source over bytes in memory whose listed calls fail, and no others. Contracts see the bytes
/// left and the plan of the calls.
#[derive(Drop)]
pub struct BytesSource {
    inner: SureSource,
    plan: FaultPlan,
}

impl Model for BytesSource {
    ghost use Rattle.sfs_base.specs.Memory.{Reading};

    ghost Value = { Reading };

    ghost view = { λ source. record { left = source.inner; plan = source.plan } };
}

impl BytesSource {
    /// A source that gives these bytes, and whose calls with these numbers, from 0 on, fail. It
    /// takes no memory.
    pub fn new(bytes: Vec<u8>, fails: Vec<u64>) -> Self
        ensures left { result.left ≡ bytes.items }
        ensures plan { result.plan ≡ record { fails = fails.items; calls = 0; faults = 0 } }
    {
        BytesSource {
            inner: SureSource::new(bytes),
            plan: FaultPlan::new(fails),
        }
    }
}

impl Source for BytesSource {
    ghost left = { λ source. Some source.left };

    ghost faults = { λ source. source.plan.faults };

    fn read(&mut self, into: &mut [u8]) -> Result<usize, Failed>
        requires { 0 < length into.old }
        ensures within { IfOk result (λ count. count ≤ length into.new) }
        ensures taken { IfOk result (λ count.
            Consumes (Some self.old.left) (Some self.new.left) (take count into.new)) }
        ensures end { IfOk result (λ count. IfSome (Some self.old.left) (λ bytes.
            (count ≡ 0) ↔ (bytes ≡ []))) }
        ensures err { OnErr result (Keeps (Some self.old.left) (Some self.new.left)) }
        ensures cause { HasCause self.old.plan.faults self.new.plan.faults result }
        ensures planned { IsPlannedRead self.old self.new (length into.old) result }
    {
        self.plan.next()?;
        self.inner.read(into)
    }

    fn faults(&self) -> u64 {
        self.plan.faults()
    }
}
