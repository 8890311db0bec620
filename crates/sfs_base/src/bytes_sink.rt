ghost use Rattle.std.specs.Prelude.{◌≡◌, ◌<◌, ◌≤◌, [], Some, length, take, max, IfOk, OnOk, OnErr};
ghost use Rattle.std.specs.Io.KnownBytes.{Appends, Keeps};
ghost use Rattle.sfs_base.specs.Ends.{HasCause};
ghost use Rattle.sfs_base.specs.Memory.{IsPlannedWrite};

use crate::plan::FaultPlan;
use crate::{Failed, NoMemory, Sink};
use std::alloc::Global;
use std::marker::Model;

/// A sink in memory whose listed calls fail. Another call fails only where the bytes do not fit in
/// what was reserved, and no memory is found for them, which counts as a fault. Contracts see the
/// bytes written, the number `spare` of bytes that are reserved, and the plan of the calls.
#[derive(Drop)]
pub struct BytesSink {
    written: Vec<u8>,
    spare: usize,
    plan: FaultPlan,
}

impl Model for BytesSink {
    ghost use Rattle.std.specs.Prelude.{◌+◌, ◌≤◌, vec_len, vec_capacity};
    ghost use Rattle.sfs_base.specs.Memory.{Writing};

    ghost Value = { Writing };

    ghost view = { λ sink. record {
      written = sink.written.items;
      spare = sink.spare;
      plan = sink.plan;
    } };

    ghost invariant = { λ sink. vec_len sink.written + sink.spare ≤ vec_capacity sink.written };
}

impl BytesSink {
    /// An empty sink whose calls with these numbers, from 0 on, fail. It takes no memory.
    pub fn new(alloc: Global, fails: Vec<u64>) -> Self
        ensures written { result.written ≡ [] }
        ensures spare { result.spare ≡ 0 }
        ensures plan { result.plan ≡ record { fails = fails.items; calls = 0; faults = 0 } }
    {
        BytesSink {
            written: Vec::new(alloc),
            spare: 0,
            plan: FaultPlan::new(fails),
        }
    }

    /// Makes room for `bytes` more bytes at least, and never lowers it.
    pub fn reserve(&mut self, bytes: u64) -> Result<(), NoMemory>
        ensures ok { OnOk result (self.new ≡ record self.old { spare = max self.old.spare bytes }) }
        ensures err { OnErr result (self.new ≡ self.old) }
    {
        let bytes = bytes as usize;
        self.written.reserve(bytes)?;
        self.spare = self.spare.max(bytes);
        Ok(())
    }

    /// The bytes written so far.
    pub fn bytes(&self) -> &[u8]
        ensures { result.now ≡ self.now.written }
    {
        &self.written
    }
}

impl Sink for BytesSink {
    ghost written = { λ sink. Some sink.written };

    ghost faults = { λ sink. sink.plan.faults };

    fn write(&mut self, from: &[u8]) -> Result<usize, Failed>
        requires { 0 < length from.now }
        ensures some { IfOk result (λ count. 0 < count) }
        ensures within { IfOk result (λ count. count ≤ length from.now) }
        ensures written { IfOk result (λ count.
            Appends (Some self.old.written) (Some self.new.written) (take count from.now)) }
        ensures err { OnErr result (Keeps (Some self.old.written) (Some self.new.written)) }
        ensures cause { HasCause self.old.plan.faults self.new.plan.faults result }
        ensures planned { IsPlannedWrite self.old self.new (length from.now) result }
    {
        self.plan.next()?;
        if self.written.extend_from_slice(from).is_err() {
            self.plan.fault();
            return Err(Failed);
        }
        self.spare = self.spare.saturating_sub(from.len());
        Ok(from.len())
    }

    fn faults(&self) -> u64 {
        self.plan.faults()
    }
}
