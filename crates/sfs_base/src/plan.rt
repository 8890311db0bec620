ghost use Rattle.std.specs.Prelude.{◌≡◌, ◌≤◌, ◌↔◌, Contains, IsErr, OnErr, is_ok};
ghost use Rattle.sfs_base.specs.Ends.{HasRisen};
ghost use Rattle.sfs_base.specs.Memory.{after_call, raised};

use crate::Failed;
use std::marker::Model;

/// Which calls fail, by their numbers from 0 on, and a count of the calls and of the faults.
#[derive(Drop)]
pub(crate) struct FaultPlan {
    fails: Vec<u64>,
    calls: u64,
    faults: u64,
}

impl Model for FaultPlan {
    ghost use Rattle.sfs_base.specs.Memory.{Plan};

    ghost Value = { Plan };

    ghost view = { λ plan. record {
      fails = plan.fails.items;
      calls = plan.calls;
      faults = plan.faults;
    } };
}

impl FaultPlan {
    /// The plan by which these calls fail, before the first call.
    pub(crate) fn new(fails: Vec<u64>) -> Self
        ensures { result ≡ record { fails = fails.items; calls = 0; faults = 0 } }
    {
        FaultPlan {
            fails,
            calls: 0,
            faults: 0,
        }
    }

    /// How many calls have failed.
    pub(crate) fn faults(&self) -> u64
        ensures { result ≡ self.now.faults }
    {
        self.faults
    }

    /// Counts one more call. It fails exactly where its number is listed.
    pub(crate) fn next(&mut self) -> Result<(), Failed>
        ensures listed { IsErr result ↔ Contains self.old.fails self.old.calls }
        ensures counted { self.new ≡ after_call self.old (is_ok result) }
        ensures never_falls { self.old.faults ≤ self.new.faults }
        ensures cause { OnErr result (HasRisen self.old.faults self.new.faults) }
    {
        let listed = self.fails.contains(&self.calls);
        self.calls = self.calls.saturating_add(1);
        if listed {
            self.faults = self.faults.saturating_add(1);
            return Err(Failed);
        }
        Ok(())
    }

    /// Counts a fault of the call that was counted last.
    pub(crate) fn fault(&mut self)
        ensures counted { self.new ≡ record self.old { faults = raised self.old.faults } }
        ensures never_falls { self.old.faults ≤ self.new.faults }
        ensures cause { HasRisen self.old.faults self.new.faults }
    {
        self.faults = self.faults.saturating_add(1);
    }
}
