//! Which calls of a source or a sink in memory fail, and what was counted.
ghost use Rattle.std.specs.Prelude.{◌≡◌, if◌then◌else◌, is_err};
ghost use Rattle.io_edge.specs.InMemory.{next_count, names_call};

use crate::traits::Failed;

/// The numbers of the calls that fail, counted from 1, with the calls and the faults so far.
#[derive(Drop)]
pub(crate) struct FaultPlan {
    pub(crate) fails: Vec<u64>,
    pub(crate) calls: u64,
    pub(crate) faults: u64,
}

impl FaultPlan {
    /// A plan before the first call.
    pub(crate) fn new(fails: Vec<u64>) -> FaultPlan
        ensures fails { result.fails ≡ fails }
        ensures calls { result.calls ≡ 0 }
        ensures faults { result.faults ≡ 0 }
    {
        FaultPlan {
            fails,
            calls: 0,
            faults: 0,
        }
    }

    /// Counts a call, and a fault where the plan names the call's number.
    pub(crate) fn begin(&mut self) -> Result<(), Failed>
        ensures failing { is_err result ≡ names_call self.old.fails.items self.new.calls }
        ensures calls { self.new.calls ≡ next_count self.old.calls }
        ensures faults { self.new.faults ≡ (if is_err result then next_count self.old.faults else self.old.faults) }
        ensures plan { self.new.fails ≡ self.old.fails }
    {
        self.calls = self.calls.saturating_add(1);
        if self.fails.contains(&self.calls) {
            return Err(self.fail());
        }
        Ok(())
    }

    /// Counts a fault.
    pub(crate) fn fail(&mut self) -> Failed
        ensures faults { self.new.faults ≡ next_count self.old.faults }
        ensures calls { self.new.calls ≡ self.old.calls }
        ensures plan { self.new.fails ≡ self.old.fails }
    {
        self.faults = self.faults.saturating_add(1);
        Failed
    }
}
