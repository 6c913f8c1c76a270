// The count of a host's calls, and which of them are to fail.
ghost use Rattle.std.specs.Prelude.{◌≡◌, ◌<◌, ◌^◌, ◌+◌, ◌-◌, List, ℕ, []};
ghost use Rattle.host_mem.specs.Mem.{Begins, Ends, unused};

use host_traits::{Call, HostError, HostResult};
use std::alloc::Global;
use std::marker::Model;

/// How many calls were made, which are to fail, how many did, and which was the last of these.
#[derive(Drop)]
pub(crate) struct Tally {
    calls: u64,
    failing: Vec<u64>,
    faults: u64,
    last_failed: Option<Call>,
}

impl Model for Tally {
    ghost use Rattle.host_mem.specs.Mem.{Count};

    ghost Value = { Count };

    ghost view = { λ t. record { calls = t.calls; failing = t.failing.items; faults = t.faults; last_failed = t.last_failed } };
}

impl Tally {
    pub(crate) fn none(alloc: Global) -> Tally
        ensures { result ≡ unused }
    {
        Tally {
            calls: 0,
            failing: Vec::new(alloc),
            faults: 0,
            last_failed: None,
        }
    }

    pub(crate) fn fail_at(&mut self, calls: Vec<u64>)
        ensures { self.new ≡ record self.old { failing = calls.items } }
    {
        self.failing = calls;
    }

    pub(crate) fn faults(&self) -> u64
        ensures { result ≡ self.now.faults }
    {
        self.faults
    }

    // Counts a call, which fails where its number is listed. Is it?
    pub(crate) fn begin(&mut self, call: Call) -> bool
        ensures { Begins call result self.old self.new }
    {
        let listed = self.failing.contains(&self.calls);
        self.calls = self.calls.saturating_add(1);
        if listed {
            self.faults = self.faults.saturating_add(1);
            self.last_failed = Some(call);
        }
        listed
    }

    // Counts the failure of a call, where it failed.
    pub(crate) fn end(&mut self, call: Call, answer: HostResult<()>)
        ensures { Ends call answer self.old self.new }
    {
        match answer {
            Ok(()) => {}
            Err(HostError::Failed) => {
                self.faults = self.faults.saturating_add(1);
                self.last_failed = Some(call);
            }
            Err(HostError::Memory) => {}
        }
    }

    // The same for a call that gives a number.
    pub(crate) fn end_number(&mut self, call: Call, answer: HostResult<u64>)
        ensures { Ends call answer self.old self.new }
    {
        match answer {
            Ok(_) => {}
            Err(HostError::Failed) => {
                self.faults = self.faults.saturating_add(1);
                self.last_failed = Some(call);
            }
            Err(HostError::Memory) => {}
        }
    }
}
