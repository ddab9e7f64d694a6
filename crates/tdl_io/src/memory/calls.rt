ghost use Rattle.std.specs.Prelude.{◌≡◌, ◌↔◌, IfOk, IsTrue, Contains};
ghost use Rattle.tdl_io.specs.Faults.{one_more};

use crate::outside::Failed;
use std::alloc::Global;
use tdl_control::NoMemory;

// How many calls a device had, which of them are to fail, and how many did. Both counts stay at the
// last value of a `u64`.
#[derive(Drop)]
pub(super) struct Calls {
    pub(super) made: u64,
    pub(super) fails: Vec<u32>,
    pub(super) faults: u64,
}

impl Calls {
    // Before the first call. Those with these numbers, counted from 1, are to fail.
    pub(super) fn of(alloc: Global, fails: &[u32]) -> Result<Calls, NoMemory>
        ensures made { IfOk result (λ calls. calls.made ≡ 0) }
        ensures fails { IfOk result (λ calls. calls.fails.items ≡ fails.now) }
        ensures faults { IfOk result (λ calls. calls.faults ≡ 0) }
    {
        Ok(Calls {
            made: 0,
            fails: Vec::from_slice(alloc, fails)?,
            faults: 0,
        })
    }

    // Counts one more call, and tells whether it is to fail.
    pub(super) fn count(&mut self) -> bool
        ensures listed { IsTrue result ↔ Contains self.old.fails.items (one_more self.old.made) }
        ensures counted { self.new ≡ record self.old { made = one_more self.old.made } }
    {
        let call = self.made.saturating_add(1);
        self.made = call;
        self.fails.iter().any(|&listed| u64::from(listed) == call)
    }

    // Counts one more fault.
    pub(super) fn fail(&mut self) -> Failed
        ensures { self.new ≡ record self.old { faults = one_more self.old.faults } }
    {
        self.faults = self.faults.saturating_add(1);
        Failed
    }
}
