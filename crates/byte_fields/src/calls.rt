ghost use Rattle.std.specs.Prelude.{◌≡◌, ◌≤◌, ◌+◌, ◌-◌, ◌^◌, ◌∷◌, ◌++◌, [], min, Contains, IsErr, IsOk, OnOk, OnErr, ◌↔◌};
ghost use Rattle.byte_fields.specs.Causes.{Rose, HasCause, following};

use std::alloc::{AllocError, Global};

/// A call of the outside failed: its count of faults rose, or stands at its end.
#[derive(Clone, Copy, PartialEq, Eq)]
pub struct Failed;

/// The calls of an object in memory: how many it had, which of them fail, and how many did.
#[derive(Drop)]
pub struct Calls {
    made: u64,
    failing: Vec<u64>,
    faults: u64,
}

impl Calls {
    /// No call was made, and none is to fail.
    pub fn vacant(alloc: Global) -> Calls
        ensures made { result.made ≡ 0 }
        ensures failing { result.failing.items ≡ [] }
        ensures faults { result.faults ≡ 0 }
    {
        Calls {
            made: 0,
            failing: Vec::new(alloc),
            faults: 0,
        }
    }

    /// Makes the call with this number, counted from 1, fail. An `Err` changes nothing.
    pub fn fail_call(&mut self, number: u64) -> Result<(), AllocError>
        ensures ok { OnOk result (self.new.failing.items ≡ self.old.failing.items ++ number ∷ []) }
        ensures err { OnErr result (self.new.failing.items ≡ self.old.failing.items) }
        ensures made { self.new.made ≡ self.old.made }
        ensures faults { self.new.faults ≡ self.old.faults }
    {
        self.failing.push(number)?;
        Ok(())
    }

    /// Counts a call, and says whether it goes through: it fails exactly where its number is among those that are to fail.
    pub fn begin(&mut self) -> Result<(), Failed>
        ensures fails { IsErr result ↔ Contains self.old.failing.items (following self.old.made) }
        ensures made { self.new.made ≡ following self.old.made }
        ensures failing { self.new.failing.items ≡ self.old.failing.items }
        ensures ok { OnOk result (self.new.faults ≡ self.old.faults) }
        ensures err { OnErr result (self.new.faults ≡ following self.old.faults) }
        ensures cause { HasCause self.old.faults self.new.faults (IsErr result) }
    {
        self.made = self.made.saturating_add(1);
        if self.failing.contains(&self.made) {
            return Err(self.fail());
        }
        Ok(())
    }

    /// Counts a fault.
    pub fn fail(&mut self) -> Failed
        ensures counted { self.new ≡ record self.old { faults = following self.old.faults } }
        ensures later { self.old.faults ≤ self.new.faults }
        ensures rose { Rose self.old.faults self.new.faults }
    {
        self.faults = self.faults.saturating_add(1);
        Failed
    }

    /// How many calls failed, up to 2 ^ 64 - 1.
    pub fn faults(&self) -> u64
        ensures { result ≡ self.now.faults }
    {
        self.faults
    }
}
