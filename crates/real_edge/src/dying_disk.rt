//! A disk whose power goes.

ghost use Rattle.std.specs.Prelude.{◌≡◌, ◌≤◌, IfOk, IfSome, length};

use crate::disk::{Disk, DiskError, MakeError, Stamp, Standing};
use crate::faults::Trouble;
use byte_fields::{Bytes, List};
use object_store::Piece;
use std::alloc::Global;

/// A disk that does so many calls more, and then fails each, as one whose power went at that call. What a crash leaves of it is what
/// it leaves of the disk.
#[derive(Drop)]
pub struct DyingDisk<D: Disk> {
    disk: D,
    power: Power,
}

/// How many calls are done until the power goes.
#[derive(Drop)]
struct Power {
    calls: u64,
}

impl Power {
    // Whether a call is done still.
    fn is_on(&mut self) -> bool {
        match self.calls.checked_sub(1) {
            Some(calls) => {
                self.calls = calls;
                true
            }
            None => false,
        }
    }
}

fn no_power() -> Trouble {
    Trouble::of("asking", "the power went")
}

impl<D: Disk> DyingDisk<D> {
    /// The disk, which does so many calls.
    pub fn of(disk: D, calls: u64) -> DyingDisk<D>
        ensures { result.disk ≡ disk }
    {
        DyingDisk {
            disk,
            power: Power { calls },
        }
    }
}

impl<D: Disk> Disk for DyingDisk<D> {
    ghost told = { λ d. D.told d.disk };

    ghost may_leave = { λ d. D.may_leave d.disk };

    ghost crashed = { λ d. D.crashed d.disk };

    ghost has_way = { λ d. D.has_way d.disk };

    ghost seen_may_stay = { λ d. D.seen_may_stay d.disk };

    ghost leaves_some = { λ d. D.leaves_some d.disk };

    #[tactic(auto, using(crate::proofs::Wheres::leaves_all))]
    fn claim(&mut self) -> Result<(), Trouble> {
        if !self.power.is_on() {
            return Err(no_power());
        }
        self.disk.claim()
    }

    #[tactic(auto, using(crate::proofs::Wheres::leaves_all))]
    fn make_way(&mut self, alloc: Global, name: &[u8]) -> Result<(), DiskError> {
        if !self.power.is_on() {
            return Err(DiskError::Failed(no_power()));
        }
        self.disk.make_way(alloc, name)
    }

    fn create_new(&mut self, alloc: Global, name: &[u8], content: &[u8]) -> Result<(), MakeError> {
        if !self.power.is_on() {
            return Err(MakeError::Failed(no_power()));
        }
        self.disk.create_new(alloc, name, content)
    }

    #[tactic(auto, using(crate::proofs::Dying::not_linked))]
    fn link(&mut self, alloc: Global, from: &[u8], to: &[u8]) -> Result<(), MakeError> {
        if !self.power.is_on() {
            return Err(MakeError::Failed(no_power()));
        }
        self.disk.link(alloc, from, to)
    }

    fn remove(&mut self, name: &[u8]) -> Result<(), Trouble> {
        if !self.power.is_on() {
            return Err(no_power());
        }
        self.disk.remove(name)
    }

    #[tactic(auto, using(crate::proofs::Wheres::leaves_all))]
    fn sync(&mut self, name: &[u8]) -> Result<(), Trouble> {
        if !self.power.is_on() {
            return Err(no_power());
        }
        self.disk.sync(name)
    }

    #[tactic(auto, using(crate::proofs::Wheres::leaves_all))]
    fn read(
        &mut self,
        alloc: Global,
        name: &[u8],
        from: u64,
        len: u64,
    ) -> Result<Option<Piece>, DiskError> {
        if !self.power.is_on() {
            return Err(DiskError::Failed(no_power()));
        }
        self.disk.read(alloc, name, from, len)
    }

    #[tactic(auto, using(crate::proofs::Wheres::leaves_all))]
    fn look(&mut self, name: &[u8]) -> Result<Standing, Trouble> {
        if !self.power.is_on() {
            return Err(no_power());
        }
        self.disk.look(name)
    }

    #[tactic(auto, using(crate::proofs::Wheres::leaves_all))]
    fn look_along(&mut self, name: &[u8]) -> Result<Standing, Trouble> {
        if !self.power.is_on() {
            return Err(no_power());
        }
        self.disk.look_along(name)
    }

    #[tactic(auto, using(crate::proofs::Wheres::leaves_all))]
    fn names(&mut self, alloc: Global, folder: &[u8]) -> Result<List<Bytes>, DiskError> {
        if !self.power.is_on() {
            return Err(DiskError::Failed(no_power()));
        }
        self.disk.names(alloc, folder)
    }

    #[tactic(auto, using(crate::proofs::Wheres::leaves_all))]
    fn may_have_folders(&mut self, folder: &[u8]) -> bool {
        if !self.power.is_on() {
            return true;
        }
        self.disk.may_have_folders(folder)
    }

    #[tactic(auto, using(crate::proofs::Wheres::leaves_all))]
    fn stamp(&mut self, folder: &[u8]) -> Option<Stamp> {
        if !self.power.is_on() {
            return None;
        }
        self.disk.stamp(folder)
    }

    fn second(&self) -> Option<u64> {
        self.disk.second()
    }

    fn path(&self) -> &str {
        self.disk.path()
    }
}
