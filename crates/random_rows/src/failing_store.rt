//! A store in memory of which some calls fail, as the dice fall.

ghost use Rattle.std.specs.Prelude.{◌≡◌};

use crate::dice::Dice;
use byte_fields::Failed;
use object_store::{
    CreateError, GetError, Key, Keys, Landing, ListError, MemoryStore, ObjectStore, Piece,
    given_behind,
};
use std::alloc::{AllocError, Global};

/// Objects in memory. One of so many calls fails; what it was to do is done at once, some calls later, or never. Of what it holds
/// it tells nothing.
#[derive(Drop)]
pub struct FailingStore {
    store: MemoryStore,
    dice: Dice,
    calls: u64,
    // One of so many calls fails; none where it is 0.
    odds: u64,
    given: u64,
}

// When a call that fails does its work.
fn landing(dice: &mut Dice) -> Landing {
    match dice.below(4) {
        0 => Landing::AtOnce,
        1 => Landing::Never,
        _ => Landing::AfterCalls(u32::try_from(dice.below(12)).unwrap_or(0)),
    }
}

impl FailingStore {
    pub fn vacant(alloc: Global, seed: u64) -> FailingStore {
        FailingStore {
            store: MemoryStore::vacant(alloc),
            dice: Dice::of_seed(seed),
            calls: 0,
            odds: 0,
            given: 0,
        }
    }

    /// From here on one of so many calls fails, and none where that is 0.
    pub fn set_odds(&mut self, odds: u64) {
        self.odds = odds;
    }

    // A call begins.
    fn begin(&mut self)
        ensures faults { self.new.store.plan.faults ≡ self.old.store.plan.faults }
        ensures given { self.new.given ≡ self.old.given }
    {
        self.calls = self.calls.saturating_add(1);
        if self.odds > 0 && self.dice.one_of(self.odds) {
            let landing = landing(&mut self.dice);
            // A call that can't be planned to fail does its work.
            let _planned = self.store.fail_call(self.calls, landing).is_ok();
        }
    }
}

impl ObjectStore for FailingStore {
    ghost use Rattle.std.specs.Prelude.{None};

    ghost told = { λ _. None };

    ghost fault_count = { λ s. s.store.plan.faults };

    ghost given = { λ s. s.given };

    fn create(&mut self, alloc: Global, key: &Key, content: &[u8]) -> Result<(), CreateError> {
        self.begin();
        self.store.create(alloc, key, content)
    }

    fn get(&mut self, alloc: Global, key: &Key, from: u64, len: u64) -> Result<Piece, GetError> {
        self.begin();
        let answer = self.store.get(alloc, key, from, len);
        self.given = given_behind(self.given, &answer);
        answer
    }

    fn delete(&mut self, key: &Key) -> Result<(), Failed> {
        self.begin();
        self.store.delete(key)
    }

    fn list(
        &mut self,
        alloc: Global,
        prefix: &Key,
        after: Option<&Key>,
        max: u32,
    ) -> Result<Keys, ListError> {
        self.begin();
        self.store.list(alloc, prefix, after, max)
    }

    fn faults(&self) -> u64 {
        self.store.faults()
    }
}
