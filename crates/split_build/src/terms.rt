//! The occurrences of keys in the documents taken so far.

ghost use Rattle.std.specs.Prelude.{◌≡◌, ◌<◌, ◌+◌, ◌^◌, ◌∷◌, ◌++◌, [], ℕ, List, Some, IfOk, OnOk, slice_get, true};
ghost use Rattle.std.specs.List.{AllByRecursion};
ghost use Rattle.doc_value.specs.declared.schema.Schema.{Schema};
ghost use Rattle.split_bundle.specs.Lists.{keeps_places};
ghost use Rattle.split_build.specs.HeldKeys.{key_bytes};
ghost use Rattle.split_build.specs.Runs.{documents_of, place_behind, places_of};

use indexmap::IndexSet;
use std::alloc::{AllocError, Global};

/// So many occurrences that stand one behind the other in a document: where places are kept, the first has this place, and
/// each other one the place behind that of the one before it.
#[derive(Clone, Copy)]
pub struct Run {
    pub document: u32,
    pub count: u32,
    pub place: u64,
}

impl Run {
    // Whether an occurrence is the next one of these.
    fn goes_on(&self, kept: bool, document: u32, place: u64) -> bool
        ensures document { result ≡ true → document ≡ self.now.document }
        ensures count { result ≡ true → self.now.count + 1 < 2 ^ 32 }
        ensures place { result ≡ true → kept ≡ true → place ≡ place_behind self.now.place self.now.count }
    {
        if document != self.document || self.count == u32::MAX {
            return false;
        }
        !kept || place == self.place.wrapping_add(u64::from(self.count))
    }
}

/// Occurrences in the order of documents: of each the number of its key, and run by run the documents and, where they are
/// kept, the places. The last run is still added to.
#[derive(Drop)]
pub struct Occurrences {
    pub numbers: Vec<u32>,
    pub runs: Vec<Run>,
    pub last: Run,
}

impl Occurrences {
    ghost use Rattle.split_build.specs.Runs.{runs_in};

    fn vacant(alloc: Global) -> Occurrences
        ensures numbers { result.numbers.items ≡ [] }
        ensures documents { documents_of (runs_in result) ≡ [] }
        ensures places { places_of (runs_in result) ≡ [] }
    {
        Occurrences {
            numbers: Vec::new(alloc),
            runs: Vec::new(alloc),
            last: Run {
                document: 0,
                count: 0,
                place: 0,
            },
        }
    }

    fn push(&mut self, kept: bool, number: u32, document: u32, place: u64) -> Result<(), AllocError>
        ensures numbers { OnOk result (self.new.numbers.items ≡ self.old.numbers.items ++ number ∷ []) }
        ensures documents { OnOk result (documents_of (runs_in self.new) ≡ documents_of (runs_in self.old) ++ document ∷ []) }
        ensures places { kept ≡ true → OnOk result (places_of (runs_in self.new) ≡ places_of (runs_in self.old) ++ place ∷ []) }
    {
        self.numbers.push(number)?;
        if self.last.goes_on(kept, document, place) {
            self.last.count += 1;
            return Ok(());
        }
        self.runs.push(self.last)?;
        self.last = Run {
            document,
            count: 1,
            place,
        };
        Ok(())
    }
}

// So many numbers are kept as hints.
const HINTS: usize = 65_536;

/// The numbers of keys that were found last, each beside the mix of its key's bytes and where that says. A number is tried
/// before it is taken, so any may stand there.
#[derive(Drop)]
pub struct Hints {
    mixes_and_numbers: Vec<(u32, u32)>,
}

impl Hints {
    fn vacant(alloc: Global) -> Result<Hints, AllocError> {
        let mixes_and_numbers = vec![in alloc; (0u32, 0u32); HINTS]?;
        Ok(Hints { mixes_and_numbers })
    }

    // A key with another mix is another key, so its bytes need not be looked at.
    fn get(&self, mix: u32) -> Option<u32> {
        match self.mixes_and_numbers.get(hint_place(mix)) {
            Some((held, number)) if *held == mix => Some(*number),
            _ => None,
        }
    }

    fn set(&mut self, mix: u32, number: u32) {
        if let Some(hint) = self.mixes_and_numbers.get_mut(hint_place(mix)) {
            *hint = (mix, number);
        }
    }
}

// A mix of a key's bytes.
fn mix_of(key: &[u8]) -> u32 {
    let mut mix: u32 = 0x811c_9dc5;
    for byte in key {
        mix = (mix ^ u32::from(*byte)).wrapping_mul(0x0100_0193);
    }
    mix
}

// Where the hint for keys with a mix stands.
fn hint_place(mix: u32) -> usize {
    (mix ^ (mix >> 16)) as usize % HINTS
}

/// Each key that occurs, in the order of first sight, and where: the occurrences whose places are kept, and the others.
#[derive(Drop)]
pub struct TermLog {
    pub keys: IndexSet<Vec<u8>>,
    pub hints: Hints,
    pub placed: Occurrences,
    pub plain: Occurrences,
}

// A number in 32 bits. There is no room for more keys.
pub(crate) fn narrow(number: usize) -> Result<u32, AllocError>
    ensures { IfOk result (λ n. n ≡ number) }
{
    match u32::try_from(number) {
        Ok(narrow) => Ok(narrow),
        Err(_) => Err(AllocError),
    }
}

// Whether a key has this number among these.
fn has_number(keys: &IndexSet<Vec<u8>>, number: u32, key: &[u8]) -> bool
    ensures { result ≡ true → slice_get (key_bytes keys.now.keys) number ≡ Some key.now }
{
    match keys.get_index(number as usize) {
        Some(known) => known.as_slice() == key,
        None => false,
    }
}

// The number of a key among these, behind which it is put where it is none of them.
fn sought(alloc: Global, keys: &mut IndexSet<Vec<u8>>, key: &[u8]) -> Result<u32, AllocError>
    ensures grown { OnOk result ((more : List (List ℕ)) × (key_bytes keys.new.keys ≡ key_bytes keys.old.keys ++ more) × AllByRecursion (λ k. k ≡ key.now) more) }
    ensures number { IfOk result (λ n. slice_get (key_bytes keys.new.keys) n ≡ Some key.now) }
{
    if let Some(number) = keys.get_index_of(key) {
        return narrow(number);
    }
    let (number, _added) = keys.insert_full(Vec::from_slice(alloc, key)?)?;
    narrow(number)
}

// The same, where the number that the hint names is tried first.
fn number_of(
    alloc: Global,
    keys: &mut IndexSet<Vec<u8>>,
    hints: &mut Hints,
    key: &[u8],
) -> Result<u32, AllocError>
    ensures grown { OnOk result ((more : List (List ℕ)) × (key_bytes keys.new.keys ≡ key_bytes keys.old.keys ++ more) × AllByRecursion (λ k. k ≡ key.now) more) }
    ensures number { IfOk result (λ n. slice_get (key_bytes keys.new.keys) n ≡ Some key.now) }
{
    let mix = mix_of(key);
    if let Some(hint) = hints.get(mix) {
        if has_number(keys, hint, key) {
            return Ok(hint);
        }
    }
    let number = sought(alloc, keys, key)?;
    hints.set(mix, number);
    Ok(number)
}

impl TermLog {
    ghost use Rattle.split_build.specs.HeldTerms.{HasSaid};
    ghost use Rattle.split_build.specs.Walks.{Adds};

    pub fn vacant(alloc: Global) -> Result<TermLog, AllocError>
        ensures { IfOk result (λ log. (s : Schema) → HasSaid log s []) }
    {
        Ok(TermLog {
            keys: IndexSet::new(alloc),
            hints: Hints::vacant(alloc)?,
            placed: Occurrences::vacant(alloc),
            plain: Occurrences::vacant(alloc),
        })
    }

    /// Adds an occurrence of a key, with its place where `kept` says so. After an `Err` nothing is said of what is held.
    pub fn add(
        &mut self,
        alloc: Global,
        key: &[u8],
        kept: bool,
        document: u32,
        place: u64,
    ) -> Result<(), AllocError>
        ensures { (s : Schema) → kept ≡ keeps_places s key.now
            → OnOk result (Adds self.old self.new s (record { key = key.now; document = document; place = place } ∷ [])) }
    {
        let number = number_of(alloc, &mut self.keys, &mut self.hints, key)?;
        if kept {
            self.placed.push(true, number, document, place)
        } else {
            self.plain.push(false, number, document, place)
        }
    }
}
