//! Where the field of a path is looked for first.

ghost use Rattle.std.specs.Prelude.{◌<◌, IsTrue};
ghost use Rattle.doc_mapping.specs.Walk.{AreFlat, AreRegular};

use crate::faults::{are_flat, are_regular};
use doc_value::Fields;
use std::hash::{FoldHasher, Hasher};

/// How many places a finder has: eight times the fields of a schema, so that few share one.
const PLACES: usize = 2048;

/// Whether fields are regular, whether none of their paths has a dot, and for the hash of a path the number of a field whose path has that hash.
#[derive(Drop)]
pub struct Finder {
    pub regular: bool,
    pub flat: bool,
    likely: [u8; PLACES],
}

impl Finder {
    /// For one record: no number is known, and no path is looked at for dots.
    pub fn for_one(fields: &Fields) -> Finder
        ensures regular { IsTrue result.regular → AreRegular fields.now }
        ensures flat { IsTrue result.flat → AreFlat fields.now }
    {
        Finder {
            regular: are_regular(fields),
            flat: false,
            likely: [0; PLACES],
        }
    }

    /// For many records.
    pub fn for_many(fields: &Fields) -> Finder
        ensures regular { IsTrue result.regular → AreRegular fields.now }
        ensures flat { IsTrue result.flat → AreFlat fields.now }
    {
        Finder {
            regular: are_regular(fields),
            flat: are_flat(fields),
            likely: numbers_by_place(fields),
        }
    }

    /// The number that stands at a path's first place, or 0.
    pub fn likely(&self, path: &[u8]) -> usize {
        self.likely[place_of(path)] as usize
    }

    /// The number that stands at a path's second place, or 0.
    pub fn less_likely(&self, path: &[u8]) -> usize {
        self.likely[place_of(path) ^ 1] as usize
    }
}

/// The numbers of the first 256 fields, each at the first place of its path or, where that one is taken, at the second.
fn numbers_by_place(fields: &Fields) -> [u8; PLACES] {
    let mut numbers = [0; PLACES];
    for (number, field) in fields.as_slice().iter().enumerate() {
        if let Ok(number) = u8::try_from(number) {
            let place = place_of(field.path.as_slice());
            if numbers[place] == 0 {
                numbers[place] = number;
            } else {
                numbers[place ^ 1] = number;
            }
        }
    }
    numbers
}

fn place_of(path: &[u8]) -> usize
    ensures { result < 2048 }
{
    let mut hasher = FoldHasher::default();
    hasher.write(path);
    (hasher.finish() & 2047) as usize
}
