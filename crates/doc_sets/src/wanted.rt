// Which keys of a dictionary a walk takes.

ghost use Rattle.std.specs.Prelude.{◌≡◌};
ghost use Rattle.doc_sets.specs.Walks.{place_of, from_of, until_of, range_of};

use doc_value::{Kind, Value, turned};
use query_ast::Edge;

/// The numbers from one on up to and without another one.
#[derive(Clone, Copy)]
pub struct NumberRange {
    pub from: u128,
    pub until: u128,
}

/// Which of the keys of a walk are wanted: each, or those of numbers in a range.
#[derive(Clone, Copy)]
pub enum Wanted {
    Each,
    Within(NumberRange),
}

// The number for which a value of an ordered kind stands.
fn place_of(kind: Kind, value: &Value) -> Option<u64>
    ensures { result ≡ place_of kind value.now }
{
    match (kind, value) {
        (Kind::I64, Value::I64(number)) => Some(turned(*number)),
        (Kind::U64, Value::U64(number)) => Some(*number),
        (Kind::Datetime, Value::Datetime(seconds)) => Some(turned(*seconds)),
        _ => None,
    }
}

fn from_of(kind: Kind, edge: &Edge) -> u128
    ensures { result ≡ from_of kind edge.now }
{
    match edge {
        Edge::Unbounded => 0,
        Edge::Included(value) => match place_of(kind, value) {
            Some(number) => u128::from(number),
            None => 1 << 64,
        },
        Edge::Excluded(value) => match place_of(kind, value) {
            Some(number) => u128::from(number) + 1,
            None => 1 << 64,
        },
    }
}

fn until_of(kind: Kind, edge: &Edge) -> u128
    ensures { result ≡ until_of kind edge.now }
{
    match edge {
        Edge::Unbounded => 1 << 64,
        Edge::Included(value) => match place_of(kind, value) {
            Some(number) => u128::from(number) + 1,
            None => 0,
        },
        Edge::Excluded(value) => match place_of(kind, value) {
            Some(number) => u128::from(number),
            None => 0,
        },
    }
}

/// The numbers between two edges.
pub(crate) fn between(kind: Kind, low: &Edge, high: &Edge) -> NumberRange
    ensures { result ≡ range_of kind low.now high.now }
{
    NumberRange {
        from: from_of(kind, low),
        until: until_of(kind, high),
    }
}

impl NumberRange {
    ghost use Rattle.doc_sets.specs.Ranged.{lies_in};
    ghost use Rattle.doc_sets.specs.Walks.{is_within};

    // Whether a number is in the range.
    #[inline]
    pub(crate) fn contains(self, number: u64) -> bool
        ensures { result ≡ lies_in self number }
    {
        let number = u128::from(number);
        self.from <= number && number < self.until
    }

    // Whether a number of the range stands in eight bytes.
    fn has(self, term: &[u8]) -> bool
        ensures { result ≡ is_within self term.now }
    {
        if term.len() != 8 {
            return false;
        }
        let number = u128::from(u64::from_be_bytes([
            term[0], term[1], term[2], term[3], term[4], term[5], term[6], term[7],
        ]));
        self.from <= number && number < self.until
    }
}

impl Wanted {
    ghost use Rattle.doc_sets.specs.Walks.{takes};

    /// Whether a key is wanted, by what stands behind its field's number.
    pub fn takes(self, key: &[u8]) -> bool
        ensures { result ≡ takes self key.now }
    {
        match self {
            Wanted::Each => true,
            Wanted::Within(range) => key.len() >= 2 && range.has(&key[2..]),
        }
    }
}
