//! What is asked of the records: a query, and a range of times.

use crate::dice::Dice;
use crate::wrong::Wrong;
use doc_value::TimeRange;
use std::alloc::Global;
use std::str;

/// The seconds of all documents are below this one.
pub const LAST_SECOND: u64 = 10;

/// A word of records; a query asks for one or two of them.
#[derive(Clone, Copy, PartialEq, Eq)]
pub enum Word {
    Red,
    Fox,
    Hen,
    Old,
    Sly,
}

impl Word {
    fn drawn(dice: &mut Dice) -> Word {
        match dice.below(5) {
            0 => Word::Red,
            1 => Word::Fox,
            2 => Word::Hen,
            3 => Word::Old,
            _ => Word::Sly,
        }
    }

    pub fn text(self) -> &'static str {
        match self {
            Word::Red => "red",
            Word::Fox => "fox",
            Word::Hen => "hen",
            Word::Old => "old",
            Word::Sly => "sly",
        }
    }

    fn read(text: &str) -> Option<Word> {
        match text {
            "red" => Some(Word::Red),
            "fox" => Some(Word::Fox),
            "hen" => Some(Word::Hen),
            "old" => Some(Word::Old),
            "sly" => Some(Word::Sly),
            _ => None,
        }
    }
}

/// What is asked of a document: its two words and its second.
#[derive(Clone, Copy)]
pub struct Document {
    pub words: (Word, Word),
    pub second: i64,
}

impl Document {
    pub fn drawn(dice: &mut Dice) -> Document {
        let words = (Word::drawn(dice), Word::drawn(dice));
        Document {
            words,
            second: second_below(dice, LAST_SECOND),
        }
    }

    fn has(self, word: Word) -> bool {
        self.words.0 == word || self.words.1 == word
    }
}

fn second_below(dice: &mut Dice, end: u64) -> i64 {
    i64::try_from(dice.below(end)).unwrap_or(0)
}

/// Which words a query asks for.
#[derive(Clone, Copy, PartialEq, Eq)]
enum Query {
    All,
    One(Word),
    Both(Word, Word),
    Either(Word, Word),
    Without(Word),
}

impl Query {
    fn of_kind(dice: &mut Dice, kind: u64) -> Query {
        let (one, other) = (Word::drawn(dice), Word::drawn(dice));
        match kind {
            0 => Query::Both(one, other),
            1 => Query::One(one),
            2 => Query::Either(one, other),
            3 => Query::Without(one),
            _ => Query::All,
        }
    }

    fn text(self, alloc: Global) -> Result<String, Wrong> {
        match self {
            Query::All => Ok(String::from_str(alloc, "*")?),
            Query::One(word) => Ok(String::from_str(alloc, word.text())?),
            Query::Both(one, other) => {
                let (one, other) = (one.text(), other.text());
                Ok(format!(in alloc; "{one} AND {other}")?)
            }
            Query::Either(one, other) => {
                let (one, other) = (one.text(), other.text());
                Ok(format!(in alloc; "{one} OR {other}")?)
            }
            Query::Without(word) => {
                let word = word.text();
                Ok(format!(in alloc; "NOT {word}")?)
            }
        }
    }

    fn read_two(text: &str) -> Option<Query> {
        if let Some((one, other)) = text.split_once(" AND ") {
            return Some(Query::Both(Word::read(one)?, Word::read(other)?));
        }
        let (one, other) = text.split_once(" OR ")?;
        Some(Query::Either(Word::read(one)?, Word::read(other)?))
    }

    fn read(text: &str) -> Option<Query> {
        if text == "*" {
            return Some(Query::All);
        }
        if let Some(word) = text.strip_prefix("NOT ") {
            return Some(Query::Without(Word::read(word)?));
        }
        match Word::read(text) {
            Some(word) => Some(Query::One(word)),
            None => Query::read_two(text),
        }
    }

    fn finds(self, document: Document) -> bool {
        match self {
            Query::All => true,
            Query::One(word) => document.has(word),
            Query::Both(one, other) => document.has(one) && document.has(other),
            Query::Either(one, other) => document.has(one) || document.has(other),
            Query::Without(word) => !document.has(word),
        }
    }
}

/// What a search or a delete asks for: a query, and from which second on and before which.
#[derive(Clone, Copy, PartialEq, Eq)]
pub struct Asked {
    query: Query,
    start: Option<i64>,
    end: Option<i64>,
}

// A second, in one of so many cases.
fn drawn_second(dice: &mut Dice, odds: u64) -> Option<i64> {
    if dice.one_of(odds) {
        Some(second_below(dice, LAST_SECOND.saturating_add(1)))
    } else {
        None
    }
}

impl Asked {
    /// All documents.
    pub fn all() -> Asked {
        Asked {
            query: Query::All,
            start: None,
            end: None,
        }
    }

    /// What a search asks for: of each kind as often.
    pub fn of_search(dice: &mut Dice) -> Asked {
        let kind = dice.below(5);
        Asked {
            query: Query::of_kind(dice, kind),
            start: drawn_second(dice, 6),
            end: drawn_second(dice, 6),
        }
    }

    /// What a delete asks for: mostly what finds little, so that records are left.
    pub fn of_delete(dice: &mut Dice) -> Asked {
        let kind = match dice.below(16) {
            0..=8 => 0,
            9..=12 => 1,
            13 => 2,
            14 => 3,
            _ => 4,
        };
        Asked {
            query: Query::of_kind(dice, kind),
            start: drawn_second(dice, 3),
            end: drawn_second(dice, 3),
        }
    }

    /// What a task of the journal asks for, where it is spelled as these are.
    pub fn read(text: &[u8], times: &TimeRange) -> Option<Asked> {
        let Ok(text) = str::from_utf8(text) else {
            return None;
        };
        Some(Asked {
            query: Query::read(text)?,
            start: times.start,
            end: times.end,
        })
    }

    /// The keys of a request.
    pub fn text(self, alloc: Global) -> Result<String, Wrong> {
        let query = self.query.text(alloc)?;
        let mut text = format!(in alloc; "\"query\":\"{query}\"")?;
        if let Some(start) = self.start {
            let key = format!(in alloc; ",\"start_timestamp\":{start}")?;
            text.push_str(key.as_str())?;
        }
        if let Some(end) = self.end {
            let key = format!(in alloc; ",\"end_timestamp\":{end}")?;
            text.push_str(key.as_str())?;
        }
        Ok(text)
    }

    pub fn finds(self, document: Document) -> bool {
        let is_late = match self.start {
            Some(start) => start <= document.second,
            None => true,
        };
        let is_early = match self.end {
            Some(end) => document.second < end,
            None => true,
        };
        is_late && is_early && self.query.finds(document)
    }
}
