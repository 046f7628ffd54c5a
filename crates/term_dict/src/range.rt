ghost use Rattle.std.specs.Prelude.{◌≡◌, ◌≤◌, List, ℕ, length, take, drop};
ghost use Rattle.term_dict.specs.declared.term.Term.{Term};

use crate::TermInfo;
use crate::block::read_term;
use crate::index::is_below;
use byte_fields::Corrupt;

/// Which keys a range has, among those not below its first.
#[derive(Clone, Copy)]
pub(crate) enum RangeEnd<'a> {
    Below(&'a [u8]),
    Prefix(&'a [u8]),
}

impl RangeEnd<'_> {
    ghost use Rattle.term_dict.specs.Readers.{is_before_end};

    fn is_before(&self, key: &[u8]) -> bool
        ensures { result ≡ is_before_end self.now key.now }
    {
        match self {
            RangeEnd::Below(high) => is_below(key, high),
            RangeEnd::Prefix(prefix) => key.starts_with(prefix),
        }
    }
}

/// Terms of a dictionary, lent one after the other.
#[derive(Clone, Copy)]
pub struct TermRange<'a> {
    pub(crate) area: &'a [u8],
    pub(crate) at: usize,
    pub(crate) end: RangeEnd<'a>,
    ghost within: { at ≤ length area.now },
}

impl<'a> TermRange<'a> {
    ghost use Rattle.term_dict.specs.Readers.{Lends};
    ghost use Rattle.term_dict.specs.Lent.{GivesFirst, Advances};

    /// The next of the terms. An `Err` changes nothing.
    pub fn next(&mut self) -> Result<Option<(&'a [u8], TermInfo)>, Corrupt>
        ensures only { (lent : List Term) → Lends self.old lent → GivesFirst lent result × Lends self.new (drop 1 lent) }
        // Over any bytes: the term at the place where the range stands, none where the bytes or the range end, or the fault there.
        ensures exact { Advances self.old self.new result }
    {
        if self.at == self.area.len() {
            return Ok(None);
        }
        let (entry, next) = read_term(self.area, self.at)?;
        if !self.end.is_before(entry.key) {
            return Ok(None);
        }
        self.at = next;
        Ok(Some((entry.key, entry.info)))
    }
}
