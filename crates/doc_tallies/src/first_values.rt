//! The first values of documents, of which most follow one another.

ghost use Rattle.std.specs.Prelude.{◌≡◌, List, ℕ};
ghost use Rattle.fast_fields.specs.Readers.{Holds, first_number};
ghost use Rattle.fast_fields.specs.declared.entries.Entry.{Entry};
ghost use Rattle.doc_tallies.specs.Passed.{IsBehind};

use fast_fields::Column;

/// A walk over a column by documents. Where each document has one value, the next one's stands at its number.
#[derive(Clone, Copy)]
pub(crate) struct FirstValues<'a> {
    column: Column<'a>,
    next: u32,
    ghost behind: { IsBehind column next },
}

impl<'a> FirstValues<'a> {
    /// Before the first document.
    pub fn over(column: Column<'a>) -> FirstValues<'a>
        ensures { result.column ≡ column.entry }
    {
        FirstValues { column, next: 0 }
    }

    /// The first value of a document, if it has one. It is found faster where the document before was asked for last.
    #[inline(always)]
    pub fn value_at(&mut self, document: u32) -> Option<u64>
        ensures only { (texts : List (List ℕ)) (entries : List Entry) → Holds self.old.column texts entries → result ≡ first_number document entries }
        ensures column { self.new.column ≡ self.old.column }
    {
        if document >= self.column.len() || self.column.document_of(document) != document {
            return self.column.value_at(document);
        }
        let follows = document == self.next;
        self.next = document + 1;
        if follows {
            return Some(self.column.value(document));
        }
        self.column.value_at(document)
    }
}
