// Sets of the documents of lists.

ghost use Rattle.std.specs.Prelude.{◌≡◌, ◌<◌, ◌||◌, ℕ, List, false, [], length, IsOk};
ghost use Rattle.std.specs.List.{AllByRecursion};
ghost use Rattle.term_postings.specs.Cursors.{StandsBefore};
ghost use Rattle.term_postings.specs.Reading.{walk};
ghost use Rattle.term_postings.specs.declared.list.Posting.{Posting};
ghost use Rattle.doc_sets.specs.Bits.{has};
ghost use Rattle.doc_sets.specs.Reads.{PutsEach, PutsRead, numbers_in};
ghost use Rattle.doc_sets.specs.Sets.{is_in, is_one_of};

use crate::bits::DocBits;
use crate::leaf_error::{LeafError, POSTINGS};
use term_postings::Cursor;

// Puts numbers into a set.
fn put_each(bits: &mut DocBits, numbers: &[u32]) -> Result<(), LeafError>
    ensures size { bits.new.size ≡ bits.old.size }
    ensures only { AllByRecursion (λ n. n < bits.old.size) numbers.now → IsOk result × ((k : ℕ) → has bits.new k ≡ has bits.old k || is_one_of k numbers.now) }
    // Over any numbers.
    ensures exact { PutsEach bits.old bits.new numbers.now result }
{
    for number in numbers {
        if *number >= bits.size() {
            return Err(LeafError::Corrupt { section: POSTINGS });
        }
        bits.insert(*number);
    }
    Ok(())
}

// Puts so many documents of a list into a set.
pub(crate) fn fill(bits: &mut DocBits, mut cursor: Cursor, docs: u32) -> Result<(), LeafError>
    ensures size { bits.new.size ≡ bits.old.size }
    ensures only { (list : List Posting) → StandsBefore false cursor.entry list [] → docs ≡ length list → AllByRecursion (λ p. p.document < bits.old.size) list
        → IsOk result × ((k : ℕ) → has bits.new k ≡ has bits.old k || is_in k list) }
    // Over any bytes: the numbers that are read, or the fault that is met.
    ensures exact { PutsRead bits.old bits.new result (numbers_in docs bits.old.size (walk cursor.entry)) }
{
    let mut found = [0; 128];
    for passed in 0..docs {
        match cursor.next_block(&mut found) {
            Ok(count) => {
                if count == 0 {
                    return Ok(());
                }
                put_each(bits, &found[..count])?;
            }
            Err(_) => return Err(LeafError::Corrupt { section: POSTINGS }),
        }
    }
    Ok(())
}
