//! What is counted of rows.

ghost use Rattle.std.specs.Prelude.{◌≡◌, ◌+◌, ◌<◌, ◌≤◌, ◌^◌};
ghost use Rattle.index_report.specs.Counts.{counts_of, counted};

use split_states::{Row, RowState};

/// How many rows stand in each state, and the documents and refused records of the Published ones.
#[derive(Drop)]
pub struct Counts {
    pub staged: usize,
    pub published: usize,
    pub marked: usize,
    pub docs: u128,
    pub rejected: u128,
}

fn count_row(counts: &mut Counts, row: &Row)
    requires rows { (counts.old.staged + 1 < 2 ^ 64) × (counts.old.published + 1 < 2 ^ 64) × (counts.old.marked + 1 < 2 ^ 64) }
    requires records { (counts.old.docs + 2 ^ 64 ≤ 2 ^ 128) × (counts.old.rejected + 2 ^ 64 ≤ 2 ^ 128) }
    ensures counted { counts.new ≡ counted row.now.state row.now.facts counts.old }
    ensures rows { (counts.new.staged ≤ counts.old.staged + 1) × (counts.new.published ≤ counts.old.published + 1) × (counts.new.marked ≤ counts.old.marked + 1) }
    ensures records { (counts.new.docs ≤ counts.old.docs + 2 ^ 64) × (counts.new.rejected ≤ counts.old.rejected + 2 ^ 64) }
{
    match row.state {
        RowState::Staged => counts.staged += 1,
        RowState::Published => {
            counts.published += 1;
            counts.docs += u128::from(row.facts.docs);
            counts.rejected += u128::from(row.facts.rejected);
        }
        RowState::Marked => counts.marked += 1,
    }
}

/// In one pass over the rows.
pub fn count_rows(rows: &[Row]) -> Counts
    ensures { result ≡ counts_of rows.now }
{
    let mut counts = Counts {
        staged: 0,
        published: 0,
        marked: 0,
        docs: 0,
        rejected: 0,
    };
    for row in rows {
        count_row(&mut counts, row);
    }
    counts
}
