//! Which change a row allows. No call here takes memory.

ghost use Rattle.std.specs.Prelude.{◌≡◌, [], option_copied};
ghost use Rattle.split_states.specs.Answers.{answer_to_publish, answer_to_new, answer_to_raise, answer_to_each_old, answer_to_replace, answer_to_mark, answer_to_remove, answer_to_retire, answer_to_grace, answer_to_age, where_found, where_published};
ghost use Rattle.split_states.specs.Rows.{row_at};

use crate::facts::RowFacts;
use crate::numbers::{Numbers, is_repeated, rise};
use crate::refusal::StateRefusal;
use crate::rows::{Row, RowState, Rows};

/// Whether a row may be published: NoRow, NotStaged, WrongAim where it has no spans.
pub fn may_publish(rows: &Rows, number: u64) -> Result<(), StateRefusal>
    ensures { result ≡ answer_to_publish rows.now.list number }
{
    match rows.get(number) {
        None => Err(StateRefusal::NoRow { number }),
        Some(row) => match row.state {
            RowState::Staged if row.spans.is_empty() => Err(StateRefusal::WrongAim { number }),
            RowState::Staged => Ok(()),
            _ => Err(StateRefusal::NotStaged { number }),
        },
    }
}

/// Whether a row may become a replacement.
fn may_aim(rows: &Rows, number: u64) -> Result<(), StateRefusal>
    ensures { result ≡ answer_to_new rows.now.list number }
{
    match rows.get(number) {
        None => Err(StateRefusal::NoRow { number }),
        Some(row) => match row.state {
            RowState::Staged if row.spans.is_empty() => Ok(()),
            RowState::Staged => Err(StateRefusal::WrongAim { number }),
            _ => Err(StateRefusal::NotStaged { number }),
        },
    }
}

/// Whether each of these rows may be replaced.
fn may_be_each_old(rows: &Rows, old: &[u64]) -> Result<(), StateRefusal>
    ensures { result ≡ answer_to_each_old rows.now.list [] old.now }
{
    let in_order = rise(old);
    for (i, number) in old.iter().enumerate() {
        if is_repeated(old, in_order, i) {
            return Err(StateRefusal::DoubledRow { number: *number });
        }
        may_raise(rows, *number)?;
    }
    Ok(())
}

/// Whether a row may replace others: on the new one NoRow, NotStaged, WrongAim where it has spans; then
/// NoOldRow; then on each old one in order DoubledRow, NoRow, NotPublished.
pub fn may_replace(rows: &Rows, new: u64, old: &Numbers) -> Result<(), StateRefusal>
    ensures { result ≡ answer_to_replace rows.now.list new old.now }
{
    may_aim(rows, new)?;
    let old = old.as_slice();
    if old.is_empty() {
        return Err(StateRefusal::NoOldRow);
    }
    may_be_each_old(rows, old)
}

/// Whether a row's spans may be raised: NoRow, NotPublished.
pub fn may_raise(rows: &Rows, number: u64) -> Result<(), StateRefusal>
    ensures { result ≡ answer_to_raise rows.now.list number }
{
    match rows.get(number) {
        None => Err(StateRefusal::NoRow { number }),
        Some(row) => match row.state {
            RowState::Published => Ok(()),
            _ => Err(StateRefusal::NotPublished { number }),
        },
    }
}

/// Whether a grace is over.
fn may_end(number: u64, since: u64, grace: u64, now: u64) -> Result<(), StateRefusal>
    ensures { result ≡ answer_to_grace number since grace now }
{
    let until = u128::from(since) + u128::from(grace);
    if u128::from(now) < until {
        return Err(StateRefusal::InGrace { number, until, now });
    }
    Ok(())
}

/// Whether a staged row may be given up: NoRow, NotStaged, InGrace before `grace` has passed since its Stage.
pub fn may_mark(rows: &Rows, number: u64, now: u64, grace: u64) -> Result<(), StateRefusal>
    ensures { result ≡ answer_to_mark rows.now.list number now grace }
{
    match rows.get(number) {
        None => Err(StateRefusal::NoRow { number }),
        Some(row) => match row.state {
            RowState::Staged => may_end(number, row.staged_at, grace, now),
            _ => Err(StateRefusal::NotStaged { number }),
        },
    }
}

/// Whether a row may go: NoRow, NotMarked, InGrace before `grace` has passed since it was marked.
pub fn may_remove(rows: &Rows, number: u64, now: u64, grace: u64) -> Result<(), StateRefusal>
    ensures { result ≡ answer_to_remove rows.now.list number now grace }
{
    match rows.get(number) {
        None => Err(StateRefusal::NoRow { number }),
        Some(row) => match row.state {
            RowState::Marked => may_end(number, row.marked_at, grace, now),
            _ => Err(StateRefusal::NotMarked { number }),
        },
    }
}

/// Whether facts are old enough.
fn may_age(number: u64, bound: i128, facts: &RowFacts) -> Result<(), StateRefusal>
    ensures { result ≡ answer_to_age number bound facts.now }
{
    if facts.docs == 0 {
        return Ok(());
    }
    match facts.times {
        Some(times) if i128::from(times.greatest) > bound => Err(StateRefusal::TooYoung {
            number,
            greatest: times.greatest,
            bound,
        }),
        _ => Ok(()),
    }
}

/// Whether a row may be retired: NoRetention without a period, NoRow, NotPublished, TooYoung where it has
/// documents and times and its greatest time is above now less the period.
pub fn may_retire(
    rows: &Rows,
    number: u64,
    now: u64,
    period: Option<u64>,
) -> Result<(), StateRefusal>
    ensures { result ≡ answer_to_retire rows.now.list number now period }
{
    let Some(period) = period else {
        return Err(StateRefusal::NoRetention);
    };
    may_leave(rows, number, i128::from(now) - i128::from(period))
}

/// Whether a row may be retired whose greatest time is at most the bound.
fn may_leave(rows: &Rows, number: u64, bound: i128) -> Result<(), StateRefusal>
    ensures { result ≡ where_found number (λ row. where_published number (λ r. answer_to_age number bound r.facts) row.state row) (row_at rows.now.list number) }
{
    match rows.get(number) {
        None => Err(StateRefusal::NoRow { number }),
        Some(row) => match row.state {
            RowState::Published => may_age(number, bound, &row.facts),
            _ => Err(StateRefusal::NotPublished { number }),
        },
    }
}
