//! What holds of the rows that are due. Each law is the contract of a function that does nothing.

ghost use Rattle.std.specs.Prelude.{◌≡◌, ◌≤◌, ℕ, List, true, IsSomeAnd, Some};
ghost use Rattle.std.specs.List.{AllByRecursion};
ghost use Rattle.split_states.specs.Answers.{MayMark, MayRemove, Repeats};
ghost use Rattle.split_states.specs.Due.{stale_rows, next_due};
ghost use Rattle.split_states.specs.Rows.{Row, RowsRise, rising};

/// The stale rows are those that may be given up, each named once: their numbers rise.
pub fn stale_may_be_marked()
    ensures each { (rows : List Row) (now grace : ℕ) → RowsRise rows → AllByRecursion (MayMark now grace rows) (stale_rows now grace rows) }
    ensures all { (rows : List Row) (now grace n : ℕ) → MayMark now grace rows n → Repeats (stale_rows now grace rows) n ≡ true }
    ensures rise { (rows : List Row) (now grace : ℕ) → RowsRise rows → rising (stale_rows now grace rows) ≡ true }
{}

/// The next row that is due may go, and no row of a lower number from there on may.
pub fn due_may_be_removed()
    ensures due { (rows : List Row) (from now grace : ℕ) (row : Row) → RowsRise rows → next_due from now grace rows ≡ Some row → (from ≤ row.number) × MayRemove now grace rows row.number }
    ensures least { (rows : List Row) (from now grace n : ℕ) → RowsRise rows → MayRemove now grace rows n → from ≤ n → IsSomeAnd (next_due from now grace rows) (λ row. row.number ≤ n) }
{}
