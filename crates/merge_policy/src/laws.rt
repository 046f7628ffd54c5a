//! What holds of each choice.

ghost use Rattle.std.specs.Prelude.{◌≡◌, ℕ, List, Option};
ghost use Rattle.index_config.specs.Accepted.{HasPolicyRanges};
ghost use Rattle.index_config.specs.declared.config.Policy as policies;
ghost use Rattle.split_states.specs.declared.rows.Row as rows;
ghost use Rattle.split_states.specs.Rows.{RowsRise};
ghost use Rattle.merge_policy.specs.Choice.{IsChosen};
ghost use Rattle.merge_policy.specs.Chosen.{chosen};

/// Of the same rows, at the same moment, there is one choice.
pub fn choice_laws()
    ensures { (policy : policies.Policy) (target now : ℕ) (rows : List rows.Row) (one other : Option (List ℕ)) →
        IsChosen policy target now rows one → IsChosen policy target now rows other → one ≡ other }
{}

/// The choice is a function of the rows, of which each number stands once, in order.
pub fn choice_is_chosen()
    ensures { (policy : policies.Policy) (target now : ℕ) (rows : List rows.Row) → HasPolicyRanges policy → RowsRise rows →
        IsChosen policy target now rows (chosen policy target now rows) }
{}
