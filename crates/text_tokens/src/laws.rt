ghost use Rattle.std.specs.Prelude.{ℕ, List};
ghost use Rattle.text_tokens.specs.declared.runs.Cut.{Cut};
ghost use Rattle.text_tokens.specs.Runs.{runs_from, AreMaximalRuns};

/// The runs that make the tokens are all maximal runs of the text: between them stands nothing that belongs to a run,
/// each ends where the text ends or before a character of no run, and its bytes are those from its begin to its end.
pub fn runs_are_maximal()
    ensures { (cut : Cut) (letters : List ℕ) → AreMaximalRuns cut 0 letters (runs_from cut 0 letters) }
{}
