//! What is due on the output is one text.

ghost use Rattle.std.specs.Prelude.{◌≡◌, ℕ, List};
ghost use Rattle.retro.specs.Call.{IsDue, Outcome};

/// For each outcome of a call there is one text or list, at most, that is due.
pub fn one_is_due()
    ensures { (outcome : Outcome) (due other : List ℕ) → IsDue outcome due → IsDue outcome other → due ≡ other }
{}
