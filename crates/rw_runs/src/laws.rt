//! The laws of runs.

ghost use Rattle.std.specs.Prelude.{◌≡◌, ◌+◌, ◌*◌, ℕ, suc, List, Bool, true, Some, drop, length};
ghost use Rattle.rw_words.specs.declared.atom.Atom.{Atom};
ghost use Rattle.rw_words.specs.declared.atom.Cell.{Cell};
ghost use Rattle.rw_words.specs.Addresses.{Addresses};
ghost use Rattle.rw_domain.specs.Placed.{Placed};
ghost use Rattle.rw_machine.specs.Program.{Program};
ghost use Rattle.rw_machine.specs.Events.{Reply};
ghost use Rattle.rw_machine.specs.Step.{Machine};
ghost use Rattle.rw_machine.specs.Stands.{Spare};
ghost use Rattle.rw_machine.specs.Domains.{symbols, numbers};
ghost use Rattle.rw_machine.specs.Correspond.{ProgramsCorrespond, MachinesCorrespond};
ghost use Rattle.rw_runs.specs.Runs.{Run, first_run, advance, made, total, entered, cost_at};
ghost use Rattle.rw_runs.specs.RunStands.{RunFollows};
ghost use Rattle.rw_runs.specs.Correspond.{WordsRun, NumbersRun, AllRepliesCorrespond, RunsCorrespond};

/// A program over words, of points `P` and references `A`, and one over numbers, of points `O` and references `B`, make
/// corresponding runs where they correspond point by point and reference by reference.
///
/// Let two machines correspond, and let answers to the first have answers that correspond along its run: where it asks, the
/// answer to the second writes the same places with bytes for which the first's stand, and to an import it may also write
/// any bytes to the stack below the stack pointer; the regions that answers bring lie at the addresses. Where the first
/// machine makes `n` steps with its answers, the second makes `n` steps with its own. The machines then correspond, the
/// events so far correspond one by one, and both have ended alike or neither has; points are compared as long as the runs
/// go on.
pub fn runs_correspond<P, O, A, B>()
    ensures { (l : Addresses) (known : Atom → Bool) (named : ℕ → ℕ → Bool) (spare : Spare ℕ) (near : P → O → Bool) (c : Program P A (List Cell)) (d : Program O B ℕ)
        (m : Machine Placed (List Cell) Cell P) (o : Machine Placed ℕ ℕ O) (answers : List (Reply (List Cell) Cell)) (replies : List (Reply ℕ ℕ)) (n : ℕ) (run : WordsRun P)
        → ProgramsCorrespond l known named near near c d → MachinesCorrespond l known spare near m o → AllRepliesCorrespond l known spare c m answers o.placed replies
        → made symbols c n (first_run m answers) ≡ Some run
        → (other : NumbersRun O) × (made numbers d n (first_run o replies) ≡ Some other) × RunsCorrespond l known spare named near run other }
{}

/// Where each step of a machine over words is followed by a step of one over numbers and by so many more as the run of the
/// first costs there, its first `n` steps are followed by `total` steps: `n`, and all that these cost.
pub fn blocks_follow<P, O, A, B>()
    ensures { (c : Program P A (List Cell)) (d : Program O B ℕ) (alike : WordsRun P → NumbersRun O → Bool) (cost : WordsRun P → ℕ)
        → ((r : WordsRun P) (q : NumbersRun O) → alike r q ≡ true → RunFollows (λ s t. alike s t ≡ true) (advance symbols c r) (made numbers d (suc (cost r)) q))
        → (n : ℕ) (r : WordsRun P) (q : NumbersRun O) → alike r q ≡ true
        → RunFollows (λ s t. alike s t ≡ true) (made symbols c n r) (made numbers d (total symbols c cost n r) q) }
{}

/// What `n` steps of a machine over words have used and cost.
///
/// The answers that are left are those behind one answer for each event. Where each step at some points costs `k` more, the
/// total is `n` and `k` for each time that one of these points was entered.
pub fn steps_count<P, A>()
    ensures used { (c : Program P A (List Cell)) (m : Machine Placed (List Cell) Cell P) (answers : List (Reply (List Cell) Cell)) (n : ℕ) (run : WordsRun P)
        → made symbols c n (first_run m answers) ≡ Some run → run.answers ≡ drop (length run.events) answers }
    ensures cost { (c : Program P A (List Cell)) (is_there : P → Bool) (k n : ℕ) (run last : WordsRun P)
        → made symbols c n run ≡ Some last → total symbols c (cost_at is_there k) n run ≡ n + k * entered symbols c is_there n run }
{}
