//! The law of steps, and the law of agreement.

ghost use Rattle.std.specs.Prelude.{ℕ, List, Bool};
ghost use Rattle.rw_words.specs.declared.atom.Atom.{Atom};
ghost use Rattle.rw_words.specs.declared.atom.Cell.{Cell};
ghost use Rattle.rw_words.specs.Addresses.{Addresses};
ghost use Rattle.rw_domain.specs.Placed.{Placed};
ghost use Rattle.rw_machine.specs.Program.{Program, GivesInstructions};
ghost use Rattle.rw_machine.specs.Events.{Reply};
ghost use Rattle.rw_machine.specs.Step.{Machine, step_of, reply_of};
ghost use Rattle.rw_machine.specs.Stands.{Spare};
ghost use Rattle.rw_machine.specs.Domains.{symbols, numbers};
ghost use Rattle.rw_machine.specs.Correspond.{ProgramsCorrespond, MachinesCorrespond, OutcomesCorrespond, RepliesCorrespond};
ghost use Rattle.rw_machine.specs.SameSteps.{AgreeOnReads, StepsAgree};

/// A program over words, of points `P` and references `A`, and one over numbers, of points `O` and references `B`, take
/// corresponding steps where they correspond point by point and reference by reference.
///
/// Let two machines correspond: registers, flags, memory, regions and points of the first stand for those of the second
/// at the addresses `l`, and each atom that the first holds is `known`, which says that it has an address. Where the step
/// of the first doesn't stop, that of the second doesn't stop either. Both move, both ask, or both end: then the events
/// or the ends correspond, and so do the machines after the step, so that the first again holds known atoms alone. Where
/// both ask, the same is so of the whole steps with two answers of which the first stands for the second. To an import
/// the second answer may also write any bytes to the stack below the stack pointer: the first machine forgets these bytes.
///
/// Points are `near` before the step and `near'` after it, as where a program goes on at a label and its instruction
/// stands behind it; after an end they aren't compared. Imported symbols are `named` alike, whatever their numbers are. A
/// `spare` region has no bytes over words, and over numbers the same before and after: no step reads or writes them.
pub fn steps_correspond<P, O, A, B>()
    ensures step { (l : Addresses) (known : Atom → Bool) (named : ℕ → ℕ → Bool) (spare : Spare ℕ) (near near' : P → O → Bool) (c : Program P A (List Cell)) (d : Program O B ℕ)
        (m : Machine Placed (List Cell) Cell P) (o : Machine Placed ℕ ℕ O)
        → ProgramsCorrespond l known named near near' c d → MachinesCorrespond l known spare near m o
        → OutcomesCorrespond l known named spare near' (step_of symbols c m) (step_of numbers d o) }
    ensures reply { (l : Addresses) (known : Atom → Bool) (named : ℕ → ℕ → Bool) (spare : Spare ℕ) (near near' : P → O → Bool) (c : Program P A (List Cell)) (d : Program O B ℕ)
        (m : Machine Placed (List Cell) Cell P) (o : Machine Placed ℕ ℕ O) (r : Reply (List Cell) Cell) (q : Reply ℕ ℕ)
        → ProgramsCorrespond l known named near near' c d → MachinesCorrespond l known spare near m o → RepliesCorrespond l known spare c m o r q
        → OutcomesCorrespond l known named spare near' (reply_of symbols c m r) (reply_of numbers d o q) }
{}

/// Two machines over words that run one program take the same step, where they agree on what the step reads.
///
/// Let two machines have the same memory, regions and point, the same word in `%rsp`, and the same word and flag in each
/// register and flag that the instruction at their point reads; where it leads to an imported function or to the end of
/// the run, also the same arguments or the same result. Then both steps go on, ask the same, end alike, or stop for one
/// cause. Where they go on, the machines after them agree on all that was the same before, and on each register and flag
/// that the instruction writes whole; behind a call, a return or an indirect jump on all flags, as they are forgotten. Where
/// they end, they agree on all that was the same before. With one answer the same is so of the whole steps.
pub fn steps_agree<P, R>()
    ensures step { (prog : Program P R (List Cell)) (m o : Machine Placed (List Cell) Cell P)
        → GivesInstructions prog → AgreeOnReads symbols prog m o
        → StepsAgree symbols prog m o (step_of symbols prog m) (step_of symbols prog o) }
    ensures reply { (prog : Program P R (List Cell)) (m o : Machine Placed (List Cell) Cell P) (r : Reply (List Cell) Cell)
        → GivesInstructions prog → AgreeOnReads symbols prog m o
        → StepsAgree symbols prog m o (reply_of symbols prog m r) (reply_of symbols prog o r) }
{}

/// The same of two machines over numbers, which forget no flag.
pub fn steps_agree_over_numbers<P, R>()
    ensures step { (prog : Program P R ℕ) (m o : Machine Placed ℕ ℕ P)
        → GivesInstructions prog → AgreeOnReads numbers prog m o
        → StepsAgree numbers prog m o (step_of numbers prog m) (step_of numbers prog o) }
    ensures reply { (prog : Program P R ℕ) (m o : Machine Placed ℕ ℕ P) (r : Reply ℕ ℕ)
        → GivesInstructions prog → AgreeOnReads numbers prog m o
        → StepsAgree numbers prog m o (reply_of numbers prog m r) (reply_of numbers prog o r) }
{}
