//! What is live is enough.

ghost use Rattle.std.specs.Prelude.{◌≡◌, ℕ, List, Bool, true, Some};
ghost use Rattle.x86_insn.specs.declared.kinds.Reg.{Reg};
ghost use Rattle.x86_insn.specs.declared.kinds.Reg.TheVariants.{Rsp};
ghost use Rattle.x86_meaning.specs.declared.sets.Flag.{Flag};
ghost use Rattle.rw_words.specs.declared.atom.Atom.{Atom};
ghost use Rattle.rw_words.specs.declared.atom.Cell.{Cell};
ghost use Rattle.rw_words.specs.Addresses.{Addresses};
ghost use Rattle.rw_domain.specs.Placed.{Placed};
ghost use Rattle.rw_machine.specs.Program.{Program, GivesInstructions};
ghost use Rattle.rw_machine.specs.Events.{Reply};
ghost use Rattle.rw_machine.specs.Step.{Machine, step_of, reply_of};
ghost use Rattle.rw_machine.specs.Stands.{Spare};
ghost use Rattle.rw_machine.specs.Correspond.{MachinesCorrespond};
ghost use Rattle.rw_machine.specs.Domains.{symbols};
ghost use Rattle.rw_machine.specs.Agree.{Agree};
ghost use Rattle.rw_funcs.specs.Points.{Point, point_at};
ghost use Rattle.rw_live.specs.LiveSteps.{HasPoints, AgreeOnLive, LiveStepsAgree};
ghost use Rattle.rw_live.specs.Weakened.{weakened_machine};

/// Two machines over words that agree on what is live at a point take the same step, and agree behind it on what is live
/// at the next point.
///
/// Let a program have the points of a function, and let two machines be at one of them, with the same memory, regions and
/// `%rsp`, and the same word and flag in each register and flag that is live there. Then both steps go on, ask the same, end
/// alike, or stop for one cause. Where they go on they have the same memory, regions, `%rsp` and point, also past the
/// function; at a point of the function they agree on what is live there. Behind a call, a return, a system call, an indirect
/// jump or a jump out of the function they agree on all registers and flags. With one answer the same is so of the whole steps.
pub fn live_is_enough<P>()
    ensures step { (points : List Point) (at : ℕ → P) (prog : Program P ℕ (List Cell)) (m o : Machine Placed (List Cell) Cell P) (c : ℕ) (p : Point)
        → GivesInstructions prog → HasPoints points at prog → m.point ≡ at c → point_at points c ≡ Some p → AgreeOnLive points c m o
        → LiveStepsAgree points at p.insn m o (step_of symbols prog m) (step_of symbols prog o) }
    ensures reply { (points : List Point) (at : ℕ → P) (prog : Program P ℕ (List Cell)) (m o : Machine Placed (List Cell) Cell P) (c : ℕ) (p : Point) (r : Reply (List Cell) Cell)
        → GivesInstructions prog → HasPoints points at prog → m.point ≡ at c → point_at points c ≡ Some p → AgreeOnLive points c m o
        → LiveStepsAgree points at p.insn m o (reply_of symbols prog m r) (reply_of symbols prog o r) }
{}

/// A machine agrees with what is left of it where less is known, on the registers and flags that are kept.
pub fn weakened_agrees<P>()
    ensures { (keeps : Reg → Bool) (keeps_flag : Flag → Bool) (m : Machine Placed (List Cell) Cell P) → keeps Rsp ≡ true
        → Agree (λ r. keeps r ≡ true) (λ x. keeps_flag x ≡ true) m (weakened_machine keeps keeps_flag m) }
{}

/// A machine over numbers corresponds to what is left of each machine over words to which it corresponds: what isn't known
/// may be anything.
pub fn weakened_corresponds<P, O>()
    ensures { (l : Addresses) (known : Atom → Bool) (spare : Spare ℕ) (near : P → O → Bool) (keeps : Reg → Bool) (keeps_flag : Flag → Bool)
        (m : Machine Placed (List Cell) Cell P) (o : Machine Placed ℕ ℕ O)
        → MachinesCorrespond l known spare near m o → MachinesCorrespond l known spare near (weakened_machine keeps keeps_flag m) o }
{}
