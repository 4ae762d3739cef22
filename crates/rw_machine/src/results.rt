//! What becomes of the answers of a domain: a result, its flags, or a cause to stop.

ghost use Rattle.std.specs.Prelude.{◌≡◌};
ghost use Rattle.rw_machine.specs.Conditions;
ghost use Rattle.rw_machine.specs.Running as Runs;
ghost use Rattle.rw_machine.specs.Views.{running_of, rows_of};

use crate::causes::stop;
use crate::condition::holds;
use crate::context::Context;
use crate::ending::Trap;
use crate::running::{Ask, Running};
use crate::words::set_temp;
use rw_base::Width;
use rw_domain::{Cause, Domain, Flags, Tri};
use x86_insn::{Cond, Plain};
use x86_meaning::Temp;

/// The flags of a number 0.
const ZERO_FLAGS: Flags = Flags {
    cf: Tri::No,
    zf: Tri::Yes,
    sf: Tri::No,
    of: Tri::No,
    pf: Tri::Yes,
};

/// The flags of all ones that a borrow leaves.
const BORROW_FLAGS: Flags = Flags {
    cf: Tri::Yes,
    zf: Tri::No,
    sf: Tri::Yes,
    of: Tri::No,
    pf: Tri::Yes,
};

/// What an instruction without operands asks for.
pub(crate) fn trap_of(kind: Plain) -> Option<Ask>
    ensures { result ≡ Runs.trap_of kind }
{
    match kind {
        Plain::Ud2 => Some(Ask::Halt(Trap::Ud2)),
        Plain::Int3 => Some(Ask::Halt(Trap::Int3)),
        Plain::Hlt => Some(Ask::Halt(Trap::Hlt)),
        Plain::Nop | Plain::Pause | Plain::Endbr64 => None,
    }
}

impl<D: Domain> Context<'_, D> {
    /// A result with its flags.
    pub(crate) fn flagged(&self, to: Temp, answer: (D::Word, Flags), run: &mut Running<D::Word>)
        ensures { running_of run.new ≡ Runs.flagged_run (running_of run.old) to answer }
    {
        let (v, flags) = answer;
        set_temp(&mut run.temps, to, v);
        run.flags = flags;
    }

    /// No result, and why.
    pub(crate) fn undefined(&self, to: Temp, w: Width, cause: Cause, run: &mut Running<D::Word>)
        ensures { let ops = D.over (D.placed self.now.domain.now) in running_of run.new ≡ Runs.stops (Runs.set_temp (running_of run.old) to (ops.undef w)) cause }
    {
        set_temp(&mut run.temps, to, self.domain.undef(w));
        stop(run, cause);
    }

    /// A result with its flags, or why there is none.
    pub(crate) fn computed(
        &self,
        to: Temp,
        w: Width,
        answer: Result<(D::Word, Flags), Cause>,
        run: &mut Running<D::Word>,
    )
        ensures { let ops = D.over (D.placed self.now.domain.now) in running_of run.new ≡ Runs.computed_run ops (running_of run.old) to w answer }
    {
        match answer {
            Ok(answer) => self.flagged(to, answer, run),
            Err(cause) => self.undefined(to, w, cause, run),
        }
    }

    /// The result of a shift, which sets the flags or keeps them.
    pub(crate) fn shifted(
        &self,
        to: Temp,
        w: Width,
        sets_flags: bool,
        answer: Result<(D::Word, Flags), Cause>,
        run: &mut Running<D::Word>,
    )
        ensures { let ops = D.over (D.placed self.now.domain.now) in running_of run.new ≡ Runs.shifted_run ops (running_of run.old) to w sets_flags answer }
    {
        match answer {
            Ok((v, flags)) => {
                set_temp(&mut run.temps, to, v);
                if sets_flags {
                    run.flags = flags;
                }
            }
            Err(cause) => self.undefined(to, w, cause, run),
        }
    }

    /// Two results with flags.
    pub(crate) fn two_results(
        &self,
        to: (Temp, Temp),
        words: (D::Word, D::Word),
        flags: Flags,
        run: &mut Running<D::Word>,
    )
        ensures { running_of run.new ≡ Runs.set_temps (running_of run.old) to.0 words.0 to.1 words.1 flags }
    {
        set_temp(&mut run.temps, to.0, words.0);
        set_temp(&mut run.temps, to.1, words.1);
        run.flags = flags;
    }

    /// A quotient and its rest, with every flag undefined; a trap; or why neither is known.
    pub(crate) fn divided(
        &self,
        quotient: Temp,
        rest: Temp,
        w: Width,
        answer: Result<Option<(D::Word, D::Word)>, Cause>,
        run: &mut Running<D::Word>,
    )
        ensures { let ops = D.over (D.placed self.now.domain.now) in running_of run.new ≡ Runs.divided_run ops (running_of run.old) quotient rest w answer }
    {
        match answer {
            Ok(Some(words)) => self.two_results((quotient, rest), words, Flags::UNKNOWN, run),
            Ok(None) => run.ask = Some(Ask::Halt(Trap::Divide)),
            Err(cause) => {
                let undefined = self.domain.undef(w);
                self.two_results(
                    (quotient, rest),
                    (undefined, undefined),
                    Flags::UNKNOWN,
                    run,
                );
                stop(run, cause);
            }
        }
    }

    /// A register with itself: 0, and for sbb 0 or all ones by the carry flag alone.
    pub(crate) fn with_itself(&self, borrow: bool, to: Temp, w: Width, run: &mut Running<D::Word>)
        ensures { let ops = D.over (D.placed self.now.domain.now) in running_of run.new ≡ Runs.with_itself ops borrow (running_of run.old) to w }
    {
        match run.flags.cf {
            Tri::Yes if borrow => {
                let ones = self.domain.num(w, u64::MAX);
                self.flagged(to, (ones, BORROW_FLAGS), run)
            }
            Tri::Unknown if borrow => self.undefined(to, w, Cause::FlagUnknown, run),
            _ => self.flagged(to, (self.domain.num(w, 0), ZERO_FLAGS), run),
        }
    }

    /// One of two words, by a condition.
    pub(crate) fn choose(
        &self,
        cond: Cond,
        to: Temp,
        yes: D::Word,
        no: D::Word,
        run: &mut Running<D::Word>,
    )
        ensures { let ops = D.over (D.placed self.now.domain.now) in running_of run.new ≡ Runs.chosen_run ops (running_of run.old) to yes no (Conditions.holds cond run.old.flags) }
    {
        match holds(cond, run.flags) {
            Some(true) => set_temp(&mut run.temps, to, yes),
            Some(false) => set_temp(&mut run.temps, to, no),
            None => self.undefined(to, Width::Q, Cause::FlagUnknown, run),
        }
    }

    /// Goes to a word by a condition.
    pub(crate) fn go(&self, cond: Cond, to: D::Word, run: &mut Running<D::Word>)
        ensures { let ops = D.over (D.placed self.now.domain.now) in running_of run.new ≡ Runs.goal_run ops (running_of run.old) to (Conditions.holds cond run.old.flags) }
    {
        match holds(cond, run.flags) {
            Some(true) => run.goal = Some(to),
            Some(false) => {}
            None => stop(run, Cause::FlagUnknown),
        }
    }
}
