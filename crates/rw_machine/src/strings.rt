//! String steps (Intel SDM, volume 1, 7.3.9), upwards.

ghost use Rattle.std.specs.Prelude.{◌≡◌, Some};
ghost use Rattle.x86_insn.specs.declared.kinds.Reg.TheVariants.{Rax};
ghost use Rattle.rw_machine.specs.Running as Runs;
ghost use Rattle.rw_machine.specs.Views.{running_of, registers_of, rows_of};

use crate::causes::stop;
use crate::context::Context;
use crate::registers::Registers;
use crate::running::{Due, Running, StringStep};
use rw_base::Width;
use rw_domain::{Access, Cause, Domain, Place};
use x86_insn::Reg;

/// An address one element on.
pub(crate) fn advanced<D: Domain>(domain: &D, step: StringStep<D::Word>, at: D::Word) -> D::Word
    ensures { result ≡ Runs.next_address (D.over (D.placed domain.now)) step at }
{
    domain.sum(Some(at), None, step.width.bytes() as i32)
}

fn target_place<D: Domain>(
    domain: &D,
    step: StringStep<D::Word>,
    target: D::Word,
) -> Result<Place, Cause>
    ensures { result ≡ Runs.target_place (D.over (D.placed domain.now)) step target }
{
    domain.place(&target, step.width.bytes() as u64, Access::Write)
}

/// The places of an element: its read comes before its write, and a step that doesn't move reads nothing.
pub(crate) fn element_places<D: Domain>(
    domain: &D,
    step: StringStep<D::Word>,
    source: D::Word,
    target: D::Word,
) -> Result<(Place, Place), Cause>
    ensures { result ≡ Runs.element_places (D.over (D.placed domain.now)) step source target }
{
    let to = target_place(domain, step, target);
    if step.moves {
        let from = domain.place(&source, step.width.bytes() as u64, Access::Read)?;
        Ok((from, to?))
    } else {
        let place = to?;
        Ok((place, place))
    }
}

/// The addresses behind so many elements, where each element's accesses are permitted; else the first that isn't.
fn elements_permitted<D: Domain>(
    domain: &D,
    step: StringStep<D::Word>,
    count: u64,
    source: D::Word,
    target: D::Word,
) -> Result<(D::Word, D::Word), Cause>
    ensures { result ≡ Runs.elements_permitted (D.over (D.placed domain.now)) step count source target }
{
    let mut source = source;
    let mut target = target;
    for _i in 0..count {
        element_places(domain, step, source, target)?;
        source = advanced(domain, step, source);
        target = advanced(domain, step, target);
    }
    Ok((source, target))
}

impl<D: Domain> Context<'_, D> {
    /// How many elements there are; a repeated step needs the number.
    fn element_count(&self, rep: bool, registers: &Registers<D::Word>) -> Option<u64>
        ensures { result ≡ Runs.element_count (D.over (D.placed self.now.domain.now)) rep (registers_of registers.now) }
    {
        if rep {
            self.domain
                .number(Width::Q, self.register(registers, Reg::Rcx))
        } else {
            Some(1)
        }
    }

    /// %rdi is moved on, %rsi too where bytes are moved, and a repeated step leaves %rcx 0.
    fn leave_registers(
        &self,
        moves: bool,
        rep: bool,
        ends: (D::Word, D::Word),
        registers: &mut Registers<D::Word>,
    )
        ensures { let ops = D.over (D.placed self.now.domain.now) in
            registers_of registers.new ≡ Runs.count_left ops rep (Runs.pointers_left ops moves (registers_of registers.old) ends) }
    {
        if moves {
            registers.set(Reg::Rsi, ends.0);
        }
        registers.set(Reg::Rdi, ends.1);
        if rep {
            registers.set(Reg::Rcx, self.domain.num(Width::Q, 0));
        }
    }

    /// A string step. The count comes before the addresses, and nothing is written before all of them are permitted.
    pub(crate) fn elements(&self, moves: bool, width: Width, rep: bool, run: &mut Running<D::Word>)
        ensures { let ops = D.over (D.placed self.now.domain.now) in let r = running_of run.old in let word = Runs.register ops r.registers Rax in
            running_of run.new ≡ Runs.elements_of ops r (record { moves = moves; width = width; word = word }) rep (Runs.element_count ops rep r.registers) }
    {
        let word = self.register(&run.registers, Reg::Rax);
        let step = StringStep { moves, width, word };
        match self.element_count(rep, &run.registers) {
            Some(count) => self.elements_done(step, rep, count, run),
            None => stop(run, Cause::NumberUnknown),
        }
    }

    fn elements_done(
        &self,
        step: StringStep<D::Word>,
        rep: bool,
        count: u64,
        run: &mut Running<D::Word>,
    )
        ensures { let ops = D.over (D.placed self.now.domain.now) in running_of run.new ≡ Runs.elements_of ops (running_of run.old) step rep (Some count) }
    {
        let source = self.register(&run.registers, Reg::Rsi);
        let target = self.register(&run.registers, Reg::Rdi);
        match elements_permitted(self.domain, step, count, source, target) {
            Ok(ends) => {
                self.leave_registers(step.moves, rep, ends, &mut run.registers);
                run.due = run.due.then(Due::Elements {
                    step,
                    count,
                    source,
                    target,
                });
            }
            Err(cause) => stop(run, cause),
        }
    }
}
