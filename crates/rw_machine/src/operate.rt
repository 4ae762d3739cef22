//! The run of an instruction's small operations.

ghost use Rattle.std.specs.Prelude.{◌≡◌, true};
ghost use Rattle.x86_meaning.specs.declared.operations.Micro.TheVariants.{Get, Put};
ghost use Rattle.rw_machine.specs.Operations.{is_move, is_access, is_arithmetic, is_of_bits};
ghost use Rattle.rw_machine.specs.Running as Runs;
ghost use Rattle.rw_machine.specs.Views.{running_of, rows_of, IsLaidOut};

use crate::context::Context;
use crate::results::trap_of;
use crate::running::{Ask, Running};
use crate::words::{full_register, part, put_part, set_temp};
use rw_base::Width;
use rw_domain::Domain;
use x86_insn::Reg8;
use x86_meaning::{Micro, Temp};

impl<D: Domain> Context<'_, D> {
    /// Gets a part of a register.
    fn get(&self, to: Temp, w: Width, from: Reg8, run: &mut Running<D::Word>)
        ensures { let ops = D.over (D.placed self.now.domain.now) in let rows = rows_of self.now.memory.now in
            running_of run.new ≡ Runs.after ops rows self.now.here (Get to w from) (running_of run.old) }
    {
        let whole = self.register(&run.registers, full_register(from));
        set_temp(&mut run.temps, to, part(self.domain, w, from, whole));
    }

    /// Puts the low bytes of a word into a part of a register.
    fn put(&self, w: Width, to: Reg8, from: Temp, run: &mut Running<D::Word>)
        ensures { let ops = D.over (D.placed self.now.domain.now) in let rows = rows_of self.now.memory.now in
            running_of run.new ≡ Runs.after ops rows self.now.here (Put w to from) (running_of run.old) }
    {
        let whole = full_register(to);
        let old = self.register(&run.registers, whole);
        let new = put_part(self.domain, w, to, old, self.temp(run, from));
        run.registers.set(whole, new);
    }

    /// Parts of registers, constants and addresses.
    fn move_word(&self, m: Micro, run: &mut Running<D::Word>)
        requires { is_move m ≡ true }
        ensures { let ops = D.over (D.placed self.now.domain.now) in let rows = rows_of self.now.memory.now in
            running_of run.new ≡ Runs.after ops rows self.now.here m (running_of run.old) }
    {
        match m {
            Micro::Get { to, w, from } => self.get(to, w, from, run),
            Micro::Put { w, to, from } => self.put(w, to, from, run),
            Micro::Num { to, w, v } => set_temp(&mut run.temps, to, self.domain.num(w, v)),
            Micro::Ref { to, direct: true } => set_temp(&mut run.temps, to, self.here.direct),
            Micro::Ref { to, direct: false } => set_temp(&mut run.temps, to, self.here.indirect),
            Micro::Canary { to } => set_temp(&mut run.temps, to, self.domain.canary()),
            Micro::Next { to } => set_temp(&mut run.temps, to, self.here.next),
            Micro::Sum {
                to,
                base,
                index,
                disp,
            } => {
                let (base, index) = (self.base(run, base), self.index(run, index));
                set_temp(&mut run.temps, to, self.domain.sum(base, index, disp))
            }
            _ => unreachable!(),
        }
    }

    /// Loads, stores and string steps.
    fn access(&self, m: Micro, run: &mut Running<D::Word>)
        requires laid_out { IsLaidOut (D.over (D.placed self.now.domain.now)).regions (rows_of self.now.memory.now) }
        requires access { is_access m ≡ true }
        ensures { let ops = D.over (D.placed self.now.domain.now) in let rows = rows_of self.now.memory.now in
            running_of run.new ≡ Runs.after ops rows self.now.here m (running_of run.old) }
    {
        match m {
            Micro::Load { to, w, at } => self.load(to, w, self.temp(run, at), run),
            Micro::Store { w, at, from } => {
                self.store(w, self.temp(run, at), self.temp(run, from), run)
            }
            Micro::Elements { moves, w, rep } => self.elements(moves, w, rep, run),
            _ => unreachable!(),
        }
    }

    /// Sums, products and quotients.
    fn calculate(&self, m: Micro, run: &mut Running<D::Word>)
        requires { is_arithmetic m ≡ true }
        ensures { let ops = D.over (D.placed self.now.domain.now) in let rows = rows_of self.now.memory.now in
            running_of run.new ≡ Runs.after ops rows self.now.here m (running_of run.old) }
    {
        let domain = self.domain;
        match m {
            Micro::Alu { op, w, to, a, b } => {
                let answer = domain.alu(op, w, self.temp(run, a), self.temp(run, b), run.flags);
                self.computed(to, w, answer, run)
            }
            Micro::One { op, w, to, a } => {
                let answer = domain.one(op, w, self.temp(run, a), run.flags);
                self.flagged(to, answer, run)
            }
            Micro::Mul {
                signed,
                w,
                low,
                high,
                a,
                b,
            } => {
                let product = domain.mul(signed, w, self.temp(run, a), self.temp(run, b));
                self.two_results((low, high), (product.0, product.1), product.2, run)
            }
            Micro::Div {
                signed,
                w,
                quotient,
                rest,
                high,
                low,
                by,
            } => {
                let (high, low) = (self.temp(run, high), self.temp(run, low));
                let answer = domain.div(signed, w, high, low, self.temp(run, by));
                self.divided(quotient, rest, w, answer, run)
            }
            _ => unreachable!(),
        }
    }

    /// Bits and bytes of a word.
    fn change_bits(&self, m: Micro, run: &mut Running<D::Word>)
        requires { is_of_bits m ≡ true }
        ensures { let ops = D.over (D.placed self.now.domain.now) in let rows = rows_of self.now.memory.now in
            running_of run.new ≡ Runs.after ops rows self.now.here m (running_of run.old) }
    {
        let domain = self.domain;
        match m {
            Micro::Shift {
                op,
                w,
                to,
                a,
                count,
                flags,
            } => {
                let count = self.temp(run, count);
                let answer = domain.shift(op, w, self.temp(run, a), count, run.flags);
                self.shifted(to, w, flags, answer, run)
            }
            Micro::Extend {
                signed,
                from,
                w,
                to,
                a,
            } => {
                let v = domain.extend(signed, from, self.temp(run, a), w);
                set_temp(&mut run.temps, to, v)
            }
            Micro::Swap { w, to, a } => {
                let v = domain.swap(w, self.temp(run, a));
                set_temp(&mut run.temps, to, v)
            }
            Micro::Bit {
                op,
                w,
                to,
                a,
                index,
            } => {
                let index = self.temp(run, index);
                let answer = domain.bit(op, w, self.temp(run, a), index, run.flags);
                self.flagged(to, answer, run)
            }
            Micro::Scan { op, w, to, a } => {
                let answer = domain.scan(op, w, self.temp(run, a));
                self.flagged(to, answer, run)
            }
            _ => unreachable!(),
        }
    }

    /// What a small operation does to the run.
    fn after(&self, m: Micro, run: &mut Running<D::Word>)
        requires { IsLaidOut (D.over (D.placed self.now.domain.now)).regions (rows_of self.now.memory.now) }
        ensures { let ops = D.over (D.placed self.now.domain.now) in let rows = rows_of self.now.memory.now in
            running_of run.new ≡ Runs.after ops rows self.now.here m (running_of run.old) }
    {
        match m {
            Micro::Get { .. }
            | Micro::Put { .. }
            | Micro::Num { .. }
            | Micro::Ref { .. }
            | Micro::Canary { .. }
            | Micro::Next { .. }
            | Micro::Sum { .. } => self.move_word(m, run),
            Micro::Load { .. } | Micro::Store { .. } | Micro::Elements { .. } => {
                self.access(m, run)
            }
            Micro::Alu { .. } | Micro::One { .. } | Micro::Mul { .. } | Micro::Div { .. } => {
                self.calculate(m, run)
            }
            Micro::Shift { .. }
            | Micro::Extend { .. }
            | Micro::Swap { .. }
            | Micro::Bit { .. }
            | Micro::Scan { .. } => self.change_bits(m, run),
            Micro::Same { borrow, w, to } => self.with_itself(borrow, to, w, run),
            Micro::Choose { cond, to, yes, no } => {
                let (yes, no) = (self.temp(run, yes), self.temp(run, no));
                self.choose(cond, to, yes, no, run)
            }
            Micro::Go { cond: None, to } => run.goal = Some(self.temp(run, to)),
            Micro::Go {
                cond: Some(cond),
                to,
            } => self.go(cond, self.temp(run, to), run),
            Micro::Trap(kind) => run.ask = trap_of(kind),
            Micro::System => run.ask = Some(Ask::Serve),
        }
    }

    /// Small operations, in their order.
    pub(crate) fn run_all(&self, list: &[Micro], run: &mut Running<D::Word>)
        requires { IsLaidOut (D.over (D.placed self.now.domain.now)).regions (rows_of self.now.memory.now) }
        ensures { let ops = D.over (D.placed self.now.domain.now) in let rows = rows_of self.now.memory.now in
            running_of run.new ≡ Runs.after_all ops rows self.now.here list.now (running_of run.old) }
    {
        for m in list {
            self.after(*m, run);
        }
    }
}
