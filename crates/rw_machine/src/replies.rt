//! What will follow a reply.

ghost use Rattle.std.specs.Prelude.{◌≡◌, Option, Some, None, List};
ghost use Rattle.rw_machine.specs.Due.{FitRows, AreWords};
ghost use Rattle.rw_machine.specs.Plans.{changed_machine, plan_outcome, with_run, FitChanges, IsPlan};
ghost use Rattle.rw_machine.specs.Program.{Program};
ghost use Rattle.rw_machine.specs.State.{domain_over, machine_of, reply_value};
ghost use Rattle.rw_machine.specs.Step as Steps;
ghost use Rattle.rw_machine.specs.Views.{registers_of, rows_of, running_of, dues_of};
ghost use Rattle.rw_domain.specs.declared.place.Access.TheVariants.{Read};

use crate::answers::{put_words, stores_of, word_after};
use crate::code::Code;
use crate::ending::End;
use crate::event::Reply;
use crate::goal::Goal;
use crate::plan::{Changes, Closing, Plan, close_at, return_out};
use crate::registers::Registers;
use crate::running::Running;
use crate::state::State;
use crate::sweep::lost_place;
use rw_domain::{Access, Cause, Domain, Flags};
use x86_insn::Reg;

/// The registers that a system call loses.
const LOST_TO_SYSTEM: [Reg; 2] = [Reg::Rcx, Reg::R11];

/// The registers that a function may lose and doesn't answer in.
const LOST_TO_IMPORT: [Reg; 8] = [
    Reg::Rcx,
    Reg::Rdx,
    Reg::Rsi,
    Reg::Rdi,
    Reg::R8,
    Reg::R9,
    Reg::R10,
    Reg::R11,
];

/// Puts a reply's result, and its words into the registers that are lost.
fn put_answer<D: Domain>(
    domain: &D,
    lost: &[Reg],
    reply: &Reply<D::Word, D::Byte>,
    registers: &mut Registers<D::Word>,
)
    ensures { registers_of registers.new ≡ Steps.registers_after_reply (D.over (D.placed domain.now)) lost.now (reply_value reply.now) (registers_of registers.old) }
{
    registers.rax = reply.result;
    put_words(domain, lost, reply.scratch.as_slice(), registers);
}

/// The plan to end by a reply's end, whatever the stack pointer is.
fn ended<P: Copy>(changes: Changes, point: P, end: End) -> Plan<P>
    ensures { result ≡ Plan.Make changes (record { point = point; sweep = None; end = Some end }) }
{
    let closing = Closing {
        point,
        sweep: None,
        end: Some(end),
    };
    Plan::Make(changes, closing)
}

/// The plan of a system call with its reply, where its instruction has done nothing.
pub(crate) fn answer_system<D: Domain, C: Code<D>>(
    code: &C,
    state: &State<D, C::Point>,
    run: &mut Running<D::Word>,
    reply: &Reply<D::Word, D::Byte>,
) -> Plan<C::Point>
    requires { let m = machine_of state.now in running_of run.old ≡ Steps.first_running (D.over m.placed) m.registers m.flags }
    ensures outcome { let dom = domain_over D.over in let ops = D.over (D.placed state.now.domain) in let prog = C.program code.now in let m = machine_of state.now in
        plan_outcome dom ops (Some (reply_value reply.now)) m (running_of run.new) result ≡ Steps.replied_outcome dom ops prog (Steps.machine_after_reply dom ops prog m (reply_value reply.now)) reply.now.end }
    ensures plan { IsPlan (rows_of state.now.memory) (Some (reply_value reply.now)) (dues_of run.new.due) result }
{
    put_answer(&state.domain, &LOST_TO_SYSTEM, reply, &mut run.registers);
    let changes = Changes::Follow(None);
    let point = code.next(state.point);
    match reply.end {
        Some(end) => ended(changes, point, end),
        None => close_at(state, run, changes, point, None),
    }
}

/// Puts the reply to a call into the registers and flags that the call leaves, and says what else changes.
fn follow_call<D: Domain, C: Code<D>>(
    state: &State<D, C::Point>,
    run: &mut Running<D::Word>,
    reply: &Reply<D::Word, D::Byte>,
) -> Changes
    requires placed { FitRows (rows_of state.now.memory) (dues_of run.old.due) }
    requires words { AreWords (dues_of run.old.due) }
    ensures machine { let dom = domain_over D.over in let ops = D.over (D.placed state.now.domain) in let m = machine_of state.now in (prog : Program C.Point C.Ref D.Word) (point : C.Point)
        → changed_machine dom ops (Some (reply_value reply.now)) (running_of run.new) result point m ≡ Steps.machine_after_import dom ops prog (with_run ops m (running_of run.old) m.point) (reply_value reply.now) (registers_of run.old.registers) point }
    ensures changes { FitChanges (rows_of state.now.memory) (dues_of run.new.due) result }
{
    let frame = lost_place(&state.domain, &run.registers.rsp, -1);
    put_answer(&state.domain, &LOST_TO_IMPORT, reply, &mut run.registers);
    run.flags = if state.domain.forgets() {
        Flags::UNKNOWN
    } else {
        run.flags
    };
    Changes::Follow(frame)
}

/// Puts the stack pointer above the word that it points to.
fn raise<D: Domain>(domain: &D, registers: &mut Registers<D::Word>)
    ensures { registers_of registers.new ≡ Steps.raised_registers (D.over (D.placed domain.now)) (registers_of registers.old) }
{
    registers.rsp = domain.sum(Some(registers.rsp), None, 8);
}

/// The plan to return from a function with its reply, to a word.
fn return_to<D: Domain, C: Code<D>>(
    code: &C,
    state: &State<D, C::Point>,
    run: &mut Running<D::Word>,
    to: &D::Word,
    reply: &Reply<D::Word, D::Byte>,
) -> Plan<C::Point>
    requires placed { FitRows (rows_of state.now.memory) (dues_of run.old.due) }
    requires words { AreWords (dues_of run.old.due) }
    ensures outcome { let dom = domain_over D.over in let ops = D.over (D.placed state.now.domain) in let prog = C.program code.now in let m = machine_of state.now in
        plan_outcome dom ops (Some (reply_value reply.now)) m (running_of run.new) result ≡ Steps.return_to_outcome dom ops prog (with_run ops m (running_of run.old) m.point) (reply_value reply.now) (prog.target to.now) }
    ensures plan { IsPlan (rows_of state.now.memory) (Some (reply_value reply.now)) (dues_of run.new.due) result }
{
    raise(&state.domain, &mut run.registers);
    let changes = follow_call::<D, C>(state, run, reply);
    match code.target(to) {
        Err(cause) => Plan::Stop(cause),
        Ok(Goal::At(p)) => close_at(state, run, changes, p, None),
        Ok(Goal::Finish) => return_out(state, run, changes),
        Ok(Goal::Import(_)) => Plan::Stop(Cause::TargetNoPoint),
    }
}

/// The plan to return from a function with its reply, to the word at the stack pointer as it was before.
fn return_from<D: Domain, C: Code<D>>(
    code: &C,
    state: &State<D, C::Point>,
    run: &mut Running<D::Word>,
    reply: &Reply<D::Word, D::Byte>,
) -> Plan<C::Point>
    requires placed { FitRows (rows_of state.now.memory) (dues_of run.old.due) }
    requires words { AreWords (dues_of run.old.due) }
    ensures outcome { let dom = domain_over D.over in let ops = D.over (D.placed state.now.domain) in let prog = C.program code.now in let m = machine_of state.now in
        plan_outcome dom ops (Some (reply_value reply.now)) m (running_of run.new) result ≡ Steps.return_from_outcome dom ops prog (with_run ops m (running_of run.old) m.point) (reply_value reply.now) (ops.place run.old.registers.rsp 8 Read) }
    ensures plan { IsPlan (rows_of state.now.memory) (Some (reply_value reply.now)) (dues_of run.new.due) result }
{
    match state.domain.place(&run.registers.rsp, 8, Access::Read) {
        Err(cause) => Plan::Stop(cause),
        Ok(at) => {
            let stores = stores_of(&state.domain, &run.due);
            let to = word_after(&state.domain, &state.memory, &stores, at);
            return_to(code, state, run, &to, reply)
        }
    }
}

/// The plan of a call of a function with its reply.
pub(crate) fn answer_call<D: Domain, C: Code<D>>(
    code: &C,
    state: &State<D, C::Point>,
    run: &mut Running<D::Word>,
    reply: &Reply<D::Word, D::Byte>,
) -> Plan<C::Point>
    requires placed { FitRows (rows_of state.now.memory) (dues_of run.old.due) }
    requires words { AreWords (dues_of run.old.due) }
    ensures outcome { let dom = domain_over D.over in let ops = D.over (D.placed state.now.domain) in let prog = C.program code.now in let m = machine_of state.now in
        plan_outcome dom ops (Some (reply_value reply.now)) m (running_of run.new) result ≡ Steps.import_outcome dom ops prog (with_run ops m (running_of run.old) m.point) (reply_value reply.now) reply.now.end }
    ensures plan { IsPlan (rows_of state.now.memory) (Some (reply_value reply.now)) (dues_of run.new.due) result }
{
    match reply.end {
        Some(end) => {
            let changes = follow_call::<D, C>(state, run, reply);
            ended(changes, state.point, end)
        }
        None => return_from(code, state, run, reply),
    }
}
