//! Steps, up to their events and with replies.

ghost use Rattle.std.specs.Prelude.{◌≡◌, Option, Some, None, List, option_map, IfOk, IsOk, OnErr, IfSome};
ghost use Rattle.std.specs.List.{list_any};
ghost use Rattle.std.specs.Option.{option_copied};
ghost use Rattle.x86_insn.specs.References.{reference_of};
ghost use Rattle.x86_meaning.specs.Meaning.{micro_of};
ghost use Rattle.rw_domain.specs.Operators.{Operators};
ghost use Rattle.rw_domain.specs.Placed.{Placed};
ghost use Rattle.rw_machine.specs.Replying.{AreInside, FitsFresh};
ghost use Rattle.rw_machine.specs.Due.{FitRows, AreWords};
ghost use Rattle.rw_machine.specs.Events as Events;
ghost use Rattle.rw_machine.specs.Operations.{takes_next, takes_reference};
ghost use Rattle.rw_machine.specs.Plans.{plan_outcome, with_run, answer_at, IsPlan, IsFit, Makes, given_reply};
ghost use Rattle.rw_machine.specs.Program.{Program, Domains};
ghost use Rattle.rw_machine.specs.declared.running.Dues.TheVariants.{Nothing};
ghost use Rattle.rw_machine.specs.declared.ending.End.TheVariants.{Trapped};
ghost use Rattle.rw_machine.specs.State.{domain_over, machine_of, reply_value, outcome_of, Stays, IsMade};
ghost use Rattle.rw_machine.specs.Step as Steps;
ghost use Rattle.rw_machine.specs.Views.{registers_of, rows_of, running_of, dues_of};

use crate::asks::{Query, event_of, system_query};
use crate::carry::carry_out;
use crate::code::Code;
use crate::context::Context;
use crate::ending::{End, Trap};
use crate::event::{Answer, Reply};
use crate::goal::Goal;
use crate::plan::{Changes, Plan, close_at, return_out};
use crate::registers::Registers;
use crate::replies::{answer_call, answer_system};
use crate::running::{Ask, Dues, Here, Running};
use crate::state::State;
use rw_base::Width;
use rw_domain::{Cause, Domain, Eight, Flags};
use std::alloc::{AllocError, Global};
use x86_insn::Insn;
use x86_meaning::{Micro, micro};

/// A list takes the word of the next point.
fn uses_next(list: &[Micro]) -> bool
    ensures { result ≡ list_any takes_next list.now }
{
    list.iter().any(|m| matches!(m, Micro::Next { .. }))
}

/// A list takes the word of the reference, as a direct target or as an address.
fn uses_reference(list: &[Micro], direct: bool) -> bool
    ensures { result ≡ list_any (takes_reference direct) list.now }
{
    list.iter().any(|m| takes_reference(m, direct))
}

fn takes_reference(m: &Micro, as_target: bool) -> bool
    ensures { result ≡ takes_reference as_target m.now }
{
    match m {
        Micro::Ref { direct, .. } => *direct == as_target,
        _ => false,
    }
}

/// The word of an instruction's reference, if it has one.
fn resolved<D: Domain, C: Code<D>>(
    domain: &D,
    code: &C,
    insn: &Insn<C::Ref>,
    direct: bool,
) -> D::Word
    ensures { result ≡ Steps.resolved_word (domain_over D.over) (D.over (D.placed domain.now)) (C.program code.now) (reference_of insn.now) direct }
{
    match insn.reference() {
        Some(r) => code.resolve(r, direct),
        None => domain.undef(Width::Q),
    }
}

/// What an instruction's list takes of its point. What it doesn't take is undefined, and isn't looked up.
fn here_at<D: Domain, C: Code<D>>(
    domain: &D,
    code: &C,
    p: C::Point,
    insn: &Insn<C::Ref>,
    list: &[Micro],
) -> Here<D::Word>
    requires { list.now ≡ micro_of insn.now }
    ensures { result ≡ Steps.here_at (domain_over D.over) (D.over (D.placed domain.now)) (C.program code.now) p insn.now }
{
    Here {
        next: if uses_next(list) {
            code.address_of(code.next(p))
        } else {
            domain.undef(Width::Q)
        },
        direct: if uses_reference(list, true) {
            resolved(domain, code, insn, true)
        } else {
            domain.undef(Width::Q)
        },
        indirect: if uses_reference(list, false) {
            resolved(domain, code, insn, false)
        } else {
            domain.undef(Width::Q)
        },
    }
}

/// What the instruction at a state's point has done at its beginning: nothing.
fn first_running<D: Domain, P: Copy>(state: &State<D, P>) -> Running<D::Word>
    ensures { let m = machine_of state.now in running_of result ≡ Steps.first_running (D.over m.placed) m.registers m.flags }
{
    let undefined = state.domain.undef(Width::Q);
    Running {
        temps: Eight {
            b0: undefined,
            b1: undefined,
            b2: undefined,
            b3: undefined,
            b4: undefined,
            b5: undefined,
            b6: undefined,
            b7: undefined,
        },
        registers: state.registers,
        flags: state.flags,
        due: Dues::Nothing,
        goal: None,
        ask: None,
        cause: None,
    }
}

/// Where an instruction leads: to its goal, or to the next point.
fn goal_of<D: Domain, C: Code<D>>(
    code: &C,
    state: &State<D, C::Point>,
    goal: &Option<D::Word>,
) -> Result<Goal<C::Point>, Cause>
    ensures { let m = machine_of state.now in result ≡ Steps.goal_of (domain_over D.over) (D.over m.placed) (C.program code.now) m.point goal.now }
{
    match goal {
        None => Ok(Goal::At(code.next(state.point))),
        Some(w) => code.target(w),
    }
}

/// Flags after an instruction: calls, returns and indirect jumps leave none known where the domain forgets.
fn flags_left<D: Domain, R: Copy>(domain: &D, insn: &Insn<R>, flags: Flags) -> Flags
    ensures { result ≡ Steps.flags_left (D.over (D.placed domain.now)) insn.now flags }
{
    let loses = matches!(
        insn,
        Insn::Call { .. } | Insn::CallTo { .. } | Insn::JmpTo { .. } | Insn::Ret
    );
    if loses && domain.forgets() {
        Flags::UNKNOWN
    } else {
        flags
    }
}

/// Runs the small operations of the instruction at a state's point.
fn run_insn<D: Domain, C: Code<D>>(
    code: &C,
    state: &State<D, C::Point>,
    insn: &Insn<C::Ref>,
    run: &mut Running<D::Word>,
)
    requires { let m = machine_of state.now in running_of run.old ≡ Steps.first_running (D.over m.placed) m.registers m.flags }
    ensures run { let ops = D.over (D.placed state.now.domain) in let m = machine_of state.now in
        running_of run.new ≡ Steps.run_of (domain_over D.over) ops (C.program code.now) m insn.now }
    ensures placed { FitRows (rows_of state.now.memory) (dues_of run.new.due) }
    ensures words { (w : D.Word) → run.new.goal ≡ Some w → AreWords (dues_of run.new.due) }
{
    let list = micro(insn);
    let context = Context {
        domain: &state.domain,
        memory: &state.memory,
        here: here_at(&state.domain, code, state.point, insn, list.as_slice()),
    };
    context.run_all(list.as_slice(), run);
}

/// The plan of an instruction that enters an imported symbol: it asks, or follows a reply.
fn enter<D: Domain, C: Code<D>>(
    code: &C,
    state: &State<D, C::Point>,
    run: &mut Running<D::Word>,
    symbol: u32,
    reply: Option<&Reply<D::Word, D::Byte>>,
) -> Plan<C::Point>
    requires placed { FitRows (rows_of state.now.memory) (dues_of run.old.due) }
    requires words { AreWords (dues_of run.old.due) }
    ensures outcome { let dom = domain_over D.over in let m = machine_of state.now in let ops = D.over m.placed in let prog = C.program code.now in
        plan_outcome dom ops (given_reply (option_copied reply.entry)) m (running_of run.new) result ≡ Steps.entered_outcome dom ops prog (with_run ops m (running_of run.old) m.point) symbol (given_reply (option_copied reply.entry)) }
    ensures plan { IsPlan (rows_of state.now.memory) (given_reply (option_copied reply.entry)) (dues_of run.new.due) result }
{
    match reply {
        None => Plan::Ask(Query::Import(symbol)),
        Some(reply) => answer_call(code, state, run, reply),
    }
}

/// The plan to go where an instruction leads.
fn reach<D: Domain, C: Code<D>>(
    code: &C,
    state: &State<D, C::Point>,
    insn: &Insn<C::Ref>,
    run: &mut Running<D::Word>,
    reply: Option<&Reply<D::Word, D::Byte>>,
) -> Plan<C::Point>
    requires placed { FitRows (rows_of state.now.memory) (dues_of run.old.due) }
    requires words { (w : D.Word) → run.old.goal ≡ Some w → AreWords (dues_of run.old.due) }
    ensures outcome { let dom = domain_over D.over in let m = machine_of state.now in let ops = D.over m.placed in let prog = C.program code.now in
        plan_outcome dom ops (given_reply (option_copied reply.entry)) m (running_of run.new) result ≡ Steps.reached_outcome dom ops prog m (given_reply (option_copied reply.entry)) insn.now (running_of run.old) (Steps.goal_of dom ops prog m.point run.old.goal) }
    ensures plan { IsPlan (rows_of state.now.memory) (given_reply (option_copied reply.entry)) (dues_of run.new.due) result }
{
    run.flags = flags_left(&state.domain, insn, run.flags);
    match goal_of(code, state, &run.goal) {
        Err(cause) => Plan::Stop(cause),
        Ok(Goal::At(p)) => close_at(state, run, Changes::Due, p, None),
        Ok(Goal::Finish) => return_out(state, run, Changes::Due),
        Ok(Goal::Import(symbol)) => enter(code, state, run, symbol, reply),
    }
}

/// The plan of a system call: it asks, or follows a reply.
fn serve<D: Domain, C: Code<D>>(
    code: &C,
    state: &State<D, C::Point>,
    run: &mut Running<D::Word>,
    reply: Option<&Reply<D::Word, D::Byte>>,
) -> Plan<C::Point>
    ensures outcome { let dom = domain_over D.over in let m = machine_of state.now in let ops = D.over m.placed in let prog = C.program code.now in
        plan_outcome dom ops (given_reply (option_copied reply.entry)) m (running_of run.new) result ≡ Steps.served_outcome dom ops prog m (given_reply (option_copied reply.entry)) (Events.system_event ops m.registers m.memory) }
    ensures plan { IsPlan (rows_of state.now.memory) (given_reply (option_copied reply.entry)) (dues_of run.new.due) result }
{
    *run = first_running(state);
    match (
        system_query(&state.domain, &state.registers, &state.memory),
        reply,
    ) {
        (Err(cause), _) => Plan::Stop(cause),
        (Ok(query), None) => Plan::Ask(query),
        (Ok(_), Some(reply)) => answer_system(code, state, run, reply),
    }
}

/// The plan of a trap, which changes nothing.
fn halt<D: Domain, P: Copy>(state: &State<D, P>, run: &mut Running<D::Word>, kind: Trap) -> Plan<P>
    ensures outcome { let m = machine_of state.now in let ops = D.over m.placed in (reply : Option (Events.Reply D.Word D.Byte))
        → plan_outcome (domain_over D.over) ops reply m (running_of run.new) result ≡ Steps.finished_outcome ops m (Trapped kind) }
    ensures plan { (reply : Option (Events.Reply D.Word D.Byte)) → IsPlan (rows_of state.now.memory) reply (dues_of run.new.due) result }
{
    *run = first_running(state);
    close_at(
        state,
        run,
        Changes::Due,
        state.point,
        Some(End::Trapped(kind)),
    )
}

/// The plan of an instruction that has no cause to stop.
fn ask<D: Domain, C: Code<D>>(
    code: &C,
    state: &State<D, C::Point>,
    insn: &Insn<C::Ref>,
    run: &mut Running<D::Word>,
    reply: Option<&Reply<D::Word, D::Byte>>,
) -> Plan<C::Point>
    requires placed { FitRows (rows_of state.now.memory) (dues_of run.old.due) }
    requires words { (w : D.Word) → run.old.goal ≡ Some w → AreWords (dues_of run.old.due) }
    ensures outcome { let dom = domain_over D.over in let m = machine_of state.now in let ops = D.over m.placed in let prog = C.program code.now in
        plan_outcome dom ops (given_reply (option_copied reply.entry)) m (running_of run.new) result ≡ Steps.asked_outcome dom ops prog m (given_reply (option_copied reply.entry)) insn.now (running_of run.old) run.old.ask }
    ensures plan { IsPlan (rows_of state.now.memory) (given_reply (option_copied reply.entry)) (dues_of run.new.due) result }
{
    match run.ask {
        None => reach(code, state, insn, run, reply),
        Some(Ask::Serve) => serve(code, state, run, reply),
        Some(Ask::Halt(kind)) => halt(state, run, kind),
    }
}

/// The plan of an instruction, which is run first.
fn decide<D: Domain, C: Code<D>>(
    code: &C,
    state: &State<D, C::Point>,
    insn: &Insn<C::Ref>,
    run: &mut Running<D::Word>,
    reply: Option<&Reply<D::Word, D::Byte>>,
) -> Plan<C::Point>
    requires { let m = machine_of state.now in running_of run.old ≡ Steps.first_running (D.over m.placed) m.registers m.flags }
    ensures outcome { let dom = domain_over D.over in let m = machine_of state.now in let ops = D.over m.placed in let prog = C.program code.now in
        plan_outcome dom ops (given_reply (option_copied reply.entry)) m (running_of run.new) result ≡ Steps.insn_outcome dom ops prog m (given_reply (option_copied reply.entry)) (Some insn.now) }
    ensures plan { IsPlan (rows_of state.now.memory) (given_reply (option_copied reply.entry)) (dues_of run.new.due) result }
{
    run_insn(code, state, insn, run);
    match run.cause {
        Some(cause) => Plan::Stop(cause),
        None => ask(code, state, insn, run, reply),
    }
}

/// What a step will do, with a reply or none.
fn plan_of<D: Domain, C: Code<D>>(
    code: &C,
    state: &State<D, C::Point>,
    run: &mut Running<D::Word>,
    reply: Option<&Reply<D::Word, D::Byte>>,
) -> Plan<C::Point>
    requires { let m = machine_of state.now in running_of run.old ≡ Steps.first_running (D.over m.placed) m.registers m.flags }
    ensures outcome { let dom = domain_over D.over in let m = machine_of state.now in let ops = D.over m.placed in let prog = C.program code.now in
        plan_outcome dom ops (given_reply (option_copied reply.entry)) m (running_of run.new) result ≡ Steps.step_outcome dom prog m (given_reply (option_copied reply.entry)) }
    ensures plan { IsPlan (rows_of state.now.memory) (given_reply (option_copied reply.entry)) (dues_of run.new.due) result }
{
    match code.insn(state.point) {
        Some(insn) => decide(code, state, &insn, run, reply),
        None => Plan::Stop(Cause::TargetNoPoint),
    }
}

/// The answer of a step that is made.
fn answer_at<W>(end: Option<End>) -> Answer<W>
    ensures { result ≡ answer_at end }
{
    match end {
        Some(end) => Answer::Ended(end),
        None => Answer::Moved,
    }
}

/// Makes a step, with a reply or none.
fn make_step<'a, D: Domain, C: Code<D>>(
    alloc: Global,
    code: &C,
    state: &'a mut State<D, C::Point>,
    reply: Option<&'a Reply<D::Word, D::Byte>>,
) -> Result<Answer<D::Word>, AllocError>
    requires { IfSome (given_reply (option_copied reply)) (IsFit (D.placed state.old.domain).regions (rows_of state.old.memory)) }
    ensures { Makes (Steps.step_outcome (domain_over D.over) (C.program code.now) (machine_of state.old) (given_reply (option_copied reply.entry))) (given_reply (option_copied reply.entry)) state.old state.new result }
{
    let mut run = first_running(state);
    match plan_of(code, state, &mut run, reply) {
        Plan::Stop(cause) => Ok(Answer::Stopped(cause)),
        Plan::Ask(query) => Ok(Answer::Asks(event_of::<D>(query, &run.registers))),
        Plan::Make(changes, closing) => {
            carry_out(alloc, state, &run, changes, &closing, reply)?;
            Ok(answer_at(closing.end))
        }
    }
}

/// One step of a machine, up to its event. A step that asks or stops changes nothing, and no step takes memory.
pub fn step<D: Domain, C: Code<D>>(
    alloc: Global,
    code: &C,
    state: &mut State<D, C::Point>,
) -> Result<Answer<D::Word>, AllocError>
    ensures outcome { let dom = domain_over D.over in let ops = D.over (D.placed state.old.domain) in let prog = C.program code.now in let m = machine_of state.old in
        IfOk result (λ answer. outcome_of ops m answer (machine_of state.new) ≡ Steps.step_of dom prog m) }
    ensures stays { IfOk result (λ answer. Stays answer state.old state.new) }
    ensures domain { state.new.domain ≡ state.old.domain }
    ensures made { IsOk result }
{
    make_step(alloc, code, state, None)
}

/// The whole step of a machine that asks, with its answer: its writes, its result and the lost registers are put, its
/// region is added, and a function returns. An answer with an end ends the run. It never asks. Where it stops, nothing
/// changes, and after want of memory the machine is as it was: it still asks. A machine that doesn't ask makes its step.
///
/// An answer has a scratch word for each lost register; an absent one is undefined.
pub fn reply<D: Domain, C: Code<D>>(
    alloc: Global,
    code: &C,
    state: &mut State<D, C::Point>,
    reply: &Reply<D::Word, D::Byte>,
) -> Result<Answer<D::Word>, AllocError>
    requires fresh { FitsFresh (D.placed state.old.domain).regions reply.now.fresh }
    requires writes { AreInside (D.placed state.old.domain).regions (reply_value reply.now).writes }
    ensures outcome { let dom = domain_over D.over in let m = machine_of state.old in let ops = D.over m.placed in let prog = C.program code.now in
        IfOk result (λ answer. outcome_of ops m answer (machine_of state.new) ≡ Steps.reply_of dom prog m (reply_value reply.now)) }
    ensures made { IfOk result (λ answer. IsMade answer state.old state.new) }
    ensures err { OnErr result (machine_of state.new ≡ machine_of state.old) }
    ensures enough { reply.now.fresh ≡ None → IsOk result }
    ensures domain { reply.now.fresh ≡ None → state.new.domain ≡ state.old.domain }
{
    make_step(alloc, code, state, Some(reply))
}
