//! One step of a simulation.

ghost use Rattle.std.specs.Prelude.{◌≡◌, ◌≤◌, ◌+◌, ℕ, IfOk, IfSome, OnErr, Some, Ok};
ghost use Rattle.rw_domain.specs.Placed.{Placed};
ghost use Rattle.rw_machine.specs.Events as Events;
ghost use Rattle.rw_machine.specs.Replying.{AreInside};
ghost use Rattle.rw_machine.specs.State.{domain_over, machine_of, event_of, reply_value};
ghost use Rattle.rw_machine.specs.Step.{Asks, step_of, reply_of};
ghost use Rattle.rw_sim.specs.AnsweredStep.{Comes, StaysAt, bytes_of, callee_of, outcome_of_advance};
ghost use Rattle.rw_sim.specs.Answers.{answer_value};
ghost use Rattle.rw_sim.specs.Asking.{answer_to, fresh_sizes};
ghost use Rattle.rw_sim.specs.Fresh.{fresh_base};
ghost use Rattle.rw_sim.specs.FreshRegions.{Grows};
ghost use Rattle.rw_sim.specs.Pieces.{piece_value};
ghost use Rattle.rw_sim.specs.Replies.{reply_of_answer};
ghost use Rattle.rw_sim.specs.World.{outside, world_of};

use crate::advance::{Advance, StepError};
use crate::allots::Allots;
use crate::answer::{Answer, Refused};
use crate::asked::Asked;
use crate::asking::{Named, answer_to};
use crate::callee::Callee;
use crate::fresh::Fresh;
use crate::pieces::{parted, piece_for, send};
use crate::simulation::Simulation;
use rw_domain::{Domain, Region};
use rw_io::{Sink, Source};
use rw_machine::{Answer as Outcome, Event, Reply, step};
use std::alloc::{AllocError, Global};

/// The regions that came so far, with that of a reply, if it brings one.
fn grown(fresh: Fresh, region: Option<(Region, u64)>) -> Fresh
    requires { IfSome region (λ f. (1 ≤ f.0.size) × (fresh.bytes + f.0.size ≤ 67108864)) }
    ensures { Grows fresh result region }
{
    match region {
        Some((region, _)) => fresh.with(region.size),
        None => fresh,
    }
}

/// Makes the whole step of a machine that asks, with a reply. One that stops, or finds no memory, leaves the machine as it was.
fn carry_out<D: Domain, C: Named<D>>(
    alloc: Global,
    code: &C,
    simulation: &mut Simulation<D, C::Point>,
    reply: &Reply<D::Word, D::Byte>,
) -> Result<Advance, AllocError>
    requires asks { (event : Events.Event D.Word) × (step_of (domain_over D.over) (C.program code.now) (machine_of simulation.old.state) ≡ Asks event) }
    requires writes { AreInside (machine_of simulation.old.state).placed.regions (reply_value reply.now).writes }
    requires fresh { IfSome reply.now.fresh (λ f. (1 ≤ f.0.size) × (simulation.old.fresh.bytes + f.0.size ≤ 67108864)) }
    ensures comes { IfOk result (λ advance. outcome_of_advance advance (machine_of simulation.new.state) ≡ reply_of (domain_over D.over) (C.program code.now) (machine_of simulation.old.state) (reply_value reply.now)) }
    ensures stays { IfOk result (λ advance. StaysAt advance (machine_of simulation.old.state) (machine_of simulation.new.state)) }
    ensures err { OnErr result (machine_of simulation.new.state ≡ machine_of simulation.old.state) }
    ensures reads { simulation.new.reads ≡ simulation.old.reads }
{
    let brings = reply.fresh;
    match rw_machine::reply(alloc, code, &mut simulation.state, reply)? {
        Outcome::Moved => {
            simulation.fresh = grown(simulation.fresh, brings);
            Ok(Advance::Moved)
        }
        Outcome::Ended(end) => {
            simulation.fresh = grown(simulation.fresh, brings);
            Ok(Advance::Ended(end))
        }
        Outcome::Stopped(cause) => Ok(Advance::Stopped(cause)),
        Outcome::Asks(_) => unreachable!(),
    }
}

/// What an event is a call of, and the reply of an answer to it.
fn reply_to<D: Allots, P: Copy>(
    alloc: Global,
    simulation: &Simulation<D, P>,
    event: &Event<D::Word>,
    answer: Answer<D::Word, D::Byte>,
    piece: &Option<Vec<u8>>,
) -> Result<Reply<D::Word, D::Byte>, AllocError>
    ensures { let m = machine_of simulation.now.state in let ops = D.over m.placed in
        IfOk result (λ reply. reply_value reply ≡ reply_of_answer ops (callee_of (event_of ops m.memory event.now).call) (D.first_byte m.placed (fresh_base (fresh_sizes m.placed))) (bytes_of (piece_value piece.now)) (answer_value answer)) }
{
    let (callee, words) = match event {
        Event::System(_, words, _) => (Callee::System, *words),
        Event::Import(_, words) => (Callee::Import, *words),
    };
    let asked = Asked::new(&simulation.state, words, None);
    let base = simulation.fresh.base();
    match piece {
        Some(piece) => asked.reply(alloc, callee, answer, base, piece.as_slice()),
        None => asked.reply(alloc, callee, answer, base, &[]),
    }
}

/// Carries out an answer: reads for it, makes the step with its reply, and writes what it sends.
fn follow<D: Allots, C: Named<D>, I: Source, O: Sink, E: Sink>(
    alloc: Global,
    code: &C,
    simulation: &mut Simulation<D, C::Point>,
    event: &Event<D::Word>,
    answer: Answer<D::Word, D::Byte>,
    input: &mut I,
    out: &mut O,
    err: &mut E,
) -> Result<Advance, StepError>
    requires asks { let m = machine_of simulation.old.state in step_of (domain_over D.over) (C.program code.now) m ≡ Asks (event_of (D.over m.placed) m.memory event.now) }
    requires answers { let m = machine_of simulation.old.state in answer_to (domain_over D.over) (C.program code.now) m (C.names code.now) (event_of (D.over m.placed) m.memory event.now) ≡ Ok (answer_value answer) }
    ensures { Comes (domain_over D.over) (C.program code.now) (C.names code.now) D.first_byte
        (world_of simulation.old (outside I.left I.faults input.old) (outside O.held O.faults out.old) (outside E.held E.faults err.old))
        (world_of simulation.new (outside I.left I.faults input.new) (outside O.held O.faults out.new) (outside E.held E.faults err.new)) result }
{
    let piece = piece_for(alloc, &answer, &mut simulation.reads, input)?;
    let (answer, sent) = parted(answer);
    let reply = reply_to(alloc, simulation, event, answer, &piece)?;
    let advance = carry_out(alloc, code, simulation, &reply)?;
    if advance.is_stopped() {
        return Ok(advance);
    }
    send(&sent, out, err)?;
    Ok(advance)
}

/// One step of a simulation: the machine's step, and where it asks, the whole step with the built-in answer.
///
/// An answer that takes bytes reads one piece of the input, by one read. What an answer sends to descriptor 1 goes to `out`, and
/// what it sends to descriptor 2 to `err`, once the step is made. A step that stops isn't made: the machine stays as it was, and
/// nothing is written; a piece that was read for it is gone all the same.
///
/// # Errors
///
/// [`StepError::ReadFault`] only where the count of `input` rose, and [`StepError::WriteFault`] only where that of `out` or `err`
/// rose; [`StepError::Memory`] for want of memory. What stands then, each variant says.
pub fn answered_step<D: Allots, C: Named<D>, I: Source, O: Sink, E: Sink>(
    alloc: Global,
    code: &C,
    simulation: &mut Simulation<D, C::Point>,
    input: &mut I,
    out: &mut O,
    err: &mut E,
) -> Result<Advance, StepError>
    ensures comes { Comes (domain_over D.over) (C.program code.now) (C.names code.now) D.first_byte
        (world_of simulation.old (outside I.left I.faults input.old) (outside O.held O.faults out.old) (outside E.held E.faults err.old))
        (world_of simulation.new (outside I.left I.faults input.new) (outside O.held O.faults out.new) (outside E.held E.faults err.new)) result }
{
    match step(alloc, code, &mut simulation.state)? {
        Outcome::Moved => Ok(Advance::Moved),
        Outcome::Ended(end) => Ok(Advance::Ended(end)),
        Outcome::Stopped(cause) => Ok(Advance::Stopped(cause)),
        Outcome::Asks(event) => {
            let fresh = simulation.fresh.bytes();
            match answer_to(alloc, code, &simulation.state, &event, fresh) {
                Ok(answer) => follow(alloc, code, simulation, &event, answer, input, out, err),
                Err(Refused::Stops(cause)) => Ok(Advance::Stopped(cause)),
                Err(Refused::Memory) => Err(StepError::Memory),
            }
        }
    }
}
