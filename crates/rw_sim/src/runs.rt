//! A run of a simulation: one step after another.

ghost use Rattle.std.specs.Prelude.{◌≡◌, ℕ, List};
ghost use Rattle.rw_machine.specs.State.{domain_over};
ghost use Rattle.rw_sim.specs.Exchanges.{Takes};
ghost use Rattle.rw_sim.specs.Trace.{RunsTo};
ghost use Rattle.rw_sim.specs.World.{outside, world_of};

use crate::advance::{Advance, StepError};
use crate::allots::Allots;
use crate::asking::Named;
use crate::simulation::Simulation;
use crate::steps::answered_step;
use rw_domain::Cause;
use rw_io::{Sink, Source};
use rw_machine::End;
use std::alloc::Global;

/// Why no step follows in a run.
#[derive(Clone, Copy, Debug, PartialEq, Eq)]
pub enum RunEnd {
    /// The last step that was made ended the run.
    Ended(End),
    /// The next step can't be made, or its call has no answer.
    Stopped(Cause),
    /// There is no fuel left.
    Fuel,
    /// The input could not be read for the next step.
    ReadFault,
    /// The bytes of the last step that was made could not be written.
    WriteFault,
    /// There was no memory for the next step.
    Memory,
}

/// How a run came out.
#[derive(Clone, Copy, Debug, PartialEq, Eq)]
pub struct Finish {
    /// How many steps were made.
    pub steps: u64,
    /// Why no more were.
    pub end: RunEnd,
}

impl Finish {
    /// A run that came out so after some steps.
    fn after(steps: u64, end: RunEnd) -> Finish
        ensures steps { result.steps ≡ steps }
        ensures end { result.end ≡ end }
    {
        Finish { steps, end }
    }
}

/// Runs a simulation until a step ends it, stops or fails, or as many steps are made as there is fuel. A step that ends the run
/// is made, and counted; one that stops isn't.
///
/// What the steps read, and what they write to descriptors 1 and 2, is that of `answered_step`, as it comes. The machine is left
/// as the last step that was made left it.
pub fn run_steps<D: Allots, C: Named<D>, I: Source, O: Sink, E: Sink>(
    alloc: Global,
    code: &C,
    simulation: &mut Simulation<D, C::Point>,
    fuel: u64,
    input: &mut I,
    out: &mut O,
    err: &mut E,
) -> Finish
    ensures ends { RunsTo (domain_over D.over) (C.program code.now) (C.names code.now) D.first_byte fuel
        (world_of simulation.old (outside I.left I.faults input.old) (outside O.held O.faults out.old) (outside E.held E.faults err.old))
        (world_of simulation.new (outside I.left I.faults input.new) (outside O.held O.faults out.new) (outside E.held E.faults err.new)) result.steps result.end }
    ensures takes { (pieces : List (List ℕ)) × Takes
        (world_of simulation.old (outside I.left I.faults input.old) (outside O.held O.faults out.old) (outside E.held E.faults err.old))
        (world_of simulation.new (outside I.left I.faults input.new) (outside O.held O.faults out.new) (outside E.held E.faults err.new)) pieces }
{
    for steps in 0..fuel {
        match answered_step(alloc, code, simulation, input, out, err) {
            Ok(Advance::Moved) => {}
            Ok(Advance::Ended(ending)) => return Finish::after(steps + 1, RunEnd::Ended(ending)),
            Ok(Advance::Stopped(cause)) => return Finish::after(steps, RunEnd::Stopped(cause)),
            Err(StepError::ReadFault) => return Finish::after(steps, RunEnd::ReadFault),
            Err(StepError::WriteFault) => return Finish::after(steps + 1, RunEnd::WriteFault),
            Err(StepError::Memory) => return Finish::after(steps, RunEnd::Memory),
        }
    }
    Finish::after(fuel, RunEnd::Fuel)
}
