//! What a step will do with what its instruction has done, as it is read from a state before anything is written.

ghost use Rattle.std.specs.Prelude.{◌≡◌, Option, Some, None, List};
ghost use Rattle.rw_machine.specs.Events as Events;
ghost use Rattle.rw_machine.specs.Plans.{closed_outcome, changed_machine, plan_outcome, FitChanges, IsPlan};
ghost use Rattle.rw_machine.specs.State.{domain_over, machine_of};
ghost use Rattle.rw_machine.specs.Step as Steps;
ghost use Rattle.rw_machine.specs.Views.{rows_of, running_of, dues_of};

use crate::asks::Query;
use crate::ending::End;
use crate::running::Running;
use crate::state::State;
use crate::sweep::lost_place;
use rw_base::Width;
use rw_domain::{Cause, Domain, Place};

/// What changes with the registers, the flags and what is due to be written.
#[derive(Clone, Copy)]
pub(crate) enum Changes {
    /// Nothing else.
    Due,
    /// The reply's writes are made, its region is added, and the stack is forgotten up to a place.
    Follow(Option<Place>),
}

/// How a step closes: at which point, up to which place the stack is forgotten, and whether the run ends.
#[derive(Clone, Copy)]
pub(crate) struct Closing<P> {
    pub(crate) point: P,
    pub(crate) sweep: Option<Place>,
    pub(crate) end: Option<End>,
}

/// What a step will do: it stops, asks, or is made with the registers and flags that its instruction leaves.
#[derive(Clone, Copy)]
pub(crate) enum Plan<P> {
    Stop(Cause),
    Ask(Query),
    Make(Changes, Closing<P>),
}

/// The plan to go on at a point or to end, unless the stack pointer is too low.
pub(crate) fn close_at<D: Domain, P: Copy>(
    state: &State<D, P>,
    run: &Running<D::Word>,
    changes: Changes,
    point: P,
    end: Option<End>,
) -> Plan<P>
    ensures outcome { let dom = domain_over D.over in let ops = D.over (D.placed state.now.domain) in let m = machine_of state.now in (reply : Option (Events.Reply D.Word D.Byte))
        → plan_outcome dom ops reply m (running_of run.now) result ≡ closed_outcome ops (changed_machine dom ops reply (running_of run.now) changes point m) end }
    ensures plan { let dues = dues_of run.now.due in (reply : Option (Events.Reply D.Word D.Byte)) → FitChanges (rows_of state.now.memory) dues changes → IsPlan (rows_of state.now.memory) reply dues result }
{
    let rsp = &run.registers.rsp;
    if state.domain.stack_fits(rsp) {
        let closing = Closing {
            point,
            sweep: lost_place(&state.domain, rsp, -129),
            end,
        };
        Plan::Make(changes, closing)
    } else {
        Plan::Stop(Cause::StackLow)
    }
}

/// The plan to end by a return from the program, with the low byte of rax.
pub(crate) fn return_out<D: Domain, P: Copy>(
    state: &State<D, P>,
    run: &Running<D::Word>,
    changes: Changes,
) -> Plan<P>
    ensures outcome { let dom = domain_over D.over in let ops = D.over (D.placed state.now.domain) in let m = machine_of state.now in (reply : Option (Events.Reply D.Word D.Byte))
        → plan_outcome dom ops reply m (running_of run.now) result ≡ Steps.returned_outcome ops (changed_machine dom ops reply (running_of run.now) changes m.point m) }
    ensures plan { let dues = dues_of run.now.due in (reply : Option (Events.Reply D.Word D.Byte)) → FitChanges (rows_of state.now.memory) dues changes → IsPlan (rows_of state.now.memory) reply dues result }
{
    match state.domain.number(Width::Q, run.registers.rax) {
        Some(n) => {
            let end = End::Returned((n % 256) as u8);
            close_at(state, run, changes, state.point, Some(end))
        }
        None => Plan::Stop(Cause::NumberUnknown),
    }
}
