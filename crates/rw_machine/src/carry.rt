//! Plans are carried out.

ghost use Rattle.std.specs.Prelude.{◌≡◌, ◌++◌, Option, Some, None, IsOk, IfOk, IfSome, map, OnOk, OnErr, Ok};
ghost use Rattle.std.specs.Option.{option_copied};
ghost use Rattle.rw_machine.specs.Replying.{IsReached, FitsFresh, forgotten_to};
ghost use Rattle.rw_machine.specs.Plans.{closed_machine, changed_machine, given_reply, fresh_in, writes_in, FitChanges, IsFit};
ghost use Rattle.rw_machine.specs.Running.{undefined_byte};
ghost use Rattle.rw_machine.specs.State.{domain_over, machine_of, reply_value};
ghost use Rattle.rw_machine.specs.Step as Steps;
ghost use Rattle.rw_machine.specs.Views.{registers_of, rows_of, running_of, dues_of};

use crate::answers::{stores_of, write_all};
use crate::event::Reply;
use crate::first::first_row;
use crate::plan::{Changes, Closing};
use crate::running::Running;
use crate::state::State;
use crate::stores::write_all_due;
use rw_domain::{Domain, Place, Region};
use std::alloc::{AllocError, Global};

/// Adds a fresh region with its first bytes, if there is one. Want of memory changes nothing.
fn add_fresh<D: Domain, P: Copy>(
    alloc: Global,
    state: &mut State<D, P>,
    fresh: Option<(Region, u64)>,
) -> Result<(), AllocError>
    requires { FitsFresh (D.placed state.old.domain).regions fresh }
    ensures ok { let m = machine_of state.old in
        OnOk result (machine_of state.new ≡ record m { memory = m.memory ++ Steps.fresh_row (D.over m.placed) fresh; placed = Steps.placed_with (domain_over D.over) m.placed fresh }) }
    ensures err { OnErr result (machine_of state.new ≡ machine_of state.old) }
    ensures enough { fresh ≡ None → IsOk result }
    ensures domain { fresh ≡ None → state.new.domain ≡ state.old.domain }
{
    if let Some((region, base)) = fresh {
        let row = first_row(alloc, &state.domain, &region)?;
        state.memory.reserve()?;
        state.domain.add(alloc, region, base)?;
        state.memory.push(row);
    }
    Ok(())
}

/// Closes a step: registers, flags and the point are set, and a region is forgotten up to a place.
fn close<D: Domain, P: Copy>(state: &mut State<D, P>, run: &Running<D::Word>, closing: &Closing<P>)
    requires { IsReached (rows_of state.old.memory) closing.now.sweep }
    ensures machine { let m = machine_of state.old in
        machine_of state.new ≡ record m { registers = registers_of run.now.registers; flags = run.now.flags; memory = forgotten_to state.old.memory.undefined closing.now.sweep m.memory; point = closing.now.point } }
    ensures domain { state.new.domain ≡ state.old.domain }
{
    state.memory.forget(closing.sweep);
    state.registers = run.registers;
    state.flags = run.flags;
    state.point = closing.point;
}

/// The fresh region of a reply, if there is one.
fn fresh_of<W, B>(reply: Option<&Reply<W, B>>) -> Option<(Region, u64)>
    ensures { result ≡ fresh_in (given_reply (option_copied reply.entry)) }
{
    reply?.fresh
}

/// The writes of a reply, if there is one.
fn writes_of<'a, W, B>(reply: Option<&'a Reply<W, B>>) -> &'a [(Place, Vec<B>)]
    ensures { map (λ w. (w.0, w.1.items)) result.now ≡ writes_in (given_reply (option_copied reply.entry)) }
{
    match reply {
        Some(reply) => reply.writes.as_slice(),
        None => &[],
    }
}

/// Makes a planned step, with a reply or none. Want of memory leaves the machine as it was.
pub(crate) fn carry_out<D: Domain, P: Copy>(
    alloc: Global,
    state: &mut State<D, P>,
    run: &Running<D::Word>,
    changes: Changes,
    closing: &Closing<P>,
    reply: Option<&Reply<D::Word, D::Byte>>,
) -> Result<(), AllocError>
    requires fit { IfSome (given_reply (option_copied reply)) (IsFit (D.placed state.old.domain).regions (rows_of state.old.memory)) }
    requires changes { FitChanges (rows_of state.old.memory) (dues_of run.now.due) changes }
    requires sweep { IsReached (rows_of state.old.memory) closing.now.sweep }
    ensures machine { let dom = domain_over D.over in let m = machine_of state.old in let ops = D.over m.placed in
        OnOk result (machine_of state.new ≡ closed_machine ops closing.now (changed_machine dom ops (given_reply (option_copied reply.entry)) (running_of run.now) changes closing.now.point m)) }
    ensures err { OnErr result (machine_of state.new ≡ machine_of state.old) }
    ensures enough { fresh_in (given_reply (option_copied reply.entry)) ≡ None → IsOk result }
    ensures domain { fresh_in (given_reply (option_copied reply.entry)) ≡ None → state.new.domain ≡ state.old.domain }
{
    match changes {
        Changes::Due => {
            write_all_due(&state.domain, &mut state.memory, &run.due);
            close(state, run, closing);
            Ok(())
        }
        Changes::Follow(frame) => {
            let stores = stores_of(&state.domain, &run.due);
            add_fresh(alloc, state, fresh_of(reply))?;
            state.memory.store_all(&stores);
            write_all::<D>(&mut state.memory, writes_of(reply));
            state.memory.forget(frame);
            close(state, run, closing);
            Ok(())
        }
    }
}
