//! What is forgotten below the stack pointer.

ghost use Rattle.std.specs.Prelude.{◌≡◌, Option, Some, None, List, if◌then◌else◌};
ghost use Rattle.rw_domain.specs.declared.place.Access.TheVariants.{Read};
ghost use Rattle.rw_machine.specs.Replying.{forgotten_to, IsReached};
ghost use Rattle.rw_machine.specs.Running.{undefined_byte};
ghost use Rattle.rw_machine.specs.Step.{row_forgotten};
ghost use Rattle.rw_machine.specs.Views.{IsLaidOut};

use rw_domain::{Access, Domain, Place};

/// The last place of the stack that is forgotten, at a distance from the stack pointer, where the domain forgets.
pub(crate) fn lost_place<D: Domain>(domain: &D, rsp: &D::Word, distance: i32) -> Option<Place>
    ensures rows { let ops = D.over (D.placed domain.now) in (rows : List (List D.Byte))
        → forgotten_to (undefined_byte ops) result rows ≡ (if ops.forgets then row_forgotten ops rows (ops.place (ops.sum (Some rsp.now) None distance) 1 Read) else rows) }
    ensures reached { (rows : List (List D.Byte)) → IsLaidOut (D.placed domain.now).regions rows → IsReached rows result }
{
    if !domain.forgets() {
        return None;
    }
    let end = domain.sum(Some(*rsp), None, distance);
    match domain.place(&end, 1, Access::Read) {
        Ok(place) if place.region == domain.stack() => Some(place),
        _ => None,
    }
}
