//! Where what is placed one after another lies.

ghost use Rattle.std.specs.Prelude.{◌≡◌, ◌<◌, ◌^◌, All, IfOk, map};
ghost use Rattle.rw_layout.specs.Rule.{bases_from, behind_all};
ghost use Rattle.rw_layout.specs.Units.{extent_of};

use crate::units::Room;
use std::alloc::{AllocError, Global};

/// Where each begins that is placed, and where the cursor is behind the last.
#[derive(Drop)]
pub(crate) struct Bases {
    pub(crate) list: Vec<u64>,
    pub(crate) end: u64,
}

/// The bases of these, one after another from a cursor on, with a gap behind each.
pub(crate) fn place(
    alloc: Global,
    rooms: &[Room],
    gap: u64,
    cursor: u64,
) -> Result<Bases, AllocError>
    requires aligned { All (λ room. 0 < room.align) rooms.now }
    requires fits { behind_all gap cursor (map extent_of rooms.now) < 2 ^ 64 }
    ensures list { IfOk result (λ bases. bases.list.items ≡ bases_from gap cursor (map extent_of rooms.now)) }
    ensures end { IfOk result (λ bases. bases.end ≡ behind_all gap cursor (map extent_of rooms.now)) }
{
    let mut list = Vec::with_capacity(alloc, rooms.len())?;
    let mut end = cursor;
    for room in rooms {
        let base = end.next_multiple_of(room.align);
        list.push(base)?;
        end = base + room.size + gap;
    }
    Ok(Bases { list, end })
}
