//! The copies of a text.

ghost use Rattle.std.specs.Prelude.{◌≡◌, IfOk, List, ℕ, map};
ghost use Rattle.asm_items.specs.Lines.{copies_of};
ghost use Rattle.asm_items.specs.Named.{named};
ghost use Rattle.rw_layout.specs.Program.{seen, shown};
ghost use Rattle.rw_layout.specs.Rule.{copy_extent};
ghost use Rattle.rw_layout.specs.Units.{extent_of};
ghost use Rattle.rw_layout.specs.Units as units;

use crate::units::{LEAST_ALIGN, Room};
use asm_items::Item;
use asm_read::Text;
use std::alloc::{AllocError, Global};

// The room of a copy, if the line is one.
fn copy_room(item: &Item) -> Option<Room>
    ensures { result ≡ units.copy_room item.now }
{
    match item {
        Item::Copy(_, size) => Some(Room {
            size: *size,
            align: LEAST_ALIGN,
        }),
        _ => None,
    }
}

/// The copies of a text, in its order.
pub(crate) fn copy_rooms(alloc: Global, text: &Text) -> Result<Vec<Room>, AllocError>
    ensures { IfOk result (λ rooms. map extent_of rooms.items ≡ map copy_extent (copies_of (shown (seen text.now)))) }
{
    let mut rooms = Vec::new(alloc);
    for i in 0..text.items.len() {
        if let Some(room) = copy_room(&text.items[i]) {
            rooms.push(room)?;
        }
    }
    Ok(rooms)
}
