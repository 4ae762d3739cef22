//! Cells that are written into memory.

ghost use Rattle.std.specs.Prelude.{◌≡◌, ◌<◌, ◌+◌, ◌^◌, IfOk, length};
ghost use Rattle.rw_domain.specs.Operators.{IsInside};
ghost use Rattle.rw_machine.specs.Running.{written_at};
ghost use Rattle.rw_machine.specs.State.{machine_of};
ghost use Rattle.rw_machine.specs.Views.{HasRange};

use super::Machine;
use rw_domain::Place;
use rw_words::Cell;
use std::alloc::{AllocError, Global};

/// Writes cells from a place on, inside its region. Nothing else changes.
pub(crate) fn put(
    alloc: Global,
    state: &mut Machine,
    at: Place,
    cells: &[Cell],
) -> Result<(), AllocError>
    requires inside { IsInside (machine_of state.old).placed.regions at (length cells.now) }
    requires range { HasRange (machine_of state.old).memory at (length cells.now) }
    requires near { at.offset + length cells.now < 2 ^ 64 }
    ensures { IfOk result (λ _. machine_of state.new ≡ record (machine_of state.old) { memory = written_at (machine_of state.old).memory at cells.now }) }
{
    for i in 0..cells.len() {
        let place = Place {
            region: at.region,
            offset: at.offset + i as u64,
        };
        state.put(alloc, place, cells[i])?;
    }
    Ok(())
}
