//! The addresses of lines.

ghost use Rattle.std.specs.Prelude.{◌≡◌, ◌+◌, ◌-◌, ◌<◌, ◌^◌, All, IfOk, length, slice_index};
ghost use Rattle.rw_layout.specs.Places.{ArePlaced};
ghost use Rattle.rw_layout.specs.Program.{IsText, seen, shown};
ghost use Rattle.rw_layout.specs.Rule.{placed_size_of};

use crate::units::{begins_unit, placed_size};
use asm_items::Item;
use asm_read::Text;
use std::alloc::{AllocError, Global};

// The base of the unit that began last, of so many.
fn last_base(units: &[u64], begun: usize) -> u64
    ensures { result ≡ slice_index units.now (begun - 1) }
{
    match units.get(begun.saturating_sub(1)) {
        Some(base) => *base,
        None => 0,
    }
}

/// The address of each line, by the bases of the units.
pub(crate) fn line_addresses(
    alloc: Global,
    text: &Text,
    units: &[u64],
) -> Result<Vec<u64>, AllocError>
    requires low { All (λ base. base < 2 ^ 62) units.now }
    requires fits { placed_size_of (shown (seen text.now)) < 2 ^ 62 }
    ensures { IfOk result (λ list. ArePlaced list.items units.now (shown (seen text.now)) (length text.now.items.items)) }
{
    let mut list = Vec::with_capacity(alloc, text.items.len())?;
    let mut begun = 0;
    let mut before = 0;
    for item in &text.items {
        list.push(last_base(units, begun) + before)?;
        if begins_unit(item) {
            begun += 1;
            before = 0;
        } else {
            before += placed_size(item);
        }
    }
    Ok(list)
}
