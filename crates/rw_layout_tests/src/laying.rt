//! Programs that are laid out.

ghost use Rattle.std.specs.Prelude.{◌≡◌, ◌^◌, ◌≤◌, ℕ, List, IfOk};
ghost use Rattle.rw_layout.specs.Places.{IsLaidBy};
ghost use Rattle.rw_layout.specs.Program.{shown};
ghost use Rattle.rw_layout.specs.Rule.{layout_of};

use asm_items::Sym;
use rw_layout::{Layout, LayoutError, Order, Program, layout};
use std::alloc::{AllocError, Global};
use std::process::Abort;

/// The layout of a small program, or the symbol and the distance that are out of reach.
pub fn laid_out(
    rt: &impl Abort,
    alloc: Global,
    program: &Program,
    order: Order,
    gap: u32,
) -> Result<Result<Layout, (Sym, i64)>, AllocError>
    requires { gap ≤ 2 ^ 20 }
    ensures { IfOk result (λ outcome. IfOk outcome (λ laid. (sizes : List ℕ) → IsLaidBy (shown program.now) program.now.names (layout_of (shown program.now) order gap sizes) laid)) }
{
    assert!(rt; program.text().items.len() < 1_000_000);
    match layout(alloc, program, order, gap) {
        Ok(layout) => Ok(Ok(layout)),
        Err(LayoutError::OutOfReach(symbol, distance)) => Ok(Err((symbol, distance))),
        Err(LayoutError::Memory) => Err(AllocError),
    }
}
