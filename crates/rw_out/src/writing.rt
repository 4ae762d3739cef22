//! An item that is written.

ghost use Rattle.std.specs.Prelude.{◌≡◌, ◌+◌, ◌<◌, ◌≤◌, ◌^◌, IfOk, true};
ghost use Rattle.rw_io.specs.Outside.{HasCause};
ghost use Rattle.asm_items.specs.Named.{named};
ghost use Rattle.asm_items.specs.Formed.{is_item};
ghost use Rattle.asm_print.specs.Text.{line_text};
ghost use Rattle.rw_out.specs.Writing.{WritesOn};

use asm_items::{Item, Names};
use asm_print::{Line, print_item};
use rw_io::{Sink, WriteFault};

/// Writes the line of an item, and answers how many bytes stand written, `done` of them before.
pub(crate) fn write_item<S: Sink>(
    item: &Item,
    names: &Names,
    done: usize,
    line: &mut Line,
    sink: &mut S,
) -> Result<usize, WriteFault>
    requires formed { is_item (named names.now item.now) ≡ true }
    requires room { done + 8192 < 2 ^ 64 }
    ensures bytes { WritesOn (S.held sink.old) (S.held sink.new) done result (line_text (named names.now item.now)) }
    ensures few { IfOk result (λ n. n ≤ done + 8192) }
    ensures cause { HasCause (S.faults sink.old) (S.faults sink.new) result }
{
    match print_item(item, names, line, sink) {
        Ok(()) => Ok(done + line.bytes.len()),
        Err(fault) => Err(WriteFault {
            done: done + fault.done,
        }),
    }
}
