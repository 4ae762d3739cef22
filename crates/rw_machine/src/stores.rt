//! What is due at the end of an instruction is written.

ghost use Rattle.std.specs.Prelude.{◌≡◌, take, map, length, true};
ghost use Rattle.rw_base.specs.Width.{byte_count};
ghost use Rattle.rw_domain.specs.Eight.{eight_of};
ghost use Rattle.rw_machine.specs.Due.{FitsRows, FitRows};
ghost use Rattle.rw_machine.specs.Running as Runs;
ghost use Rattle.rw_machine.specs.Step.{one_written, due_written};
ghost use Rattle.rw_machine.specs.Views.{HasRange, rows_of, dues_of, IsLaidOut};

use crate::access::eight;
use crate::memory::Memory;
use crate::running::{Due, Dues, StringStep};
use crate::strings::{advanced, element_places};
use crate::words::{bytes, undefined_byte};
use rw_base::Width;
use rw_domain::{Domain, Eight, Place};

/// The bytes of an element, which are moved or those of a word.
#[tactic(auto, using(crate::proofs::Places::low_bytes, crate::proofs::Bytes::bytes_read))]
fn element_bytes<D: Domain>(
    domain: &D,
    memory: &Memory<D::Byte>,
    step: StringStep<D::Word>,
    from: Place,
) -> Eight<D::Byte>
    requires { step.moves ≡ true → HasRange (rows_of memory.now) from (byte_count step.width) }
    ensures { take (byte_count step.width) (eight_of result) ≡ Runs.element_bytes (D.over (D.placed domain.now)) step (rows_of memory.now) from }
{
    if step.moves {
        let other = undefined_byte(domain);
        eight(memory.range(from, step.width.bytes() as u64), other)
    } else {
        bytes(domain, step.word, 0)
    }
}

/// Writes an element of a string step.
fn write_element<D: Domain>(
    domain: &D,
    memory: &mut Memory<D::Byte>,
    step: StringStep<D::Word>,
    source: D::Word,
    target: D::Word,
)
    requires { IsLaidOut (D.placed domain.now).regions (rows_of memory.old) }
    ensures rows { let ops = D.over (D.placed domain.now) in
        rows_of memory.new ≡ Runs.element_written ops step (rows_of memory.old) (Runs.element_places ops step source target) }
    ensures lengths { map length (rows_of memory.new) ≡ map length (rows_of memory.old) }
    ensures undefined { memory.new.undefined ≡ memory.old.undefined }
{
    if let Ok((from, to)) = element_places(domain, step, source, target) {
        let row = element_bytes(domain, memory, step, from);
        memory.write_eight(to, step.width, &row);
    }
}

/// Writes the elements of a string step, each of which sees those before it.
fn write_elements<D: Domain>(
    domain: &D,
    memory: &mut Memory<D::Byte>,
    step: StringStep<D::Word>,
    count: u64,
    source: D::Word,
    target: D::Word,
)
    requires { IsLaidOut (D.placed domain.now).regions (rows_of memory.old) }
    ensures rows { let ops = D.over (D.placed domain.now) in
        rows_of memory.new ≡ Runs.elements_written ops step count (rows_of memory.old) source target }
    ensures lengths { map length (rows_of memory.new) ≡ map length (rows_of memory.old) }
    ensures undefined { memory.new.undefined ≡ memory.old.undefined }
{
    let mut source = source;
    let mut target = target;
    for i in 0..count {
        write_element(domain, memory, step, source, target);
        source = advanced(domain, step, source);
        target = advanced(domain, step, target);
    }
}

/// Writes what is due.
#[tactic(auto, using(crate::proofs::Places::low_bytes))]
fn write_due<D: Domain>(domain: &D, memory: &mut Memory<D::Byte>, due: &Due<D::Word>)
    requires laid_out { IsLaidOut (D.placed domain.now).regions (rows_of memory.old) }
    requires placed { FitsRows (rows_of memory.old) due.now }
    ensures rows { rows_of memory.new ≡ one_written (D.over (D.placed domain.now)) (rows_of memory.old) due.now }
    ensures lengths { map length (rows_of memory.new) ≡ map length (rows_of memory.old) }
    ensures undefined { memory.new.undefined ≡ memory.old.undefined }
{
    match due {
        Due::Word { place, width, word } => {
            let row = bytes(domain, *word, 0);
            memory.write_eight(*place, *width, &row);
        }
        Due::Elements {
            step,
            count,
            source,
            target,
        } => write_elements(domain, memory, *step, *count, *source, *target),
    }
}

/// Writes all that is due, in its order.
pub(crate) fn write_all_due<D: Domain>(
    domain: &D,
    memory: &mut Memory<D::Byte>,
    dues: &Dues<D::Word>,
)
    requires laid_out { IsLaidOut (D.placed domain.now).regions (rows_of memory.old) }
    requires placed { FitRows (rows_of memory.old) (dues_of dues.now) }
    ensures rows { rows_of memory.new ≡ due_written (D.over (D.placed domain.now)) (rows_of memory.old) (dues_of dues.now) }
    ensures lengths { map length (rows_of memory.new) ≡ map length (rows_of memory.old) }
    ensures undefined { memory.new.undefined ≡ memory.old.undefined }
{
    match dues {
        Dues::Nothing => {}
        Dues::One(due) => write_due(domain, memory, due),
        Dues::Two(first, second) => {
            write_due(domain, memory, first);
            write_due(domain, memory, second);
        }
    }
}
