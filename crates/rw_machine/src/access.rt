//! Loads and stores.

ghost use Rattle.std.specs.Prelude.{◌≡◌, slice_index_or};
ghost use Rattle.rw_base.specs.Width.{byte_count};
ghost use Rattle.rw_domain.specs.declared.place.Access.TheVariants as access;
ghost use Rattle.rw_machine.specs.Running as Runs;
ghost use Rattle.rw_machine.specs.Views.{running_of, rows_of, eight_read, IsLaidOut, HasRange};

use crate::causes::stop;
use crate::context::Context;
use crate::memory::Memory;
use crate::running::{Due, Running};
use crate::words::{set_temp, undefined_byte};
use rw_base::Width;
use rw_domain::{Access, Domain, Eight, Place};
use x86_meaning::Temp;

fn byte_or<B: Copy>(bytes: &[B], i: usize, other: B) -> B
    ensures { result ≡ slice_index_or bytes.now i other }
{
    bytes.get(i).copied().unwrap_or(other)
}

/// The first eight bytes; where there are fewer, another byte.
pub(crate) fn eight<B: Copy>(bytes: &[B], other: B) -> Eight<B>
    ensures { result ≡ eight_read bytes.now other }
{
    Eight {
        b0: byte_or(bytes, 0, other),
        b1: byte_or(bytes, 1, other),
        b2: byte_or(bytes, 2, other),
        b3: byte_or(bytes, 3, other),
        b4: byte_or(bytes, 4, other),
        b5: byte_or(bytes, 5, other),
        b6: byte_or(bytes, 6, other),
        b7: byte_or(bytes, 7, other),
    }
}

/// The word of memory at a place.
#[tactic(auto, using(crate::proofs::Bytes::bytes_read))]
pub(crate) fn word_at<D: Domain>(
    domain: &D,
    memory: &Memory<D::Byte>,
    place: Place,
    w: Width,
) -> D::Word
    requires { HasRange (rows_of memory.now) place (byte_count w) }
    ensures { result ≡ (D.over (D.placed domain.now)).join w (Runs.range_at (rows_of memory.now) place (byte_count w)) }
{
    let other = undefined_byte(domain);
    let row = eight(memory.range(place, w.bytes() as u64), other);
    domain.join(w, &row)
}

impl<D: Domain> Context<'_, D> {
    /// Loads from memory as it was before the instruction.
    pub(crate) fn load(&self, to: Temp, w: Width, at: D::Word, run: &mut Running<D::Word>)
        requires { IsLaidOut (D.over (D.placed self.now.domain.now)).regions (rows_of self.now.memory.now) }
        ensures { let ops = D.over (D.placed self.now.domain.now) in let rows = rows_of self.now.memory.now in
            running_of run.new ≡ Runs.loaded_run ops rows (running_of run.old) to w (ops.place at (byte_count w) access.Read) }
    {
        match self.domain.place(&at, w.bytes() as u64, Access::Read) {
            Ok(place) => {
                let v = word_at(self.domain, self.memory, place, w);
                set_temp(&mut run.temps, to, v);
            }
            Err(cause) => self.undefined(to, w, cause, run),
        }
    }

    /// Keeps what is to be stored when the instruction is done.
    pub(crate) fn store(&self, w: Width, at: D::Word, word: D::Word, run: &mut Running<D::Word>)
        ensures { let ops = D.over (D.placed self.now.domain.now) in running_of run.new ≡ Runs.stored_run ops (running_of run.old) w word (ops.place at (byte_count w) access.Write) }
    {
        match self.domain.place(&at, w.bytes() as u64, Access::Write) {
            Ok(place) => {
                run.due = run.due.then(Due::Word {
                    place,
                    width: w,
                    word,
                });
            }
            Err(cause) => stop(run, cause),
        }
    }
}
