//! The reply of an answer.

ghost use Rattle.std.specs.Prelude.{◌≡◌, length, map, IfOk};
ghost use Rattle.rw_machine.specs.State.{machine_of, reply_value};
ghost use Rattle.rw_sim.specs.Answers.{answer_value, writes_of, written_by};
ghost use Rattle.rw_sim.specs.Asked.{operators_of};
ghost use Rattle.rw_sim.specs.Replies.{lost_to, number_bytes, reply_of_answer, reply_with};

use crate::allots::Allots;
use crate::answer::Answer;
use crate::asked::Asked;
use crate::callee::Callee;
use crate::ranges::repeated;
use rw_base::Width;
use rw_domain::{Domain, Place, Region};
use rw_machine::{End, Reply};
use std::alloc::{AllocError, Global};

/// How many registers a system call loses.
const LOST_TO_SYSTEM: u64 = 2;

/// How many registers the call of an imported function loses.
const LOST_TO_IMPORT: u64 = 8;

/// How many registers a call loses.
fn lost_to(callee: Callee) -> u64
    ensures { result ≡ length (lost_to callee) }
{
    match callee {
        Callee::System => LOST_TO_SYSTEM,
        Callee::Import => LOST_TO_IMPORT,
    }
}

/// A write as a list of writes.
fn as_list<B: Copy>(
    alloc: Global,
    write: Option<(Place, Vec<B>)>,
) -> Result<Vec<(Place, Vec<B>)>, AllocError>
    ensures { IfOk result (λ writes. map (λ w. (w.0, w.1.items)) writes.items ≡ written_by write) }
{
    let mut writes = Vec::new(alloc);
    if let Some(write) = write {
        writes.push(write)?;
    }
    Ok(writes)
}

impl<D: Allots, P: Copy> Asked<'_, D, P> {
    /// Bytes that are numbers.
    fn number_bytes(&self, alloc: Global, numbers: &[u8]) -> Result<Vec<D::Byte>, AllocError>
        ensures { IfOk result (λ bytes. bytes.items ≡ number_bytes (operators_of self.now) numbers.now) }
    {
        let domain = self.state.domain();
        numbers
            .iter()
            .map(|number| domain.split(domain.num(Width::B, *number as u64), 0))
            .collect(alloc)
    }

    /// A write of bytes that are numbers, if there is a place for them.
    fn number_write(
        &self,
        alloc: Global,
        to: Option<Place>,
        numbers: &[u8],
    ) -> Result<Option<(Place, Vec<D::Byte>)>, AllocError>
        ensures { IfOk result (λ write. written_by write ≡ writes_of to (number_bytes (operators_of self.now) numbers.now)) }
    {
        match to {
            Some(place) => Ok(Some((place, self.number_bytes(alloc, numbers)?))),
            None => Ok(None),
        }
    }

    /// A reply to a call.
    fn reply_with(
        &self,
        alloc: Global,
        callee: Callee,
        value: D::Word,
        write: Option<(Place, Vec<D::Byte>)>,
        fresh: Option<(Region, u64)>,
        end: Option<End>,
    ) -> Result<Reply<D::Word, D::Byte>, AllocError>
        ensures { IfOk result (λ reply. reply_value reply ≡ reply_with (operators_of self.now) callee value (written_by write) fresh end) }
    {
        let undefined = self.state.domain().undef(Width::Q);
        Ok(Reply {
            result: value,
            scratch: repeated(alloc, undefined, lost_to(callee))?,
            writes: as_list(alloc, write)?,
            fresh,
            end,
        })
    }

    /// The reply of an answer, which is carried out by `rw_machine::reply`. `base` is where the layout rule puts the next
    /// region. `taken` are the bytes that were read for an answer that takes some. What an answer sends is for the caller to
    /// write.
    pub fn reply(
        &self,
        alloc: Global,
        callee: Callee,
        answer: Answer<D::Word, D::Byte>,
        base: u64,
        taken: &[u8],
    ) -> Result<Reply<D::Word, D::Byte>, AllocError>
        ensures { IfOk result (λ reply. reply_value reply ≡ reply_of_answer (operators_of self.now) callee (D.first_byte (machine_of self.now.state.now).placed base) taken.now (answer_value answer)) }
    {
        let domain = self.state.domain();
        match answer {
            Answer::Ends(end) => {
                let undefined = domain.undef(Width::Q);
                self.reply_with(alloc, callee, undefined, None, None, Some(end))
            }
            Answer::Gives(result, write) => {
                self.reply_with(alloc, callee, result, write, None, None)
            }
            Answer::Allots(region) => {
                let (first, base) = domain.first_byte(base);
                self.reply_with(alloc, callee, first, None, Some((region, base)), None)
            }
            Answer::Sends(_, _bytes, result) => {
                self.reply_with(alloc, callee, result, None, None, None)
            }
            Answer::Takes(_, to) => {
                let count = domain.num(Width::Q, taken.len() as u64);
                let write = self.number_write(alloc, to, taken)?;
                self.reply_with(alloc, callee, count, write, None, None)
            }
        }
    }
}
