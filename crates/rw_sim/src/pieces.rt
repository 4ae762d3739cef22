//! Pieces of the input that answers take, and what answers send.

ghost use Rattle.std.specs.Prelude.{◌≡◌, ℕ, List, Ok};
ghost use Rattle.rw_domain.specs.Operators.{Operators};
ghost use Rattle.rw_sim.specs.declared.callee.Callee.{Callee};
ghost use Rattle.rw_sim.specs.AnsweredStep.{limit_of, sent_by};
ghost use Rattle.rw_sim.specs.Answers.{answer_value};
ghost use Rattle.rw_sim.specs.Pieces.{ReadsFor, ReadsPiece, IsShort, SendsOut, sent_value};
ghost use Rattle.rw_sim.specs.Replies.{reply_of_answer};
ghost use Rattle.rw_sim.specs.World.{outside};

use crate::advance::StepError;
use crate::answer::Answer;
use crate::ranges::repeated;
use rw_io::{Sink, Source, write_all};
use std::alloc::Global;

/// Bytes that go to a descriptor.
#[derive(Debug, Drop)]
pub(crate) struct Sent {
    pub(crate) descriptor: u64,
    pub(crate) bytes: Vec<u8>,
}

/// Reads one piece of the input, of so many bytes at most, by one read.
fn read_piece<I: Source>(alloc: Global, limit: u64, input: &mut I) -> Result<Vec<u8>, StepError>
    ensures { ReadsPiece limit (outside I.left I.faults input.old) (outside I.left I.faults input.new) result }
{
    let mut piece = repeated(alloc, 0u8, limit)?;
    let count = input.read(piece.as_mut_slice())?;
    piece.truncate(count);
    Ok(piece)
}

/// The piece of the input that an answer takes, if it takes one. Its length is kept behind those before it; there is room for it
/// before the input is asked.
pub(crate) fn piece_for<W, B, I: Source>(
    alloc: Global,
    answer: &Answer<W, B>,
    reads: &mut Vec<u32>,
    input: &mut I,
) -> Result<Option<Vec<u8>>, StepError>
    requires { IsShort (limit_of (answer_value answer.now)) }
    ensures { ReadsFor (limit_of (answer_value answer.now)) reads.old.items reads.new.items (outside I.left I.faults input.old) (outside I.left I.faults input.new) result }
{
    match answer {
        Answer::Takes(limit, _) => {
            reads.reserve(1)?;
            let piece = read_piece(alloc, *limit, input)?;
            let _ = reads.push(piece.len() as u32);
            Ok(Some(piece))
        }
        _ => Ok(None),
    }
}

/// An answer without what it sends, of which a reply knows nothing, and what it sends.
pub(crate) fn parted<W, B>(answer: Answer<W, B>) -> (Answer<W, B>, Option<Sent>)
    ensures reply { (ops : Operators W B) (call : Callee) (first : W × ℕ) (taken : List ℕ)
        → reply_of_answer ops call first taken (answer_value result.0) ≡ reply_of_answer ops call first taken (answer_value answer) }
    ensures sent { sent_value result.1 ≡ sent_by (answer_value answer) }
{
    match answer {
        Answer::Sends(descriptor, bytes, value) => {
            (Answer::Gives(value, None), Some(Sent { descriptor, bytes }))
        }
        answer => (answer, None),
    }
}

/// Writes what is sent: bytes for descriptor 1 to `out`, and those for descriptor 2 to `err`.
pub(crate) fn send<O: Sink, E: Sink>(
    sent: &Option<Sent>,
    out: &mut O,
    err: &mut E,
) -> Result<(), StepError>
    ensures { SendsOut (sent_value sent.now) (outside O.held O.faults out.old) (outside O.held O.faults out.new) (outside E.held E.faults err.old) (outside E.held E.faults err.new) result }
{
    match sent {
        Some(sent) if sent.descriptor == 1 => write_all(out, sent.bytes.as_slice())?,
        Some(sent) if sent.descriptor == 2 => write_all(err, sent.bytes.as_slice())?,
        _ => {}
    }
    Ok(())
}
