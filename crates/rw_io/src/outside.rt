//! The outside. Each object has a count of faults that never falls, and may tell what it holds.

ghost use Rattle.std.specs.Prelude.{◌≡◌, ◌+◌, ◌-◌, ◌*◌, ◌^◌, ◌<◌, ◌≤◌, List, ℕ, Option, length, take, IfOk, IfErr, OnOk, IfSome};
ghost use Rattle.std.specs.Io.{ReadsAtMost, WritesAtMost};
ghost use Rattle.std.specs.Io.KnownBytes.{Appends, ReadConsumes, WriteAppends};
ghost use Rattle.rw_io.specs.Outside.{HasCause, TakesSome, FileAnswer, FileCause, FileFits, Store, file_at};
ghost use Rattle.rw_io.specs.WriteAll.{WritesAll};

use std::alloc::{AllocError, Global};
use thiserror::Error;

/// A read or a write was not done: nothing was taken or appended, and the object's count of faults rose.
#[derive(Clone, Copy, Debug, PartialEq, Eq, Error)]
#[error("a read or a write failed")]
pub struct Failed;

/// Why a file was not read.
#[derive(Clone, Copy, Debug, PartialEq, Eq, Error)]
pub enum FileError {
    /// The file could not be opened or read; the count of faults rose.
    #[error("the file could not be read")]
    Failed,
    /// There was no memory for the file's bytes.
    #[error("out of memory")]
    Memory,
    /// The file is longer than the limit. The field is the limit plus 1, in bytes: no more of the file
    /// was read.
    #[error("the file has at least {0} bytes")]
    TooLarge(u64),
}

/// A write failed in the middle of a text; the sink's count of faults rose.
#[derive(Clone, Copy, Debug, PartialEq, Eq, Error)]
#[error("writing failed after {done} bytes")]
pub struct WriteFault {
    /// How many bytes of the text were appended before the failure, exactly.
    pub done: usize,
}

/// Files that are read whole, by name.
pub trait Files {
    /// The files as a list of names and contents, where they are told; of a name that stands twice the
    /// first counts.
    ghost told: { Self → Option Store };

    /// How many calls failed. The count never falls, and stands still at 2^64 - 1.
    ghost faults: { Self → ℕ };

    /// Reads the whole of the file `name`, of at most `limit` bytes. No more than `limit + 1` bytes of it
    /// are read.
    ///
    /// The condition is that `limit` is below 2^64 - 1. Where the files are told, a name that is absent
    /// is taken as an empty file by every answer but `Failed`.
    ///
    /// # Errors
    ///
    /// [`FileError::TooLarge`] exactly where the file is longer than `limit` (unless the reading fails or
    /// memory is short); [`FileError::Failed`] only where the count of faults rose;
    /// [`FileError::Memory`] for want of memory.
    fn read_all(&mut self, alloc: Global, name: &str, limit: u64) -> Result<Vec<u8>, FileError>
        requires { limit < 2 ^ 64 - 1 }
        ensures bound { FileFits limit result }
        ensures bytes { IfSome (told self.old) (λ files. FileAnswer (file_at files name.now) limit result) }
        ensures same { told self.new ≡ told self.old }
        ensures cause { FileCause (faults self.old) (faults self.new) result };
}

/// Bytes that come in, in order.
pub trait Source {
    /// The bytes that are left, where they are told.
    ghost left: { Self → Option (List ℕ) };

    /// How many calls failed. The count never falls, and stands still at 2^64 - 1.
    ghost faults: { Self → ℕ };

    /// Reads into the front of `buf`, and answers how many bytes came. These are the first bytes that
    /// were left, and they are gone from the source. For a buffer that isn't empty, 0 is the end of the
    /// input.
    ///
    /// # Errors
    ///
    /// [`Failed`] only where the count of faults rose; nothing was then taken from the source.
    fn read(&mut self, buf: &mut [u8]) -> Result<usize, Failed>
        ensures bound { ReadsAtMost result buf.new }
        ensures bytes { ReadConsumes (left self.old) (left self.new) result buf.new }
        ensures cause { HasCause (faults self.old) (faults self.new) result };
}

/// Bytes that go out, in order.
pub trait Sink {
    /// The bytes that the sink holds, where they are told.
    ghost held: { Self → Option (List ℕ) };

    /// How many calls failed. The count never falls, and stands still at 2^64 - 1.
    ghost faults: { Self → ℕ };

    /// Appends a front of `piece`, and answers its length in bytes, which is at least 1 for a piece that
    /// isn't empty.
    ///
    /// # Errors
    ///
    /// [`Failed`] only where the count of faults rose; nothing was then appended.
    fn write(&mut self, piece: &[u8]) -> Result<usize, Failed>
        ensures bound { WritesAtMost result piece.now }
        ensures some { TakesSome result piece.now }
        ensures bytes { WriteAppends (held self.old) (held self.new) result piece.now }
        ensures cause { HasCause (faults self.old) (faults self.new) result };
}

/// Repeats `write` until all of `bytes` is taken. It takes no memory.
///
/// # Errors
///
/// A [`WriteFault`] only where the sink's count of faults rose in this call; exactly the first `done`
/// bytes were then appended.
pub fn write_all<S: Sink>(sink: &mut S, bytes: &[u8]) -> Result<(), WriteFault>
    ensures bytes { WritesAll (S.held sink.old) (S.held sink.new) result bytes.now }
    ensures cause { HasCause (S.faults sink.old) (S.faults sink.new) result }
{
    let mut done = 0;
    while done < bytes.len() {
        match sink.write(&bytes[done..]) {
            Ok(taken) => done += taken,
            Err(_) => return Err(WriteFault { done }),
        }
    }
    Ok(())
}
