//! Forms in memory that never fail: their count of faults is the constant 0.

ghost use Rattle.std.specs.Prelude.{◌≡◌, ◌+◌, ◌<◌, ◌≤◌, ◌-◌, ◌^◌, List, ℕ, [], ◌++◌, Some, None, Ok, min, map, length, drop, take, string_bytes, IfSome, IfOk, IsErrOf, MatchOption};
ghost use Rattle.std.specs.Io.{ReadsAtMost, WritesAtMost};
ghost use Rattle.std.specs.Io.KnownBytes.{ReadConsumes, WriteAppends};
ghost use Rattle.rw_io.specs.Memory.{store_of};
ghost use Rattle.rw_io.specs.Outside.{HasCause, TakesSome, FileAnswer, FileFits, find_file};

use crate::outside::{Failed, FileError, Files, Sink, Source};
use std::alloc::Global;
use std::marker::Model;

/// Files in memory that are always read; a name that is absent is an empty file.
#[derive(Drop)]
pub struct SureFiles {
    files: Vec<(String, Vec<u8>)>,
}

impl Model for SureFiles {
    ghost Value = { List (List ℕ × List ℕ) };

    ghost view = { λ s. map (λ file. (string_bytes file.0, file.1.items)) s.files.items };
}

impl SureFiles {
    /// These names with these contents. The first pair of a name counts.
    pub fn new(files: Vec<(String, Vec<u8>)>) -> Self
        ensures { result ≡ store_of files.items }
    {
        SureFiles { files }
    }

    /// The contents of the first file of this name; `None` exactly where no file has it.
    pub(crate) fn find(&self, name: &str) -> Option<&Vec<u8>>
        ensures { MatchOption result (find_file self.now name.now ≡ None) (λ bytes. find_file self.now name.now ≡ Some bytes.now.items) }
    {
        first_named(&self.files, name)
    }
}

fn first_named<'a>(files: &'a [(String, Vec<u8>)], name: &str) -> Option<&'a Vec<u8>>
    ensures { MatchOption result (find_file (store_of files.now) name.now ≡ None) (λ bytes. find_file (store_of files.now) name.now ≡ Some bytes.now.items) }
{
    for file in files {
        if file.0.as_str() == name {
            return Some(&file.1);
        }
    }
    None
}

/// A copy of the bytes of a file, unless it is longer than the limit.
pub(crate) fn copy_within(alloc: Global, bytes: &[u8], limit: u64) -> Result<Vec<u8>, FileError>
    requires { limit < 2 ^ 64 - 1 }
    ensures fits { FileFits limit result }
    ensures bytes { FileAnswer bytes.now limit result }
    ensures sure { ¬ IsErrOf result FileError.Failed }
{
    if bytes.len() as u64 > limit {
        return Err(FileError::TooLarge(limit + 1));
    }
    match bytes.to_vec(alloc) {
        Ok(copy) => Ok(copy),
        Err(_) => Err(FileError::Memory),
    }
}

impl Files for SureFiles {
    ghost told = { λ s. Some s };

    ghost faults = { λ _. 0 };

    fn read_all(&mut self, alloc: Global, name: &str, limit: u64) -> Result<Vec<u8>, FileError> {
        match self.find(name) {
            Some(bytes) => copy_within(alloc, bytes, limit),
            None => Ok(Vec::new(alloc)),
        }
    }
}

/// A source in memory that never fails, and gives as many bytes as fit.
#[derive(Drop)]
pub struct SureSource {
    bytes: Vec<u8>,
    taken: usize,
}

impl Model for SureSource {
    ghost Value = { List ℕ };

    ghost view = { λ s. drop s.taken s.bytes.items };

    ghost invariant = { λ s. s.taken ≤ length s.bytes.items };
}

impl SureSource {
    /// A source of these bytes.
    pub fn new(bytes: Vec<u8>) -> Self
        ensures { result ≡ bytes.items }
    {
        SureSource { bytes, taken: 0 }
    }

    /// Moves as many bytes as fit to the front of `buf`, and answers how many.
    pub(crate) fn give(&mut self, buf: &mut [u8]) -> usize
        ensures whole { result ≡ min (length buf.old) (length self.old) }
        ensures bytes { take result buf.new ≡ take result self.old }
        ensures left { self.new ≡ drop result self.old }
    {
        let count = buf.len().min(self.bytes.len() - self.taken);
        buf[..count].copy_from_slice(&self.bytes[self.taken..self.taken + count]);
        self.taken += count;
        count
    }
}

impl Source for SureSource {
    ghost left = { λ s. Some s };

    ghost faults = { λ _. 0 };

    fn read(&mut self, buf: &mut [u8]) -> Result<usize, Failed>
        ensures bound { ReadsAtMost result buf.new }
        ensures bytes { ReadConsumes (Some self.old) (Some self.new) result buf.new }
        ensures cause { HasCause 0 0 result }
        ensures whole { result ≡ Ok (min (length buf.old) (length self.old)) }
    {
        Ok(self.give(buf))
    }
}

/// A sink that takes all, keeps nothing and never fails.
#[derive(Clone, Copy, Debug, Default)]
pub struct NullSink;

impl NullSink {
    /// A sink that takes all.
    pub fn new() -> Self {
        NullSink
    }
}

impl Sink for NullSink {
    ghost held = { λ _. None };

    ghost faults = { λ _. 0 };

    fn write(&mut self, piece: &[u8]) -> Result<usize, Failed>
        ensures bound { WritesAtMost result piece.now }
        ensures some { TakesSome result piece.now }
        ensures bytes { WriteAppends None None result piece.now }
        ensures cause { HasCause 0 0 result }
        ensures whole { result ≡ Ok (length piece.now) }
    {
        Ok(piece.len())
    }
}
