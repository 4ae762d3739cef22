//! Files, a source and a sink in memory, whose listed calls fail.

ghost use Rattle.std.specs.Prelude.{◌≡◌, ◌+◌, ◌<◌, ◌≤◌, ◌-◌, ◌^◌, ◌↔◌, ℕ, List, [], Some, Ok, Err, min, length, IfSome, IfOk, IsTrue, IsErr, IsErrOf};
ghost use Rattle.std.specs.Io.{ReadsAtMost, WritesAtMost};
ghost use Rattle.std.specs.Io.KnownBytes.{ReadConsumes, WriteAppends};
ghost use Rattle.rw_io.specs.Memory.{store_of, next_count, is_listed, is_failing, after_read_all, after_read, after_write};
ghost use Rattle.rw_io.specs.Outside.{HasCause, TakesSome, FileAnswer, FileCause, FileFits, file_at};

use crate::outside::{Failed, FileError, Files, Sink, Source};
use crate::sure::{SureFiles, SureSource, copy_within};
use std::alloc::Global;
use std::marker::Model;

/// Counts one more call, and tells whether its number is listed.
fn next_fails(calls: &mut u64, fails: &[u64]) -> bool
    ensures count { calls.new ≡ next_count calls.old }
    ensures listed { result ≡ is_listed fails.now calls.old }
{
    *calls = calls.saturating_add(1);
    fails.contains(calls)
}

/// Files in memory, whose listed calls fail, and whose absent names do.
#[derive(Drop)]
pub struct MemFiles {
    files: SureFiles,
    fails: Vec<u64>,
    calls: u64,
    faults: u64,
}

impl Model for MemFiles {
    ghost use Rattle.rw_io.specs.Memory.{FilesState};

    ghost Value = { FilesState };

    ghost view = { λ s. record { files = s.files; fails = s.fails.items; calls = s.calls; faults = s.faults } };
}

impl MemFiles {
    /// These names with these contents, of which the first pair of a name counts. `fails` has the numbers
    /// of the calls that are to fail, counted from 1.
    pub fn new(files: Vec<(String, Vec<u8>)>, fails: Vec<u64>) -> Self
        ensures { result ≡ record { files = store_of files.items; fails = fails.items; calls = 0; faults = 0 } }
    {
        MemFiles {
            files: SureFiles::new(files),
            fails,
            calls: 0,
            faults: 0,
        }
    }
}

impl Files for MemFiles {
    ghost told = { λ s. Some s.files };

    ghost faults = { λ s. s.faults };

    fn read_all(&mut self, alloc: Global, name: &str, limit: u64) -> Result<Vec<u8>, FileError>
        requires { limit < 2 ^ 64 - 1 }
        ensures bound { FileFits limit result }
        ensures bytes { FileAnswer (file_at self.old.files name.now) limit result }
        ensures same { Some self.new.files ≡ Some self.old.files }
        ensures cause { FileCause self.old.faults self.new.faults result }

        // A call fails exactly where it is listed or the name is absent.
        ensures fails { IsErrOf result FileError.Failed ↔ IsTrue (is_failing self.old name.now) }
        ensures state { self.new ≡ after_read_all self.old name.now }
    {
        let listed = next_fails(&mut self.calls, &self.fails);
        match self.files.find(name) {
            Some(bytes) if !listed => copy_within(alloc, bytes, limit),
            _ => {
                self.faults = self.faults.saturating_add(1);
                Err(FileError::Failed)
            }
        }
    }
}

/// A source in memory, whose listed calls fail, and which gives as many bytes as fit.
#[derive(Drop)]
pub struct MemSource {
    source: SureSource,
    fails: Vec<u64>,
    calls: u64,
    faults: u64,
}

impl Model for MemSource {
    ghost use Rattle.rw_io.specs.Memory.{SourceState};

    ghost Value = { SourceState };

    ghost view = { λ s. record { left = s.source; fails = s.fails.items; calls = s.calls; faults = s.faults } };
}

impl MemSource {
    /// A source of these bytes. `fails` has the numbers of the calls that are to fail, counted from 1.
    pub fn new(bytes: Vec<u8>, fails: Vec<u64>) -> Self
        ensures { result ≡ record { left = bytes.items; fails = fails.items; calls = 0; faults = 0 } }
    {
        MemSource {
            source: SureSource::new(bytes),
            fails,
            calls: 0,
            faults: 0,
        }
    }
}

impl Source for MemSource {
    ghost left = { λ s. Some s.left };

    ghost faults = { λ s. s.faults };

    fn read(&mut self, buf: &mut [u8]) -> Result<usize, Failed>
        ensures bound { ReadsAtMost result buf.new }
        ensures bytes { ReadConsumes (Some self.old.left) (Some self.new.left) result buf.new }
        ensures cause { HasCause self.old.faults self.new.faults result }

        // A call fails exactly where it is listed, and else gives as many bytes as fit.
        ensures fails { IsErr result ↔ IsTrue (is_listed self.old.fails self.old.calls) }
        ensures whole { IfOk result (λ n. n ≡ min (length buf.old) (length self.old.left)) }
        ensures state { self.new ≡ after_read self.old result }
    {
        if next_fails(&mut self.calls, &self.fails) {
            self.faults = self.faults.saturating_add(1);
            return Err(Failed);
        }
        Ok(self.source.give(buf))
    }
}

/// A sink in memory, whose listed calls fail, and which takes whole pieces.
#[derive(Drop)]
pub struct MemSink {
    bytes: Vec<u8>,
    fails: Vec<u64>,
    calls: u64,
    faults: u64,
    starved: u64,
}

impl Model for MemSink {
    ghost use Rattle.rw_io.specs.Memory.{SinkState};

    ghost Value = { SinkState };

    ghost view = { λ s. record { bytes = s.bytes.items; fails = s.fails.items; calls = s.calls; faults = s.faults; starved = s.starved } };
}

impl MemSink {
    /// An empty sink, which grows in `alloc`. `fails` has the numbers of the calls that are to fail, counted
    /// from 1.
    pub fn new(alloc: Global, fails: Vec<u64>) -> Self
        ensures { result ≡ record { bytes = []; fails = fails.items; calls = 0; faults = 0; starved = 0 } }
    {
        MemSink {
            bytes: Vec::new(alloc),
            fails,
            calls: 0,
            faults: 0,
            starved: 0,
        }
    }

    /// What the sink holds.
    pub fn bytes(&self) -> &[u8]
        ensures bytes { result.now ≡ self.now.bytes }
        ensures held { ⟦<MemSink as Sink>⟧.held self.now ≡ Some result.now }
    {
        &self.bytes
    }

    /// How many writes failed because the sink couldn't grow, which the count of faults has too.
    pub fn starved(&self) -> u64
        ensures { result ≡ self.now.starved }
    {
        self.starved
    }
}

impl Sink for MemSink {
    ghost held = { λ s. Some s.bytes };

    ghost faults = { λ s. s.faults };

    fn write(&mut self, piece: &[u8]) -> Result<usize, Failed>
        ensures bound { WritesAtMost result piece.now }
        ensures some { TakesSome result piece.now }
        ensures bytes { WriteAppends (Some self.old.bytes) (Some self.new.bytes) result piece.now }
        ensures cause { HasCause self.old.faults self.new.faults result }

        // A listed call fails, and another one only where `starved` rises; whole pieces are taken.
        ensures fails { IsTrue (is_listed self.old.fails self.old.calls) → IsErr result }
        ensures whole { IfOk result (λ n. n ≡ length piece.now) }
        ensures state { self.new ≡ after_write self.old piece.now result }
    {
        let listed = next_fails(&mut self.calls, &self.fails);
        if !listed && self.bytes.extend_from_slice(piece).is_ok() {
            return Ok(piece.len());
        }
        if !listed {
            self.starved = self.starved.saturating_add(1);
        }
        self.faults = self.faults.saturating_add(1);
        Err(Failed)
    }
}
