//! The outside of the program: files that are read whole, bytes that come in, and bytes that go out.
//!
//! [`Files`], [`Source`] and [`Sink`] each have a ghost count of faults, which rises at a failure and
//! never moves otherwise (clause `cause`), and may tell what they hold (`told`, `left`, `held`); where
//! they tell it, the clauses `bytes` pin what a call reads or writes. [`write_all`] writes a whole text,
//! or says how much of it was taken.
//!
//! In memory: [`MemFiles`], [`MemSource`] and [`MemSink`], whose listed calls fail, and [`SureFiles`],
//! [`SureSource`] and [`NullSink`], which never fail; their own clauses (`state`, `fails`, `whole`) say
//! what each call leaves. Over the system: [`OsFiles`], [`OsSource`] and [`OsSink`], thin layers over std.
//!
//! The crate stands on std alone, and on `thiserror` for the derives of its error types.
#![tactic(auto)]

mod memory;
mod os;
mod outside;
mod sure;

pub use memory::{MemFiles, MemSink, MemSource};
pub use os::{OsFiles, OsSink, OsSource};
pub use outside::{Failed, FileError, Files, Sink, Source, WriteFault, write_all};
pub use sure::{NullSink, SureFiles, SureSource};
