//! The program: assembly text with labels in place of addresses, from an executable.
//!
//! `rewrite [--probes=none|functions|blocks] FILE` writes the text of a position-independent x86-64 ELF executable to the
//! standard output, with a counter at each leader of the mode; `blocks FILE` lists the leaders of basic blocks. The
//! whole is the one call `retro` over any files, input and outputs. Its clauses say when each answer comes
//! (`answers`, `decided`), what a failed read or write needs (`read_fault`, `write_fault`, `files_kept`,
//! `out_kept`, `err_kept`, `input_kept`), what the outputs gained (`text`, `part`, `nothing`, `line`, `quiet`), and that the
//! program of the text does what the file does and counts how often each leader is entered (`simulates`, `items`).
//! `main` makes the real objects and calls it. It stands on the plan of a text (`rw_out`).
#![tactic(auto)]

mod blocks;
mod call;
mod command;
#[cfg(test)]
mod data_tests;
mod failure;
mod laws;
#[cfg(test)]
mod probe_tests;
#[cfg(test)]
mod test_files;
#[cfg(test)]
mod tests;
mod words;

ghost use Rattle.std.specs.Prelude.{◌≡◌, drop};
ghost use Rattle.std.specs.IoError.{error_kind};
ghost use Rattle.retro.specs.Failure.{words_failure};

use call::retro;
use failure::{Failure, say};
use rw_io::{OsFiles, OsSink, OsSource};
use std::io::ErrorKind;
use std::process::ExitCode;
use std::{env, io};

fn main(rt: HostRuntime) -> ExitCode {
    let mut files = OsFiles::new(&rt);
    let mut input = OsSource::new(rt.stdin());
    let mut out = OsSink::new(rt.stdout());
    let mut err = OsSink::new(rt.stderr());
    ExitCode::from(match words_of(&rt) {
        Ok(words) => retro(
            rt.alloc(),
            behind_first(&words),
            &mut files,
            &mut input,
            &mut out,
            &mut err,
        ),
        Err(error) => {
            let failure = failure_of(&error);
            let _unsaid = say(failure, &mut err);
            failure.status()
        }
    })
}

/// Why the words can't be taken: want of memory, or anything else.
fn failure_of(error: &io::Error) -> Failure
    ensures { result ≡ words_failure (error_kind error.now) }
{
    match error.kind() {
        ErrorKind::OutOfMemory => Failure::Memory,
        _ => Failure::Words,
    }
}

/// The words of the command line, the name of the program first. What they are comes from the system, so no clause tells it.
fn words_of(rt: &HostRuntime) -> io::Result<Vec<String>> {
    Ok(env::args(rt)?.collect(rt.alloc())?)
}

/// All words but the first.
fn behind_first(words: &[String]) -> &[String]
    ensures { result.now ≡ drop 1 words.now }
{
    match words {
        [] => &[],
        [_, rest @ ..] => rest,
    }
}
