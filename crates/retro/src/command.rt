//! The command that the words ask for.

ghost use Rattle.std.specs.Prelude.{◌≡◌, IfSome};
ghost use Rattle.rw_io.specs.Outside.{file_at};
ghost use Rattle.retro.specs.Asked.{asked};
ghost use Rattle.retro.specs.Call.{IfRewrite, IfRewriteTold, done_with, outcome_of, texts, told_outcome};
ghost use Rattle.retro.specs.Words.{command_of, mode_in, name_in};
ghost use Rattle.retro.specs.Ending.{Fits, FitsWords, IsOther, Rewrites, Keeps, BlamesOut, BlamesFiles, HasWritten, NotRead};

use crate::blocks::write_leaders;
use crate::failure::Failure;
use crate::words::{Command, command_of};
use rw_base::{Fault, Refusal};
use rw_io::{FileError, Files, Sink};
use rw_out::Plan;
use std::alloc::Global;

/// The most bytes that a file may have.
const MOST: u64 = 16_777_216;

/// How a command ends.
pub enum Ending {
    /// All that was due is written.
    Done,
    /// A write to the output failed.
    WriteFault,
    /// Nothing was written to the output.
    Failed(Failure),
}

/// Writes what is asked for of a file that has no fault.
fn carry_out<O: Sink>(command: Command, plan: &Plan, out: &mut O) -> Ending
    requires { plan.now.mode ≡ mode_in (asked command) }
    ensures answer { Fits (O.held out.old) (O.held out.new) result (done_with (asked command.entry) plan.now.file) }
    ensures rewrites { IfRewrite (asked command.entry) (Rewrites (O.held out.old) (O.held out.new) result plan.now.file) }
    ensures cause { BlamesOut (O.faults out.old) (O.faults out.new) result }
    ensures wrote { HasWritten result }
{
    match command {
        Command::Rewrite(_, _) => match plan.write(out) {
            Ok(()) => Ending::Done,
            Err(_) => Ending::WriteFault,
        },
        Command::Blocks(_) => match write_leaders(plan, out) {
            Ok(()) => Ending::Done,
            Err(_) => Ending::WriteFault,
        },
    }
}

/// Does what is asked for with the bytes of the file, or says why not.
fn act<O: Sink>(alloc: Global, command: Command, bytes: Vec<u8>, out: &mut O) -> Ending
    ensures answer { Fits (O.held out.old) (O.held out.new) result (outcome_of (asked command.entry) bytes.items) }
    ensures rewrites { IfRewrite (asked command.entry) (Rewrites (O.held out.old) (O.held out.new) result bytes.items) }
    ensures keeps { Keeps (O.held out.old) (O.held out.new) result }
    ensures cause { BlamesOut (O.faults out.old) (O.faults out.new) result }
    ensures read { NotRead result }
    ensures other { IsOther result }
{
    match Plan::of(alloc, bytes, command.mode()) {
        Ok(plan) => carry_out(command, &plan, out),
        Err(Refusal::Fault(fault)) => Ending::Failed(Failure::Fault(fault)),
        Err(Refusal::Memory) => Ending::Failed(Failure::Memory),
    }
}

/// Does what is asked for with the file that is named.
fn act_on_file<F: Files, O: Sink>(
    alloc: Global,
    command: Command,
    files: &mut F,
    out: &mut O,
) -> Ending
    ensures answer { IfSome (F.told files.old) (λ known. Fits (O.held out.old) (O.held out.new) result (outcome_of (asked command.entry) (file_at known (name_in (asked command.entry))))) }
    ensures other { IsOther result }
    ensures rewrites { IfSome (F.told files.old) (λ known. IfRewrite (asked command.entry) (Rewrites (O.held out.old) (O.held out.new) result (file_at known (name_in (asked command.entry))))) }
    ensures keeps { Keeps (O.held out.old) (O.held out.new) result }
    ensures out_cause { BlamesOut (O.faults out.old) (O.faults out.new) result }
    ensures files_cause { BlamesFiles (F.faults files.old) (F.faults files.new) result }
{
    match files.read_all(alloc, command.name(), MOST) {
        Ok(bytes) => act(alloc, command, bytes, out),
        Err(FileError::TooLarge(n)) => Ending::Failed(Failure::Fault(Fault::TooLarge(n))),
        Err(FileError::Memory) => Ending::Failed(Failure::Memory),
        Err(FileError::Failed) => Ending::Failed(Failure::Read),
    }
}

/// Does what the words ask for, but says nothing.
pub fn command<F: Files, O: Sink>(
    alloc: Global,
    words: &[String],
    files: &mut F,
    out: &mut O,
) -> Ending
    ensures answer { IfSome (told_outcome (texts words.now) (F.told files.old)) (Fits (O.held out.old) (O.held out.new) result) }
    ensures words { FitsWords (command_of (texts words.now)) result }
    ensures rewrites { IfRewriteTold (command_of (texts words.now)) (F.told files.old) (Rewrites (O.held out.old) (O.held out.new) result) }
    ensures keeps { Keeps (O.held out.old) (O.held out.new) result }
    ensures out_cause { BlamesOut (O.faults out.old) (O.faults out.new) result }
    ensures files_cause { BlamesFiles (F.faults files.old) (F.faults files.new) result }
{
    match command_of(words) {
        None => Ending::Failed(Failure::Words),
        Some(command) => act_on_file(alloc, command, files, out),
    }
}
