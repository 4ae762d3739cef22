//! The start of a program that is simulated, and the built-in answers to what its machine asks: system calls, and functions
//! of the C library. No command uses this crate yet; `trace` and `run` will.
//!
//! [`Asked`] is a call that a machine over any domain asks: its state, the words of its event, and the word to which the
//! call returns, where the call has stored one. `system` gives the answer to a system call and `import` that to an imported
//! function, as an [`Answer`]: the end of the run, a result with bytes that are written to memory, a fresh region, bytes for
//! descriptor 1 or 2, or a read. Nothing is carried out: the state stays as it is.
//!
//! Both calls equal their definitions in `specs/Builtins`, `system_answer` and `import_answer`, want of memory alone free
//! (`Meets`): which function a name is (`names`), and for each function one definition over what the domain computes, memory
//! as the call finds it, and the words. Of several causes to stop the first counts: of the numbers that are needed, then of
//! the ranges, then of the bytes, each in the order of the parameters; `puts` and `strlen` look at one byte after another.
//! The functions are those of ISO C and POSIX, and `__stack_chk_fail` of the C library; system calls have the numbers of
//! Linux for x86-64.
//!
//! `reply` makes the `rw_machine::Reply` that carries an answer out, and equals `reply_of_answer` in `specs/Replies`. Where a
//! fresh region lies, the domain tells ([`Allots`]): over words its address is a pointer to it, over numbers the base that the
//! layout rule gives, which [`Fresh`] keeps. `laws::replies_are_lawful` says that the replies of built-in answers keep to what
//! a machine's surroundings may answer, but that it says nothing of atoms and of the base of a fresh region, and
//! `laws::fresh_regions_lie` where the regions of a run lie.
//!
//! `answer_to` gives the answer to a machine's event, and equals `answer_to` in `specs/Asking`: it sees from the instruction at
//! the state's point which word a call has stored.
//!
//! `words_start` is the machine over words of a file at its start: its clause `machine` says that it is `words_start` of
//! `rw_code`, with the first contents of the file's data (`rw_data`) and the words of the call (`specs/Start`).
//!
//! [`Simulation`] is a program that is simulated: its machine, the regions that came so far, and the lengths of the pieces that
//! were read of the input. `answered_step` makes one step of it: the machine's step, and where that asks, the whole step with
//! the built-in answer. Its clause `comes` says what then stands (`Comes` in `specs/AnsweredStep`): the outcome is the defined
//! one for the piece that was read, if one was; the input gave exactly that piece, and `out` and `err` gained exactly what the
//! answer sends to descriptors 1 and 2, or nothing where the step stops; and what each failure leaves.
//!
//! `run_steps` runs it, as far as the fuel goes: its clause `ends` says that it makes the defined run (`RunsTo` in
//! `specs/Trace`), and `takes` that what it took of the input are the pieces whose lengths are kept.
//!
//! Not here yet: the law that memory as `answer_to` takes it is what the step has written, the law that answers over numbers
//! stand for those over words, and the runs of a file and of its text. It stands on the machine (`rw_machine`), its domains (`rw_domain`), starts
//! (`rw_code`), files (`rw_data`), and on sources and sinks (`rw_io`).
#![tactic(auto)]

mod advance;
mod allots;
mod answer;
mod asked;
mod asking;
mod builtin;
mod callee;
mod calls;
mod fresh;
pub mod laws;
mod memory;
mod pieces;
mod plain;
mod ranges;
mod reading;
mod replies;
mod runs;
mod simulation;
mod start;
mod steps;
mod strings;

pub use advance::{Advance, StepError};
pub use allots::Allots;
pub use answer::{Answer, Refused};
pub use asked::Asked;
pub use asking::{Named, answer_to};
pub use builtin::Builtin;
pub use callee::Callee;
pub use fresh::Fresh;
pub use runs::{Finish, RunEnd, run_steps};
pub use simulation::Simulation;
pub use start::words_start;
pub use steps::answered_step;
