//! Which call has which answer.

ghost use Rattle.std.specs.Prelude.{◌≡◌};
ghost use Rattle.rw_sim.specs.Answers.{Meets, answer_value};
ghost use Rattle.rw_sim.specs.Asked.{operators_of, memory_of, words_of};
ghost use Rattle.rw_sim.specs.Builtins as Definitions;

use crate::answer::{Answer, Refused};
use crate::asked::Asked;
use crate::builtin::Builtin;
use rw_domain::{Cause, Domain};
use rw_machine::End;
use std::alloc::Global;

/// The result of Linux for a descriptor that the call doesn't take (EBADF).
const BAD_DESCRIPTOR: u64 = u64::MAX - 8;

/// The result of Linux for a call that isn't there (ENOSYS).
const NO_SUCH_CALL: u64 = u64::MAX - 37;

/// The result of `read` and `write` of the C library that fail.
const MINUS_ONE: u64 = u64::MAX;

/// The numbers of system calls.
const READ: u64 = 0;

const WRITE: u64 = 1;

const EXIT: u64 = 60;

const EXIT_GROUP: u64 = 231;

impl<D: Domain, P: Copy> Asked<'_, D, P> {
    /// The answer to a system call, by its number in Linux for x86-64. There are `read`, `write`, `exit` and
    /// `exit_group`; any other number gives -38.
    ///
    /// # Errors
    ///
    /// [`Refused::Stops`] with the first cause: of the numbers that the call needs, then of its range, then of its bytes.
    /// [`Refused::Memory`] for want of memory.
    #[tactic(auto, unfolding(crate::specs::Builtins::system_answer))]
    pub fn system(&self, alloc: Global, call: u64) -> Result<Answer<D::Word, D::Byte>, Refused>
        ensures { Meets answer_value (Definitions.system_answer (operators_of self.now) (memory_of self.now) (words_of self.now) call) result }
    {
        match call {
            READ => Ok(self.read(BAD_DESCRIPTOR)?),
            WRITE => self.write(alloc, BAD_DESCRIPTOR),
            EXIT | EXIT_GROUP => Ok(self.exit()?),
            _ => Ok(self.gives(NO_SUCH_CALL)),
        }
    }

    /// The answer to a function of the C library. `fresh` is how many bytes the fresh regions of the run have so far.
    #[tactic(auto, unfolding(crate::specs::Builtins::builtin_answer))]
    fn builtin(
        &self,
        alloc: Global,
        fresh: u64,
        builtin: Builtin,
    ) -> Result<Answer<D::Word, D::Byte>, Refused>
        ensures { Meets answer_value (Definitions.builtin_answer (operators_of self.now) (memory_of self.now) (words_of self.now) fresh builtin) result }
    {
        match builtin {
            Builtin::Puts => self.puts(alloc),
            Builtin::Putchar => self.putchar(alloc),
            Builtin::Write => self.write(alloc, MINUS_ONE),
            Builtin::Read => Ok(self.read(MINUS_ONE)?),
            Builtin::Exit => Ok(self.exit()?),
            Builtin::Abort => Ok(Answer::Ends(End::Aborted)),
            Builtin::Malloc => Ok(self.malloc(fresh)?),
            Builtin::Calloc => Ok(self.calloc(fresh)?),
            Builtin::Free => Ok(self.gives(0)),
            Builtin::Memcpy => self.memcpy(alloc),
            Builtin::Memset => self.memset(alloc),
            Builtin::Strlen => Ok(self.strlen()?),
        }
    }

    /// The answer to an imported function, by its name. `fresh` is how many bytes the fresh regions of the run have so
    /// far: `malloc` and `calloc` give 0 exactly where these, with the request, would be more than 67,108,864.
    ///
    /// # Errors
    ///
    /// [`Refused::Stops`] with the first cause: of the numbers that the function needs, then of its ranges, then of the
    /// bytes that it reads, each in the order of its parameters; `puts` and `strlen` look at one byte after another. A
    /// function without an answer stops with [`Cause::Import`] and the number of its symbol. [`Refused::Memory`] for want
    /// of memory.
    #[tactic(auto, unfolding(crate::specs::Builtins::import_answer))]
    pub fn import(
        &self,
        alloc: Global,
        fresh: u64,
        symbol: u32,
        name: &[u8],
    ) -> Result<Answer<D::Word, D::Byte>, Refused>
        ensures { Meets answer_value (Definitions.import_answer (operators_of self.now) (memory_of self.now) (words_of self.now) fresh symbol name.now) result }
    {
        match Builtin::named(name) {
            Some(builtin) => self.builtin(alloc, fresh, builtin),
            None => Err(Refused::Stops(Cause::Import(symbol))),
        }
    }
}
