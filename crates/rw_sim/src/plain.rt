//! Answers that look at no memory.

ghost use Rattle.std.specs.Prelude.{◌≡◌, ◌*◌, ◌<◌, ◌^◌, []};
ghost use Rattle.rw_sim.specs.Answers.{Gives, answer_value, answered};
ghost use Rattle.rw_sim.specs.Asked.{operators_of, memory_of, words_of};
ghost use Rattle.rw_sim.specs.Builtins as Definitions;

use crate::answer::Answer;
use crate::asked::Asked;
use rw_base::Width;
use rw_domain::{Cause, Domain, Region};
use rw_machine::End;

/// All fresh regions of a run together have at most so many bytes.
const FRESH_LIMIT: u64 = 67_108_864;

/// The alignment of a fresh region, in bytes.
const FRESH_ALIGNMENT: u64 = 16;

impl<D: Domain, P: Copy> Asked<'_, D, P> {
    /// A number as a result.
    pub(crate) fn gives(&self, number: u64) -> Answer<D::Word, D::Byte>
        ensures { answer_value result ≡ Gives (Definitions.number (operators_of self.now) number) [] }
    {
        Answer::Gives(self.state.domain().num(Width::Q, number), None)
    }

    /// exit(status).
    pub(crate) fn exit(&self) -> Result<Answer<D::Word, D::Byte>, Cause>
        ensures { answered result ≡ Definitions.exit_answer (operators_of self.now) (memory_of self.now) (words_of self.now) }
    {
        let status = self.number(self.words.w0)?;
        Ok(Answer::Ends(End::Exited((status % 256) as u8)))
    }

    /// A fresh region of a size, and of one byte where the size is 0.
    fn fresh(&self, fresh: u64, zero: bool, size: u128) -> Answer<D::Word, D::Byte>
        ensures { Ok (answer_value result) ≡ Definitions.fresh_answer (operators_of self.now) (memory_of self.now) (words_of self.now) fresh zero size }
    {
        let size = size.max(1);
        if size.saturating_add(fresh as u128) <= FRESH_LIMIT as u128 {
            Answer::Allots(Region {
                size: size as u64,
                align: FRESH_ALIGNMENT,
                writable: true,
                zero,
            })
        } else {
            self.gives(0)
        }
    }

    /// malloc(size).
    pub(crate) fn malloc(&self, fresh: u64) -> Result<Answer<D::Word, D::Byte>, Cause>
        ensures { answered result ≡ Definitions.malloc_answer (operators_of self.now) (memory_of self.now) (words_of self.now) fresh }
    {
        let size = self.number(self.words.w0)?;
        Ok(self.fresh(fresh, false, size as u128))
    }

    /// calloc(count, size). The product doesn't wrap.
    pub(crate) fn calloc(&self, fresh: u64) -> Result<Answer<D::Word, D::Byte>, Cause>
        ensures { answered result ≡ Definitions.calloc_answer (operators_of self.now) (memory_of self.now) (words_of self.now) fresh }
    {
        let count = self.number(self.words.w0)?;
        let size = self.number(self.words.w1)?;
        Ok(self.fresh(fresh, true, count as u128 * size as u128))
    }
}
