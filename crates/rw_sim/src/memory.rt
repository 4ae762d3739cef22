//! Answers that read or write bytes.

ghost use Rattle.std.specs.Prelude.{◌≡◌};
ghost use Rattle.rw_sim.specs.Answers.{Meets, answer_value, answered};
ghost use Rattle.rw_sim.specs.Asked.{operators_of, memory_of, words_of};
ghost use Rattle.rw_sim.specs.Builtins as Definitions;

use crate::answer::{Answer, Refused};
use crate::asked::Asked;
use rw_base::Width;
use rw_domain::{Access, Cause, Domain};
use std::alloc::Global;

/// One read takes at most so many bytes.
const READ_LIMIT: u64 = 65_536;

impl<D: Domain, P: Copy> Asked<'_, D, P> {
    /// read(descriptor, to, count), with the result for another descriptor than 0.
    pub(crate) fn read(&self, other: u64) -> Result<Answer<D::Word, D::Byte>, Cause>
        ensures { answered result ≡ Definitions.read_answer (operators_of self.now) (memory_of self.now) (words_of self.now) other }
    {
        let descriptor = self.number(self.words.w0)?;
        if descriptor != 0 {
            return Ok(self.gives(other));
        }
        let count = self.number(self.words.w2)?.min(READ_LIMIT);
        let to = self.range(self.words.w1, count, Access::Write)?;
        Ok(Answer::Takes(count, to))
    }

    /// write(descriptor, from, count), with the result for another descriptor than 1 and 2.
    pub(crate) fn write(
        &self,
        alloc: Global,
        other: u64,
    ) -> Result<Answer<D::Word, D::Byte>, Refused>
        ensures { Meets answer_value (Definitions.write_answer (operators_of self.now) (memory_of self.now) (words_of self.now) other) result }
    {
        let descriptor = self.number(self.words.w0)?;
        if descriptor != 1 && descriptor != 2 {
            return Ok(self.gives(other));
        }
        let count = self.number(self.words.w2)?;
        let from = self.range(self.words.w1, count, Access::Read)?;
        let bytes = self.numbers_at(alloc, from, count)?;
        let result = self.state.domain().num(Width::Q, count);
        Ok(Answer::Sends(descriptor, bytes, result))
    }

    /// putchar(c).
    pub(crate) fn putchar(&self, alloc: Global) -> Result<Answer<D::Word, D::Byte>, Refused>
        ensures { Meets answer_value (Definitions.putchar_answer (operators_of self.now) (memory_of self.now) (words_of self.now)) result }
    {
        let byte = self.number(self.words.w0)? % 256;
        let mut bytes = Vec::new(alloc);
        bytes.push(byte as u8)?;
        let result = self.state.domain().num(Width::Q, byte);
        Ok(Answer::Sends(1, bytes, result))
    }

    /// memset(to, c, count).
    pub(crate) fn memset(&self, alloc: Global) -> Result<Answer<D::Word, D::Byte>, Refused>
        ensures { Meets answer_value (Definitions.memset_answer (operators_of self.now) (memory_of self.now) (words_of self.now)) result }
    {
        let value = self.number(self.words.w1)?;
        let count = self.number(self.words.w2)?;
        let to = self.range(self.words.w0, count, Access::Write)?;
        let domain = self.state.domain();
        let byte = domain.split(domain.num(Width::B, value % 256), 0);
        let write = self.fill(alloc, to, byte, count)?;
        Ok(Answer::Gives(self.words.w0, write))
    }

    /// memcpy(to, from, count), with the bytes as they were at the start.
    pub(crate) fn memcpy(&self, alloc: Global) -> Result<Answer<D::Word, D::Byte>, Refused>
        ensures { Meets answer_value (Definitions.memcpy_answer (operators_of self.now) (memory_of self.now) (words_of self.now)) result }
    {
        let count = self.number(self.words.w2)?;
        let target = self.range(self.words.w0, count, Access::Write)?;
        let source = self.range(self.words.w1, count, Access::Read)?;
        let write = self.copy(alloc, target, source, count)?;
        Ok(Answer::Gives(self.words.w0, write))
    }
}
