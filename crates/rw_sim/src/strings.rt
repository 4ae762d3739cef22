//! Answers that look at one byte after another.

ghost use Rattle.std.specs.Prelude.{◌≡◌};
ghost use Rattle.rw_sim.specs.Answers.{Meets, answer_value, answered};
ghost use Rattle.rw_sim.specs.Asked.{operators_of, memory_of, words_of};
ghost use Rattle.rw_sim.specs.Builtins as Definitions;
ghost use Rattle.rw_sim.specs.Builtins.{byte_at_address, string_at, string_length};

use crate::answer::{Answer, Refused};
use crate::asked::Asked;
use rw_base::Width;
use rw_domain::{Access, Cause, Domain};
use std::alloc::Global;

/// A string has fewer bytes than there are addresses.
const LONGEST: u64 = u64::MAX;

impl<D: Domain, P: Copy> Asked<'_, D, P> {
    /// The number of the byte at an address.
    fn byte_at(&self, at: &D::Word) -> Result<u8, Cause>
        ensures { result ≡ byte_at_address (operators_of self.now) (memory_of self.now) at.now }
    {
        let place = self.state.domain().place(at, 1, Access::Read)?;
        match self.byte(place) {
            Some(byte) => self.byte_number(byte).ok_or(Cause::ByteUnknown),
            None => Err(Cause::ByteUnknown),
        }
    }

    /// The bytes from an address on, up to a zero byte.
    fn string(&self, alloc: Global, start: D::Word) -> Result<Vec<u8>, Refused>
        ensures { Meets (λ bytes. bytes.items) (string_at (operators_of self.now) (memory_of self.now) start) result }
    {
        let mut bytes = Vec::new(alloc);
        let mut at = start;
        let mut left = LONGEST;
        while left > 0 {
            let byte = self.byte_at(&at)?;
            if byte == 0 {
                return Ok(bytes);
            }
            bytes.push(byte)?;
            at = self.state.domain().sum(Some(at), None, 1);
            left -= 1;
        }
        Err(Refused::Stops(Cause::AddressOutside))
    }

    /// puts(s): the string and a line feed.
    pub(crate) fn puts(&self, alloc: Global) -> Result<Answer<D::Word, D::Byte>, Refused>
        ensures { Meets answer_value (Definitions.puts_answer (operators_of self.now) (memory_of self.now) (words_of self.now)) result }
    {
        let mut bytes = self.string(alloc, self.words.w0)?;
        bytes.push(b'\n')?;
        let count = self.state.domain().num(Width::Q, bytes.len() as u64);
        Ok(Answer::Sends(1, bytes, count))
    }

    /// How many bytes there are from an address on before a zero byte.
    fn length(&self, start: D::Word) -> Result<u64, Cause>
        ensures { result ≡ string_length (operators_of self.now) (memory_of self.now) start }
    {
        let mut at = start;
        let mut left = LONGEST;
        while left > 0 {
            let byte = self.byte_at(&at)?;
            if byte == 0 {
                return Ok(LONGEST - left);
            }
            at = self.state.domain().sum(Some(at), None, 1);
            left -= 1;
        }
        Err(Cause::AddressOutside)
    }

    /// strlen(s).
    pub(crate) fn strlen(&self) -> Result<Answer<D::Word, D::Byte>, Cause>
        ensures { answered result ≡ Definitions.strlen_answer (operators_of self.now) (memory_of self.now) (words_of self.now) }
    {
        let length = self.length(self.words.w0)?;
        Ok(self.gives(length))
    }
}
