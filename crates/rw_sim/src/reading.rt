//! What an answer needs of its call.

ghost use Rattle.std.specs.Prelude.{◌≡◌, IsSome, IfOk};
ghost use Rattle.rw_domain.specs.Operators.{IsInside};
ghost use Rattle.rw_machine.specs.Replying.{stored_index};
ghost use Rattle.rw_machine.specs.Rows.{byte_at};
ghost use Rattle.rw_sim.specs.Asked.{operators_of, memory_of, regions_of, IsPlaced};
ghost use Rattle.rw_sim.specs.Builtins.{byte_number, needed_number, needed_range};

use crate::asked::Asked;
use rw_base::Width;
use rw_domain::{Access, Cause, Domain, Eight, Place};

/// The number of the byte of a stored word that lies at a place, if one does.
fn stored_index(stored: Place, at: Place) -> Option<u8>
    ensures { result ≡ stored_index stored 8 at.region at.offset }
{
    if at.region == stored.region && stored.offset <= at.offset && at.offset - stored.offset < 8 {
        Some((at.offset - stored.offset) as u8)
    } else {
        None
    }
}

impl<D: Domain, P: Copy> Asked<'_, D, P> {
    /// The byte at a place, as the call finds it.
    pub(crate) fn byte(&self, at: Place) -> Option<D::Byte>
        ensures value { result ≡ byte_at (memory_of self.now) at }
        ensures inside { IsInside (regions_of self.now) at 1 → IsSome result }
    {
        let before = self.state.byte(at);
        match self.stored {
            None => before,
            Some((place, word)) => match stored_index(place, at) {
                None => before,
                Some(i) => Some(self.state.domain().split(word, i)),
            },
        }
    }

    /// The number that a word has to be.
    pub(crate) fn number(&self, word: D::Word) -> Result<u64, Cause>
        ensures { result ≡ needed_number (operators_of self.now) word }
    {
        match self.state.domain().number(Width::Q, word) {
            Some(number) => Ok(number),
            None => Err(Cause::NumberUnknown),
        }
    }

    /// The number of a byte, if it is one.
    pub(crate) fn byte_number(&self, byte: D::Byte) -> Option<u8>
        ensures { result ≡ byte_number (operators_of self.now) byte }
    {
        let domain = self.state.domain();
        let bytes = Eight {
            b0: byte,
            b1: byte,
            b2: byte,
            b3: byte,
            b4: byte,
            b5: byte,
            b6: byte,
            b7: byte,
        };
        match domain.number(Width::B, domain.join(Width::B, &bytes)) {
            Some(number) => Some((number % 256) as u8),
            None => None,
        }
    }

    /// The place of a range that has to be permitted. One of no bytes is, and has no place.
    pub(crate) fn range(
        &self,
        start: D::Word,
        len: u64,
        access: Access,
    ) -> Result<Option<Place>, Cause>
        ensures value { result ≡ needed_range (operators_of self.now) start len access }
        ensures inside { IfOk result (λ place. IsPlaced (regions_of self.now) place len) }
    {
        if len == 0 {
            return Ok(None);
        }
        let place = self.state.domain().place(&start, len, access)?;
        Ok(Some(place))
    }
}
