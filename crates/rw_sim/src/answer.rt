ghost use Rattle.std.specs.Prelude.{◌≡◌};
ghost use Rattle.rw_sim.specs.declared.answer.Refused.TheVariants.{Stops, Memory};

use rw_domain::{Cause, Place, Region};
use rw_machine::End;
use std::alloc::{AllocError, AllocFailed};

/// What a built-in answer comes to, where the step doesn't stop.
#[derive(Debug, Drop)]
pub enum Answer<W, B> {
    /// The run ends.
    Ends(End),
    /// A result, of width Q, after bytes are written to memory or none.
    Gives(W, Option<(Place, Vec<B>)>),
    /// A fresh region. The result is the address of its first byte.
    Allots(Region),
    /// Bytes for descriptor 1 or 2, and a result of width Q.
    Sends(u64, Vec<u8>, W),
    /// One read of at most so many bytes from the source. They go to the place, and the result is how many there were. There
    /// is a place exactly where the limit isn't 0.
    Takes(u64, Option<Place>),
}

/// Why there is no answer.
#[derive(Clone, Copy, Debug, PartialEq, Eq)]
pub enum Refused {
    /// The step stops.
    Stops(Cause),
    /// For want of memory; nothing is known of the answer.
    Memory,
}

impl From<Cause> for Refused {
    ghost from_gives = { λ c r. r ≡ Stops c };

    fn from(cause: Cause) -> Self {
        Refused::Stops(cause)
    }
}

impl From<AllocError> for Refused {
    ghost from_gives = { λ _ r. r ≡ Memory };

    fn from(_: AllocError) -> Self {
        Refused::Memory
    }
}

impl<T: Drop> From<AllocFailed<T>> for Refused {
    ghost from_gives = { λ _ r. r ≡ Memory };

    fn from(_: AllocFailed<T>) -> Self {
        Refused::Memory
    }
}
