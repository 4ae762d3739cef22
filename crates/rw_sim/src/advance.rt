//! What a step of a simulation comes to.

ghost use Rattle.std.specs.Prelude.{◌≡◌};
ghost use Rattle.rw_sim.specs.AnsweredStep.{stops};
ghost use Rattle.rw_sim.specs.declared.advance.StepError.TheVariants.{ReadFault, WriteFault as SinkFault, Memory};

use rw_domain::Cause;
use rw_io::{Failed, WriteFault};
use rw_machine::End;
use std::alloc::{AllocError, AllocFailed};

/// What a step of a simulation came to.
#[derive(Clone, Copy, Debug, PartialEq, Eq)]
pub enum Advance {
    /// The step is made, and the next one follows.
    Moved,
    /// The step is made, and the run has ended.
    Ended(End),
    /// The step can't be made, or its call has no answer.
    Stopped(Cause),
}

impl Advance {
    /// The step isn't made.
    pub fn is_stopped(&self) -> bool
        ensures { result ≡ stops self.now }
    {
        matches!(self, Advance::Stopped(_))
    }
}

/// Why a step of a simulation wasn't done.
#[derive(Clone, Copy, Debug, PartialEq, Eq)]
pub enum StepError {
    /// The input could not be read: its count of faults rose. The step isn't made.
    ReadFault,
    /// What takes the bytes of descriptor 1 or 2 failed: its count of faults rose. The step is made, and the first of its bytes
    /// are written.
    WriteFault,
    /// There was no memory. The step isn't made, but a piece may have been read for it.
    Memory,
}

impl From<AllocError> for StepError {
    ghost from_gives = { λ _ r. r ≡ Memory };

    fn from(_: AllocError) -> Self {
        StepError::Memory
    }
}

impl<T: Drop> From<AllocFailed<T>> for StepError {
    ghost from_gives = { λ _ r. r ≡ Memory };

    fn from(_: AllocFailed<T>) -> Self {
        StepError::Memory
    }
}

impl From<Failed> for StepError {
    ghost from_gives = { λ _ r. r ≡ ReadFault };

    fn from(_: Failed) -> Self {
        StepError::ReadFault
    }
}

impl From<WriteFault> for StepError {
    ghost from_gives = { λ _ r. r ≡ SinkFault };

    fn from(_: WriteFault) -> Self {
        StepError::WriteFault
    }
}
