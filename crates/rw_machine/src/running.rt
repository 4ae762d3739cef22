ghost use Rattle.std.specs.Prelude.{◌≡◌};

use crate::ending::Trap;
use crate::registers::Registers;
use rw_base::Width;
use rw_domain::{Cause, Eight, Flags, Place};

/// What only the whole step can do.
#[derive(Clone, Copy, Debug, PartialEq, Eq)]
pub(crate) enum Ask {
    /// A system call.
    Serve,
    /// A trap.
    Halt(Trap),
}

/// A string step, which moves bytes from a source or stores the low bytes of a word.
#[derive(Clone, Copy, Debug, PartialEq, Eq)]
pub(crate) struct StringStep<V> {
    /// It moves bytes.
    pub(crate) moves: bool,
    /// The width of an element.
    pub(crate) width: Width,
    /// The word whose low bytes are stored where none are moved.
    pub(crate) word: V,
}

/// What an instruction finds at its point.
#[derive(Clone, Copy, Debug, PartialEq, Eq)]
pub(crate) struct Here<V> {
    /// The word of the next point.
    pub(crate) next: V,
    /// Its reference as a direct target.
    pub(crate) direct: V,
    /// Its reference as an address.
    pub(crate) indirect: V,
}

/// A write that is due until the instruction is done.
#[derive(Clone, Copy, Debug, PartialEq, Eq)]
pub(crate) enum Due<V> {
    /// The low bytes of a word.
    Word {
        place: Place,
        width: Width,
        word: V,
    },
    /// The elements of a string step, from these addresses on.
    Elements {
        step: StringStep<V>,
        count: u64,
        source: V,
        target: V,
    },
}

/// What is written when the instruction is done, in its order. Each instruction loads before it stores, and stores twice
/// at most.
#[derive(Clone, Copy, Debug, PartialEq, Eq)]
pub(crate) enum Dues<V> {
    Nothing,
    One(Due<V>),
    Two(Due<V>, Due<V>),
}

impl<V: Copy> Dues<V> {
    ghost use Rattle.rw_machine.specs.Running.{due_after};
    ghost use Rattle.rw_machine.specs.Views.{dues_of};

    /// These writes, and behind them another.
    pub(crate) fn then(self, due: Due<V>) -> Dues<V>
        ensures { dues_of result ≡ due_after (dues_of self) due }
    {
        match self {
            Dues::Nothing => Dues::One(due),
            Dues::One(first) => Dues::Two(first, due),
            Dues::Two(..) => self,
        }
    }
}

/// What an instruction has done so far. It never stops in the middle: it goes on with an undefined word, and the cause
/// is kept.
#[derive(Clone, Copy, Debug, PartialEq, Eq)]
pub(crate) struct Running<V> {
    pub(crate) temps: Eight<V>,
    pub(crate) registers: Registers<V>,
    pub(crate) flags: Flags,
    pub(crate) due: Dues<V>,
    pub(crate) goal: Option<V>,
    pub(crate) ask: Option<Ask>,
    pub(crate) cause: Option<Cause>,
}
