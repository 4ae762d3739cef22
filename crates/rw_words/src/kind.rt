//! What a word is as a whole.

use crate::atom::Atom;

/// What a word is as a whole.
#[derive(Clone, Copy, Debug, PartialEq, Eq)]
pub enum Kind {
    /// All its cells are numbers.
    Number(u64),
    /// It is the parts 0 to 7 of an atom.
    Whole(Atom),
    /// Anything else.
    Mixed,
}
