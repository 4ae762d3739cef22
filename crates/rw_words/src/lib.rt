//! Words of cells: what a register or a piece of memory holds where addresses aren't numbers yet.
//!
//! A cell is a byte: a number, a byte of the address of an atom, or anything. A word is a row of 1, 2, 4 or 8 cells,
//! the lowest byte first, and contracts see it as that list. Which number a word stands for depends on where the
//! atoms lie, which is a record of addresses.
//!
//! `number` and `whole` answer exactly by the cells (their clauses `value`). The functions of `laws` say that a word of
//! numbers stands for its number alone, a whole word for the address of its atom alone, that equal cells stand for
//! equal bytes, and that splitting and joining words keep what they stand for.
//!
//! Stands on the widths of `rw_base`.
#![tactic(auto)]

mod atom;
mod kind;
pub mod laws;
mod word;

pub use atom::{Atom, Cell};
pub use kind::Kind;
pub use word::Word;
