//! Items of the assembly text: an item is one line. Their names are numbers in the code (`NameId`, into
//! a `Names`) and bytes in definitions, so that a text is a function of its items alone.
//!
//! [`Names`] is seen as a list of names, of which no two are equal (`are_distinct`). `add` gives the number of an equal
//! name or appends it, `find` gives it or none, and `get` the name of a number. Which items a text may have says
//! `is_item` (`specs/Formed`).
//!
//! It stands on instructions (`x86_insn`).
#![tactic(auto)]

mod item;
pub mod laws;
mod names;

pub use item::{Item, Label, NameId, Sym};
pub use names::Names;
