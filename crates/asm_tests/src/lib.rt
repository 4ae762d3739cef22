//! Tests of `asm_items` and `asm_read`. What a line is, and which lines are none, is by hand from the rules of the text
//! (`asm_print/specs/Text`), from the GNU assembler's manual and from worked texts.
//!
//! They stand apart from these crates because a crate that has tests is proved twice. This one has nothing else.
#![tactic(auto)]

#[cfg(test)]
mod cases;
#[cfg(test)]
mod instructions;
#[cfg(test)]
mod items;
#[cfg(test)]
mod malformed;
#[cfg(test)]
mod names;
#[cfg(test)]
mod programs;
