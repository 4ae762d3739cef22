//! Programs: texts whose lines are in order, define what they use, and have room for their data; and where they lie in memory.
//!
//! [`Program::of`] makes a program of a text in four checks, one after another. Promised: it takes exactly the texts that pass
//! them (`IsProgram`, clause `program`), and refuses another at exactly the first line of the first check that finds one
//! (`Refuses`, clause `refused`); only want of memory may come besides. The text is kept as it is (clauses `text`).
//!
//! `specs/Order` says what lines in order are, by the parts that they make; `specs/Checks` which lines each check refuses.
//! An automaton goes through the lines once (`order`); what lines define is kept in a hash table (`definitions`), in which
//! what they use is looked up (`uses`); the sizes of data are summed line by line (`sizes`).
//!
//! [`layout()`] lays a program out in memory, in the order of the text or back, with a gap behind each unit. Promised: what the
//! look-ups give of labels, regions, names, instructions and addresses is what the rule gives (`IsLaidBy`; the rule is `layout_of`
//! in `specs/Rule`), and no distance is out of reach, so that the result is a layout in the sense of `asm_items`
//! (`laws::rule_gives_layouts`). `OutOfReach` comes exactly where a distance is, with the first in the order of the text
//! (`RefusesLayout`).
//!
//! It goes through the lines some times: for the units (`units`), their bases (`bases`), the copies (`copies`), the addresses of
//! lines (`places`), those of names (`names`), and the distances (`reach`). A label is found among the lines that define something,
//! by ascending kind and number (`keyed`), the instruction at an address among the lines of instructions by ascending address
//! (`insns`), and everything else by its number.
//!
//! It stands on texts that were read (`asm_read`), items (`asm_items`) and instructions (`x86_insn`). The tests stand in `rw_layout_tests`.
#![tactic(auto)]

mod bases;
mod copies;
mod definitions;
mod insns;
mod keyed;
pub mod laws;
mod laying;
mod names;
mod order;
mod places;
mod program;
mod reach;
mod sizes;
mod units;
mod uses;

pub use laying::{Layout, Order};
pub use program::Program;
pub use reach::{LayoutError, layout};
