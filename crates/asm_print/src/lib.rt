//! The line of each item of the assembly text (GNU as manual, AT&T syntax), and the definitions of reading it back.
//!
//! [`line_of`] leaves an item's line in a [`Line`], and [`print_item`] writes it by one `write_all` (clauses `line`, `bytes`,
//! `cause`). `laws::lines_fit` says that each line has room in a `Line`; `laws::lines_are_read` that a line is read back as its
//! item; `laws::lines_apart` and `laws::texts_apart` that equal lines are of equal items, and equal texts of equal lists of
//! items. How a line is read stands in `specs/` as list functions; `asm_read` is the code for them.
//!
//! It stands on items and names (`asm_items`), instructions (`x86_insn`) and outputs (`rw_io`).
#![tactic(auto)]

pub mod laws;
mod line;
mod printing;
pub mod spelling;
pub mod words;

pub use line::Line;
pub use printing::{line_of, print_item};
