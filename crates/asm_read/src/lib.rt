//! Reading the assembly text: the items of a text, with numbers for their names.
//!
//! [`read_text`] goes through the lines once. What a line shows is read leniently, as the definitions of reading in
//! `asm_print` say: leading zeros, registers of another width and empty numbers are taken. Then the candidate has to be
//! an item of a text, its name gets its number, and its line is printed again and compared. So exactly the lines that
//! `asm_print` prints are read, and no rule on their form stands here a second time.
//!
//! Names in a line are parts of it (`Item<&[u8]>`), and definitions see their bytes: each function of the reader finds
//! what the list function of its name finds (`Finds`). Registers and mnemonics are looked for among the few that end,
//! or begin, as the text does; names are looked up by `Names`.
//!
//! Promised: `read_text` answers exactly the first line that isn't the line of an item, or items whose text is the
//! input, with the names by first appearance (`IsReadAs`, `Refuses`); only want of memory may come besides.
//! [`laws::texts_are_read`]: each text of items is read as these items. [`laws::items_are_lines`]: one item a line. The tests
//! stand in `asm_tests`.
#![tactic(auto)]

mod arguments;
mod building;
mod formed;
mod forms;
mod instruction;
pub mod laws;
mod line;
mod numbering;
mod pieces;
mod registers;
mod shapes;
mod text;

pub use text::{Text, read_text};
