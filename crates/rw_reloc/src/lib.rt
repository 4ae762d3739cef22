//! The relocations of a 64-bit ELF file for x86-64 (gABI, "Relocation"; psABI, "Relocation Types"): which
//! places of its data hold an address when it runs, and which address.
//!
//! [`Relocs::read`] refuses a file exactly where one of its loaded relocation tables, or one of their
//! entries, breaks a rule, by the first fault: tables by index, and then entries by place, table and
//! index (clause `judged`). Tables of type `SHT_RELA` and, in compact form, `SHT_RELR` are read. What it
//! then shows are the slots of the definition over the file's bytes (clause `file`), by ascending address
//! and without an overlap. [`Relocs::slot_at`] and [`Relocs::slot_around`] find the slot at and around an
//! address, and [`Relocs::copy_around`] the number of the copied symbol there. [`laws`] says what holds of
//! the slots of each file that is not refused. Reading takes time near to linear in the length of the file
//! and the number of words that its tables name, and a look-up logarithmic time.
//!
//! It stands on `rw_elf` (sections, symbols, numbers and the search by address) and on `rw_base` (faults,
//! rules and orders). Its tests stand in `rw_file_tests`.
#![tactic(auto)]

pub mod abi;
mod check;
mod entries;
mod entry;
mod kept;
pub mod laws;
mod names;
mod relocs;
mod relr;
mod slot;
mod target;

pub use relocs::Relocs;
pub use slot::{Slot, Target};
