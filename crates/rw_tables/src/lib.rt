//! The jump tables of a file, and the jumps that may go through one.
//!
//! An indirect jump on a register that a 64-bit add wrote last in its run has to be a dispatch, and its table has to lie in
//! constant data, lead to points and overlap no table of another base. [`Tables::find`] refuses a file exactly where one isn't,
//! by the fault of the first (clause `judged`). The tables that it then shows, one of each base and by ascending base, are those
//! of the definition over the file's bytes and share no byte (clauses `list` and `apart` of [`Tables::list`]), and
//! [`Tables::entry_at`] tells of the word that starts at an address where it leads.
//!
//! It goes once over the points of each function, and keeps what the nearest writers left in each register: as much room for any
//! number of points. Each look-up is logarithmic. [`laws`] ties "nearest" to the greatest address, and says what holds of each
//! table (`tables_are_good`). It stands on `rw_funcs`
//! (points), `x86_meaning` (what instructions write), `rw_reloc` and `rw_elf` (the file).
#![tactic(auto)]

mod check;
mod dispatch;
mod entries;
mod jump;
mod known;
pub mod laws;
mod seen;
mod table;
mod tables;

pub use table::Table;
pub use tables::Tables;
