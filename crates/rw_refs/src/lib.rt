//! What the addresses of a file stand for: data, code and imports.
//!
//! [`ref_at`] gives the reference of an address, by the definition over the file's bytes, and [`target_at`] that of the target
//! of a direct jump or call, which is code or an import alone. [`stub_at`] tells the stubs through which imports are
//! called. [`check_code`] and [`check_slots`] are the rules on what code and data refer to: each answers the first fault, exactly
//! where there is one. [`laws`] says that without data only code has references.
//!
//! No call takes memory, and a look-up takes logarithmic time. The crate stands on `rw_elf`, `rw_reloc` and `rw_funcs` (the
//! file) and on `rw_words` (atoms). Its tests stand in `rw_file_tests`.
#![tactic(auto)]

mod check;
pub mod laws;
mod references;
mod stubs;

pub use check::{check_code, check_slots};
pub use references::{ref_at, target_at};
pub use stubs::stub_at;
