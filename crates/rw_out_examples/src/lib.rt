//! Worked files of `rw_out`: that the premises of its theorem can be met, and what the programs of eight files then do.
//!
//! Each law of `laws` has a file of bytes without a fault, a layout of its text and mostly a placing of the file, and says what
//! the original and the printed program do at these by `rw_out::laws::simulation`. `premises_are_met` has a file of code alone,
//! `data_premises_are_met` constant data, `table_premises_are_met` a jump table, with an index in it and one past it,
//! `slot_is_followed` an address in data, `copied_symbol_is_loaded` a copied symbol, `puts_is_called` a start by a C library and
//! an imported function, `copied_symbol_is_passed` all of these three, and `blocks_are_counted` probes at its blocks. `specs/`
//! has the files, placings and layouts, and what is said of the machines.
//!
//! The crate stands apart because these files are computed, which takes minutes. Nothing of the program stands on it.
#![tactic(auto)]

pub mod laws;
