//! The machines of a file: the symbolic machine and the original where it is placed; starts, replies and placings.
//!
//! [`FileWords`] is the code of the symbolic machine of a file, which `rw_machine::step` runs: exactly the program `symbolic`.
//! `first_offset` and `texts_offset` give the places of a program's first words, as its start defines them. The others are
//! definitions (`specs/`): `Ground`, what a start needs of a file, and `ground_of`, that of a file by the first contents of its
//! regions; `Start` and `words_start`, a program's first registers and memory, with a C library or without; `IsLawful`, what a
//! system call or an imported function may answer; `Placing` and `IsPlacing`, where a file lies; `symbolic` and `original`, its two
//! programs; `Mirrors`, when a machine over numbers does what the symbolic one does. Runs are those of `rw_runs`.
//!
//! `laws::original_mirrors` is the law of n steps for the original of each file without a fault, at each placing;
//! `laws::example_exits` and `laws::example_calls_an_import` show that its premises can be met, and what it gives then.
//! `laws::starts_are_met` and `laws::first_words_stand` speak of starts. `laws::symbolic_has_points` says that what is live
//! (`rw_live`) is enough for the steps of the symbolic program. `proofs/Mirrors` has the law for any program over numbers for which
//! the symbolic one stands, as the printed one.
#![tactic(auto)]

mod file_words;
mod imports;
pub mod laws;
mod point;
mod start;
pub mod texts;

pub use file_words::FileWords;
pub use point::FilePoint;
pub use start::{first_offset, texts_offset};
