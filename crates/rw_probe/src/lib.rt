//! Leaders, and the probes that count how often each is entered.
//!
//! A leader is a point at which a basic block begins. [`Leaders::of`] finds those of a file and gives each its number, by the
//! definition over the file's bytes (`specs/Leaders`). [`probe`] chooses, by what is live at a point, the instructions that
//! count there (`specs/Probes`): one `incq` where none of the flags that it sets is live, else a sum through a register that
//! isn't live, else one through `%rax`, which is saved below the red zone.
//!
//! [`laws::probes_count`] says what these instructions do to a machine over numbers: they change one counter by one, and
//! nothing else that counts. [`laws::probed_runs_correspond`] is what this comes to: a program with probes does what the
//! program over words does, for as long as that doesn't stop, and each counter holds how often its leader was entered.
//!
//! It stands on liveness (`rw_live`), references (`rw_refs`), jump tables (`rw_tables`) and runs (`rw_runs`); its tests are
//! `rw_probe_tests`.
#![tactic(auto)]

mod blocks;
mod choice;
mod form;
pub mod laws;
mod leaders;

pub use choice::probe;
pub use form::Probe;
pub use leaders::{Leaders, Mode};
