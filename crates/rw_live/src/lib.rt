//! Which registers and flags are live at the points of a function, and why that is enough for a step.
//!
//! A register is live at a point where some path inside the function from there reads it before it writes it whole, or comes
//! to a call, a return, a system call, an indirect jump or a jump out of the function (`specs/Liveness`). `Live::of` finds
//! what is live in a function: it numbers the points, decodes each once into a node that has what it reads, what it writes and
//! where it leads (`nodes`), and lets sets grow over the nodes until none grows any more (`graph`). `reg_live` and `flag_live`
//! tell exactly what is live.
//!
//! `laws::live_is_enough` is what this is for: two machines over words that agree on what is live at a point take the same
//! step, and agree on what is live at the next point. `laws::weakened_agrees` gives such a machine: one of which nothing else
//! is known.
//!
//! It stands on the machine and its law of agreement (`rw_machine`), and on the points of a file (`rw_funcs`).
#![tactic(auto)]

mod graph;
pub mod laws;
mod live;
mod nodes;

pub use live::Live;
