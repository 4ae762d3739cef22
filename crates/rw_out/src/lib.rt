//! The text of a file in a mode: its first fault or its items, and the text written line by line.
//!
//! `Plan::of` refuses a file exactly with its first fault (clause `judged`), and `Plan::write` writes exactly the text of the
//! file's items (clause `bytes`), or at a failed write the first `done` bytes of it. The items are those of copied and weak
//! symbols, functions with a probe at each leader, data and counters (`items_with` of `Items`); the probes are those by what is
//! live at their leaders (clause `probes`). One walk brings the items of functions, data and counters, one after another
//! (`next_item`); at each writing it decodes each instruction once and finds its probe in constant time. The names are found
//! before (`naming`), without the probes, which use none: those of instructions by decoding each once more, and not at all
//! where the file imports and copies nothing.
//!
//! The text does what the file does: `simulates` and `rewritten` of `Plan::write` and of `laws::simulation`. That its premises
//! can be met is shown in `rw_out_examples`.
//!
//! It stands on what is found in a file (`rw_data` and the phases below it), leaders and probes (`rw_probe`), liveness
//! (`rw_live`), the machines of a file and of a text (`rw_code`) and the lines of items (`asm_items`, `asm_print`).
#![tactic(auto)]

mod choosing;
pub mod laws;
mod naming;
mod numbers;
mod plan;
mod position;
mod probes;
mod steps;
mod symbols;
mod text;
mod writing;

pub use plan::Plan;
