//! A machine over any domain, and its step.
//!
//! `State` holds a domain, sixteen registers, flags, a row of bytes for each region, and a point. `Code` says what stands
//! at points. `step` runs the list of small operations of an instruction: its clause `outcome` says that it comes to
//! exactly what `step_of` (`specs/Step`) defines, and `stays` that a step that asks or stops changes nothing. `reply` makes
//! the whole step of a machine that asks: `outcome` is `reply_of`, `made` says that one that stops changes nothing, and
//! `err` that want of memory doesn't. Of several causes to stop the first in a fixed order counts. Contracts see a state
//! as the machine `machine_of`.
//!
//! `laws::steps_correspond` is the law of steps: where two programs correspond point by point and reference by reference,
//! and the step of the machine over words doesn't stop, the machine over numbers does the same, with an answer or none.
//! It looks at nothing of an instruction but its list of small operations, and the words that the list takes: that of
//! its reference and that of the next point. `laws::steps_agree` and `laws::steps_agree_over_numbers` are the law of agreement: two
//! machines that agree on what a step reads take the same step.
//!
//! It stands on the domains (`rw_domain`) and on what instructions do (`x86_meaning`); its tests are `rw_machine_tests`.
#![tactic(auto)]

mod access;
mod answers;
mod asks;
mod carry;
mod causes;
mod code;
mod condition;
mod context;
mod ending;
mod event;
mod first;
mod goal;
pub mod laws;
mod marks;
mod memory;
mod operate;
mod plan;
mod registers;
mod replies;
mod results;
mod running;
mod state;
mod steps;
mod stores;
mod strings;
mod sweep;
mod words;
mod writes;

pub use code::Code;
pub use condition::holds;
pub use ending::{End, Trap};
pub use event::{Answer, Event, Reply, Six};
pub use goal::Goal;
pub use memory::Memory;
pub use registers::Registers;
pub use state::State;
pub use steps::{reply, step};
