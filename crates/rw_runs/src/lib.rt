//! Runs of a machine over any domain and program: so many steps, each with the next answer of a list where it asks.
//!
//! `specs/Runs` defines the run after n steps (`made`), how many steps of another machine stand for these where each costs
//! more besides (`total`), and how many of them were at some points (`entered`). `specs/RunStands` says when a run stands for
//! another, and when answers do along it.
//!
//! `laws::runs_correspond` is the law of n steps: where two programs correspond and the machine over words makes n steps,
//! the machine over numbers makes them too. `laws::blocks_follow` says the same where the second machine makes more steps for
//! one of the first, as a program with probes does. `laws::steps_count` says which answers n steps have used, and what they cost.
//!
//! It stands on the machine and its law of steps (`rw_machine`), and names no file.
#![tactic(auto)]

pub mod laws;
