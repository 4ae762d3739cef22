//! Tests of `rw_probe`. Expected leaders follow by hand from the targets and ends of each instruction, and expected probes from
//! what is read and written on the paths behind them (Intel SDM, volume 2).
//!
//! They stand apart from that crate because a crate that has tests is proved twice. This one has nothing else.
#![tactic(auto)]

#[cfg(test)]
mod cases;
#[cfg(test)]
mod choice;
#[cfg(test)]
mod programs;
