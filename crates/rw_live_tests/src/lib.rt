//! Tests of `rw_live`. Expected values follow by hand from what each instruction reads and writes (Intel SDM, volume 2), over
//! the paths of each function.
//!
//! They stand apart from that crate because a crate that has tests is proved twice. This one has nothing else.
#![tactic(auto)]

#[cfg(test)]
mod cases;
#[cfg(test)]
mod edges;
#[cfg(test)]
mod programs;
