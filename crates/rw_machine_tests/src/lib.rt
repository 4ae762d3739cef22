//! Tests of `rw_machine`. Expected values are the Intel SDM's, volume 2, by hand.
//!
//! They stand apart from that crate because a crate that has tests is proved twice. This one has nothing else.
#![tactic(auto)]

#[cfg(test)]
mod arithmetic;
#[cfg(test)]
mod calls;
#[cfg(test)]
mod cases;
#[cfg(test)]
mod flow;
#[cfg(test)]
mod listing;
#[cfg(test)]
mod moves;
#[cfg(test)]
mod replies;
#[cfg(test)]
mod stops;
#[cfg(test)]
mod words;
