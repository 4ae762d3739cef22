//! Tests of `rw_data`: files that are accepted and refused, one for each fault, and what their data holds.
//!
//! They stand apart from that crate because a crate that has tests is proved twice. This one has nothing else.
#![tactic(auto)]

#[cfg(test)]
mod contents;
#[cfg(test)]
mod faults;
#[cfg(test)]
mod files;
