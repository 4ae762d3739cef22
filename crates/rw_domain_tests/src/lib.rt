//! Tests of `rw_domain`, numbers as a processor computes them and words by the rows of their definition, and of `rw_words`.
//!
//! They stand apart from that crate because a crate that has tests is proved twice. This one has nothing else.
#![tactic(auto)]

#[cfg(test)]
mod cells;
#[cfg(test)]
mod numbers;
#[cfg(test)]
mod processor;
#[cfg(test)]
mod words;
