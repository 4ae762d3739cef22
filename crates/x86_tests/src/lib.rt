//! Tests of `x86_insn`, `x86_bytes`, `x86_decode` and `x86_meaning`, by examples from the Intel SDM, volume 2.
//!
//! They stand apart from these crates because a crate that has tests is proved twice. This one has nothing else.
#![tactic(auto)]

#[cfg(test)]
mod bytes;
#[cfg(test)]
mod decoding;
#[cfg(test)]
mod instructions;
#[cfg(test)]
mod meanings;
