//! Tests of `rw_layout`: texts that are programs, texts that each check refuses, with the line, and where lines lie.
//!
//! They stand apart because a crate that has tests is proved twice. This one has nothing else.
#![tactic(auto)]

#[cfg(test)]
mod at;
#[cfg(test)]
mod cases;
#[cfg(test)]
mod first;
#[cfg(test)]
mod laying;
#[cfg(test)]
mod lines;
#[cfg(test)]
mod looked;
#[cfg(test)]
mod order;
#[cfg(test)]
mod parts;
#[cfg(test)]
mod reach;
#[cfg(test)]
mod sizes;
#[cfg(test)]
mod twice;
#[cfg(test)]
mod undefined;
