//! What a machine computes with: flags, places, causes to stop, and two domains of words.
//!
//! `Domain` is the trait of a domain. All that a domain computes is one record of operators over the regions that it
//! has placed, and each function of the trait equals its operator. `Numbers` has the numbers below 2^64 as words and
//! regions at addresses; its operators are the definitions of `specs/Numbers.antt`, after the Intel Software
//! Developer's Manual, volume 2. `Symbols` has words of cells and regions that lie nowhere yet; its operators are those
//! of `specs/Symbols.antt`.
//!
//! The functions of `laws` say that where words and flags stand for numbers, each result and flag over words stands
//! for that over numbers, and each access that is permitted over words is permitted over numbers, at the same place
//! (clauses `operators` and `others` of `operators_stand`).
//!
//! Stands on the widths of `rw_base`, the operators' names of `x86_insn` and the words of `rw_words`.
#![tactic(auto)]

mod arithmetic;
mod bits;
mod cause;
mod domain;
mod eight;
mod flags;
mod holes;
pub mod laws;
mod lookup;
mod numbers;
mod pieces;
mod place;
mod places;
mod product;
mod shift;
mod signed;
mod symbols;
mod word_alu;
mod word_operators;
mod word_sum;

pub use cause::Cause;
pub use domain::Domain;
pub use eight::Eight;
pub use flags::{Flags, Tri};
pub use numbers::Numbers;
pub use place::{Access, Hole, Place, Region};
pub use symbols::Symbols;
