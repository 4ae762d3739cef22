//! The values of x86-64 instructions, over any type of reference, and which of them are instructions.
//!
//! [`Insn`] has one variant for each kind of instruction that is decoded, printed and run, with the operands of
//! [`Operand`] and [`Mem`]. Its one reference is an address or a symbol, by the type parameter.
//!
//! Promised: [`Insn::well_formed`] is exactly the definition `is_instruction` (specs/WellFormed), which reads the
//! rules on operands, widths and immediates out of the opcode map of the Intel SDM, volume 2; [`Insn::reference`]
//! is `reference_of`; [`Insn::with_ref`] puts in a reference and changes nothing else (clauses `shape`, `reference`,
//! `exact`); [`Insn::without_ref`] is `None` exactly where there is one (`none`, `shape`); a well formed instruction
//! has at most one reference ([`laws::one_reference`]).
//! It stands on `rw_base`, for [`Width`](rw_base::Width), and takes no memory.
#![tactic(auto)]

mod instruction;
mod kinds;
pub mod laws;
mod operands;

pub use instruction::Insn;
pub use kinds::{AluOp, BitOp, Cond, Convert, Count, OneOp, Plain, Reg, Reg8, ScanOp, ShiftOp};
pub use operands::{Mem, Operand};
