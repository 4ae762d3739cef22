//! The functions of a file, and their points, which are the addresses at which their instructions start.
//!
//! [`Functions::find`] refuses a file exactly where it breaks a rule on functions or instructions, by the first such fault
//! (clause `judged`). [`Functions`] then has their list (`list`), the entry (`entry`) and whether a C library starts the file
//! (`hosted`), answers by address which function and which instruction is there (`function_of`, `is_point`, `insn_at`), and shows
//! for each byte of code a mark (`marks`, `marks_of`) and the facts of its instruction (`facts_of`). [`laws`] says that the
//! functions ascend, each in one code section, and that the points of a function are the one list of spellings that fills it.
//!
//! Finding takes time near to linear in the length of the file, and a look-up logarithmic time. It stands on the reader of files
//! (`rw_elf`), their relocations (`rw_reloc`) and the decoder (`x86_decode`).
#![tactic(auto)]

mod check;
mod code;
mod function;
mod functions;
mod hosted;
mod insn_facts;
mod kept;
pub mod laws;
mod symbols;

pub use function::Function;
pub use functions::Functions;
pub use hosted::is_hosted;
pub use insn_facts::InsnFacts;
