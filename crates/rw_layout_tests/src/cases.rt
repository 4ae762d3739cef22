//! How the rows of the tables are judged.

use asm_read::laws::items_are_lines;
use asm_read::read_text;
use rw_base::{Fault, Refusal};
use rw_layout::Program;
use std::alloc::{AllocError, Global};
use std::process::Abort;

/// What a text shows, the text, and the number of the line that is refused, if one is.
pub struct Case(pub &'static str, pub &'static [u8], pub Option<u64>);

/// The program of the lines of a text that is read without fault.
#[tactic(auto, using(asm_read::proofs::Progress::feeds))]
pub fn program_of(rt: &impl Abort, alloc: Global, text: &[u8]) -> Result<Program, Refusal> {
    assert!(rt; text.len() < 100_000);
    items_are_lines();
    let text = read_text(alloc, text)?;
    Program::of(alloc, text)
}

/// The number of the line that is refused, if one is. Each text is one that is read.
pub fn refused_line(
    rt: &impl Abort,
    alloc: Global,
    text: &[u8],
) -> Result<Option<u64>, AllocError> {
    match program_of(rt, alloc, text) {
        Ok(_) => Ok(None),
        Err(Refusal::Fault(Fault::BadText(k))) => Ok(Some(k)),
        Err(_) => Err(AllocError),
    }
}

pub fn assert_cases(rt: &impl Abort, alloc: Global, cases: &[Case]) -> Result<(), AllocError> {
    for Case(what, text, want) in cases {
        assert_eq!(rt; refused_line(rt, alloc, text)?, *want, "{what}");
    }
    Ok(())
}
