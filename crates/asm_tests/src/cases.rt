//! What the rows of the tables say, and how they are judged.

use asm_read::read_text;
use rw_base::{Fault, Refusal};
use std::alloc::{AllocError, Global};
use std::process::Abort;

/// A kind of line, such a line without its line feed, and a line beside it that is none.
pub struct Pair(pub &'static str, pub &'static str, pub &'static str);

/// A text, and the number of its first line that is none.
pub struct Case(pub &'static [u8], pub Option<u64>);

/// The number of the line that is refused, if one is.
#[tactic(auto, using(asm_read::proofs::Progress::feeds))]
pub fn refused_line(
    rt: &impl Abort,
    alloc: Global,
    text: &[u8],
) -> Result<Option<u64>, AllocError> {
    assert!(rt; text.len() < 100_000);
    match read_text(alloc, text) {
        Ok(_) => Ok(None),
        Err(Refusal::Fault(Fault::BadText(k))) => Ok(Some(k)),
        Err(_) => Err(AllocError),
    }
}

/// The lines that are read make a text; with a line that is none behind them it is refused there.
pub fn assert_pairs(rt: &impl Abort, alloc: Global, pairs: &[Pair]) -> Result<(), AllocError> {
    let mut text = Vec::new(alloc);
    for (i, Pair(kind, read, refused)) in pairs.iter().enumerate() {
        text.extend_from_slice(read.as_bytes())?;
        text.push(b'\n')?;
        assert_eq!(rt; refused_line(rt, alloc, &text)?, None, "{kind}: {read}");
        let mut longer = text.clone()?;
        longer.extend_from_slice(refused.as_bytes())?;
        longer.push(b'\n')?;
        let line = refused_line(rt, alloc, &longer)?;
        assert_eq!(rt; line, Some(i as u64 + 2), "{kind}: {refused}");
    }
    Ok(())
}

pub fn assert_cases(rt: &impl Abort, alloc: Global, cases: &[Case]) -> Result<(), AllocError> {
    for (i, Case(text, want)) in cases.iter().enumerate() {
        assert_eq!(rt; refused_line(rt, alloc, text)?, *want, "row {i}");
    }
    Ok(())
}
