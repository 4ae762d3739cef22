//! The jumps of a file that may go through tables.

ghost use Rattle.std.specs.Prelude.{◌≡◌, ◌<◌, [], ◌++◌, IfOk, OnOk, length};
ghost use Rattle.std.specs.List.{cons_option, slice_index_or};
ghost use Rattle.rw_elf.specs.Symbols.{null_symbol};
ghost use Rattle.rw_funcs.specs.Functions.{functions_of, kept_functions};
ghost use Rattle.rw_funcs.specs.Points.{points_of};
ghost use Rattle.rw_tables.specs.Jumps.{jumps_in, jumps_of};

use crate::seen::Seen;
use crate::table::Table;
use rw_funcs::Functions;
use std::alloc::{AllocError, Global};

/// An indirect jump through a register that a 64-bit add wrote last.
#[derive(Clone, Copy)]
pub(crate) struct Jump {
    /// Its address.
    pub(crate) place: u64,
    /// Its table, where it is a dispatch.
    pub(crate) table: Option<Table>,
}

fn push_some(jumps: &mut Vec<Jump>, jump: Option<Jump>) -> Result<(), AllocError>
    ensures { OnOk result (jumps.new.items ≡ jumps.old.items ++ cons_option jump []) }
{
    if let Some(jump) = jump {
        jumps.push(jump)?;
    }
    Ok(())
}

// Adds the jumps of the function with a number, in one pass over its points.
fn add_jumps(functions: &Functions, number: usize, jumps: &mut Vec<Jump>) -> Result<(), AllocError>
    requires { number < length (functions_of functions.now) }
    ensures { OnOk result (jumps.new.items ≡ jumps.old.items ++ jumps_in (points_of functions.now (slice_index_or (kept_functions functions.now) number null_symbol))) }
{
    let span = functions.list()[number].span;
    let mut seen = Seen::nothing();
    let mut at = span.start;
    while at < span.end {
        let Some((insn, len)) = functions.insn_at(at) else {
            unreachable!()
        };
        push_some(jumps, seen.jump(at, &insn))?;
        seen.note(&insn);
        at += u64::from(len);
    }
    Ok(())
}

/// The jumps of a file, by address.
pub(crate) fn jumps_of(alloc: Global, functions: &Functions) -> Result<Vec<Jump>, AllocError>
    ensures { IfOk result (λ jumps. jumps.items ≡ jumps_of functions.now) }
{
    let mut jumps = Vec::new(alloc);
    for number in 0..functions.list().len() {
        add_jumps(functions, number, &mut jumps)?;
    }
    Ok(jumps)
}
