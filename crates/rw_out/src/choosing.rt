//! The probes at the leaders of a file, by what is live there.

ghost use Rattle.std.specs.Prelude.{◌≡◌, ◌<◌, IfOk, Some, length};
ghost use Rattle.rw_funcs.specs.Functions.{functions_of};
ghost use Rattle.rw_probe.specs.declared.leaders.Mode.{Mode};
ghost use Rattle.rw_probe.specs.Leaders.{leaders_of};
ghost use Rattle.rw_out.specs.Choosing.{AreBytesOf, IsLiveIn};

use crate::probes::byte_of;
use rw_funcs::Functions;
use rw_live::Live;
use rw_probe::probe;
use std::alloc::{AllocError, Global};

/// What is live in the function with a number.
#[derive(Drop)]
pub(crate) struct OfFunction {
    number: u32,
    live: Live,
}

// What is live in the function with a number: what is kept, where it is of this function. Else it is given up first.
fn live_in(
    alloc: Global,
    functions: &Functions,
    kept: Option<OfFunction>,
    number: u32,
) -> Result<OfFunction, AllocError>
    requires function { number < length (functions_of functions.now) }
    requires kept { IsLiveIn functions.now kept }
    ensures number { IfOk result (λ found. found.number ≡ number) }
    ensures live { IfOk result (λ found. IsLiveIn functions.now (Some found)) }
{
    if let Some(kept) = kept {
        if kept.number == number {
            return Ok(kept);
        }
    }
    let live = Live::of(alloc, functions, number)?;
    Ok(OfFunction { number, live })
}

/// The bytes of the probes at the leaders of a mode. Since leaders and functions ascend, what is live is found once for
/// each function that has a leader, and given up before it is found for the next.
pub(crate) fn probe_bytes(
    alloc: Global,
    functions: &Functions,
    leaders: &[u64],
) -> Result<Vec<u8>, AllocError>
    requires { (mode : Mode) × (leaders.now ≡ leaders_of functions.now mode) }
    ensures { IfOk result (λ bytes. AreBytesOf functions.now leaders.now bytes.items) }
{
    // (for its clauses `clean`: the file has no fault in the functions)
    let _functions = functions.list();
    let mut bytes = Vec::new(alloc);
    let mut kept = None;
    for leader in leaders {
        let number = functions.function_of(*leader).unwrap();
        let found = live_in(alloc, functions, kept, number)?;
        bytes.push(byte_of(probe(&found.live, *leader)))?;
        kept = Some(found);
    }
    Ok(bytes)
}
