//! The instruction at an address.

use crate::cases::program_of;
use crate::laying::laid_out;
use crate::lines::{COUNTED, text_of};
use rw_base::Refusal;
use rw_layout::Order;
use std::alloc::Global;
use std::process::Abort;
use std::test::Fail;

/// An address, and the number of the line of the instruction there, counted from 0, if there is one: in the order of the text
/// with no gap, and in reverse with gaps of 4,096 bytes.
struct At(&'static str, u64, [Option<u32>; 2]);

// Of the program that counts.
#[rattlefmt::skip]
static AT: [At; 18] = [
    At("the start", 0, [None, None]),
    At("before the first instruction", 65_535, [None, None]),
    At("the first in the order of the text, and the counters", 65_536, [Some(7), None]),
    At("in the first, and in the counters", 65_540, [None, None]),
    At("the second, and in the counters", 65_544, [Some(8), None]),
    At("the last of a function, and behind the counters", 65_584, [Some(18), None]),
    At("behind a function", 65_592, [None, None]),
    At("the first of the next", 65_600, [Some(23), None]),
    At("the last", 65_704, [Some(46), None]),
    At("the counters", 65_712, [None, None]),
    At("before the first in reverse", 69_663, [None, None]),
    At("the first in reverse", 69_664, [None, Some(23)]),
    At("in the middle", 69_712, [None, Some(33)]),
    At("between two", 69_716, [None, None]),
    At("behind a function in reverse", 69_776, [None, None]),
    At("the first of the function that lies last", 73_872, [None, Some(7)]),
    At("the last in reverse", 73_920, [None, Some(18)]),
    At("behind the last in reverse", 73_928, [None, None]),
];

/// An address whose instruction isn't the wanted one, and what was found there.
fn wrong_item(
    rt: &impl Abort,
    alloc: Global,
) -> Result<Option<(&'static str, [Option<u32>; 2])>, Refusal> {
    let program = program_of(rt, alloc, &text_of(alloc, COUNTED)?)?;
    let Ok(forward) = laid_out(rt, alloc, &program, Order::Forward, 0)? else {
        return Err(Refusal::Memory);
    };
    let Ok(reverse) = laid_out(rt, alloc, &program, Order::Reverse, 4096)? else {
        return Err(Refusal::Memory);
    };
    for At(what, address, want) in &AT {
        let found = [forward.item_at(*address), reverse.item_at(*address)];
        if found != *want {
            return Ok(Some((*what, found)));
        }
    }
    Ok(None)
}

#[test]
fn tells_the_instruction_at_an_address(rt: HostRuntime) -> Result<(), Fail> {
    assert_eq!(rt; wrong_item(&rt, rt.alloc())?, None);
    Ok(())
}
