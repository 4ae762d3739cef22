//! Distances out of reach.

use crate::cases::program_of;
use crate::laying::laid_out;
use asm_items::{NameId, Sym};
use rw_base::Refusal;
use rw_layout::Order;
use std::alloc::Global;
use std::process::Abort;
use std::test::Fail;

/// A text that is a program, the order of its parts, and the symbol and the distance that is out of reach, if one is.
struct Far(&'static str, &'static [u8], Order, Option<(Sym, i64)>);

// Parts begin at 65,536, with no gap. Names are numbered as they come in the text.
//
// In the first text 16 bytes of code, 1,073,741,824 of the section, 134,217,728 of the counters and 1,073,741,824 of the copy
// follow one another, all multiples of 16: `far`, name 2, lies at 65,536 + 2,281,701,392 and the call ends at 65,536 + 8. In
// reverse it ends at 65,536 + 134,217,728 + 1,073,741,824 + 8, from where the distance is 1,073,741,832.
//
// In the others 16 bytes of code come first, so what follows begins 8 bytes behind the first instruction. An offset of
// 2^64 - n leads n bytes back. Where there are two functions, in reverse the first has 16 bytes before it, and the copy, behind
// it, begins 8 bytes behind its first instruction.
#[rattlefmt::skip]
static FAR: [Far; 10] = [
    Far("behind 2 GiB of data", b"# copy big 1073741824\n# function _start\n\t.text\n\t.p2align 4\n\t.globl _start\n\t.type _start, @function\n_start:\n.L1000:\n\tcall far\n.Lp1000:\n\tint3\n\t.section .retro.s0,\"aw\",@nobits\n\t.p2align 0\n.Ls0:\n\t.zero 1073741824\n\t.section .retro.counts,\"aw\",@nobits\n\t.globl __retro_counts\n\t.p2align 3\n__retro_counts:\n\t.zero 134217728\n\t.section .note.GNU-stack,\"\",@progbits\n", Order::Forward, Some((Sym::Named(NameId(2), 0), 2_281_701_384))),
    Far("the same in reverse", b"# copy big 1073741824\n# function _start\n\t.text\n\t.p2align 4\n\t.globl _start\n\t.type _start, @function\n_start:\n.L1000:\n\tcall far\n.Lp1000:\n\tint3\n\t.section .retro.s0,\"aw\",@nobits\n\t.p2align 0\n.Ls0:\n\t.zero 1073741824\n\t.section .retro.counts,\"aw\",@nobits\n\t.globl __retro_counts\n\t.p2align 3\n__retro_counts:\n\t.zero 134217728\n\t.section .note.GNU-stack,\"\",@progbits\n", Order::Reverse, None),
    Far("2^31 - 1 bytes", b"# copy x 8\n# function _start\n\t.text\n\t.p2align 4\n\t.globl _start\n\t.type _start, @function\n_start:\n.L1000:\n\tleaq x+2147483639(%rip), %rax\n.Lp1000:\n\tint3\n\t.section .note.GNU-stack,\"\",@progbits\n", Order::Forward, None),
    Far("2^31 bytes", b"# copy x 8\n# function _start\n\t.text\n\t.p2align 4\n\t.globl _start\n\t.type _start, @function\n_start:\n.L1000:\n\tleaq x+2147483640(%rip), %rax\n.Lp1000:\n\tint3\n\t.section .note.GNU-stack,\"\",@progbits\n", Order::Forward, Some((Sym::Named(NameId(0), 2_147_483_640), 2_147_483_648))),
    Far("2^31 bytes back", b"# copy x 8\n# function _start\n\t.text\n\t.p2align 4\n\t.globl _start\n\t.type _start, @function\n_start:\n.L1000:\n\tleaq x+18446744071562067960(%rip), %rax\n.Lp1000:\n\tint3\n\t.section .note.GNU-stack,\"\",@progbits\n", Order::Forward, None),
    Far("2^31 + 1 bytes back", b"# copy x 8\n# function _start\n\t.text\n\t.p2align 4\n\t.globl _start\n\t.type _start, @function\n_start:\n.L1000:\n\tleaq x+18446744071562067959(%rip), %rax\n.Lp1000:\n\tint3\n\t.section .note.GNU-stack,\"\",@progbits\n", Order::Forward, Some((Sym::Named(NameId(0), 18_446_744_071_562_067_959), -2_147_483_649))),
    Far("past a section", b"# function _start\n\t.text\n\t.p2align 4\n\t.globl _start\n\t.type _start, @function\n_start:\n.L1000:\n\tleaq .Ls0+2147483640(%rip), %rax\n.Lp1000:\n\tint3\n\t.section .retro.s0,\"aw\",@nobits\n\t.p2align 0\n.Ls0:\n\t.zero 8\n\t.section .note.GNU-stack,\"\",@progbits\n", Order::Forward, Some((Sym::Section(0, 2_147_483_640), 2_147_483_648))),
    Far("past the counters", b"# function _start\n\t.text\n\t.p2align 4\n\t.globl _start\n\t.type _start, @function\n_start:\n.L1000:\n\tincq __retro_counts+2147483648(%rip)\n.Lp1000:\n\tint3\n\t.section .retro.counts,\"aw\",@nobits\n\t.globl __retro_counts\n\t.p2align 3\n__retro_counts:\n\t.zero 8\n\t.section .note.GNU-stack,\"\",@progbits\n", Order::Forward, Some((Sym::Counter(268_435_456), 2_147_483_656))),
    Far("the first of two in the text, which lies last", b"# copy x 8\n# function _start\n\t.text\n\t.p2align 4\n\t.globl _start\n\t.type _start, @function\n_start:\n.L1000:\n\tleaq x+4000000000(%rip), %rax\n.Lp1000:\n\tint3\n# function f\n\t.text\n\t.p2align 4\n.L2000:\n\tleaq x+3000000000(%rip), %rax\n.Lp2000:\n\tint3\n\t.section .note.GNU-stack,\"\",@progbits\n", Order::Reverse, Some((Sym::Named(NameId(0), 4_000_000_000), 4_000_000_008))),
    Far("a word of data", b"# copy x 8\n# function _start\n\t.text\n\t.p2align 4\n\t.globl _start\n\t.type _start, @function\n_start:\n.L1000:\n\tret\n.Lp1000:\n\tint3\n\t.section .retro.s0,\"aw\",@progbits\n\t.p2align 0\n.Ls0:\n\t.quad x+4000000000\n\t.section .note.GNU-stack,\"\",@progbits\n", Order::Forward, None),
];

/// The distance out of reach of a program, if it has one.
fn far_in(
    rt: &impl Abort,
    alloc: Global,
    text: &[u8],
    order: Order,
) -> Result<Option<(Sym, i64)>, Refusal> {
    let program = program_of(rt, alloc, text)?;
    Ok(laid_out(rt, alloc, &program, order, 0)?.err())
}

#[test]
fn tells_the_first_distance_out_of_reach(rt: HostRuntime) -> Result<(), Fail> {
    for Far(what, text, order, want) in &FAR {
        assert_eq!(rt; far_in(&rt, rt.alloc(), text, *order)?, *want, "{what}");
    }
    Ok(())
}
