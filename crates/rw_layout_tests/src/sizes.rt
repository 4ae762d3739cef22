//! The sizes of data.

use crate::cases::{Case, assert_cases};
use std::test::Fail;

// The line with which the sections, the copies or the counters are past their limit.
static SIZES: [Case; 10] = [
    Case(
        "sections of 1 GiB",
        b"# function _start\n\t.text\n\t.p2align 4\n\t.globl _start\n\t.type _start, @function\n_start:\n.L1000:\n\tmovl $60, %eax\n.L1005:\n\txorl %edi, %edi\n.L1007:\n\tsyscall\n.Lp1000:\n\tint3\n\t.section .retro.s0,\"aw\",@nobits\n\t.p2align 0\n.Ls0:\n\t.zero 1073741823\n\t.section .retro.s1,\"a\",@progbits\n\t.p2align 0\n.Ls1:\n\t.byte 1\n\t.section .note.GNU-stack,\"\",@progbits\n",
        None,
    ),
    Case(
        "sections of 1 GiB and 1 byte",
        b"# function _start\n\t.text\n\t.p2align 4\n\t.globl _start\n\t.type _start, @function\n_start:\n.L1000:\n\tmovl $60, %eax\n.L1005:\n\txorl %edi, %edi\n.L1007:\n\tsyscall\n.Lp1000:\n\tint3\n\t.section .retro.s0,\"aw\",@nobits\n\t.p2align 0\n.Ls0:\n\t.zero 1073741824\n\t.section .retro.s1,\"a\",@progbits\n\t.p2align 0\n.Ls1:\n\t.byte 1\n\t.section .note.GNU-stack,\"\",@progbits\n",
        Some(22),
    ),
    Case(
        "a section of 2^64 - 1 bytes",
        b"# function _start\n\t.text\n\t.p2align 4\n\t.globl _start\n\t.type _start, @function\n_start:\n.L1000:\n\tmovl $60, %eax\n.L1005:\n\txorl %edi, %edi\n.L1007:\n\tsyscall\n.Lp1000:\n\tint3\n\t.section .retro.s0,\"aw\",@nobits\n\t.p2align 0\n.Ls0:\n\t.zero 18446744073709551615\n\t.section .note.GNU-stack,\"\",@progbits\n",
        Some(18),
    ),
    Case(
        "copies of 1 GiB",
        b"# copy x 1073741823\n# copy y 1\n# function _start\n\t.text\n\t.p2align 4\n\t.globl _start\n\t.type _start, @function\n_start:\n.L1000:\n\tmovl $60, %eax\n.L1005:\n\txorl %edi, %edi\n.L1007:\n\tsyscall\n.Lp1000:\n\tint3\n\t.section .note.GNU-stack,\"\",@progbits\n",
        None,
    ),
    Case(
        "copies of 1 GiB and 1 byte",
        b"# copy x 1073741824\n# copy y 1\n# function _start\n\t.text\n\t.p2align 4\n\t.globl _start\n\t.type _start, @function\n_start:\n.L1000:\n\tmovl $60, %eax\n.L1005:\n\txorl %edi, %edi\n.L1007:\n\tsyscall\n.Lp1000:\n\tint3\n\t.section .note.GNU-stack,\"\",@progbits\n",
        Some(2),
    ),
    Case(
        "16,777,216 counters",
        b"# function _start\n\t.text\n\t.p2align 4\n\t.globl _start\n\t.type _start, @function\n_start:\n.L1000:\n\tmovl $60, %eax\n.L1005:\n\txorl %edi, %edi\n.L1007:\n\tsyscall\n.Lp1000:\n\tint3\n\t.section .retro.counts,\"aw\",@nobits\n\t.globl __retro_counts\n\t.p2align 3\n__retro_counts:\n\t.zero 134217728\n\t.section .note.GNU-stack,\"\",@progbits\n",
        None,
    ),
    Case(
        "a counter more",
        b"# function _start\n\t.text\n\t.p2align 4\n\t.globl _start\n\t.type _start, @function\n_start:\n.L1000:\n\tmovl $60, %eax\n.L1005:\n\txorl %edi, %edi\n.L1007:\n\tsyscall\n.Lp1000:\n\tint3\n\t.section .retro.counts,\"aw\",@nobits\n\t.globl __retro_counts\n\t.p2align 3\n__retro_counts:\n\t.zero 134217736\n\t.section .note.GNU-stack,\"\",@progbits\n",
        Some(19),
    ),
    Case(
        "a text with each of these",
        b"# copy big 1073741824\n# function _start\n\t.text\n\t.p2align 4\n\t.globl _start\n\t.type _start, @function\n_start:\n.L1000:\n\tmovl $60, %eax\n.L1005:\n\txorl %edi, %edi\n.L1007:\n\tsyscall\n.Lp1000:\n\tint3\n\t.section .retro.s0,\"aw\",@nobits\n\t.p2align 0\n.Ls0:\n\t.zero 1073741824\n\t.section .retro.counts,\"aw\",@nobits\n\t.globl __retro_counts\n\t.p2align 3\n__retro_counts:\n\t.zero 134217728\n\t.section .note.GNU-stack,\"\",@progbits\n",
        None,
    ),
    Case(
        "a word past 1 GiB",
        b"# function _start\n\t.text\n\t.p2align 4\n\t.globl _start\n\t.type _start, @function\n_start:\n.L1000:\n\tmovl $60, %eax\n.L1005:\n\txorl %edi, %edi\n.L1007:\n\tsyscall\n.Lp1000:\n\tint3\n\t.section .retro.s0,\"aw\",@nobits\n\t.p2align 0\n.Ls0:\n\t.zero 1073741817\n\t.section .retro.s1,\"a\",@progbits\n\t.p2align 0\n.Ls1:\n\t.quad .Ls0\n\t.section .note.GNU-stack,\"\",@progbits\n",
        Some(22),
    ),
    Case(
        "a table past 1 GiB",
        b"# function _start\n\t.text\n\t.p2align 4\n\t.globl _start\n\t.type _start, @function\n_start:\n.L1000:\n\tmovl $60, %eax\n.L1005:\n\txorl %edi, %edi\n.L1007:\n\tsyscall\n.Lp1000:\n\tint3\n\t.section .retro.s0,\"aw\",@nobits\n\t.p2align 0\n.Ls0:\n\t.zero 1073741821\n\t.section .retro.s1,\"a\",@progbits\n\t.p2align 0\n.Ls1:\n.Lt8:\n\t.long .L1000-.Lt8\n\t.section .note.GNU-stack,\"\",@progbits\n",
        Some(23),
    ),
];

#[test]
fn data_has_room(rt: HostRuntime) -> Result<(), Fail> {
    assert_cases(&rt, rt.alloc(), &SIZES)?;
    Ok(())
}
