//! The order of lines.

use crate::cases::{Case, assert_cases};
use std::test::Fail;

// Texts in order and out of it, with the line at which another had to stand.
static ORDER: [Case; 23] = [
    Case(
        "a smallest program",
        b"# function _start\n\t.text\n\t.p2align 4\n\t.globl _start\n\t.type _start, @function\n_start:\n.L1000:\n\tmovl $60, %eax\n.L1005:\n\txorl %edi, %edi\n.L1007:\n\tsyscall\n.Lp1000:\n\tint3\n\t.section .note.GNU-stack,\"\",@progbits\n",
        None,
    ),
    Case("no line", b"", Some(1)),
    Case(
        "no last line",
        b"# function _start\n\t.text\n\t.p2align 4\n\t.globl _start\n\t.type _start, @function\n_start:\n.L1000:\n\tmovl $60, %eax\n.L1005:\n\txorl %edi, %edi\n.L1007:\n\tsyscall\n.Lp1000:\n\tint3\n",
        Some(15),
    ),
    Case(
        "a line behind the last",
        b"# function _start\n\t.text\n\t.p2align 4\n\t.globl _start\n\t.type _start, @function\n_start:\n.L1000:\n\tmovl $60, %eax\n.L1005:\n\txorl %edi, %edi\n.L1007:\n\tsyscall\n.Lp1000:\n\tint3\n\t.section .note.GNU-stack,\"\",@progbits\n# function f\n",
        Some(16),
    ),
    Case(
        "no name",
        b"# function _start\n\t.text\n\t.p2align 4\n.L1000:\n\tmovl $60, %eax\n.L1005:\n\txorl %edi, %edi\n.L1007:\n\tsyscall\n.Lp1000:\n\tint3\n\t.section .note.GNU-stack,\"\",@progbits\n",
        Some(12),
    ),
    Case(
        "a second name",
        b"# function _start\n\t.text\n\t.p2align 4\n\t.globl _start\n\t.type _start, @function\n_start:\n.L1000:\n\tmovl $60, %eax\n.L1005:\n\txorl %edi, %edi\n.L1007:\n\tsyscall\n.Lp1000:\n\tint3\n# function main\n\t.text\n\t.p2align 4\n\t.globl main\n\t.type main, @function\nmain:\n.L2000:\n\tret\n.Lp2000:\n\tint3\n\t.section .note.GNU-stack,\"\",@progbits\n",
        Some(18),
    ),
    Case(
        "a second function",
        b"# function _start\n\t.text\n\t.p2align 4\n\t.globl _start\n\t.type _start, @function\n_start:\n.L1000:\n\tmovl $60, %eax\n.L1005:\n\txorl %edi, %edi\n.L1007:\n\tsyscall\n.Lp1000:\n\tint3\n# function f\n\t.text\n\t.p2align 4\n.L2000:\n\tret\n.Lp2000:\n\tint3\n\t.section .note.GNU-stack,\"\",@progbits\n",
        None,
    ),
    Case(
        "an alignment of 8",
        b"# function _start\n\t.text\n\t.p2align 3\n\t.globl _start\n\t.type _start, @function\n_start:\n.L1000:\n\tmovl $60, %eax\n.L1005:\n\txorl %edi, %edi\n.L1007:\n\tsyscall\n.Lp1000:\n\tint3\n\t.section .note.GNU-stack,\"\",@progbits\n",
        Some(3),
    ),
    Case(
        "another name's type",
        b"# function _start\n\t.text\n\t.p2align 4\n\t.globl _start\n\t.type main, @function\n_start:\n.L1000:\n\tmovl $60, %eax\n.L1005:\n\txorl %edi, %edi\n.L1007:\n\tsyscall\n.Lp1000:\n\tint3\n\t.section .note.GNU-stack,\"\",@progbits\n",
        Some(5),
    ),
    Case(
        "no first label",
        b"# function _start\n\t.text\n\t.p2align 4\n\t.globl _start\n\t.type _start, @function\n_start:\n\tnop\n\tmovl $60, %eax\n.L1005:\n\txorl %edi, %edi\n.L1007:\n\tsyscall\n.Lp1000:\n\tint3\n\t.section .note.GNU-stack,\"\",@progbits\n",
        Some(7),
    ),
    Case(
        "no int3",
        b"# function _start\n\t.text\n\t.p2align 4\n\t.globl _start\n\t.type _start, @function\n_start:\n.L1000:\n\tmovl $60, %eax\n.L1005:\n\txorl %edi, %edi\n.L1007:\n\tsyscall\n.Lp1000:\n\tnop\n\t.section .note.GNU-stack,\"\",@progbits\n",
        Some(14),
    ),
    Case(
        "the text ends in a function",
        b"# function _start\n\t.text\n\t.p2align 4\n\t.globl _start\n\t.type _start, @function\n_start:\n.L1000:\n\tmovl $60, %eax\n.L1005:\n",
        Some(10),
    ),
    Case(
        "a weak name before a copy",
        b"\t.weak x\n# copy y 8\n# function _start\n\t.text\n\t.p2align 4\n\t.globl _start\n\t.type _start, @function\n_start:\n.L1000:\n\tmovl $60, %eax\n.L1005:\n\txorl %edi, %edi\n.L1007:\n\tsyscall\n.Lp1000:\n\tint3\n\t.section .note.GNU-stack,\"\",@progbits\n",
        Some(2),
    ),
    Case(
        "a copy before a weak name",
        b"# copy y 8\n\t.weak x\n# function _start\n\t.text\n\t.p2align 4\n\t.globl _start\n\t.type _start, @function\n_start:\n.L1000:\n\tmovl $60, %eax\n.L1005:\n\txorl %edi, %edi\n.L1007:\n\tsyscall\n.Lp1000:\n\tint3\n\t.section .note.GNU-stack,\"\",@progbits\n",
        None,
    ),
    Case(
        "the second section first",
        b"# function _start\n\t.text\n\t.p2align 4\n\t.globl _start\n\t.type _start, @function\n_start:\n.L1000:\n\tmovl $60, %eax\n.L1005:\n\txorl %edi, %edi\n.L1007:\n\tsyscall\n.Lp1000:\n\tint3\n\t.section .retro.s1,\"a\",@progbits\n\t.p2align 0\n.Ls1:\n\t.byte 1\n\t.section .note.GNU-stack,\"\",@progbits\n",
        Some(15),
    ),
    Case(
        "another section's label",
        b"# function _start\n\t.text\n\t.p2align 4\n\t.globl _start\n\t.type _start, @function\n_start:\n.L1000:\n\tmovl $60, %eax\n.L1005:\n\txorl %edi, %edi\n.L1007:\n\tsyscall\n.Lp1000:\n\tint3\n\t.section .retro.s0,\"a\",@progbits\n\t.p2align 0\n.Ls1:\n\t.byte 1\n\t.section .note.GNU-stack,\"\",@progbits\n",
        Some(17),
    ),
    Case(
        "bytes where there are none",
        b"# function _start\n\t.text\n\t.p2align 4\n\t.globl _start\n\t.type _start, @function\n_start:\n.L1000:\n\tmovl $60, %eax\n.L1005:\n\txorl %edi, %edi\n.L1007:\n\tsyscall\n.Lp1000:\n\tint3\n\t.section .retro.s0,\"aw\",@nobits\n\t.p2align 0\n.Ls0:\n\t.byte 1\n\t.section .note.GNU-stack,\"\",@progbits\n",
        Some(18),
    ),
    Case(
        "zeros among bytes",
        b"# function _start\n\t.text\n\t.p2align 4\n\t.globl _start\n\t.type _start, @function\n_start:\n.L1000:\n\tmovl $60, %eax\n.L1005:\n\txorl %edi, %edi\n.L1007:\n\tsyscall\n.Lp1000:\n\tint3\n\t.section .retro.s0,\"a\",@progbits\n\t.p2align 0\n.Ls0:\n\t.byte 1\n\t.zero 1\n\t.section .note.GNU-stack,\"\",@progbits\n",
        Some(19),
    ),
    Case(
        "no contents",
        b"# function _start\n\t.text\n\t.p2align 4\n\t.globl _start\n\t.type _start, @function\n_start:\n.L1000:\n\tmovl $60, %eax\n.L1005:\n\txorl %edi, %edi\n.L1007:\n\tsyscall\n.Lp1000:\n\tint3\n\t.section .retro.s0,\"a\",@progbits\n\t.p2align 0\n.Ls0:\n\t.section .note.GNU-stack,\"\",@progbits\n",
        Some(18),
    ),
    Case(
        "two sections",
        b"# function _start\n\t.text\n\t.p2align 4\n\t.globl _start\n\t.type _start, @function\n_start:\n.L1000:\n\tmovl $60, %eax\n.L1005:\n\txorl %edi, %edi\n.L1007:\n\tsyscall\n.Lp1000:\n\tint3\n\t.section .retro.s0,\"a\",@progbits\n\t.p2align 0\n.Ls0:\n\t.byte 1\n\t.section .retro.s1,\"aw\",@nobits\n\t.p2align 0\n.Ls1:\n\t.zero 8\n\t.section .note.GNU-stack,\"\",@progbits\n",
        None,
    ),
    Case(
        "12 bytes of counters",
        b"# function _start\n\t.text\n\t.p2align 4\n\t.globl _start\n\t.type _start, @function\n_start:\n.L1000:\n\tmovl $60, %eax\n.L1005:\n\txorl %edi, %edi\n.L1007:\n\tsyscall\n.Lp1000:\n\tint3\n\t.section .retro.counts,\"aw\",@nobits\n\t.globl __retro_counts\n\t.p2align 3\n__retro_counts:\n\t.zero 12\n\t.section .note.GNU-stack,\"\",@progbits\n",
        Some(19),
    ),
    Case(
        "counters before a section",
        b"# function _start\n\t.text\n\t.p2align 4\n\t.globl _start\n\t.type _start, @function\n_start:\n.L1000:\n\tmovl $60, %eax\n.L1005:\n\txorl %edi, %edi\n.L1007:\n\tsyscall\n.Lp1000:\n\tint3\n\t.section .retro.counts,\"aw\",@nobits\n\t.globl __retro_counts\n\t.p2align 3\n__retro_counts:\n\t.zero 16\n\t.section .retro.s0,\"a\",@progbits\n\t.p2align 0\n.Ls0:\n\t.byte 1\n\t.section .note.GNU-stack,\"\",@progbits\n",
        Some(20),
    ),
    Case(
        "counters last",
        b"# function _start\n\t.text\n\t.p2align 4\n\t.globl _start\n\t.type _start, @function\n_start:\n.L1000:\n\tmovl $60, %eax\n.L1005:\n\txorl %edi, %edi\n.L1007:\n\tsyscall\n.Lp1000:\n\tint3\n\t.section .retro.s0,\"a\",@progbits\n\t.p2align 0\n.Ls0:\n\t.byte 1\n\t.section .retro.counts,\"aw\",@nobits\n\t.globl __retro_counts\n\t.p2align 3\n__retro_counts:\n\t.zero 16\n\t.section .note.GNU-stack,\"\",@progbits\n",
        None,
    ),
];

#[test]
fn lines_stand_in_order(rt: HostRuntime) -> Result<(), Fail> {
    assert_cases(&rt, rt.alloc(), &ORDER)?;
    Ok(())
}
