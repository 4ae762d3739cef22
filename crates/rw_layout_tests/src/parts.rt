//! Lines out of order in each part of a program.

use crate::cases::{Case, assert_cases};
use std::test::Fail;

// The line at which another had to stand, in functions, sections and counters.
static PARTS: [Case; 21] = [
    Case(
        "no comment",
        b"\t.text\n\t.p2align 4\n\t.globl _start\n\t.type _start, @function\n_start:\n.L1000:\n\tmovl $60, %eax\n.L1005:\n\txorl %edi, %edi\n.L1007:\n\tsyscall\n.Lp1000:\n\tint3\n\t.section .note.GNU-stack,\"\",@progbits\n",
        Some(1),
    ),
    Case(
        "a section first",
        b"\t.section .retro.s0,\"a\",@progbits\n\t.p2align 0\n.Ls0:\n\t.byte 1\n# function _start\n\t.text\n\t.p2align 4\n\t.globl _start\n\t.type _start, @function\n_start:\n.L1000:\n\tmovl $60, %eax\n.L1005:\n\txorl %edi, %edi\n.L1007:\n\tsyscall\n.Lp1000:\n\tint3\n\t.section .note.GNU-stack,\"\",@progbits\n",
        Some(1),
    ),
    Case(
        "no section of code",
        b"# function _start\n\t.p2align 4\n\t.globl _start\n\t.type _start, @function\n_start:\n.L1000:\n\tmovl $60, %eax\n.L1005:\n\txorl %edi, %edi\n.L1007:\n\tsyscall\n.Lp1000:\n\tint3\n\t.section .note.GNU-stack,\"\",@progbits\n",
        Some(2),
    ),
    Case(
        "a global name of no start",
        b"# function _start\n\t.text\n\t.p2align 4\n\t.globl __retro_counts\n\t.type _start, @function\n_start:\n.L1000:\n\tmovl $60, %eax\n.L1005:\n\txorl %edi, %edi\n.L1007:\n\tsyscall\n.Lp1000:\n\tint3\n\t.section .note.GNU-stack,\"\",@progbits\n",
        Some(4),
    ),
    Case(
        "no type",
        b"# function _start\n\t.text\n\t.p2align 4\n\t.globl _start\n_start:\n.L1000:\n\tmovl $60, %eax\n.L1005:\n\txorl %edi, %edi\n.L1007:\n\tsyscall\n.Lp1000:\n\tint3\n\t.section .note.GNU-stack,\"\",@progbits\n",
        Some(5),
    ),
    Case(
        "another name",
        b"# function _start\n\t.text\n\t.p2align 4\n\t.globl _start\n\t.type _start, @function\nmain:\n.L1000:\n\tmovl $60, %eax\n.L1005:\n\txorl %edi, %edi\n.L1007:\n\tsyscall\n.Lp1000:\n\tint3\n\t.section .note.GNU-stack,\"\",@progbits\n",
        Some(6),
    ),
    Case(
        "the last label first",
        b"# function _start\n\t.text\n\t.p2align 4\n\t.globl _start\n\t.type _start, @function\n_start:\n.Lp1000:\n\tint3\n\t.section .note.GNU-stack,\"\",@progbits\n",
        Some(7),
    ),
    Case(
        "a table's label in code",
        b"# function _start\n\t.text\n\t.p2align 4\n\t.globl _start\n\t.type _start, @function\n_start:\n.L1000:\n\tmovl $60, %eax\n.Lt8:\n.L1005:\n\txorl %edi, %edi\n.L1007:\n\tsyscall\n.Lp1000:\n\tint3\n\t.section .note.GNU-stack,\"\",@progbits\n",
        Some(9),
    ),
    Case(
        "a copy behind code",
        b"# function _start\n\t.text\n\t.p2align 4\n\t.globl _start\n\t.type _start, @function\n_start:\n.L1000:\n\tmovl $60, %eax\n.L1005:\n\txorl %edi, %edi\n.L1007:\n\tsyscall\n.Lp1000:\n\tint3\n# copy x 8\n\t.section .note.GNU-stack,\"\",@progbits\n",
        Some(15),
    ),
    Case(
        "a weak name behind code",
        b"# function _start\n\t.text\n\t.p2align 4\n\t.globl _start\n\t.type _start, @function\n_start:\n.L1000:\n\tmovl $60, %eax\n.L1005:\n\txorl %edi, %edi\n.L1007:\n\tsyscall\n.Lp1000:\n\tint3\n\t.weak x\n\t.section .note.GNU-stack,\"\",@progbits\n",
        Some(15),
    ),
    Case(
        "a function behind data",
        b"# function _start\n\t.text\n\t.p2align 4\n\t.globl _start\n\t.type _start, @function\n_start:\n.L1000:\n\tmovl $60, %eax\n.L1005:\n\txorl %edi, %edi\n.L1007:\n\tsyscall\n.Lp1000:\n\tint3\n\t.section .retro.s0,\"a\",@progbits\n\t.p2align 0\n.Ls0:\n\t.byte 1\n# function f\n\t.text\n\t.p2align 4\n.L2000:\n\tret\n.Lp2000:\n\tint3\n\t.section .note.GNU-stack,\"\",@progbits\n",
        Some(19),
    ),
    Case(
        "data without a section",
        b"# function _start\n\t.text\n\t.p2align 4\n\t.globl _start\n\t.type _start, @function\n_start:\n.L1000:\n\tmovl $60, %eax\n.L1005:\n\txorl %edi, %edi\n.L1007:\n\tsyscall\n.Lp1000:\n\tint3\n\t.byte 1\n\t.section .note.GNU-stack,\"\",@progbits\n",
        Some(15),
    ),
    Case(
        "no alignment of a section",
        b"# function _start\n\t.text\n\t.p2align 4\n\t.globl _start\n\t.type _start, @function\n_start:\n.L1000:\n\tmovl $60, %eax\n.L1005:\n\txorl %edi, %edi\n.L1007:\n\tsyscall\n.Lp1000:\n\tint3\n\t.section .retro.s0,\"a\",@progbits\n.Ls0:\n\t.byte 1\n\t.section .note.GNU-stack,\"\",@progbits\n",
        Some(16),
    ),
    Case(
        "zeros where there are bytes",
        b"# function _start\n\t.text\n\t.p2align 4\n\t.globl _start\n\t.type _start, @function\n_start:\n.L1000:\n\tmovl $60, %eax\n.L1005:\n\txorl %edi, %edi\n.L1007:\n\tsyscall\n.Lp1000:\n\tint3\n\t.section .retro.s0,\"a\",@progbits\n\t.p2align 0\n.Ls0:\n\t.zero 1\n\t.section .note.GNU-stack,\"\",@progbits\n",
        Some(18),
    ),
    Case(
        "zeros twice",
        b"# function _start\n\t.text\n\t.p2align 4\n\t.globl _start\n\t.type _start, @function\n_start:\n.L1000:\n\tmovl $60, %eax\n.L1005:\n\txorl %edi, %edi\n.L1007:\n\tsyscall\n.Lp1000:\n\tint3\n\t.section .retro.s0,\"aw\",@nobits\n\t.p2align 0\n.Ls0:\n\t.zero 1\n\t.zero 1\n\t.section .note.GNU-stack,\"\",@progbits\n",
        Some(19),
    ),
    Case(
        "a label of code among data",
        b"# function _start\n\t.text\n\t.p2align 4\n\t.globl _start\n\t.type _start, @function\n_start:\n.L1000:\n\tmovl $60, %eax\n.L1005:\n\txorl %edi, %edi\n.L1007:\n\tsyscall\n.Lp1000:\n\tint3\n\t.section .retro.s0,\"a\",@progbits\n\t.p2align 0\n.Ls0:\n.L2000:\n\t.byte 1\n\t.section .note.GNU-stack,\"\",@progbits\n",
        Some(18),
    ),
    Case(
        "another name of counters made global",
        b"# function _start\n\t.text\n\t.p2align 4\n\t.globl _start\n\t.type _start, @function\n_start:\n.L1000:\n\tmovl $60, %eax\n.L1005:\n\txorl %edi, %edi\n.L1007:\n\tsyscall\n.Lp1000:\n\tint3\n\t.section .retro.counts,\"aw\",@nobits\n\t.globl main\n\t.p2align 3\n__retro_counts:\n\t.zero 16\n\t.section .note.GNU-stack,\"\",@progbits\n",
        Some(16),
    ),
    Case(
        "counters at multiples of 4",
        b"# function _start\n\t.text\n\t.p2align 4\n\t.globl _start\n\t.type _start, @function\n_start:\n.L1000:\n\tmovl $60, %eax\n.L1005:\n\txorl %edi, %edi\n.L1007:\n\tsyscall\n.Lp1000:\n\tint3\n\t.section .retro.counts,\"aw\",@nobits\n\t.globl __retro_counts\n\t.p2align 2\n__retro_counts:\n\t.zero 16\n\t.section .note.GNU-stack,\"\",@progbits\n",
        Some(17),
    ),
    Case(
        "another name of counters",
        b"# function _start\n\t.text\n\t.p2align 4\n\t.globl _start\n\t.type _start, @function\n_start:\n.L1000:\n\tmovl $60, %eax\n.L1005:\n\txorl %edi, %edi\n.L1007:\n\tsyscall\n.Lp1000:\n\tint3\n\t.section .retro.counts,\"aw\",@nobits\n\t.globl __retro_counts\n\t.p2align 3\nmain:\n\t.zero 16\n\t.section .note.GNU-stack,\"\",@progbits\n",
        Some(18),
    ),
    Case(
        "bytes for counters",
        b"# function _start\n\t.text\n\t.p2align 4\n\t.globl _start\n\t.type _start, @function\n_start:\n.L1000:\n\tmovl $60, %eax\n.L1005:\n\txorl %edi, %edi\n.L1007:\n\tsyscall\n.Lp1000:\n\tint3\n\t.section .retro.counts,\"aw\",@nobits\n\t.globl __retro_counts\n\t.p2align 3\n__retro_counts:\n\t.byte 1, 2, 3, 4, 5, 6, 7, 8\n\t.section .note.GNU-stack,\"\",@progbits\n",
        Some(19),
    ),
    Case(
        "counters twice",
        b"# function _start\n\t.text\n\t.p2align 4\n\t.globl _start\n\t.type _start, @function\n_start:\n.L1000:\n\tmovl $60, %eax\n.L1005:\n\txorl %edi, %edi\n.L1007:\n\tsyscall\n.Lp1000:\n\tint3\n\t.section .retro.counts,\"aw\",@nobits\n\t.globl __retro_counts\n\t.p2align 3\n__retro_counts:\n\t.zero 16\n\t.section .retro.counts,\"aw\",@nobits\n\t.globl __retro_counts\n\t.p2align 3\n__retro_counts:\n\t.zero 16\n\t.section .note.GNU-stack,\"\",@progbits\n",
        Some(20),
    ),
];

#[test]
fn parts_have_their_lines(rt: HostRuntime) -> Result<(), Fail> {
    assert_cases(&rt, rt.alloc(), &PARTS)?;
    Ok(())
}
