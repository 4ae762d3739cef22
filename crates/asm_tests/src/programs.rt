//! Whole texts, worked by hand from files, and what is no text beside them.

use crate::cases::{Case, assert_cases};
use std::test::Fail;

// Programs: one that exits with 0, one that calls puts, one with a copy and counters; the entries of a jump table; a
// probe that spills; references to data.
static TEXTS: [Case; 6] = [
    Case(
        b"# function _start\n\t.text\n\t.p2align 4\n\t.globl _start\n\t.type _start, @function\n_start:\n.L1000:\n\tmovl $60, %eax\n.L1005:\n\txorl %edi, %edi\n.L1007:\n\tsyscall\n.Lp1000:\n\tint3\n\t.section .note.GNU-stack,\"\",@progbits\n",
        None,
    ),
    Case(
        b"# function main\n\t.text\n\t.p2align 4\n\t.globl main\n\t.type main, @function\nmain:\n.L1000:\n\tsubq $8, %rsp\n.L1004:\n\tleaq .Ls0(%rip), %rdi\n.L100b:\n\tcall puts\n.L1010:\n\txorl %eax, %eax\n.L1012:\n\taddq $8, %rsp\n.L1016:\n\tret\n.Lp1000:\n\tint3\n\t.section .retro.s0,\"a\",@progbits\n\t.p2align 4\n.Ls0:\n\t.byte 104, 105, 0\n\t.section .retro.s1,\"aw\",@progbits\n\t.p2align 4\n.Ls1:\n\t.quad puts\n\t.section .note.GNU-stack,\"\",@progbits\n",
        None,
    ),
    Case(
        b"# copy big 1073741824\n# function _start\n\t.text\n\t.p2align 4\n\t.globl _start\n\t.type _start, @function\n_start:\n.L1000:\n\tcall far\n.Lp1000:\n\tint3\n\t.section .retro.s0,\"aw\",@nobits\n\t.p2align 0\n.Ls0:\n\t.zero 1073741824\n\t.section .retro.counts,\"aw\",@nobits\n\t.globl __retro_counts\n\t.p2align 3\n__retro_counts:\n\t.zero 134217728\n\t.section .note.GNU-stack,\"\",@progbits\n",
        None,
    ),
    Case(
        b".L1018:\n\tnotrack jmp *%rax\n\t.section .retro.s0,\"a\",@progbits\n\t.p2align 4\n.Ls0:\n.Lt2000:\n\t.long .L101b-.Lt2000\n\t.long .L1022-.Lt2000\n\t.long .L1029-.Lt2000\n",
        None,
    ),
    Case(
        b".L1017:\n\tleaq -128(%rsp), %rsp\n\tpushq %rax\n\tmovq __retro_counts+8(%rip), %rax\n\tleaq 1(%rax), %rax\n\tmovq %rax, __retro_counts+8(%rip)\n\tpopq %rax\n\tleaq 128(%rsp), %rsp\n\tje .L1019\n",
        None,
    ),
    Case(
        b"\tleaq .Ls0+4(%rip), %rax\n\tmovl (%rax), %edi\n\tmovq stdout(%rip), %rax\n\tmovq %fs:40, %rax\n\t.quad .Ls0+8\n\t.byte 9, 0, 0, 0, 0, 0, 0, 0\n",
        None,
    ),
];

#[test]
fn worked_texts_are_read(rt: HostRuntime) -> Result<(), Fail> {
    assert_cases(&rt, rt.alloc(), &TEXTS)?;
    Ok(())
}

// The first program with two spaces behind a mnemonic, and without its last line feed. Without its last line it is a text
// of items: that a program ends with it isn't the reader's to say.
static BROKEN: [Case; 3] = [
    Case(
        b"# function _start\n\t.text\n\t.p2align 4\n\t.globl _start\n\t.type _start, @function\n_start:\n.L1000:\n\tmovl  $60, %eax\n.L1005:\n\txorl %edi, %edi\n.L1007:\n\tsyscall\n.Lp1000:\n\tint3\n\t.section .note.GNU-stack,\"\",@progbits\n",
        Some(8),
    ),
    Case(
        b"# function _start\n\t.text\n\t.p2align 4\n\t.globl _start\n\t.type _start, @function\n_start:\n.L1000:\n\tmovl $60, %eax\n.L1005:\n\txorl %edi, %edi\n.L1007:\n\tsyscall\n.Lp1000:\n\tint3\n\t.section .note.GNU-stack,\"\",@progbits",
        Some(15),
    ),
    Case(
        b"# function _start\n\t.text\n\t.p2align 4\n\t.globl _start\n\t.type _start, @function\n_start:\n.L1000:\n\tmovl $60, %eax\n.L1005:\n\txorl %edi, %edi\n.L1007:\n\tsyscall\n.Lp1000:\n\tint3\n",
        None,
    ),
];

#[test]
fn a_broken_text_is_refused_at_its_line(rt: HostRuntime) -> Result<(), Fail> {
    assert_cases(&rt, rt.alloc(), &BROKEN)?;
    Ok(())
}
