//! What lines use.

use crate::cases::{Case, assert_cases};
use std::test::Fail;

// The line that uses what isn't defined, or an offset from a name that isn't copied.
static UNDEFINED: [Case; 16] = [
    Case(
        "a label of no instruction",
        b"# function _start\n\t.text\n\t.p2align 4\n\t.globl _start\n\t.type _start, @function\n_start:\n.L1000:\n\tjmp .L2000\n.L1005:\n\txorl %edi, %edi\n.L1007:\n\tsyscall\n.Lp1000:\n\tint3\n\t.section .note.GNU-stack,\"\",@progbits\n",
        Some(8),
    ),
    Case(
        "a label of an instruction",
        b"# function _start\n\t.text\n\t.p2align 4\n\t.globl _start\n\t.type _start, @function\n_start:\n.L1000:\n\tjmp .L1007\n.L1005:\n\txorl %edi, %edi\n.L1007:\n\tsyscall\n.Lp1000:\n\tint3\n\t.section .note.GNU-stack,\"\",@progbits\n",
        None,
    ),
    Case(
        "a section that isn't there",
        b"# function _start\n\t.text\n\t.p2align 4\n\t.globl _start\n\t.type _start, @function\n_start:\n.L1000:\n\tleaq .Ls0(%rip), %rax\n.L1005:\n\txorl %edi, %edi\n.L1007:\n\tsyscall\n.Lp1000:\n\tint3\n\t.section .note.GNU-stack,\"\",@progbits\n",
        Some(8),
    ),
    Case(
        "counters that aren't there",
        b"# function _start\n\t.text\n\t.p2align 4\n\t.globl _start\n\t.type _start, @function\n_start:\n.L1000:\n\tincq __retro_counts(%rip)\n.L1005:\n\txorl %edi, %edi\n.L1007:\n\tsyscall\n.Lp1000:\n\tint3\n\t.section .note.GNU-stack,\"\",@progbits\n",
        Some(8),
    ),
    Case(
        "counters",
        b"# function _start\n\t.text\n\t.p2align 4\n\t.globl _start\n\t.type _start, @function\n_start:\n.L1000:\n\tincq __retro_counts+8(%rip)\n.L1005:\n\txorl %edi, %edi\n.L1007:\n\tsyscall\n.Lp1000:\n\tint3\n\t.section .retro.counts,\"aw\",@nobits\n\t.globl __retro_counts\n\t.p2align 3\n__retro_counts:\n\t.zero 16\n\t.section .note.GNU-stack,\"\",@progbits\n",
        None,
    ),
    Case(
        "an offset from a name",
        b"# function _start\n\t.text\n\t.p2align 4\n\t.globl _start\n\t.type _start, @function\n_start:\n.L1000:\n\tcall x+4\n.L1005:\n\txorl %edi, %edi\n.L1007:\n\tsyscall\n.Lp1000:\n\tint3\n\t.section .note.GNU-stack,\"\",@progbits\n",
        Some(8),
    ),
    Case(
        "a name",
        b"# function _start\n\t.text\n\t.p2align 4\n\t.globl _start\n\t.type _start, @function\n_start:\n.L1000:\n\tcall x\n.L1005:\n\txorl %edi, %edi\n.L1007:\n\tsyscall\n.Lp1000:\n\tint3\n\t.section .note.GNU-stack,\"\",@progbits\n",
        None,
    ),
    Case(
        "an offset from a copied name",
        b"# copy x 8\n# function _start\n\t.text\n\t.p2align 4\n\t.globl _start\n\t.type _start, @function\n_start:\n.L1000:\n\tcall x+4\n.L1005:\n\txorl %edi, %edi\n.L1007:\n\tsyscall\n.Lp1000:\n\tint3\n\t.section .note.GNU-stack,\"\",@progbits\n",
        None,
    ),
    Case(
        "a word of a section that isn't there",
        b"# function _start\n\t.text\n\t.p2align 4\n\t.globl _start\n\t.type _start, @function\n_start:\n.L1000:\n\tmovl $60, %eax\n.L1005:\n\txorl %edi, %edi\n.L1007:\n\tsyscall\n.Lp1000:\n\tint3\n\t.section .retro.s0,\"a\",@progbits\n\t.p2align 0\n.Ls0:\n\t.quad .Ls1+8\n\t.section .note.GNU-stack,\"\",@progbits\n",
        Some(18),
    ),
    Case(
        "a table without a label",
        b"# function _start\n\t.text\n\t.p2align 4\n\t.globl _start\n\t.type _start, @function\n_start:\n.L1000:\n\tmovl $60, %eax\n.L1005:\n\txorl %edi, %edi\n.L1007:\n\tsyscall\n.Lp1000:\n\tint3\n\t.section .retro.s0,\"a\",@progbits\n\t.p2align 0\n.Ls0:\n\t.long .L1000-.Lt8\n\t.section .note.GNU-stack,\"\",@progbits\n",
        Some(18),
    ),
    Case(
        "a table to no instruction",
        b"# function _start\n\t.text\n\t.p2align 4\n\t.globl _start\n\t.type _start, @function\n_start:\n.L1000:\n\tmovl $60, %eax\n.L1005:\n\txorl %edi, %edi\n.L1007:\n\tsyscall\n.Lp1000:\n\tint3\n\t.section .retro.s0,\"a\",@progbits\n\t.p2align 0\n.Ls0:\n.Lt8:\n\t.long .L1004-.Lt8\n\t.section .note.GNU-stack,\"\",@progbits\n",
        Some(19),
    ),
    Case(
        "a table",
        b"# function _start\n\t.text\n\t.p2align 4\n\t.globl _start\n\t.type _start, @function\n_start:\n.L1000:\n\tmovl $60, %eax\n.L1005:\n\txorl %edi, %edi\n.L1007:\n\tsyscall\n.Lp1000:\n\tint3\n\t.section .retro.s0,\"a\",@progbits\n\t.p2align 0\n.Ls0:\n.Lt8:\n\t.long .L1000-.Lt8\n\t.section .note.GNU-stack,\"\",@progbits\n",
        None,
    ),
    Case(
        "an offset from another copied name",
        b"# copy y 8\n# function _start\n\t.text\n\t.p2align 4\n\t.globl _start\n\t.type _start, @function\n_start:\n.L1000:\n\tcall x+4\n.L1005:\n\txorl %edi, %edi\n.L1007:\n\tsyscall\n.Lp1000:\n\tint3\n\t.section .note.GNU-stack,\"\",@progbits\n",
        Some(9),
    ),
    Case(
        "a word of code that isn't there",
        b"# function _start\n\t.text\n\t.p2align 4\n\t.globl _start\n\t.type _start, @function\n_start:\n.L1000:\n\tmovl $60, %eax\n.L1005:\n\txorl %edi, %edi\n.L1007:\n\tsyscall\n.Lp1000:\n\tint3\n\t.section .retro.s0,\"a\",@progbits\n\t.p2align 0\n.Ls0:\n\t.quad .L2000\n\t.section .note.GNU-stack,\"\",@progbits\n",
        Some(18),
    ),
    Case(
        "a word at an offset from a name",
        b"# function _start\n\t.text\n\t.p2align 4\n\t.globl _start\n\t.type _start, @function\n_start:\n.L1000:\n\tmovl $60, %eax\n.L1005:\n\txorl %edi, %edi\n.L1007:\n\tsyscall\n.Lp1000:\n\tint3\n\t.section .retro.s0,\"a\",@progbits\n\t.p2align 0\n.Ls0:\n\t.quad x+8\n\t.section .note.GNU-stack,\"\",@progbits\n",
        Some(18),
    ),
    Case(
        "a word of counters that aren't there",
        b"# function _start\n\t.text\n\t.p2align 4\n\t.globl _start\n\t.type _start, @function\n_start:\n.L1000:\n\tmovl $60, %eax\n.L1005:\n\txorl %edi, %edi\n.L1007:\n\tsyscall\n.Lp1000:\n\tint3\n\t.section .retro.s0,\"a\",@progbits\n\t.p2align 0\n.Ls0:\n\t.quad __retro_counts\n\t.section .note.GNU-stack,\"\",@progbits\n",
        Some(18),
    ),
];

#[test]
fn what_is_used_is_defined(rt: HostRuntime) -> Result<(), Fail> {
    assert_cases(&rt, rt.alloc(), &UNDEFINED)?;
    Ok(())
}
