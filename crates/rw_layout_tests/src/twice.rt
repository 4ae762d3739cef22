//! Labels and copies.

use crate::cases::{Case, assert_cases};
use std::test::Fail;

// The line that defines a label again, or copies a name again.
static TWICE: [Case; 6] = [
    Case(
        "a label again",
        b"# function _start\n\t.text\n\t.p2align 4\n\t.globl _start\n\t.type _start, @function\n_start:\n.L1000:\n\tmovl $60, %eax\n.L1000:\n\txorl %edi, %edi\n.L1007:\n\tsyscall\n.Lp1000:\n\tint3\n\t.section .note.GNU-stack,\"\",@progbits\n",
        Some(9),
    ),
    Case(
        "the label past a function again",
        b"# function _start\n\t.text\n\t.p2align 4\n\t.globl _start\n\t.type _start, @function\n_start:\n.L1000:\n\tmovl $60, %eax\n.L1005:\n\txorl %edi, %edi\n.L1007:\n\tsyscall\n.Lp1000:\n\tint3\n# function f\n\t.text\n\t.p2align 4\n.L2000:\n\tret\n.Lp1000:\n\tint3\n\t.section .note.GNU-stack,\"\",@progbits\n",
        Some(20),
    ),
    Case(
        "a table's label again",
        b"# function _start\n\t.text\n\t.p2align 4\n\t.globl _start\n\t.type _start, @function\n_start:\n.L1000:\n\tmovl $60, %eax\n.L1005:\n\txorl %edi, %edi\n.L1007:\n\tsyscall\n.Lp1000:\n\tint3\n\t.section .retro.s0,\"a\",@progbits\n\t.p2align 0\n.Ls0:\n.Lt8:\n\t.byte 1\n.Lt8:\n\t.section .note.GNU-stack,\"\",@progbits\n",
        Some(20),
    ),
    Case(
        "a name copied again",
        b"# copy x 8\n# copy y 8\n# copy x 4\n# function _start\n\t.text\n\t.p2align 4\n\t.globl _start\n\t.type _start, @function\n_start:\n.L1000:\n\tmovl $60, %eax\n.L1005:\n\txorl %edi, %edi\n.L1007:\n\tsyscall\n.Lp1000:\n\tint3\n\t.section .note.GNU-stack,\"\",@progbits\n",
        Some(3),
    ),
    Case(
        "two names copied",
        b"# copy x 8\n# copy y 8\n# function _start\n\t.text\n\t.p2align 4\n\t.globl _start\n\t.type _start, @function\n_start:\n.L1000:\n\tmovl $60, %eax\n.L1005:\n\txorl %edi, %edi\n.L1007:\n\tsyscall\n.Lp1000:\n\tint3\n\t.section .note.GNU-stack,\"\",@progbits\n",
        None,
    ),
    Case(
        "labels of other kinds with the number",
        b"# function _start\n\t.text\n\t.p2align 4\n\t.globl _start\n\t.type _start, @function\n_start:\n.L1000:\n\tmovl $60, %eax\n.L1005:\n\txorl %edi, %edi\n.L1007:\n\tsyscall\n.Lp1000:\n\tint3\n\t.section .retro.s0,\"a\",@progbits\n\t.p2align 0\n.Ls0:\n.Lt1000:\n\t.section .note.GNU-stack,\"\",@progbits\n",
        None,
    ),
];

#[test]
fn each_label_is_defined_once(rt: HostRuntime) -> Result<(), Fail> {
    assert_cases(&rt, rt.alloc(), &TWICE)?;
    Ok(())
}
