//! The order of checks.

use crate::cases::{Case, assert_cases};
use std::test::Fail;

// Texts that two checks refuse.
static FIRST: [Case; 3] = [
    Case(
        "twice before undefined",
        b"# function _start\n\t.text\n\t.p2align 4\n\t.globl _start\n\t.type _start, @function\n_start:\n.L1000:\n\tjmp .L2000\n.L1005:\n\txorl %edi, %edi\n.L1000:\n\tsyscall\n.Lp1000:\n\tint3\n\t.section .note.GNU-stack,\"\",@progbits\n",
        Some(11),
    ),
    Case(
        "order before twice",
        b"# function _start\n\t.text\n\t.p2align 4\n\t.globl _start\n\t.type _start, @function\n_start:\n.L1000:\n\tmovl $60, %eax\n.L1000:\n\txorl %edi, %edi\n.L1007:\n\tsyscall\n.Lp1000:\n\tnop\n\t.section .note.GNU-stack,\"\",@progbits\n",
        Some(14),
    ),
    Case(
        "undefined before a size",
        b"# copy x 1073741825\n# function _start\n\t.text\n\t.p2align 4\n\t.globl _start\n\t.type _start, @function\n_start:\n.L1000:\n\tjmp .L2000\n.L1005:\n\txorl %edi, %edi\n.L1007:\n\tsyscall\n.Lp1000:\n\tint3\n\t.section .note.GNU-stack,\"\",@progbits\n",
        Some(9),
    ),
];

#[test]
fn the_first_check_refuses(rt: HostRuntime) -> Result<(), Fail> {
    assert_cases(&rt, rt.alloc(), &FIRST)?;
    Ok(())
}
