//! Three programs that end with a system call.

use crate::cases::Registers::AllBut;
use crate::cases::{Case, FLAGS, Named, Row, check};
use std::test::Fail;
use x86_insn::Reg::{Rax, Rcx, Rdi};
use x86_meaning::Flag::{Of, Sf, Zf};

/// `movl $3, %edi`, `call 0x1020`, `movl %eax, %edi`, `movl $60, %eax`, `syscall`, 13 bytes of no function; at 0x1020
/// `testl %edi, %edi`, `je 0x1030`, `pushq %rdi`, `decl %edi`, `call 0x1020`, `popq %rdi`, `addl %edi, %eax`, `ret`; at 0x1030
/// `xorl %eax, %eax`, `ret`.
const SUM: [u8; 51] =
    *b"\xbf\x03\0\0\0\xe8\x16\0\0\0\x89\xc7\xb8\x3c\0\0\0\x0f\x05\xcc\xcc\xcc\xcc\xcc\xcc\xcc\xcc\xcc\xcc\xcc\xcc\xcc\x85\xff\x74\x0c\x57\xff\xcf\xe8\xf4\xff\xff\xff\x5f\x01\xf8\xc3\x31\xc0\xc3";

const SUM_FUNCTIONS: [Named; 2] = [Named(b"_start", 0x1000, 19), Named(b"f", 0x1020, 19)];

/// `movl $60, %eax`, `movl $1, %edi`, `cmpl $1, %edi`, `jg 0x1013`, `je 0x1013`, `xorl %edi, %edi`; at 0x1013 `xorl %ecx, %ecx`,
/// `syscall`.
const BRANCHES: [u8; 23] =
    *b"\xb8\x3c\0\0\0\xbf\x01\0\0\0\x83\xff\x01\x7f\x04\x74\x02\x31\xff\x31\xc9\x0f\x05";

/// `movl $60, %eax`, `movl $5, -8(%rsp)`, `movl $1, %edi`, `cmpl $1, %edi`, `jg 0x1019`, `je 0x1019`; at 0x1019
/// `addl -8(%rsp), %edi`, `syscall`.
const RED_ZONE: [u8; 31] =
    *b"\xb8\x3c\0\0\0\xc7\x44\x24\xf8\x05\0\0\0\xbf\x01\0\0\0\x83\xff\x01\x7f\x02\x74\0\x03\x7c\x24\xf8\x0f\x05";

#[rattlefmt::skip]
static PROGRAMS: [Case; 4] = [
    Case { what: "a call and a system call", text: &SUM, functions: &SUM_FUNCTIONS, number: 0, rows: &[
        Row(0x1000, AllBut(&[Rdi]), &[]),
        Row(0x1005, AllBut(&[]), &[]),
        Row(0x100a, AllBut(&[Rdi]), &FLAGS),
        Row(0x100c, AllBut(&[Rax]), &FLAGS),
        Row(0x1011, AllBut(&[]), &FLAGS),
    ] },
    Case { what: "a function that calls itself", text: &SUM, functions: &SUM_FUNCTIONS, number: 1, rows: &[
        Row(0x1020, AllBut(&[]), &[]),
        Row(0x1022, AllBut(&[]), &[Zf]),
        Row(0x1024, AllBut(&[]), &[]),
        Row(0x1025, AllBut(&[]), &[]),
        Row(0x1027, AllBut(&[]), &[]),
        Row(0x102c, AllBut(&[Rdi]), &[]),
        Row(0x102d, AllBut(&[]), &[]),
        Row(0x102f, AllBut(&[]), &[]),
        Row(0x1030, AllBut(&[Rax]), &[]),
        Row(0x1032, AllBut(&[]), &[]),
    ] },
    Case { what: "two branches", text: &BRANCHES, functions: &[Named(b"_start", 0x1000, 23)], number: 0, rows: &[
        Row(0x1000, AllBut(&[Rax, Rcx, Rdi]), &[]),
        Row(0x1005, AllBut(&[Rcx, Rdi]), &[]),
        Row(0x100a, AllBut(&[Rcx]), &[]),
        Row(0x100d, AllBut(&[Rcx]), &[Zf, Sf, Of]),
        Row(0x100f, AllBut(&[Rcx]), &[Zf]),
        Row(0x1011, AllBut(&[Rcx, Rdi]), &[]),
        Row(0x1013, AllBut(&[Rcx]), &[]),
        Row(0x1015, AllBut(&[]), &FLAGS),
    ] },
    Case { what: "all registers are live behind two branches", text: &RED_ZONE, functions: &[Named(b"_start", 0x1000, 31)], number: 0, rows: &[
        Row(0x1000, AllBut(&[Rax, Rdi]), &[]),
        Row(0x1005, AllBut(&[Rdi]), &[]),
        Row(0x100d, AllBut(&[Rdi]), &[]),
        Row(0x1012, AllBut(&[]), &[]),
        Row(0x1015, AllBut(&[]), &[Zf, Sf, Of]),
        Row(0x1017, AllBut(&[]), &[Zf]),
        Row(0x1019, AllBut(&[]), &[]),
        Row(0x101d, AllBut(&[]), &FLAGS),
    ] },
];

#[test]
fn shows_what_is_live_in_programs(rt: HostRuntime) -> Result<(), Fail> {
    for case in &PROGRAMS {
        check(&rt, rt.alloc(), case)?;
    }
    Ok(())
}
