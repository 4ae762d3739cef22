//! Where paths go on, and where they end.

use crate::cases::Registers::{AllBut, Only};
use crate::cases::{Case, FLAGS, Named, Row, check};
use std::test::Fail;
use x86_insn::Reg::{Rax, Rcx, Rdi};
use x86_meaning::Flag::{Cf, Zf};

#[rattlefmt::skip]
static EDGES: [Case; 18] = [
    // addl %ecx, %eax; decl %ecx; jne 0x1000; ud2
    Case { what: "a jump back", text: b"\x01\xc8\xff\xc9\x75\xfa\x0f\x0b", functions: &[Named(b"f", 0x1000, 8)], number: 0, rows: &[
        Row(0x1000, Only(&[Rax, Rcx]), &[]),
        Row(0x1002, Only(&[Rax, Rcx]), &[]),
        Row(0x1004, Only(&[Rax, Rcx]), &[Zf]),
        Row(0x1006, Only(&[]), &[]),
    ] },
    // cmpl %ecx, %eax; call 0x1000; je 0x1009; ud2
    Case { what: "no path goes on behind a call", text: b"\x39\xc8\xe8\xf9\xff\xff\xff\x74\0\x0f\x0b", functions: &[Named(b"f", 0x1000, 11)], number: 0, rows: &[
        Row(0x1000, AllBut(&[]), &[]),
        Row(0x1002, AllBut(&[]), &[]),
        Row(0x1007, Only(&[]), &[Zf]),
    ] },
    // syscall; ud2
    Case { what: "a system call", text: b"\x0f\x05\x0f\x0b", functions: &[Named(b"f", 0x1000, 4)], number: 0, rows: &[
        Row(0x1000, AllBut(&[]), &FLAGS),
        Row(0x1002, Only(&[]), &[]),
    ] },
    // jmp 0x1010; at 0x1010 ud2
    Case { what: "a jump out of the function", text: b"\xeb\x0e\xcc\xcc\xcc\xcc\xcc\xcc\xcc\xcc\xcc\xcc\xcc\xcc\xcc\xcc\x0f\x0b", functions: &[Named(b"f", 0x1000, 2), Named(b"g", 0x1010, 2)], number: 0, rows: &[
        Row(0x1000, AllBut(&[]), &FLAGS),
        Row(0x1010, Only(&[]), &[]),
    ] },
    // movl $0, %ecx; jb 0x1009; ud2; at 0x1009 ud2
    Case { what: "a branch out of the function", text: b"\xb9\0\0\0\0\x72\x02\x0f\x0b\x0f\x0b", functions: &[Named(b"f", 0x1000, 9), Named(b"g", 0x1009, 2)], number: 0, rows: &[
        Row(0x1000, AllBut(&[Rcx]), &FLAGS),
        Row(0x1005, AllBut(&[]), &FLAGS),
        Row(0x1007, Only(&[]), &[]),
    ] },
    // jmp *%rax; ud2
    Case { what: "an indirect jump", text: b"\xff\xe0\x0f\x0b", functions: &[Named(b"f", 0x1000, 4)], number: 0, rows: &[
        Row(0x1000, AllBut(&[]), &[]),
    ] },
    // ret
    Case { what: "a function of one instruction", text: b"\xc3", functions: &[Named(b"f", 0x1000, 1)], number: 0, rows: &[
        Row(0x1000, AllBut(&[]), &[]),
    ] },
    // addl %ecx, %eax; adcl %ecx, %eax
    Case { what: "the end of a function ends a path", text: b"\x01\xc8\x11\xc8\x0f\x05", functions: &[Named(b"f", 0x1000, 4), Named(b"g", 0x1004, 2)], number: 0, rows: &[
        Row(0x1000, Only(&[Rax, Rcx]), &[]),
        Row(0x1002, Only(&[Rax, Rcx]), &[Cf]),
        Row(0x1004, Only(&[]), &[]),
    ] },
    // hlt; syscall
    Case { what: "a trap ends a path", text: b"\xf4\x0f\x05", functions: &[Named(b"f", 0x1000, 3)], number: 0, rows: &[
        Row(0x1000, Only(&[]), &[]),
        Row(0x1001, AllBut(&[]), &FLAGS),
    ] },
    // jmp 0x1004; syscall; at 0x1004 movl %eax, %edi; ud2
    Case { what: "a jump skips what is behind it", text: b"\xeb\x02\x0f\x05\x89\xc7\x0f\x0b", functions: &[Named(b"f", 0x1000, 8)], number: 0, rows: &[
        Row(0x1000, Only(&[Rax]), &[]),
        Row(0x1002, AllBut(&[]), &FLAGS),
        Row(0x1004, Only(&[Rax]), &[]),
    ] },
    // jmp 0x1000
    Case { what: "a jump to itself", text: b"\xeb\xfe", functions: &[Named(b"f", 0x1000, 2)], number: 0, rows: &[
        Row(0x1000, Only(&[]), &[]),
    ] },
    // movb $1, %al; movl %eax, %edi; ud2
    Case { what: "a write of 8 bits is no whole write", text: b"\xb0\x01\x89\xc7\x0f\x0b", functions: &[Named(b"f", 0x1000, 6)], number: 0, rows: &[
        Row(0x1000, Only(&[Rax]), &[]),
        Row(0x1002, Only(&[Rax]), &[]),
    ] },
    // movw $1, %ax; movl %eax, %edi; ud2
    Case { what: "nor is one of 16 bits", text: b"\x66\xb8\x01\0\x89\xc7\x0f\x0b", functions: &[Named(b"f", 0x1000, 8)], number: 0, rows: &[
        Row(0x1000, Only(&[Rax]), &[]),
    ] },
    // movl $1, %eax; movl %eax, %edi; ud2
    Case { what: "one of 32 bits is", text: b"\xb8\x01\0\0\0\x89\xc7\x0f\x0b", functions: &[Named(b"f", 0x1000, 9)], number: 0, rows: &[
        Row(0x1000, Only(&[]), &[]),
        Row(0x1005, Only(&[Rax]), &[]),
    ] },
    // cmove %eax, %ecx; movl %ecx, %edi; ud2
    Case { what: "a conditional move reads its destination", text: b"\x0f\x44\xc8\x89\xcf\x0f\x0b", functions: &[Named(b"f", 0x1000, 7)], number: 0, rows: &[
        Row(0x1000, Only(&[Rax, Rcx]), &[Zf]),
        Row(0x1003, Only(&[Rcx]), &[]),
    ] },
    // xorl %eax, %eax; sbbl %ecx, %ecx; addl %edi, %eax; ud2
    Case { what: "an exclusive or of a register with itself reads nothing", text: b"\x31\xc0\x19\xc9\x01\xf8\x0f\x0b", functions: &[Named(b"f", 0x1000, 8)], number: 0, rows: &[
        Row(0x1000, Only(&[Rdi]), &[]),
        Row(0x1002, Only(&[Rax, Rdi]), &[Cf]),
        Row(0x1004, Only(&[Rax, Rdi]), &[]),
    ] },
    // shll %cl, %eax; syscall
    Case { what: "a shift by CL may keep all flags", text: b"\xd3\xe0\x0f\x05", functions: &[Named(b"f", 0x1000, 4)], number: 0, rows: &[
        Row(0x1000, AllBut(&[]), &FLAGS),
    ] },
    // syscall at 0x1000, ret at 0x1010
    Case { what: "nothing is live where no point of the function is", text: b"\x0f\x05\xcc\xcc\xcc\xcc\xcc\xcc\xcc\xcc\xcc\xcc\xcc\xcc\xcc\xcc\xc3\x0f\x05", functions: &[Named(b"f", 0x1000, 2), Named(b"g", 0x1010, 3)], number: 1, rows: &[
        Row(0, Only(&[]), &[]),
        Row(0x1000, Only(&[]), &[]),
        Row(0x100f, Only(&[]), &[]),
        Row(0x1010, AllBut(&[]), &[]),
        Row(0x1011, AllBut(&[]), &FLAGS),
        Row(0x1012, Only(&[]), &[]),
        Row(0x1013, Only(&[]), &[]),
        Row(0xffff_ffff_ffff_ffff, Only(&[]), &[]),
    ] },
];

#[test]
fn shows_where_paths_end(rt: HostRuntime) -> Result<(), Fail> {
    for case in &EDGES {
        check(&rt, rt.alloc(), case)?;
    }
    Ok(())
}
