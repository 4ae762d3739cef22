//! The leaders of small programs, with their probes.

use crate::cases::{Case, Data, Filled, Named, Row, check};
use rw_probe::Mode::{Blocks, Nothing, Starts};
use rw_probe::Probe::{Dead, Inc, Spill};
use std::test::Fail;
use x86_insn::Reg::{Rax, Rcx, Rdi};

/// `movl $3, %edi`, `call 0x1020`, `movl %eax, %edi`, `movl $60, %eax`, `syscall`, 13 bytes of no function; at 0x1020
/// `testl %edi, %edi`, `je 0x1030`, `pushq %rdi`, `decl %edi`, `call 0x1020`, `popq %rdi`, `addl %edi, %eax`, `ret`; at 0x1030
/// `xorl %eax, %eax`, `ret`.
const SUM: &[u8] =
    b"\xbf\x03\0\0\0\xe8\x16\0\0\0\x89\xc7\xb8\x3c\0\0\0\x0f\x05\xcc\xcc\xcc\xcc\xcc\xcc\xcc\xcc\xcc\xcc\xcc\xcc\xcc\x85\xff\x74\x0c\x57\xff\xcf\xe8\xf4\xff\xff\xff\x5f\x01\xf8\xc3\x31\xc0\xc3";

const SUM_FUNCTIONS: &[Named] = &[Named(b"_start", 0x1000, 19), Named(b"f", 0x1020, 19)];

/// `movl $60, %eax`, `movl $1, %edi`, `cmpl $1, %edi`, `jg 0x1013`, `je 0x1013`, `xorl %edi, %edi`; at 0x1013 `xorl %ecx, %ecx`,
/// `syscall`.
const BRANCHES: &[u8] =
    b"\xb8\x3c\0\0\0\xbf\x01\0\0\0\x83\xff\x01\x7f\x04\x74\x02\x31\xff\x31\xc9\x0f\x05";

/// `movl $60, %eax`, `movl $5, -8(%rsp)`, `movl $1, %edi`, `cmpl $1, %edi`, `jg 0x1019`, `je 0x1019`; at 0x1019
/// `addl -8(%rsp), %edi`, `syscall`.
const RED_ZONE: &[u8] =
    b"\xb8\x3c\0\0\0\xc7\x44\x24\xf8\x05\0\0\0\xbf\x01\0\0\0\x83\xff\x01\x7f\x02\x74\0\x03\x7c\x24\xf8\x0f\x05";

/// `call 0x1010`, 11 bytes of no function; at 0x1010 `xorl %edi, %edi`, `movl $60, %eax`, `syscall`.
const NO_RETURN: &[u8] =
    b"\xe8\x0b\0\0\0\xcc\xcc\xcc\xcc\xcc\xcc\xcc\xcc\xcc\xcc\xcc\x31\xff\xb8\x3c\0\0\0\x0f\x05";

/// `movl`, `cmpl $2, %edi`, `ja 0x102e`, `leaq 0x2000(%rip), %rdx`, `movslq (%rdx,%rdi,4), %rax`, `addq %rdx, %rax`,
/// `notrack jmp *%rax`; at 0x101b, 0x1022 and 0x1029 `movl` to `%edi`, the first two with `jmp 0x102e`; at 0x102e
/// `movl $60, %eax`, `syscall`.
const SWITCH: &[u8] =
    b"\xbf\0\0\0\0\x83\xff\x02\x77\x24\x48\x8d\x15\xef\x0f\0\0\x48\x63\x04\xba\x48\x01\xd0\x3e\xff\xe0\xbf\x0a\0\0\0\xeb\x0c\xbf\x0b\0\0\0\xeb\x05\xbf\x0c\0\0\0\xb8\x3c\0\0\0\x0f\x05";

/// The distances of 0x101b, 0x1022 and 0x1029 from 0x2000.
const WORDS: &[Data] = &[Data(
    b".rodata",
    2,
    b"\x1b\xf0\xff\xff\x22\xf0\xff\xff\x29\xf0\xff\xff",
)];

/// The words of a table behind a jump of which no other names the target of the first.
///
/// `cmpl $0, %edi`, `ja 0x1016`, `leaq 0x2000(%rip), %rdx`, `movslq (%rdx), %rax`, `addq %rdx, %rax`, `jmp *%rax`, `ud2`; at
/// 0x1018 `nop`, `ud2`.
const ONE_WORD: &[u8] =
    b"\x83\xff\0\x77\x11\x48\x8d\x15\xf4\x0f\0\0\x48\x63\x02\x48\x01\xd0\xff\xe0\x90\x90\x0f\x0b\x90\x0f\x0b";

/// `xorl %edi, %edi`, `nop`, `ud2`.
const PLAIN: &[u8] = b"\x31\xff\x90\x0f\x0b";

const WHOLE: &[Named] = &[Named(b"f", 0x1000, 5)];

#[rattlefmt::skip]
static PROGRAMS: [Case; 21] = [
    Case { what: "calls and returns", text: SUM, functions: SUM_FUNCTIONS, data: &[], filled: &[], mode: Blocks, rows: &[
        Row(0x1000, Inc), Row(0x100a, Dead(Rdi)), Row(0x1020, Inc), Row(0x1024, Inc), Row(0x102c, Inc), Row(0x1030, Inc),
    ] },
    Case { what: "starts of functions", text: SUM, functions: SUM_FUNCTIONS, data: &[], filled: &[], mode: Starts, rows: &[Row(0x1000, Inc), Row(0x1020, Inc)] },
    Case { what: "nothing", text: SUM, functions: SUM_FUNCTIONS, data: &[], filled: &[], mode: Nothing, rows: &[] },
    Case { what: "two branches", text: BRANCHES, functions: &[Named(b"_start", 0x1000, 23)], data: &[], filled: &[], mode: Blocks, rows: &[
        Row(0x1000, Inc), Row(0x100f, Dead(Rcx)), Row(0x1011, Inc), Row(0x1013, Inc),
    ] },
    Case { what: "all registers are live", text: RED_ZONE, functions: &[Named(b"_start", 0x1000, 31)], data: &[], filled: &[], mode: Blocks, rows: &[
        Row(0x1000, Inc), Row(0x1017, Spill), Row(0x1019, Inc),
    ] },
    Case { what: "a call as the last point", text: NO_RETURN, functions: &[Named(b"_start", 0x1000, 5), Named(b"f", 0x1010, 9)], data: &[], filled: &[], mode: Blocks, rows: &[
        Row(0x1000, Inc), Row(0x1010, Inc),
    ] },
    Case { what: "a dispatch", text: SWITCH, functions: &[Named(b"_start", 0x1000, 53)], data: WORDS, filled: &[], mode: Blocks, rows: &[
        Row(0x1000, Inc), Row(0x100a, Inc), Row(0x101b, Dead(Rax)), Row(0x1022, Dead(Rax)), Row(0x1029, Dead(Rax)), Row(0x102e, Dead(Rax)),
    ] },
    Case { what: "a word of a table alone", text: ONE_WORD, functions: &[Named(b"f", 0x1000, 27)], data: &[Data(b".rodata", 2, b"\x18\xf0\xff\xff")], filled: &[], mode: Blocks, rows: &[
        Row(0x1000, Inc), Row(0x1005, Inc), Row(0x1014, Inc), Row(0x1016, Inc), Row(0x1018, Inc),
    ] },
    Case { what: "a kept slot", text: PLAIN, functions: WHOLE, data: &[Data(b".data", 3, &[0; 8])], filled: &[Filled(0x2000, 0x1003)], mode: Blocks, rows: &[Row(0x1000, Inc), Row(0x1003, Inc)] },
    Case { what: "a slot in a section that is left out", text: PLAIN, functions: WHOLE, data: &[Data(b".got.plt", 3, &[0; 8])], filled: &[Filled(0x2000, 0x1003)], mode: Blocks, rows: &[Row(0x1000, Inc)] },
    Case { what: "a slot inside an instruction", text: PLAIN, functions: WHOLE, data: &[Data(b".data", 3, &[0; 8])], filled: &[Filled(0x2000, 0x1001)], mode: Blocks, rows: &[Row(0x1000, Inc)] },
    // leaq 0x1009(%rip), %rax; ud2; at 0x1009 nop; ud2
    Case { what: "an address of code", text: b"\x48\x8d\x05\x02\0\0\0\x0f\x0b\x90\x0f\x0b", functions: &[Named(b"f", 0x1000, 12)], data: &[], filled: &[], mode: Blocks, rows: &[Row(0x1000, Inc), Row(0x1009, Inc)] },
    // call *%rax; nop; jmp *%rax; nop; ud2
    Case { what: "an indirect call and an indirect jump", text: b"\xff\xd0\x90\xff\xe0\x90\x0f\x0b", functions: &[Named(b"f", 0x1000, 8)], data: &[], filled: &[], mode: Blocks, rows: &[
        Row(0x1000, Inc), Row(0x1002, Inc), Row(0x1005, Inc),
    ] },
    // syscall; nop; ud2; nop; hlt; nop; int3; nop
    Case { what: "system calls and traps", text: b"\x0f\x05\x90\x0f\x0b\x90\xf4\x90\xcc\x90", functions: &[Named(b"f", 0x1000, 10)], data: &[], filled: &[], mode: Blocks, rows: &[Row(0x1000, Spill)] },
    // jmp 0x1003; nop; at 0x1003 jmp 0x1003
    Case { what: "a jump to itself at the end", text: b"\xeb\x01\x90\xeb\xfe", functions: WHOLE, data: &[], filled: &[], mode: Blocks, rows: &[Row(0x1000, Inc), Row(0x1002, Inc), Row(0x1003, Inc)] },
    // jne 0x1000, and a function directly behind: ret
    Case { what: "a branch at the end of a function before another", text: b"\x75\xfe\xc3", functions: &[Named(b"f", 0x1000, 2), Named(b"g", 0x1002, 1)], data: &[], filled: &[], mode: Blocks, rows: &[Row(0x1000, Dead(Rax)), Row(0x1002, Inc)] },
    // endbr64; je 0x1006; ret
    Case { what: "endbr64", text: b"\xf3\x0f\x1e\xfa\x74\0\xc3", functions: &[Named(b"f", 0x1000, 7)], data: &[], filled: &[], mode: Blocks, rows: &[Row(0x1000, Spill), Row(0x1006, Inc)] },
    // adcl %eax, %eax; ret
    Case { what: "the carry flag alone is live", text: b"\x11\xc0\xc3", functions: &[Named(b"f", 0x1000, 3)], data: &[], filled: &[], mode: Blocks, rows: &[Row(0x1000, Inc)] },
    // jb 0x1002; ret
    Case { what: "a branch on the carry flag", text: b"\x72\0\xc3", functions: &[Named(b"f", 0x1000, 3)], data: &[], filled: &[], mode: Blocks, rows: &[Row(0x1000, Inc), Row(0x1002, Inc)] },
    // jp 0x1002; ret
    Case { what: "a branch on the parity flag", text: b"\x7a\0\xc3", functions: &[Named(b"f", 0x1000, 3)], data: &[], filled: &[], mode: Blocks, rows: &[Row(0x1000, Spill), Row(0x1002, Inc)] },
    // movq 0x2000(%rip), %rax; movl (%rax), %edi; movl $60, %eax; syscall
    Case { what: "a slot with an address of data", text: b"\x48\x8b\x05\xf9\x0f\0\0\x8b\x38\xb8\x3c\0\0\0\x0f\x05", functions: &[Named(b"_start", 0x1000, 16)], data: &[Data(b".data", 3, &[0; 16])], filled: &[Filled(0x2000, 0x2008)], mode: Blocks, rows: &[Row(0x1000, Dead(Rax))] },
];

#[test]
fn finds_leaders_and_probes(rt: HostRuntime) -> Result<(), Fail> {
    for case in &PROGRAMS {
        check(&rt, rt.alloc(), case)?;
    }
    Ok(())
}
