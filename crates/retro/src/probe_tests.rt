//! Texts with probes, and lists of leaders, of programs that are worked by hand.

use crate::test_files::{Failing, Function, call, call_failing, file_with};
use std::test::Fail;

/// Words, code at 0x1000 with its functions, and what stands written then.
struct Row {
    what: &'static str,
    words: &'static [&'static str],
    code: &'static [u8],
    functions: &'static [Function],
    lines: &'static str,
}

/// `movl $3, %edi`, `call 0x1020`, `movl %eax, %edi`, `movl $60, %eax`, `syscall`, 13 bytes of no function; at 0x1020
/// `testl %edi, %edi`, `je 0x1030`, `pushq %rdi`, `decl %edi`, `call 0x1020`, `popq %rdi`, `addl %edi, %eax`, `ret`; at 0x1030
/// `xorl %eax, %eax`, `ret`.
const SUM: &[u8] =
    b"\xbf\x03\0\0\0\xe8\x16\0\0\0\x89\xc7\xb8\x3c\0\0\0\x0f\x05\xcc\xcc\xcc\xcc\xcc\xcc\xcc\xcc\xcc\xcc\xcc\xcc\xcc\x85\xff\x74\x0c\x57\xff\xcf\xe8\xf4\xff\xff\xff\x5f\x01\xf8\xc3\x31\xc0\xc3";

const SUM_FUNCTIONS: &[Function] = &[Function("_start", 0x1000, 19), Function("f", 0x1020, 19)];

/// `movl $60, %eax`, `movl $1, %edi`, `cmpl $1, %edi`, `jg 0x1013`, `je 0x1013`, `xorl %edi, %edi`; at 0x1013 `xorl %ecx, %ecx`,
/// `syscall`.
const BRANCHES: &[u8] =
    b"\xb8\x3c\0\0\0\xbf\x01\0\0\0\x83\xff\x01\x7f\x04\x74\x02\x31\xff\x31\xc9\x0f\x05";

const BRANCHES_FUNCTIONS: &[Function] = &[Function("_start", 0x1000, 23)];

/// `movl $60, %eax`, `movl $5, -8(%rsp)`, `movl $1, %edi`, `cmpl $1, %edi`, `jg 0x1019`, `je 0x1019`; at 0x1019
/// `addl -8(%rsp), %edi`, `syscall`.
const RED_ZONE: &[u8] =
    b"\xb8\x3c\0\0\0\xc7\x44\x24\xf8\x05\0\0\0\xbf\x01\0\0\0\x83\xff\x01\x7f\x02\x74\0\x03\x7c\x24\xf8\x0f\x05";

const RED_ZONE_FUNCTIONS: &[Function] = &[Function("_start", 0x1000, 31)];

/// `endbr64`, `movl $60, %eax`, `syscall`.
const MARKED: &[u8] = b"\xf3\x0f\x1e\xfa\xb8\x3c\0\0\0\x0f\x05";

const MARKED_FUNCTIONS: &[Function] = &[Function("_start", 0x1000, 11)];

static ROWS: [Row; 10] = [
    Row {
        what: "a counter at each block of a sum",
        words: &["rewrite", "--probes=blocks", "x"],
        code: SUM,
        functions: SUM_FUNCTIONS,
        lines: "# function _start\n\t.text\n\t.p2align 4\n\t.globl _start\n\t.type _start, @function\n_start:\n\
            .L1000:\n\tincq __retro_counts(%rip)\n\tmovl $3, %edi\n\
            .L1005:\n\tcall .L1020\n\
            .L100a:\n\tmovq __retro_counts+8(%rip), %rdi\n\tleaq 1(%rdi), %rdi\n\tmovq %rdi, __retro_counts+8(%rip)\n\tmovl %eax, %edi\n\
            .L100c:\n\tmovl $60, %eax\n\
            .L1011:\n\tsyscall\n\
            .Lp1000:\n\tint3\n\
            # function f\n\t.text\n\t.p2align 4\n\
            .L1020:\n\tincq __retro_counts+16(%rip)\n\ttestl %edi, %edi\n\
            .L1022:\n\tje .L1030\n\
            .L1024:\n\tincq __retro_counts+24(%rip)\n\tpushq %rdi\n\
            .L1025:\n\tdecl %edi\n\
            .L1027:\n\tcall .L1020\n\
            .L102c:\n\tincq __retro_counts+32(%rip)\n\tpopq %rdi\n\
            .L102d:\n\taddl %edi, %eax\n\
            .L102f:\n\tret\n\
            .L1030:\n\tincq __retro_counts+40(%rip)\n\txorl %eax, %eax\n\
            .L1032:\n\tret\n\
            .Lp1020:\n\tint3\n\
            \t.section .retro.counts,\"aw\",@nobits\n\t.globl __retro_counts\n\t.p2align 3\n__retro_counts:\n\t.zero 48\n\
            \t.section .note.GNU-stack,\"\",@progbits\n",
    },
    Row {
        what: "a counter at each function of a sum",
        words: &["rewrite", "--probes=functions", "x"],
        code: SUM,
        functions: SUM_FUNCTIONS,
        lines: "# function _start\n\t.text\n\t.p2align 4\n\t.globl _start\n\t.type _start, @function\n_start:\n\
            .L1000:\n\tincq __retro_counts(%rip)\n\tmovl $3, %edi\n\
            .L1005:\n\tcall .L1020\n\
            .L100a:\n\tmovl %eax, %edi\n\
            .L100c:\n\tmovl $60, %eax\n\
            .L1011:\n\tsyscall\n\
            .Lp1000:\n\tint3\n\
            # function f\n\t.text\n\t.p2align 4\n\
            .L1020:\n\tincq __retro_counts+8(%rip)\n\ttestl %edi, %edi\n\
            .L1022:\n\tje .L1030\n\
            .L1024:\n\tpushq %rdi\n\
            .L1025:\n\tdecl %edi\n\
            .L1027:\n\tcall .L1020\n\
            .L102c:\n\tpopq %rdi\n\
            .L102d:\n\taddl %edi, %eax\n\
            .L102f:\n\tret\n\
            .L1030:\n\txorl %eax, %eax\n\
            .L1032:\n\tret\n\
            .Lp1020:\n\tint3\n\
            \t.section .retro.counts,\"aw\",@nobits\n\t.globl __retro_counts\n\t.p2align 3\n__retro_counts:\n\t.zero 16\n\
            \t.section .note.GNU-stack,\"\",@progbits\n",
    },
    Row {
        what: "a counter at each block, two of them behind branches on flags that are still read",
        words: &["rewrite", "--probes=blocks", "x"],
        code: BRANCHES,
        functions: BRANCHES_FUNCTIONS,
        lines: "# function _start\n\t.text\n\t.p2align 4\n\t.globl _start\n\t.type _start, @function\n_start:\n\
            .L1000:\n\tincq __retro_counts(%rip)\n\tmovl $60, %eax\n\
            .L1005:\n\tmovl $1, %edi\n\
            .L100a:\n\tcmpl $1, %edi\n\
            .L100d:\n\tjg .L1013\n\
            .L100f:\n\tmovq __retro_counts+8(%rip), %rcx\n\tleaq 1(%rcx), %rcx\n\tmovq %rcx, __retro_counts+8(%rip)\n\tje .L1013\n\
            .L1011:\n\tincq __retro_counts+16(%rip)\n\txorl %edi, %edi\n\
            .L1013:\n\tincq __retro_counts+24(%rip)\n\txorl %ecx, %ecx\n\
            .L1015:\n\tsyscall\n\
            .Lp1000:\n\tint3\n\
            \t.section .retro.counts,\"aw\",@nobits\n\t.globl __retro_counts\n\t.p2align 3\n__retro_counts:\n\t.zero 32\n\
            \t.section .note.GNU-stack,\"\",@progbits\n",
    },
    Row {
        what: "a counter at each function, of which there is one",
        words: &["rewrite", "--probes=functions", "x"],
        code: BRANCHES,
        functions: BRANCHES_FUNCTIONS,
        lines: "# function _start\n\t.text\n\t.p2align 4\n\t.globl _start\n\t.type _start, @function\n_start:\n\
            .L1000:\n\tincq __retro_counts(%rip)\n\tmovl $60, %eax\n\
            .L1005:\n\tmovl $1, %edi\n\
            .L100a:\n\tcmpl $1, %edi\n\
            .L100d:\n\tjg .L1013\n\
            .L100f:\n\tje .L1013\n\
            .L1011:\n\txorl %edi, %edi\n\
            .L1013:\n\txorl %ecx, %ecx\n\
            .L1015:\n\tsyscall\n\
            .Lp1000:\n\tint3\n\
            \t.section .retro.counts,\"aw\",@nobits\n\t.globl __retro_counts\n\t.p2align 3\n__retro_counts:\n\t.zero 8\n\
            \t.section .note.GNU-stack,\"\",@progbits\n",
    },
    Row {
        what: "a counter behind a red zone where no register is free",
        words: &["rewrite", "--probes=blocks", "x"],
        code: RED_ZONE,
        functions: RED_ZONE_FUNCTIONS,
        lines: "# function _start\n\t.text\n\t.p2align 4\n\t.globl _start\n\t.type _start, @function\n_start:\n\
            .L1000:\n\tincq __retro_counts(%rip)\n\tmovl $60, %eax\n\
            .L1005:\n\tmovl $5, -8(%rsp)\n\
            .L100d:\n\tmovl $1, %edi\n\
            .L1012:\n\tcmpl $1, %edi\n\
            .L1015:\n\tjg .L1019\n\
            .L1017:\n\tleaq -128(%rsp), %rsp\n\tpushq %rax\n\tmovq __retro_counts+8(%rip), %rax\n\tleaq 1(%rax), %rax\n\tmovq %rax, __retro_counts+8(%rip)\n\tpopq %rax\n\tleaq 128(%rsp), %rsp\n\tje .L1019\n\
            .L1019:\n\tincq __retro_counts+16(%rip)\n\taddl -8(%rsp), %edi\n\
            .L101d:\n\tsyscall\n\
            .Lp1000:\n\tint3\n\
            \t.section .retro.counts,\"aw\",@nobits\n\t.globl __retro_counts\n\t.p2align 3\n__retro_counts:\n\t.zero 24\n\
            \t.section .note.GNU-stack,\"\",@progbits\n",
    },
    Row {
        what: "a probe stands behind endbr64",
        words: &["rewrite", "--probes=functions", "x"],
        code: MARKED,
        functions: MARKED_FUNCTIONS,
        lines: "# function _start\n\t.text\n\t.p2align 4\n\t.globl _start\n\t.type _start, @function\n_start:\n\
            .L1000:\n\tendbr64\n\tmovq __retro_counts(%rip), %rax\n\tleaq 1(%rax), %rax\n\tmovq %rax, __retro_counts(%rip)\n\
            .L1004:\n\tmovl $60, %eax\n\
            .L1009:\n\tsyscall\n\
            .Lp1000:\n\tint3\n\
            \t.section .retro.counts,\"aw\",@nobits\n\t.globl __retro_counts\n\t.p2align 3\n__retro_counts:\n\t.zero 8\n\
            \t.section .note.GNU-stack,\"\",@progbits\n",
    },
    Row {
        what: "no probes",
        words: &["rewrite", "--probes=none", "x"],
        code: MARKED,
        functions: MARKED_FUNCTIONS,
        lines: "# function _start\n\t.text\n\t.p2align 4\n\t.globl _start\n\t.type _start, @function\n_start:\n\
            .L1000:\n\tendbr64\n\
            .L1004:\n\tmovl $60, %eax\n\
            .L1009:\n\tsyscall\n\
            .Lp1000:\n\tint3\n\
            \t.section .note.GNU-stack,\"\",@progbits\n",
    },
    Row {
        what: "the blocks of a sum",
        words: &["blocks", "x"],
        code: SUM,
        functions: SUM_FUNCTIONS,
        lines: "0\t1000\t_start\tinc\n1\t100a\t_start\trdi\n2\t1020\tf\tinc\n3\t1024\tf\tinc\n4\t102c\tf\tinc\n5\t1030\tf\tinc\n",
    },
    Row {
        what: "the blocks behind branches",
        words: &["blocks", "x"],
        code: BRANCHES,
        functions: BRANCHES_FUNCTIONS,
        lines: "0\t1000\t_start\tinc\n1\t100f\t_start\trcx\n2\t1011\t_start\tinc\n3\t1013\t_start\tinc\n",
    },
    Row {
        what: "the blocks of a function with a red zone",
        words: &["blocks", "x"],
        code: RED_ZONE,
        functions: RED_ZONE_FUNCTIONS,
        lines: "0\t1000\t_start\tinc\n1\t1017\t_start\tspill\n2\t1019\t_start\tinc\n",
    },
];

#[test]
fn probes_and_leaders_have_their_lines(rt: HostRuntime) -> Result<(), Fail> {
    let alloc = rt.alloc();
    for row in &ROWS {
        let file = file_with(alloc, row.code, row.functions, 0x1000, 0)?;
        let ended = call(alloc, row.words, file)?;
        assert_eq!(rt; ended.status, 0, "{}", row.what);
        assert_eq!(rt; ended.out.bytes(), row.lines.as_bytes(), "{}", row.what);
        assert!(rt; ended.err.bytes().is_empty(), "{}", row.what);
    }
    Ok(())
}

#[test]
fn each_leader_is_one_write(rt: HostRuntime) -> Result<(), Fail> {
    let alloc = rt.alloc();
    let row = &ROWS[8];
    let file = file_with(alloc, row.code, row.functions, 0x1000, 0)?;
    let mut number = 0u64;
    let mut due = Vec::new(alloc);
    for line in row.lines.split_inclusive('\n') {
        number = number.saturating_add(1);
        let ended = call_failing(
            alloc,
            row.words,
            file.to_vec(alloc)?,
            Failing::Write(number),
        )?;
        assert_eq!(rt; ended.status, 4);
        assert_eq!(rt; ended.out.bytes(), due.as_slice());
        assert!(rt; ended.err.bytes().is_empty());
        due.extend_from_slice(line.as_bytes())?;
    }
    Ok(())
}

#[test]
fn a_list_may_be_refused(rt: HostRuntime) -> Result<(), Fail> {
    let alloc = rt.alloc();
    let bad = file_with(
        alloc,
        b"\x90\x0f\x28\xc1",
        &[Function("_start", 0x1000, 4)],
        0x1000,
        0,
    )?;
    let good = file_with(alloc, MARKED, MARKED_FUNCTIONS, 0x1000, 0)?;
    let refused = call(alloc, &["blocks", "x"], bad)?;
    let absent = call(alloc, &["blocks", "y"], good)?;
    assert_eq!(rt; refused.status, 1);
    assert_eq!(rt;
        refused.err.bytes(),
        b"retro: F16 BadInstruction at 0x1001\n".as_slice()
    );
    assert!(rt; refused.out.bytes().is_empty());
    assert_eq!(rt; absent.status, 3);
    assert_eq!(rt; absent.err.bytes(), b"retro: read fault\n".as_slice());
    assert!(rt; absent.out.bytes().is_empty());
    Ok(())
}
