//! Whole calls over files and sinks in memory, which have ample memory.

use crate::test_files::{EXIT, Failing, Function, call, call_failing, file_of_code, file_with};
use std::test::Fail;

/// The lines of the text of a file with `EXIT` at 0x1000.
static LINES: [&str; 15] = [
    "# function _start\n",
    "\t.text\n",
    "\t.p2align 4\n",
    "\t.globl _start\n",
    "\t.type _start, @function\n",
    "_start:\n",
    ".L1000:\n",
    "\tmovl $60, %eax\n",
    ".L1005:\n",
    "\txorl %edi, %edi\n",
    ".L1007:\n",
    "\tsyscall\n",
    ".Lp1000:\n",
    "\tint3\n",
    "\t.section .note.GNU-stack,\"\",@progbits\n",
];

#[test]
fn the_lines_come_one_by_one(rt: HostRuntime) -> Result<(), Fail> {
    let alloc = rt.alloc();
    let file = file_of_code(alloc, EXIT)?;
    let mut due = Vec::new(alloc);
    let mut number = 0u64;
    for line in &LINES {
        number = number.saturating_add(1);
        let ended = call_failing(
            alloc,
            &["rewrite", "x"],
            file.to_vec(alloc)?,
            Failing::Write(number),
        )?;
        assert_eq!(rt; ended.status, 4);
        assert_eq!(rt; ended.out.bytes(), due.as_slice());
        assert!(rt; ended.err.bytes().is_empty());
        due.extend_from_slice(line.as_bytes())?;
    }
    let ended = call(alloc, &["rewrite", "x"], file)?;
    assert_eq!(rt; ended.status, 0);
    assert_eq!(rt; ended.out.bytes(), due.as_slice());
    assert!(rt; ended.err.bytes().is_empty());
    Ok(())
}

/// A change of a file.
enum Change {
    /// None.
    Keep,
    /// Only so many of its bytes are kept.
    Cut(usize),
    /// A byte is put at a place.
    Put(usize, u8),
}

impl Change {
    /// Changes a file.
    fn apply(&self, file: &mut Vec<u8>) {
        match self {
            Change::Keep => {}
            Change::Cut(kept) => file.truncate(*kept),
            Change::Put(place, byte) => {
                if let Some(old) = file.get_mut(*place) {
                    *old = *byte;
                }
            }
        }
    }
}

/// Code, a change of its file, and the line of the fault.
struct Refused {
    what: &'static str,
    code: &'static [u8],
    change: Change,
    line: &'static str,
}

static REFUSED: [Refused; 14] = [
    Refused {
        what: "no bytes",
        code: EXIT,
        change: Change::Cut(0),
        line: "retro: F02 Truncated at offset 0\n",
    },
    Refused {
        what: "32-bit",
        code: EXIT,
        change: Change::Put(4, 1),
        line: "retro: F03 NotElf64 at offset 4\n",
    },
    Refused {
        what: "not position-independent",
        code: EXIT,
        change: Change::Put(16, 2),
        line: "retro: F05 NotPositionIndependent 2\n",
    },
    Refused {
        what: "an instruction that is not accepted",
        code: &[0x90, 0x0f, 0x28, 0xc1],
        change: Change::Keep,
        line: "retro: F16 BadInstruction at 0x1001\n",
    },
    Refused {
        what: "an indirect jump on a register that an add wrote last",
        code: &[0x48, 1, 0xd0, 0xff, 0xe0],
        change: Change::Keep,
        line: "retro: F20 UnknownTable at 0x1003\n",
    },
    Refused {
        what: "the same with notrack",
        code: &[0x48, 1, 0xd0, 0x3e, 0xff, 0xe0],
        change: Change::Keep,
        line: "retro: F20 UnknownTable at 0x1003\n",
    },
    Refused {
        what: "the same with an instruction between",
        code: &[0x48, 1, 0xd0, 0x89, 0xc9, 0xff, 0xe0],
        change: Change::Keep,
        line: "retro: F20 UnknownTable at 0x1005\n",
    },
    Refused {
        what: "the same before a jump to its own second byte",
        code: &[0x48, 1, 0xd0, 0xff, 0xe0, 0xeb, 0xff],
        change: Change::Keep,
        line: "retro: F20 UnknownTable at 0x1003\n",
    },
    Refused {
        what: "a jump to its own second byte",
        code: &[0xeb, 0xff],
        change: Change::Keep,
        line: "retro: F18 BadTarget at 0x1000\n",
    },
    Refused {
        what: "a target inside an instruction",
        code: &[0xb8, 0, 0, 0, 0, 0xeb, 0xfa],
        change: Change::Keep,
        line: "retro: F18 BadTarget at 0x1005\n",
    },
    Refused {
        what: "the end of the function as a target",
        code: &[0x74, 0],
        change: Change::Keep,
        line: "retro: F18 BadTarget at 0x1000\n",
    },
    Refused {
        what: "an address relative to %rip that is no point",
        code: &[0x48, 0x8d, 5, 9, 0x10, 0, 0, 0x0f, 0x0b],
        change: Change::Keep,
        line: "retro: F19 BadReference at 0x1000\n",
    },
    Refused {
        what: "a call to no function, then such an address",
        code: &[0xe8, 0, 0, 1, 0, 0x48, 0x8d, 5, 9, 0x10, 0, 0],
        change: Change::Keep,
        line: "retro: F18 BadTarget at 0x1000\n",
    },
    Refused {
        what: "such an address, then a call to no function",
        code: &[0x48, 0x8d, 5, 9, 0x10, 0, 0, 0xe8, 0, 0, 1, 0],
        change: Change::Keep,
        line: "retro: F19 BadReference at 0x1000\n",
    },
];

/// Code, and the lines of its points.
struct Written {
    what: &'static str,
    code: &'static [u8],
    lines: &'static str,
}

static WRITTEN: [Written; 3] = [
    Written {
        what: "no reference",
        code: &[0x31, 0xff, 0x90],
        lines: ".L1000:\n\txorl %edi, %edi\n.L1002:\n\tnop\n",
    },
    Written {
        what: "a load relative to %fs",
        code: &[0x64, 0x48, 0x8b, 4, 0x25, 0x28, 0, 0, 0, 0x0f, 0x0b],
        lines: ".L1000:\n\tmovq %fs:40, %rax\n.L1009:\n\tud2\n",
    },
    Written {
        what: "a loop that calls what stands behind its end",
        code: &[
            0xb9, 3, 0, 0, 0, // 1000 movl
            0xe8, 0x0d, 0, 0, 0, // 1005 call 1017
            0xff, 0xc9, // 100a decl
            0x75, 0xf7, // 100c jne 1005
            0xb8, 0x3c, 0, 0, 0, // 100e movl
            0x31, 0xff, // 1013 xorl
            0x0f, 5, // 1015 syscall
            0x48, 0x8d, 0x3d, 0xe2, 0xff, 0xff, 0xff, // 1017 leaq 1000
            0xc3, // 101e ret
        ],
        lines: ".L1000:\n\tmovl $3, %ecx\n.L1005:\n\tcall .L1017\n.L100a:\n\tdecl %ecx\n.L100c:\n\tjne .L1005\n\
            .L100e:\n\tmovl $60, %eax\n.L1013:\n\txorl %edi, %edi\n.L1015:\n\tsyscall\n\
            .L1017:\n\tleaq .L1000(%rip), %rdi\n.L101e:\n\tret\n",
    },
];

#[test]
fn labels_stand_for_addresses(rt: HostRuntime) -> Result<(), Fail> {
    let alloc = rt.alloc();
    let opening =
        "# function _start\n\t.text\n\t.p2align 4\n\t.globl _start\n\t.type _start, @function\n_start:\n";
    let closing = ".Lp1000:\n\tint3\n\t.section .note.GNU-stack,\"\",@progbits\n";
    for written in &WRITTEN {
        let ended = call(alloc, &["rewrite", "x"], file_of_code(alloc, written.code)?)?;
        let mut due = Vec::from_slice(alloc, opening.as_bytes())?;
        due.extend_from_slice(written.lines.as_bytes())?;
        due.extend_from_slice(closing.as_bytes())?;
        assert_eq!(rt; ended.status, 0, "{}", written.what);
        assert_eq!(rt; ended.out.bytes(), due.as_slice(), "{}", written.what);
        assert!(rt; ended.err.bytes().is_empty(), "{}", written.what);
    }
    Ok(())
}

/// Code at 0x1000 with its functions, the entry, the address of an array or 0, and the text and the line of the fault.
struct Whole {
    what: &'static str,
    code: &'static [u8],
    functions: &'static [Function],
    entry: u64,
    array: u64,
    status: u8,
    text: &'static str,
    fault: &'static str,
}

/// `call 0x1010` and eleven bytes of no function; `xorl`, `movl` and `syscall`.
const TWO: &[u8] =
    b"\xe8\x0b\0\0\0\xcc\xcc\xcc\xcc\xcc\xcc\xcc\xcc\xcc\xcc\xcc\x31\xff\xb8\x3c\0\0\0\x0f\x05";

/// `movl`, `cmpl $2, %edi`, `ja`, `leaq 0x2000(%rip), %rdx`, `movslq (%rdx,%rdi,4), %rax`, `addq %rdx, %rax`,
/// `notrack jmp *%rax`, and three places to jump to.
const DISPATCH: &[u8] =
    b"\xbf\0\0\0\0\x83\xff\x02\x77\x24\x48\x8d\x15\xef\x0f\0\0\x48\x63\x04\xba\x48\x01\xd0\x3e\xff\xe0\xbf\x0a\0\0\0\xeb\x0c\xbf\x0b\0\0\0\xeb\x05\xbf\x0c\0\0\0\xb8\x3c\0\0\0\x0f\x05";

static WHOLE: [Whole; 8] = [
    Whole {
        what: "a call of a second function",
        code: TWO,
        functions: &[Function("_start", 0x1000, 5), Function("f", 0x1010, 9)],
        entry: 0x1000,
        array: 0,
        status: 0,
        text: "# function _start\n\t.text\n\t.p2align 4\n\t.globl _start\n\t.type _start, @function\n_start:\n\
            .L1000:\n\tcall .L1010\n.Lp1000:\n\tint3\n\
            # function f\n\t.text\n\t.p2align 4\n\
            .L1010:\n\txorl %edi, %edi\n.L1012:\n\tmovl $60, %eax\n.L1017:\n\tsyscall\n.Lp1010:\n\tint3\n\
            \t.section .note.GNU-stack,\"\",@progbits\n",
        fault: "",
    },
    Whole {
        what: "the function that is entered comes second, right behind the one that jumps to it",
        code: &[0xeb, 0, 0x0f, 0x05],
        functions: &[Function("run", 0x1002, 2), Function("first", 0x1000, 2)],
        entry: 0x1002,
        array: 0,
        status: 0,
        text: "# function first\n\t.text\n\t.p2align 4\n\
            .L1000:\n\tjmp .L1002\n.Lp1000:\n\tint3\n\
            # function run\n\t.text\n\t.p2align 4\n\t.globl _start\n\t.type _start, @function\n_start:\n\
            .L1002:\n\tsyscall\n.Lp1002:\n\tint3\n\
            \t.section .note.GNU-stack,\"\",@progbits\n",
        fault: "",
    },
    Whole {
        what: "a sum by a function that calls itself",
        code: &[
            0xbf, 3, 0, 0, 0, // 1000 movl
            0xe8, 0x16, 0, 0, 0, // 1005 call 1020
            0x89, 0xc7, // 100a movl
            0xb8, 0x3c, 0, 0, 0, // 100c movl
            0x0f, 5, // 1011 syscall
            0xcc, 0xcc, 0xcc, 0xcc, 0xcc, 0xcc, 0xcc, 0xcc, 0xcc, 0xcc, 0xcc, 0xcc, 0xcc, //
            0x85, 0xff, // 1020 testl
            0x74, 0x0c, // 1022 je 1030
            0x57, // 1024 pushq
            0xff, 0xcf, // 1025 decl
            0xe8, 0xf4, 0xff, 0xff, 0xff, // 1027 call 1020
            0x5f, // 102c popq
            1, 0xf8, // 102d addl
            0xc3, // 102f ret
            0x31, 0xc0, // 1030 xorl
            0xc3, // 1032 ret
        ],
        functions: &[Function("_start", 0x1000, 19), Function("f", 0x1020, 19)],
        entry: 0x1000,
        array: 0,
        status: 0,
        text: "# function _start\n\t.text\n\t.p2align 4\n\t.globl _start\n\t.type _start, @function\n_start:\n\
            .L1000:\n\tmovl $3, %edi\n.L1005:\n\tcall .L1020\n.L100a:\n\tmovl %eax, %edi\n\
            .L100c:\n\tmovl $60, %eax\n.L1011:\n\tsyscall\n.Lp1000:\n\tint3\n\
            # function f\n\t.text\n\t.p2align 4\n\
            .L1020:\n\ttestl %edi, %edi\n.L1022:\n\tje .L1030\n.L1024:\n\tpushq %rdi\n.L1025:\n\tdecl %edi\n\
            .L1027:\n\tcall .L1020\n.L102c:\n\tpopq %rdi\n.L102d:\n\taddl %edi, %eax\n.L102f:\n\tret\n\
            .L1030:\n\txorl %eax, %eax\n.L1032:\n\tret\n.Lp1020:\n\tint3\n\
            \t.section .note.GNU-stack,\"\",@progbits\n",
        fault: "",
    },
    Whole {
        what: "no function starts at the entry",
        code: TWO,
        functions: &[Function("_start", 0x1000, 5), Function("f", 0x1010, 9)],
        entry: 0x1005,
        array: 0,
        status: 1,
        text: "",
        fault: "retro: F15 NoEntry\n",
    },
    Whole {
        what: "the second function begins in the first",
        code: TWO,
        functions: &[Function("_start", 0x1000, 17), Function("f", 0x1010, 9)],
        entry: 0x1000,
        array: 0,
        status: 1,
        text: "",
        fault: "retro: F17 Crosses at 0x1010\n",
    },
    Whole {
        what: "an address of a function that runs before the program",
        code: TWO,
        functions: &[Function("_start", 0x1000, 5), Function("f", 0x1010, 9)],
        entry: 0x1000,
        array: 0x2000,
        status: 1,
        text: "",
        fault: "retro: F22 Constructors at 0x2000\n",
    },
    Whole {
        what: "an instruction of the second function that is not accepted",
        code: &[0xeb, 0, 0x90, 0x0f, 0x28, 0xc1],
        functions: &[Function("_start", 0x1000, 2), Function("f", 0x1002, 4)],
        entry: 0x1000,
        array: 0,
        status: 1,
        text: "",
        fault: "retro: F16 BadInstruction at 0x1003\n",
    },
    Whole {
        what: "a jump through a table at 0x2000, where the file has none",
        code: DISPATCH,
        functions: &[Function("_start", 0x1000, 53)],
        entry: 0x1000,
        array: 0,
        status: 1,
        text: "",
        fault: "retro: F21 BadTable at 0x1018\n",
    },
];

#[test]
fn each_function_has_its_lines(rt: HostRuntime) -> Result<(), Fail> {
    let alloc = rt.alloc();
    for whole in &WHOLE {
        let ended = call(
            alloc,
            &["rewrite", "x"],
            file_with(alloc, whole.code, whole.functions, whole.entry, whole.array)?,
        )?;
        assert_eq!(rt; ended.status, whole.status, "{}", whole.what);
        assert_eq!(rt; ended.out.bytes(), whole.text.as_bytes(), "{}", whole.what);
        assert_eq!(rt; ended.err.bytes(), whole.fault.as_bytes(), "{}", whole.what);
    }
    Ok(())
}

#[test]
fn a_fault_is_said(rt: HostRuntime) -> Result<(), Fail> {
    let alloc = rt.alloc();
    for refused in &REFUSED {
        let mut file = file_of_code(alloc, refused.code)?;
        refused.change.apply(&mut file);
        let ended = call(alloc, &["rewrite", "x"], file)?;
        assert_eq!(rt; ended.status, 1, "{}", refused.what);
        assert_eq!(rt;
            ended.err.bytes(),
            refused.line.as_bytes(),
            "{}",
            refused.what
        );
        assert!(rt; ended.out.bytes().is_empty(), "{}", refused.what);
    }
    Ok(())
}

/// Words that no command takes.
struct Misread {
    what: &'static str,
    words: &'static [&'static str],
}

static WORDS: [Misread; 21] = [
    Misread {
        what: "no words",
        words: &[],
    },
    Misread {
        what: "an option of no command",
        words: &["--help"],
    },
    Misread {
        what: "no file",
        words: &["rewrite"],
    },
    Misread {
        what: "an empty name",
        words: &["rewrite", ""],
    },
    Misread {
        what: "an option for a name",
        words: &["rewrite", "-x"],
    },
    Misread {
        what: "an option that says nothing",
        words: &["rewrite", "--", "x"],
    },
    Misread {
        what: "two files",
        words: &["rewrite", "x", "x"],
    },
    Misread {
        what: "an unknown mode",
        words: &["rewrite", "--probes=all", "x"],
    },
    Misread {
        what: "an empty mode",
        words: &["rewrite", "--probes=", "x"],
    },
    Misread {
        what: "the mode twice",
        words: &["rewrite", "--probes=none", "--probes=none", "x"],
    },
    Misread {
        what: "the mode behind the file",
        words: &["rewrite", "x", "--probes=none"],
    },
    Misread {
        what: "a mode and no file",
        words: &["rewrite", "--probes=blocks"],
    },
    Misread {
        what: "a mode and an empty name",
        words: &["rewrite", "--probes=blocks", ""],
    },
    Misread {
        what: "a mode and an option for a name",
        words: &["rewrite", "--probes=blocks", "-x"],
    },
    Misread {
        what: "blocks of no file",
        words: &["blocks"],
    },
    Misread {
        what: "blocks of an empty name",
        words: &["blocks", ""],
    },
    Misread {
        what: "blocks of an option for a name",
        words: &["blocks", "-x"],
    },
    Misread {
        what: "blocks of two files",
        words: &["blocks", "x", "x"],
    },
    Misread {
        what: "blocks with a mode",
        words: &["blocks", "--probes=none", "x"],
    },
    Misread {
        what: "a command that is not there",
        words: &["trace", "--fuel=0", "x"],
    },
    Misread {
        what: "another command that is not there",
        words: &["check", "01"],
    },
];

#[test]
fn other_words_are_refused(rt: HostRuntime) -> Result<(), Fail> {
    let alloc = rt.alloc();
    let line = b"retro: words not understood\n".as_slice();
    for misread in &WORDS {
        let ended = call(alloc, misread.words, file_of_code(alloc, EXIT)?)?;
        assert_eq!(rt; ended.status, 2, "{}", misread.what);
        assert_eq!(rt; ended.err.bytes(), line, "{}", misread.what);
        assert!(rt; ended.out.bytes().is_empty(), "{}", misread.what);
    }
    Ok(())
}

#[test]
fn reading_fails_or_stops(rt: HostRuntime) -> Result<(), Fail> {
    let alloc = rt.alloc();
    let failed = call_failing(
        alloc,
        &["rewrite", "x"],
        file_of_code(alloc, EXIT)?,
        Failing::Read(1),
    )?;
    let absent = call(alloc, &["rewrite", "y"], file_of_code(alloc, EXIT)?)?;
    let large = vec![in alloc; 0u8; 16_777_217]?;
    let large = call(alloc, &["rewrite", "x"], large)?;
    assert_eq!(rt; failed.status, 3);
    assert_eq!(rt; failed.err.bytes(), b"retro: read fault\n".as_slice());
    assert_eq!(rt; absent.status, 3);
    assert_eq!(rt; absent.err.bytes(), b"retro: read fault\n".as_slice());
    assert_eq!(rt; large.status, 1);
    assert_eq!(rt;
        large.err.bytes(),
        b"retro: F01 TooLarge 16777217\n".as_slice()
    );
    Ok(())
}

#[test]
fn a_line_that_cannot_be_said(rt: HostRuntime) -> Result<(), Fail> {
    let alloc = rt.alloc();
    let ended = call_failing(
        alloc,
        &["check", "x"],
        file_of_code(alloc, EXIT)?,
        Failing::Line(1),
    )?;
    assert_eq!(rt; ended.status, 4);
    assert!(rt; ended.out.bytes().is_empty());
    assert!(rt; ended.err.bytes().is_empty());
    Ok(())
}
