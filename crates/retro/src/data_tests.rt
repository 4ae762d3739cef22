//! Rewriting of files with data, relocations, imports and jump tables, which have ample memory.

use crate::test_files::{
    CODE, DATA, Failing, Rela, Section, Symbol, WRITABLE, call, call_failing, file_of,
};
use std::alloc::{AllocError, Global};
use std::test::Fail;

/// A file, and the lines that `rewrite` gives of it, on `out` or on `err`.
struct Row {
    what: &'static str,
    sections: &'static [Section],
    symbols: &'static [Symbol],
    dynamic: &'static [Symbol],
    relas: &'static [Rela],
    entry: u64,
    status: u8,
    lines: &'static str,
}

// Types of relocations (psABI, "Relocation Types").
const COPY: u32 = 5;

const GLOB_DAT: u32 = 6;

const JUMP_SLOT: u32 = 7;

const RELATIVE: u32 = 8;

/// `lea 0x1009(%rip), %rax` and `ud2`: the address is 0x2010.
const LEA: &[u8] = b"\x48\x8d\x05\x09\x10\x00\x00\x0f\x0b";

const NINE: Symbol = Symbol(b"_start", 1, 1, 0x1000, 9);

/// 313 bytes, and the code behind them.
const FAR: &[u8] =
    b"\xcc\xcc\xcc\xcc\xcc\xcc\xcc\xcc\xcc\xcc\xcc\xcc\xcc\xcc\xcc\xcc\xcc\xcc\xcc\xcc\xcc\xcc\xcc\xcc\xcc\xcc\xcc\xcc\xcc\xcc\xcc\xcc\xcc\xcc\xcc\xcc\xcc\xcc\xcc\xcc\
    \xcc\xcc\xcc\xcc\xcc\xcc\xcc\xcc\xcc\xcc\xcc\xcc\xcc\xcc\xcc\xcc\xcc\xcc\xcc\xcc\xcc\xcc\xcc\xcc\xcc\xcc\xcc\xcc\xcc\xcc\xcc\xcc\xcc\xcc\xcc\xcc\xcc\xcc\xcc\xcc\
    \xcc\xcc\xcc\xcc\xcc\xcc\xcc\xcc\xcc\xcc\xcc\xcc\xcc\xcc\xcc\xcc\xcc\xcc\xcc\xcc\xcc\xcc\xcc\xcc\xcc\xcc\xcc\xcc\xcc\xcc\xcc\xcc\xcc\xcc\xcc\xcc\xcc\xcc\xcc\xcc\
    \xcc\xcc\xcc\xcc\xcc\xcc\xcc\xcc\xcc\xcc\xcc\xcc\xcc\xcc\xcc\xcc\xcc\xcc\xcc\xcc\xcc\xcc\xcc\xcc\xcc\xcc\xcc\xcc\xcc\xcc\xcc\xcc\xcc\xcc\xcc\xcc\xcc\xcc\xcc\xcc\
    \xcc\xcc\xcc\xcc\xcc\xcc\xcc\xcc\xcc\xcc\xcc\xcc\xcc\xcc\xcc\xcc\xcc\xcc\xcc\xcc\xcc\xcc\xcc\xcc\xcc\xcc\xcc\xcc\xcc\xcc\xcc\xcc\xcc\xcc\xcc\xcc\xcc\xcc\xcc\xcc\
    \xcc\xcc\xcc\xcc\xcc\xcc\xcc\xcc\xcc\xcc\xcc\xcc\xcc\xcc\xcc\xcc\xcc\xcc\xcc\xcc\xcc\xcc\xcc\xcc\xcc\xcc\xcc\xcc\xcc\xcc\xcc\xcc\xcc\xcc\xcc\xcc\xcc\xcc\xcc\xcc\
    \xcc\xcc\xcc\xcc\xcc\xcc\xcc\xcc\xcc\xcc\xcc\xcc\xcc\xcc\xcc\xcc\xcc\xcc\xcc\xcc\xcc\xcc\xcc\xcc\xcc\xcc\xcc\xcc\xcc\xcc\xcc\xcc\xcc\xcc\xcc\xcc\xcc\xcc\xcc\xcc\
    \xcc\xcc\xcc\xcc\xcc\xcc\xcc\xcc\xcc\xcc\xcc\xcc\xcc\xcc\xcc\xcc\xcc\xcc\xcc\xcc\xcc\xcc\xcc\xcc\xcc\xcc\xcc\xcc\xcc\xcc\xcc\xcc\xcc\
    \x48\x8d\x05\xc4\x0e\x00\x00\x8b\x38\xb8\x3c\x00\x00\x00\x0f\x05";

/// A switch of three cases.
const SWITCH: &[u8] =
    b"\xbf\x00\x00\x00\x00\x83\xff\x02\x77\x24\x48\x8d\x15\xef\x0f\x00\x00\x48\x63\x04\xba\x48\x01\xd0\x3e\xff\xe0\xbf\x0a\x00\x00\x00\xeb\x0c\xbf\x0b\x00\x00\x00\xeb\x05\xbf\x0c\x00\x00\x00\xb8\x3c\x00\x00\x00\x0f\x05";

const SWITCH_START: Symbol = Symbol(b"_start", 1, 1, 0x1000, 53);

/// `main`, 9 bytes between, and the byte of `_start`; the same with the byte of `frame_dummy`.
const HOSTED: &[u8] =
    b"\x48\x83\xec\x08\x48\x8d\x3d\xf5\x0f\x00\x00\xe8\xf0\x00\x00\x00\x31\xc0\x48\x83\xc4\x08\xc3\xcc\xcc\xcc\xcc\xcc\xcc\xcc\xcc\xcc\x06";

const LINKED: &[u8] =
    b"\x48\x83\xec\x08\x48\x8d\x3d\xf5\x0f\x00\x00\xe8\xf0\x00\x00\x00\x31\xc0\x48\x83\xc4\x08\xc3\xcc\xcc\xcc\xcc\xcc\xcc\xcc\xcc\xcc\x06\x06";

const STUB: Section = Section(
    b".plt.sec",
    1,
    CODE,
    0x1100,
    b"\xf3\x0f\x1e\xfa\xf2\xff\x25\xf5\x1e\x00\x00\x0f\x1f\x44\x00\x00",
);

const MAIN: Symbol = Symbol(b"main", 1, 1, 0x1000, 23);

const START: Symbol = Symbol(b"_start", 1, 1, 0x1020, 1);

const DUMMY: Symbol = Symbol(b"frame_dummy", 0, 1, 0x1021, 1);

const PUTS: Symbol = Symbol(b"puts", 1, 0, 0, 0);

const LIBC: Symbol = Symbol(b"__libc_start_main", 1, 0, 0, 0);

const GMON: Symbol = Symbol(b"__gmon_start__", 2, 0, 0, 0);

#[rattlefmt::skip]
static ROWS: [Row; 13] = [
    Row {
        what: "an offset in a read-only section",
        sections: &[
            Section(b".text", 1, CODE, 0x1000, FAR),
            Section(b".rodata", 1, DATA, 0x2000, b"\x01\x02\x03\x04\x07\x00\x00\x00"),
        ],
        symbols: &[Symbol(b"_start", 1, 1, 0x1139, 16)],
        dynamic: &[],
        relas: &[],
        entry: 0x1139,
        status: 0,
        lines: "# function _start\n\t.text\n\t.p2align 4\n\t.globl _start\n\t.type _start, @function\n_start:\n\
            .L1139:\n\tleaq .Ls0+4(%rip), %rax\n.L1140:\n\tmovl (%rax), %edi\n.L1142:\n\tmovl $60, %eax\n.L1147:\n\tsyscall\n.Lp1139:\n\tint3\n\
            \t.section .retro.s0,\"a\",@progbits\n\t.p2align 4\n.Ls0:\n\t.byte 1, 2, 3, 4, 7, 0, 0, 0\n\
            \t.section .note.GNU-stack,\"\",@progbits\n",
    },
    Row {
        what: "the start of the second of two sections",
        sections: &[
            Section(b".text", 1, CODE, 0x1000, LEA),
            Section(b".rodata", 1, DATA, 0x2000, b"\x00\x01\x02\x03\x04\x05\x06\x07\x08\x09\x0a\x0b\x0c\x0d\x0e\x0f"),
            Section(b".rodata1", 1, DATA, 0x2010, b"\x10\x11\x12\x13\x14\x15\x16\x17\x18\x19\x1a\x1b\x1c\x1d\x1e\x1f"),
        ],
        symbols: &[NINE],
        dynamic: &[],
        relas: &[],
        entry: 0x1000,
        status: 0,
        lines: "# function _start\n\t.text\n\t.p2align 4\n\t.globl _start\n\t.type _start, @function\n_start:\n\
            .L1000:\n\tleaq .Ls1(%rip), %rax\n.L1007:\n\tud2\n.Lp1000:\n\tint3\n\
            \t.section .retro.s0,\"a\",@progbits\n\t.p2align 4\n.Ls0:\n\t.byte 0, 1, 2, 3, 4, 5, 6, 7, 8, 9, 10, 11, 12, 13, 14, 15\n\
            \t.section .retro.s1,\"a\",@progbits\n\t.p2align 4\n.Ls1:\n\t.byte 16, 17, 18, 19, 20, 21, 22, 23, 24, 25, 26, 27, 28, 29, 30, 31\n\
            \t.section .note.GNU-stack,\"\",@progbits\n",
    },
    Row {
        what: "the end of a section",
        sections: &[
            Section(b".text", 1, CODE, 0x1000, LEA),
            Section(b".rodata", 1, DATA, 0x2000, b"\x00\x01\x02\x03\x04\x05\x06\x07\x08\x09\x0a\x0b\x0c\x0d\x0e\x0f"),
        ],
        symbols: &[NINE],
        dynamic: &[],
        relas: &[],
        entry: 0x1000,
        status: 0,
        lines: "# function _start\n\t.text\n\t.p2align 4\n\t.globl _start\n\t.type _start, @function\n_start:\n\
            .L1000:\n\tleaq .Ls0+16(%rip), %rax\n.L1007:\n\tud2\n.Lp1000:\n\tint3\n\
            \t.section .retro.s0,\"a\",@progbits\n\t.p2align 4\n.Ls0:\n\t.byte 0, 1, 2, 3, 4, 5, 6, 7, 8, 9, 10, 11, 12, 13, 14, 15\n\
            \t.section .note.GNU-stack,\"\",@progbits\n",
    },
    Row {
        what: "an address behind the data",
        sections: &[
            Section(b".text", 1, CODE, 0x1000, LEA),
            Section(b".rodata", 1, DATA, 0x2000, b"\x00\x01\x02\x03\x04\x05\x06\x07"),
        ],
        symbols: &[NINE],
        dynamic: &[],
        relas: &[],
        entry: 0x1000,
        status: 1,
        lines: "retro: F19 BadReference at 0x1000\n",
    },
    Row {
        what: "a jump table",
        sections: &[
            Section(b".text", 1, CODE, 0x1000, SWITCH),
            Section(b".rodata", 1, DATA, 0x2000, b"\x1b\xf0\xff\xff\x22\xf0\xff\xff\x29\xf0\xff\xff"),
        ],
        symbols: &[SWITCH_START],
        dynamic: &[],
        relas: &[],
        entry: 0x1000,
        status: 0,
        lines: "# function _start\n\t.text\n\t.p2align 4\n\t.globl _start\n\t.type _start, @function\n_start:\n\
            .L1000:\n\tmovl $0, %edi\n.L1005:\n\tcmpl $2, %edi\n.L1008:\n\tja .L102e\n.L100a:\n\tleaq .Ls0(%rip), %rdx\n\
            .L1011:\n\tmovslq (%rdx,%rdi,4), %rax\n.L1015:\n\taddq %rdx, %rax\n.L1018:\n\tnotrack jmp *%rax\n\
            .L101b:\n\tmovl $10, %edi\n.L1020:\n\tjmp .L102e\n.L1022:\n\tmovl $11, %edi\n.L1027:\n\tjmp .L102e\n\
            .L1029:\n\tmovl $12, %edi\n.L102e:\n\tmovl $60, %eax\n.L1033:\n\tsyscall\n.Lp1000:\n\tint3\n\
            \t.section .retro.s0,\"a\",@progbits\n\t.p2align 4\n.Ls0:\n.Lt2000:\n\
            \t.long .L101b-.Lt2000\n\t.long .L1022-.Lt2000\n\t.long .L1029-.Lt2000\n\
            \t.section .note.GNU-stack,\"\",@progbits\n",
    },
    Row {
        what: "a table word that leads to no point",
        sections: &[
            Section(b".text", 1, CODE, 0x1000, SWITCH),
            Section(b".rodata", 1, DATA, 0x2000, b"\x1b\xf0\xff\xff\x22\xf0\xff\xff\x2a\xf0\xff\xff"),
        ],
        symbols: &[SWITCH_START],
        dynamic: &[],
        relas: &[],
        entry: 0x1000,
        status: 1,
        lines: "retro: F21 BadTable at 0x1018\n",
    },
    Row {
        what: "a file that a C library starts",
        sections: &[
            Section(b".text", 1, CODE, 0x1000, HOSTED),
            STUB,
            Section(b".rodata", 1, DATA, 0x2000, b"hi\x00"),
            Section(b".got", 1, WRITABLE, 0x3000, &[0; 8]),
        ],
        symbols: &[MAIN, START],
        dynamic: &[PUTS, LIBC],
        relas: &[Rela(0x3000, 1, JUMP_SLOT, 0)],
        entry: 0x1020,
        status: 0,
        lines: "# function main\n\t.text\n\t.p2align 4\n\t.globl main\n\t.type main, @function\nmain:\n\
            .L1000:\n\tsubq $8, %rsp\n.L1004:\n\tleaq .Ls0(%rip), %rdi\n.L100b:\n\tcall puts\n.L1010:\n\txorl %eax, %eax\n\
            .L1012:\n\taddq $8, %rsp\n.L1016:\n\tret\n.Lp1000:\n\tint3\n\
            \t.section .retro.s0,\"a\",@progbits\n\t.p2align 4\n.Ls0:\n\t.byte 104, 105, 0\n\
            \t.section .retro.s1,\"aw\",@progbits\n\t.p2align 4\n.Ls1:\n\t.quad puts\n\
            \t.section .note.GNU-stack,\"\",@progbits\n",
    },
    Row {
        what: "a slot and bytes behind it",
        sections: &[
            Section(b".text", 1, CODE, 0x1000, b"\x48\x8b\x05\xf9\x1f\x00\x00\x8b\x38\xb8\x3c\x00\x00\x00\x0f\x05"),
            Section(b".data", 1, WRITABLE, 0x3000, b"\x00\x00\x00\x00\x00\x00\x00\x00\x09\x00\x00\x00\x00\x00\x00\x00"),
        ],
        symbols: &[Symbol(b"_start", 1, 1, 0x1000, 16)],
        dynamic: &[],
        relas: &[Rela(0x3000, 0, RELATIVE, 0x3008)],
        entry: 0x1000,
        status: 0,
        lines: "# function _start\n\t.text\n\t.p2align 4\n\t.globl _start\n\t.type _start, @function\n_start:\n\
            .L1000:\n\tmovq .Ls0(%rip), %rax\n.L1007:\n\tmovl (%rax), %edi\n.L1009:\n\tmovl $60, %eax\n.L100e:\n\tsyscall\n.Lp1000:\n\tint3\n\
            \t.section .retro.s0,\"aw\",@progbits\n\t.p2align 4\n.Ls0:\n\t.quad .Ls0+8\n\t.byte 9, 0, 0, 0, 0, 0, 0, 0\n\
            \t.section .note.GNU-stack,\"\",@progbits\n",
    },
    Row {
        what: "a slot of an address that stands for nothing",
        sections: &[
            Section(b".text", 1, CODE, 0x1000, b"\x48\x8b\x05\xf9\x1f\x00\x00\x8b\x38\xb8\x3c\x00\x00\x00\x0f\x05"),
            Section(b".data", 1, WRITABLE, 0x3000, b"\x00\x00\x00\x00\x00\x00\x00\x00\x09\x00\x00\x00\x00\x00\x00\x00"),
        ],
        symbols: &[Symbol(b"_start", 1, 1, 0x1000, 16)],
        dynamic: &[],
        relas: &[Rela(0x3000, 0, RELATIVE, 0x9000)],
        entry: 0x1000,
        status: 1,
        lines: "retro: F14 BadRelocTarget at 0x3000\n",
    },
    Row {
        what: "a copied symbol",
        sections: &[
            Section(b".text", 1, CODE, 0x1000, b"\x48\x8b\x05\xf9\x2f\x00\x00\x0f\x0b"),
            Section(b".bss", 8, WRITABLE, 0x4000, &[0; 16]),
        ],
        symbols: &[NINE],
        dynamic: &[Symbol(b"stdout", 1, 2, 0x4000, 8)],
        relas: &[Rela(0x4000, 1, COPY, 0)],
        entry: 0x1000,
        status: 0,
        lines: "# copy stdout 8\n# function _start\n\t.text\n\t.p2align 4\n\t.globl _start\n\t.type _start, @function\n_start:\n\
            .L1000:\n\tmovq stdout(%rip), %rax\n.L1007:\n\tud2\n.Lp1000:\n\tint3\n\
            \t.section .retro.s0,\"aw\",@nobits\n\t.p2align 4\n.Ls0:\n\t.zero 16\n\
            \t.section .note.GNU-stack,\"\",@progbits\n",
    },
    Row {
        what: "a jump through no table",
        sections: &[Section(b".text", 1, CODE, 0x1000, b"\x48\x01\xd0\xff\xe0")],
        symbols: &[Symbol(b"_start", 1, 1, 0x1000, 5)],
        dynamic: &[],
        relas: &[],
        entry: 0x1000,
        status: 1,
        lines: "retro: F20 UnknownTable at 0x1003\n",
    },
    Row {
        what: "a file as a linker leaves it, with a weak symbol",
        sections: &[
            Section(b".text", 1, CODE, 0x1000, LINKED),
            STUB,
            Section(b".rodata", 1, DATA, 0x2000, b"hi\x00"),
            Section(b".init_array", 14, WRITABLE, 0x2ff0, &[0; 8]),
            Section(b".got", 1, WRITABLE, 0x3000, &[0; 16]),
        ],
        symbols: &[MAIN, START, DUMMY],
        dynamic: &[PUTS, LIBC, GMON],
        relas: &[Rela(0x3000, 1, JUMP_SLOT, 0), Rela(0x3008, 3, GLOB_DAT, 0), Rela(0x2ff0, 0, RELATIVE, 0x1021)],
        entry: 0x1020,
        status: 0,
        lines: "\t.weak __gmon_start__\n# function main\n\t.text\n\t.p2align 4\n\t.globl main\n\t.type main, @function\nmain:\n\
            .L1000:\n\tsubq $8, %rsp\n.L1004:\n\tleaq .Ls0(%rip), %rdi\n.L100b:\n\tcall puts\n.L1010:\n\txorl %eax, %eax\n\
            .L1012:\n\taddq $8, %rsp\n.L1016:\n\tret\n.Lp1000:\n\tint3\n\
            \t.section .retro.s0,\"a\",@progbits\n\t.p2align 4\n.Ls0:\n\t.byte 104, 105, 0\n\
            \t.section .retro.s1,\"aw\",@progbits\n\t.p2align 4\n.Ls1:\n\t.quad puts\n\t.quad __gmon_start__\n\
            \t.section .note.GNU-stack,\"\",@progbits\n",
    },
    Row {
        what: "the same with a constructor of its own",
        sections: &[
            Section(b".text", 1, CODE, 0x1000, LINKED),
            STUB,
            Section(b".rodata", 1, DATA, 0x2000, b"hi\x00"),
            Section(b".init_array", 14, WRITABLE, 0x2ff0, &[0; 8]),
            Section(b".got", 1, WRITABLE, 0x3000, &[0; 16]),
        ],
        symbols: &[MAIN, START, DUMMY],
        dynamic: &[PUTS, LIBC, GMON],
        relas: &[Rela(0x3000, 1, JUMP_SLOT, 0), Rela(0x3008, 3, GLOB_DAT, 0), Rela(0x2ff0, 0, RELATIVE, 0x1000)],
        entry: 0x1020,
        status: 1,
        lines: "retro: F22 Constructors at 0x2ff0\n",
    },
];

/// The file of a row.
fn file_of_row(alloc: Global, row: &Row) -> Result<Vec<u8>, AllocError> {
    file_of(
        alloc,
        row.sections,
        row.symbols,
        row.dynamic,
        row.relas,
        row.entry,
    )
}

#[test]
fn data_and_imports_have_their_lines(rt: HostRuntime) -> Result<(), Fail> {
    let alloc = rt.alloc();
    for row in &ROWS {
        let ended = call(alloc, &["rewrite", "x"], file_of_row(alloc, row)?)?;
        assert_eq!(rt; ended.status, row.status, "{}", row.what);
        let (due, other) = if row.status == 0 {
            (ended.out.bytes(), ended.err.bytes())
        } else {
            (ended.err.bytes(), ended.out.bytes())
        };
        assert_eq!(rt; due, row.lines.as_bytes(), "{}", row.what);
        assert!(rt; other.is_empty());
    }
    Ok(())
}

#[test]
fn each_line_may_fail(rt: HostRuntime) -> Result<(), Fail> {
    let alloc = rt.alloc();
    let row = &ROWS[6];
    let file = file_of_row(alloc, row)?;
    let mut number = 0u64;
    let mut done: usize = 0;
    for line in row.lines.split_inclusive('\n') {
        number = number.saturating_add(1);
        let ended = call_failing(
            alloc,
            &["rewrite", "x"],
            file.to_vec(alloc)?,
            Failing::Write(number),
        )?;
        assert_eq!(rt; ended.status, 4);
        assert!(rt; row.lines.as_bytes().starts_with(ended.out.bytes()));
        assert_eq!(rt; ended.out.bytes().len(), done);
        assert!(rt; ended.err.bytes().is_empty());
        done = done.saturating_add(line.len());
    }
    Ok(())
}
