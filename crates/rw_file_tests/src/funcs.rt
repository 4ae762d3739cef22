//! A small file with two functions, and what is found and refused where its symbols, code or sections differ.
use crate::files::{FUNC, File, Filled, Given, Named, parts_with};
use rw_base::{Fault, Refusal, Span};
use rw_elf::Elf;
use rw_funcs::Functions;
use rw_make::{Parts, make};
use rw_reloc::Relocs;
use std::alloc::{AllocError, Global};
use std::test::Fail;
use x86_insn::Insn;

/// `call 0x1010`, `movl $60, %eax`, `xorl %edi, %edi`, `syscall`, two bytes of no function, and `ret`, from 0x1000 on.
const TEXT: [u8; 17] = *b"\xe8\x0b\0\0\0\xb8\x3c\0\0\0\x31\xff\x0f\x05\xcc\xcc\xc3";

#[rattlefmt::skip]
const SYMBOLS: [Named; 2] = [Named(b"first", FUNC, 1, 0x1000, 14), Named(b"second", FUNC, 1, 0x1010, 1)];

/// `xorl %edi, %edi`, `syscall`, and a byte that begins no instruction.
const HOSTED: [u8; 5] = *b"\x31\xff\x0f\x05\x06";

#[rattlefmt::skip]
const STARTED: [Named; 2] = [Named(b"main", FUNC, 1, 0x1000, 4), Named(b"_start", FUNC, 1, 0x1004, 1)];

/// The symbol that a C library's startup code imports, and the import of another function.
const STARTING: [Named; 1] = [Named(b"__libc_start_main", FUNC, 0, 0, 0)];

const PUTS: [Named; 1] = [Named(b"puts", FUNC, 0, 0, 0)];

#[rattlefmt::skip]
const BOTH: [Named; 2] = [Named(b"puts", FUNC, 0, 0, 0), Named(b"__libc_start_main", FUNC, 0, 0, 0)];

/// A file with code at 0x1000, and what is then the first fault of its functions, or none.
struct Case {
    what: &'static str,
    text: &'static [u8],
    symbols: &'static [Named],
    sections: &'static [Given],
    dynamic: &'static [Named],
    filled: &'static [Filled],
    entry: u64,
    want: Option<Fault>,
}

fn parts_in(alloc: Global, case: &Case) -> Result<Parts, AllocError> {
    let file = File {
        sections: case.sections,
        symbols: case.symbols,
        dynamic: case.dynamic,
        filled: case.filled,
    };
    let mut parts = parts_with(alloc, case.text, &file)?;
    parts.entry = case.entry;
    Ok(parts)
}

fn elf_in(alloc: Global, case: &Case) -> Result<Elf, Refusal> {
    let parts = parts_in(alloc, case)?;
    Elf::read(alloc, make(alloc, &parts)?)
}

fn functions_in(alloc: Global, case: &Case) -> Result<Functions, Refusal> {
    let elf = elf_in(alloc, case)?;
    let relocs = Relocs::read(alloc, &elf)?;
    Functions::find(alloc, &elf, &relocs)
}

#[rattlefmt::skip]
static CASES: [Case; 39] = [
    Case { what: "two functions with a call", text: &TEXT, symbols: &SYMBOLS, sections: &[], dynamic: &[], filled: &[], entry: 0x1000, want: None },
    Case { what: "entered at the second", text: &TEXT, symbols: &SYMBOLS, sections: &[], dynamic: &[], filled: &[], entry: 0x1010, want: None },
    Case { what: "data", text: &TEXT, symbols: &SYMBOLS, sections: &[Given(b".data", 1, 3, 0x2000, &[0])], dynamic: &[], filled: &[], entry: 0x1000, want: None },
    Case { what: "a relocation", text: &TEXT, symbols: &SYMBOLS, sections: &[], dynamic: &[], filled: &[Filled(0x3000, 0, 0, 0)], entry: 0x1000, want: None },
    Case { what: "a C library that starts a function of two names", text: &TEXT, symbols: &[Named(b"first", FUNC, 1, 0x1000, 14), Named(b"main", FUNC, 1, 0x1000, 14)], sections: &[], dynamic: &STARTING, filled: &[], entry: 0x1000, want: None },
    Case { what: "a C library, with its entry in startup code that is no instruction", text: &HOSTED, symbols: &STARTED, sections: &[], dynamic: &BOTH, filled: &[], entry: 0x1004, want: None },
    Case { what: "the same without main", text: &HOSTED, symbols: &[Named(b"mine", FUNC, 1, 0x1000, 4), Named(b"_start", FUNC, 1, 0x1004, 1)], sections: &[], dynamic: &STARTING, filled: &[], entry: 0x1004, want: Some(Fault::BadInstruction(0x1004)) },
    Case { what: "main with a name of startup code", text: &HOSTED, symbols: &[Named(b"main", FUNC, 1, 0x1000, 4), Named(b"frame_dummy", FUNC, 1, 0x1000, 4)], sections: &[], dynamic: &STARTING, filled: &[], entry: 0x1000, want: Some(Fault::NoEntry) },
    Case { what: "startup code that overlaps main", text: &HOSTED, symbols: &[Named(b"main", FUNC, 1, 0x1000, 4), Named(b"_init", FUNC, 1, 0x1000, 5)], sections: &[], dynamic: &STARTING, filled: &[], entry: 0x1000, want: None },
    Case { what: "a constructor of a C library's startup code", text: &HOSTED, symbols: &STARTED, sections: &[Given(b".init_array", 14, 3, 0x2000, &[0; 8])], dynamic: &STARTING, filled: &[Filled(0x2000, 0, 8, 0x1004)], entry: 0x1004, want: None },
    Case { what: "the same and one word more", text: &HOSTED, symbols: &STARTED, sections: &[Given(b".init_array", 14, 3, 0x2000, &[0; 16])], dynamic: &STARTING, filled: &[Filled(0x2000, 0, 8, 0x1004)], entry: 0x1004, want: Some(Fault::Constructors(0x2008)) },
    Case { what: "a constructor that is main", text: &HOSTED, symbols: &STARTED, sections: &[Given(b".init_array", 14, 3, 0x2000, &[0; 8])], dynamic: &STARTING, filled: &[Filled(0x2000, 0, 8, 0x1000)], entry: 0x1004, want: Some(Fault::Constructors(0x2000)) },
    Case { what: "startup code as a constructor without a C library", text: &TEXT, symbols: &[Named(b"_init", FUNC, 1, 0x1000, 14), Named(b"second", FUNC, 1, 0x1010, 1)], sections: &[Given(b".init_array", 14, 3, 0x2000, &[0; 8])], dynamic: &[], filled: &[Filled(0x2000, 0, 8, 0x1000)], entry: 0x1000, want: Some(Fault::Constructors(0x2000)) },
    Case { what: "main without a C library", text: &TEXT, symbols: &[Named(b"main", FUNC, 1, 0x1000, 14), Named(b"second", FUNC, 1, 0x1010, 1)], sections: &[], dynamic: &PUTS, filled: &[], entry: 0x1000, want: None },
    Case { what: "no function", text: &TEXT, symbols: &[], sections: &[], dynamic: &[], filled: &[], entry: 0x1000, want: Some(Fault::NoEntry) },
    Case { what: "a function without bytes", text: &TEXT, symbols: &[Named(b"first", FUNC, 1, 0x1000, 0)], sections: &[], dynamic: &[], filled: &[], entry: 0x1000, want: Some(Fault::NoEntry) },
    Case { what: "entered inside a function", text: &TEXT, symbols: &SYMBOLS, sections: &[], dynamic: &[], filled: &[], entry: 0x1005, want: Some(Fault::NoEntry) },
    Case { what: "a function past its section", text: &TEXT, symbols: &[Named(b"first", FUNC, 1, 0x1000, 14), Named(b"second", FUNC, 1, 0x1010, 2)], sections: &[], dynamic: &[], filled: &[], entry: 0x1000, want: Some(Fault::Crosses(0x1010)) },
    Case { what: "a function before its section", text: &TEXT, symbols: &[Named(b"first", FUNC, 1, 0x0fff, 15)], sections: &[], dynamic: &[], filled: &[], entry: 0x0fff, want: Some(Fault::Crosses(0x0fff)) },
    Case { what: "a function whose end would wrap", text: &TEXT, symbols: &[Named(b"first", FUNC, 1, 0x1000, 0xffff_ffff_ffff_f008)], sections: &[], dynamic: &[], filled: &[], entry: 0x1000, want: Some(Fault::Crosses(0x1000)) },
    Case { what: "a function in another section than it says", text: &TEXT, symbols: &[Named(b"first", FUNC, 2, 0x1000, 14), Named(b"second", FUNC, 1, 0x1010, 1)], sections: &[Given(b".text.cold", 1, 6, 0x2000, &[0xc3])], dynamic: &[], filled: &[], entry: 0x1010, want: Some(Fault::Crosses(0x1000)) },
    Case { what: "a function that begins inside the one before it", text: &TEXT, symbols: &[Named(b"second", FUNC, 1, 0x1010, 1), Named(b"first", FUNC, 1, 0x1000, 17)], sections: &[], dynamic: &[], filled: &[], entry: 0x1000, want: Some(Fault::Crosses(0x1010)) },
    Case { what: "two functions with one start", text: &TEXT, symbols: &[Named(b"first", FUNC, 1, 0x1000, 14), Named(b"short", FUNC, 1, 0x1000, 5)], sections: &[], dynamic: &[], filled: &[], entry: 0x1005, want: Some(Fault::Crosses(0x1000)) },
    Case { what: "functions that touch", text: &TEXT, symbols: &[Named(b"rest", FUNC, 1, 0x1005, 9), Named(b"first", FUNC, 1, 0x1000, 5), Named(b"second", FUNC, 1, 0x1010, 1)], sections: &[], dynamic: &[], filled: &[], entry: 0x1005, want: None },
    Case { what: "an array of constructors", text: &TEXT, symbols: &SYMBOLS, sections: &[Given(b".init_array", 14, 3, 0x2000, &[0; 8])], dynamic: &[], filled: &[], entry: 0x1000, want: Some(Fault::Constructors(0x2000)) },
    Case { what: "less than a word of destructors", text: &TEXT, symbols: &SYMBOLS, sections: &[Given(b".fini_array", 15, 3, 0x2000, &[0; 7])], dynamic: &[], filled: &[], entry: 0x1000, want: None },
    Case { what: "the lower of two arrays", text: &TEXT, symbols: &SYMBOLS, sections: &[Given(b".fini_array", 15, 3, 0x3000, &[0; 8]), Given(b".preinit_array", 16, 3, 0x2000, &[0; 9])], dynamic: &[], filled: &[], entry: 0x1000, want: Some(Fault::Constructors(0x2000)) },
    Case { what: "an array that isn't loaded", text: &TEXT, symbols: &SYMBOLS, sections: &[Given(b".init_array", 14, 0, 0, &[0; 8])], dynamic: &[], filled: &[], entry: 0x1000, want: None },
    Case { what: "12 bytes of an array, and a word of startup code", text: &HOSTED, symbols: &STARTED, sections: &[Given(b".init_array", 14, 3, 0x2000, &[0; 12])], dynamic: &STARTING, filled: &[Filled(0x2000, 0, 8, 0x1004)], entry: 0, want: None },
    Case { what: "12 bytes of an array, and startup code at the last 8", text: &HOSTED, symbols: &STARTED, sections: &[Given(b".init_array", 14, 3, 0x2000, &[0; 12])], dynamic: &STARTING, filled: &[Filled(0x2004, 0, 8, 0x1004)], entry: 0, want: Some(Fault::Constructors(0x2000)) },
    Case { what: "12 bytes of an array without a C library", text: &TEXT, symbols: &SYMBOLS, sections: &[Given(b".init_array", 14, 3, 0x2000, &[0; 12])], dynamic: &[], filled: &[], entry: 0x1000, want: Some(Fault::Constructors(0x2000)) },
    Case { what: "7 bytes of an array, with a C library", text: &HOSTED, symbols: &STARTED, sections: &[Given(b".preinit_array", 16, 3, 0x2000, &[0; 7])], dynamic: &STARTING, filled: &[], entry: 0, want: None },
    Case { what: "main twice from one start", text: &TEXT, symbols: &[Named(b"main", FUNC, 1, 0x1000, 14), Named(b"main", FUNC, 1, 0x1000, 5)], sections: &[], dynamic: &STARTING, filled: &[], entry: 0, want: Some(Fault::Crosses(0x1000)) },
    Case { what: "main twice, the lower with a name of startup code", text: &TEXT, symbols: &[Named(b"main", FUNC, 1, 0x1010, 1), Named(b"main", FUNC, 1, 0x1000, 14), Named(b"_fini", FUNC, 1, 0x1000, 14)], sections: &[], dynamic: &STARTING, filled: &[], entry: 0x1010, want: Some(Fault::NoEntry) },
    Case { what: "a crossing before no entry", text: &TEXT, symbols: &[Named(b"first", FUNC, 1, 0x1000, 18)], sections: &[Given(b".init_array", 14, 3, 0x2000, &[0; 8])], dynamic: &[], filled: &[], entry: 0x1010, want: Some(Fault::Crosses(0x1000)) },
    Case { what: "no entry before constructors", text: &TEXT, symbols: &SYMBOLS, sections: &[Given(b".init_array", 14, 3, 0x2000, &[0; 8])], dynamic: &[], filled: &[], entry: 0x1005, want: Some(Fault::NoEntry) },
    Case { what: "no instruction in the second function", text: b"\xe8\x0b\0\0\0\xb8\x3c\0\0\0\x31\xff\x0f\x05\xcc\xcc\x06", symbols: &SYMBOLS, sections: &[], dynamic: &[], filled: &[], entry: 0x1000, want: Some(Fault::BadInstruction(0x1010)) },
    Case { what: "an instruction past the end of its function", text: &TEXT, symbols: &[Named(b"first", FUNC, 1, 0x1000, 13), Named(b"second", FUNC, 1, 0x1010, 1)], sections: &[], dynamic: &[], filled: &[], entry: 0x1000, want: Some(Fault::BadInstruction(0x100c)) },
    Case { what: "constructors before a bad instruction", text: b"\x06", symbols: &[Named(b"first", FUNC, 1, 0x1000, 1)], sections: &[Given(b".init_array", 14, 3, 0x2000, &[0; 8])], dynamic: &[], filled: &[], entry: 0x1000, want: Some(Fault::Constructors(0x2000)) },
];

#[test]
fn answers_the_first_fault(rt: HostRuntime) -> Result<(), Fail> {
    for case in &CASES {
        let refusal = functions_in(rt.alloc(), case).err();
        assert_eq!(rt; refusal, case.want.map(Refusal::Fault), "{}", case.what);
    }
    Ok(())
}

/// Three symbols of two ranges in two sections, the later section first.
#[rattlefmt::skip]
static SHOWN: Case = Case {
    what: "two sections",
    text: &TEXT,
    symbols: &[Named(b"cold", FUNC, 2, 0x0801, 1), Named(b"second", FUNC, 1, 0x1010, 1), Named(b"other", FUNC, 1, 0x1010, 1), Named(b"first", FUNC, 1, 0x1000, 14)],
    sections: &[Given(b".text.cold", 1, 6, 0x0800, &[0x06, 0x90, 0x06])],
    dynamic: &[],
    filled: &[],
    entry: 0x1000,
    want: None,
};

/// The addresses, lengths and functions of the points of that file.
#[rattlefmt::skip]
static POINTS: [(u64, u8, u32); 6] = [(0x0801, 1, 0), (0x1000, 5, 1), (0x1005, 5, 1), (0x100a, 2, 1), (0x100c, 2, 1), (0x1010, 1, 2)];

/// Its functions by address: where each lies, and its name.
#[rattlefmt::skip]
static RANGES: [(Span, &[u8]); 3] = [
    (Span { start: 0x0801, end: 0x0802 }, b"cold"),
    (Span { start: 0x1000, end: 0x100e }, b"first"),
    (Span { start: 0x1010, end: 0x1011 }, b"second"),
];

/// Whether a function of that file lies there and has that name.
fn has_function(alloc: Global, k: usize, span: &Span, name: &[u8]) -> Result<bool, Refusal> {
    let elf = elf_in(alloc, &SHOWN)?;
    let relocs = Relocs::read(alloc, &elf)?;
    let functions = Functions::find(alloc, &elf, &relocs)?;
    Ok(match functions.list().get(k) {
        Some(function) => function.span == *span && elf.name_of(function.name) == name,
        None => false,
    })
}

#[test]
fn shows_functions_by_address(rt: HostRuntime) -> Result<(), Fail> {
    for (k, (span, name)) in RANGES.iter().enumerate() {
        assert!(rt; has_function(rt.alloc(), k, span, *name)?, "{k}");
    }
    Ok(())
}

/// Whether an address is a point, the length of its instruction, and the number of the function there.
fn point_of(functions: &Functions, address: u64) -> (bool, Option<u8>, Option<u32>) {
    (
        functions.is_point(address),
        functions.insn_at(address).map(|found| found.1),
        functions.function_of(address),
    )
}

/// The same by the table.
fn wanted_point(address: u64) -> (bool, Option<u8>, Option<u32>) {
    let point = POINTS.iter().find(|point| point.0 == address);
    let around = POINTS.iter().find(|point| point.0 <= address
        && address - point.0 < u64::from(point.1));
    (
        point.is_some(),
        point.map(|point| point.1),
        around.map(|point| point.2),
    )
}

#[test]
fn finds_points_by_address(rt: HostRuntime) -> Result<(), Fail> {
    let functions = functions_in(rt.alloc(), &SHOWN)?;
    for address in 0x07f0..0x1020u64 {
        assert_eq!(rt;
            point_of(&functions, address),
            wanted_point(address),
            "{address}"
        );
    }
    assert_eq!(rt; point_of(&functions, u64::MAX), (false, None, None));
    let call = functions.insn_at(0x1000).map(|found| found.0);
    assert!(rt; matches!(call, Some(Insn::Call { .. })));
    Ok(())
}

/// A C library that starts `main`, with its entry in startup code that is no instruction.
static STARTED_FILE: Case = Case {
    what: "main",
    text: &HOSTED,
    symbols: &STARTED,
    sections: &[],
    dynamic: &BOTH,
    filled: &[],
    entry: 0x1004,
    want: None,
};

/// Two functions named main, the higher first in the table.
#[rattlefmt::skip]
static TWICE: Case = Case {
    what: "main twice",
    text: &TEXT,
    symbols: &[Named(b"main", FUNC, 1, 0x1010, 1), Named(b"main", FUNC, 1, 0x1000, 14)],
    sections: &[],
    dynamic: &STARTING,
    filled: &[],
    entry: 0x1010,
    want: None,
};

/// Whether a C library starts a file, its entry, and the number of its functions.
fn start_of(alloc: Global, case: &Case) -> Result<(bool, u64, usize), Refusal> {
    let functions = functions_in(alloc, case)?;
    Ok((
        functions.hosted(),
        functions.entry(),
        functions.list().len(),
    ))
}

#[test]
fn starts_at_the_entry_or_at_the_lower_main(rt: HostRuntime) -> Result<(), Fail> {
    assert_eq!(rt; start_of(rt.alloc(), &SHOWN)?, (false, 0x1000, 3));
    assert_eq!(rt; start_of(rt.alloc(), &STARTED_FILE)?, (true, 0x1000, 1));
    assert_eq!(rt; start_of(rt.alloc(), &TWICE)?, (true, 0x1000, 2));
    Ok(())
}

/// Whether the first code section of a file has these marks.
fn has_marks(alloc: Global, case: &Case, marks: &[u8]) -> Result<bool, Refusal> {
    let elf = elf_in(alloc, case)?;
    let relocs = Relocs::read(alloc, &elf)?;
    let functions = Functions::find(alloc, &elf, &relocs)?;
    Ok(!elf.code().is_empty() && functions.marks(0) == marks)
}

#[test]
fn shows_a_mark_for_each_byte(rt: HostRuntime) -> Result<(), Fail> {
    assert!(rt; has_marks(rt.alloc(), &STARTED_FILE, &[2, 0, 2, 0, 0])?);
    Ok(())
}

/// Why a file with one function, whose name has as many letters, is refused, if it is.
fn refusal_of_name(alloc: Global, letters: usize) -> Result<Option<Refusal>, Refusal> {
    let file = File {
        sections: &[],
        symbols: &[Named(b"", FUNC, 1, 0x1000, 1)],
        dynamic: &[],
        filled: &[],
    };
    let mut parts = parts_with(alloc, &[0xc3], &file)?;
    if let Some(symbol) = parts.symbols.get_mut(0) {
        symbol.name.resize(letters, b'f')?;
    }
    Ok(Elf::read(alloc, make(alloc, &parts)?).err())
}

/// The names of the only function stand behind 64 bytes of header, 8 of code and 48 of symbols, and a zero byte.
static NAME_LENGTHS: [(usize, Option<Fault>); 4] = [
    (0, Some(Fault::BadString(121))),
    (1, None),
    (4096, None),
    (4097, Some(Fault::BadString(121))),
];

#[test]
fn refuses_names_of_more_than_4096_bytes(rt: HostRuntime) -> Result<(), Fail> {
    for (letters, want) in &NAME_LENGTHS {
        let refusal = refusal_of_name(rt.alloc(), *letters)?;
        assert_eq!(rt; refusal, want.map(Refusal::Fault), "{letters}");
    }
    Ok(())
}
