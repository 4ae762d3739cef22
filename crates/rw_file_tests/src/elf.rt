//! A small file, and what is shown of it and refused when some of its fields are changed.
use crate::files::{FUNC, File, Given, Named, parts_of, put};
use rw_base::{Fault, Refusal};
use rw_elf::{Elf, Section, Symbol};
use rw_make::make;
use std::alloc::{AllocError, Global};
use std::test::Fail;

/// `exit(0)`, as a function `_start` at 0x1000; some data, and an undefined symbol `puts`.
#[rattlefmt::skip]
static GOOD: File = File {
    sections: &[
        Given(b".text", 1, 6, 0x1000, b"\xb8\x3c\0\0\0\x31\xff\x0f\x05"),
        Given(b".rodata", 1, 2, 0x2000, b"\x01\x02\x03\x04\x07\0\0\0"),
        Given(b".data", 1, 3, 0x3000, &[0; 8]),
        Given(b".bss", 8, 3, 0x4000, &[0; 16]),
    ],
    symbols: &[Named(b"_start", FUNC, 1, 0x1000, 9)],
    dynamic: &[Named(b"puts", FUNC, 0, 0, 0)],
    filled: &[],
};

// Where the header of each section begins.
const TEXT: usize = 352;

const RODATA: usize = 416;

const DATA: usize = 480;

const BSS: usize = 544;

const DYNSYM: usize = 608;

const DYNSTR: usize = 672;

const SYMTAB: usize = 800;

const STRTAB: usize = 864;

const SHSTRTAB: usize = 928;

fn good_file(alloc: Global) -> Result<Vec<u8>, AllocError> {
    make(alloc, &parts_of(alloc, &GOOD)?)
}

/// The place of a field, its width in bytes, and the number that it gets.
struct Patch(usize, usize, u64);

/// The good file cut or filled with the letter `a` up to a length, with some of its fields changed.
fn patched(alloc: Global, len: usize, patches: &[Patch]) -> Result<Vec<u8>, AllocError> {
    let mut bytes = good_file(alloc)?;
    bytes.resize(len, b'a')?;
    for Patch(at, width, value) in patches {
        put(&mut bytes, *at, *width, *value);
    }
    Ok(bytes)
}

/// What is changed, and the fault that is then the first, or none.
struct Case {
    what: &'static str,
    len: usize,
    patches: &'static [Patch],
    want: Option<Fault>,
}

#[rattlefmt::skip]
static CASES: [Case; 65] = [
    Case { what: "no byte", len: 0, patches: &[], want: Some(Fault::Truncated(0)) },
    Case { what: "63 bytes", len: 63, patches: &[], want: Some(Fault::Truncated(0)) },
    Case { what: "64 bytes", len: 64, patches: &[], want: Some(Fault::Truncated(288)) },
    Case { what: "16,777,216 bytes", len: 16777216, patches: &[], want: None },
    Case { what: "16,777,217 bytes", len: 16777217, patches: &[Patch(4, 1, 1)], want: Some(Fault::TooLarge(16_777_217)) },
    Case { what: "class 1", len: 992, patches: &[Patch(4, 1, 1)], want: Some(Fault::NotElf64(4)) },
    Case { what: "class 1 and order 2", len: 992, patches: &[Patch(5, 1, 2), Patch(4, 1, 1)], want: Some(Fault::NotElf64(4)) },
    Case { what: "e_type 2", len: 992, patches: &[Patch(16, 2, 2)], want: Some(Fault::NotPositionIndependent(2)) },
    Case { what: "e_machine 183 and e_type 2", len: 992, patches: &[Patch(18, 2, 183), Patch(16, 2, 2)], want: Some(Fault::NotPositionIndependent(2)) },
    Case { what: "e_machine 183", len: 992, patches: &[Patch(18, 2, 183)], want: Some(Fault::WrongMachine(183)) },
    Case { what: "e_version 2", len: 992, patches: &[Patch(20, 4, 2)], want: Some(Fault::BadHeader(20)) },
    Case { what: "e_ehsize 63", len: 992, patches: &[Patch(52, 2, 63)], want: Some(Fault::BadHeader(52)) },
    Case { what: "e_shentsize 56", len: 992, patches: &[Patch(58, 2, 56)], want: Some(Fault::BadHeader(58)) },
    Case { what: "e_shnum 0", len: 992, patches: &[Patch(60, 2, 0)], want: Some(Fault::BadHeader(60)) },
    Case { what: "e_shnum 65280", len: 992, patches: &[Patch(60, 2, 65280)], want: Some(Fault::BadHeader(60)) },
    Case { what: "e_shnum 65279", len: 992, patches: &[Patch(60, 2, 65279)], want: Some(Fault::Truncated(288)) },
    Case { what: "e_shstrndx 0", len: 992, patches: &[Patch(62, 2, 0)], want: Some(Fault::BadHeader(62)) },
    Case { what: "e_shstrndx at e_shnum", len: 992, patches: &[Patch(62, 2, 11)], want: Some(Fault::BadHeader(62)) },
    Case { what: "section headers past the end", len: 992, patches: &[Patch(40, 8, 289)], want: Some(Fault::Truncated(289)) },
    Case { what: "e_shoff that wraps", len: 992, patches: &[Patch(40, 8, 0xffff_ffff_ffff_ffc0)], want: Some(Fault::Truncated(0xffff_ffff_ffff_ffc0)) },
    Case { what: "section names in no string table", len: 992, patches: &[Patch(62, 2, 1)], want: Some(Fault::BadSection(1)) },
    Case { what: "section names past the end", len: 992, patches: &[Patch(SHSTRTAB + 32, 8, 785)], want: Some(Fault::Truncated(208)) },
    Case { what: "section names that wrap", len: 992, patches: &[Patch(SHSTRTAB + 32, 8, 0xffff_ffff_ffff_ff30)], want: Some(Fault::Truncated(208)) },
    Case { what: "a section name without an end", len: 992, patches: &[Patch(SHSTRTAB + 32, 8, 77)], want: Some(Fault::BadString(276)) },
    Case { what: "a section name past its table", len: 992, patches: &[Patch(TEXT, 4, 0xffff_ffff)], want: Some(Fault::BadString(4_294_967_503)) },
    Case { what: "section 0 allocated", len: 992, patches: &[Patch(296, 8, 7), Patch(320, 8, 4096)], want: None },
    Case { what: "thread-local data before writable code", len: 992, patches: &[Patch(RODATA + 8, 8, 0x402), Patch(DATA + 8, 8, 7)], want: Some(Fault::ThreadLocal(2)) },
    Case { what: "writable code", len: 992, patches: &[Patch(TEXT + 8, 8, 7)], want: Some(Fault::WritableCode(1)) },
    Case { what: "alignment 0", len: 992, patches: &[Patch(TEXT + 48, 8, 0)], want: None },
    Case { what: "alignment 24", len: 992, patches: &[Patch(TEXT + 48, 8, 24), Patch(TEXT + 16, 8, 0x1800)], want: Some(Fault::BadSection(1)) },
    Case { what: "alignment 65536", len: 992, patches: &[Patch(TEXT + 48, 8, 65536), Patch(TEXT + 16, 8, 0x10000)], want: None },
    Case { what: "alignment 131072", len: 992, patches: &[Patch(TEXT + 48, 8, 131072), Patch(TEXT + 16, 8, 0x20000)], want: Some(Fault::BadSection(1)) },
    Case { what: "an address off its alignment", len: 992, patches: &[Patch(TEXT + 16, 8, 0x1008)], want: Some(Fault::BadSection(1)) },
    Case { what: "a section up to 2^47", len: 992, patches: &[Patch(RODATA + 48, 8, 8), Patch(RODATA + 16, 8, 0x7fff_ffff_fff8)], want: None },
    Case { what: "a section past 2^47", len: 992, patches: &[Patch(RODATA + 48, 8, 1), Patch(RODATA + 16, 8, 0x7fff_ffff_fff9)], want: Some(Fault::BadSection(2)) },
    Case { what: "sh_addr that wraps", len: 992, patches: &[Patch(RODATA + 48, 8, 8), Patch(RODATA + 16, 8, 0xffff_ffff_ffff_fff8)], want: Some(Fault::BadSection(2)) },
    Case { what: "contents up to the end", len: 992, patches: &[Patch(RODATA + 24, 8, 984)], want: None },
    Case { what: "contents past the end", len: 992, patches: &[Patch(RODATA + 24, 8, 985)], want: Some(Fault::Truncated(985)) },
    Case { what: "sh_offset that wraps", len: 992, patches: &[Patch(RODATA + 24, 8, 0xffff_ffff_ffff_fff8)], want: Some(Fault::Truncated(0xffff_ffff_ffff_fff8)) },
    Case { what: "sections that touch", len: 992, patches: &[Patch(RODATA + 16, 8, 0x1009), Patch(RODATA + 48, 8, 1)], want: None },
    Case { what: "sections that overlap", len: 992, patches: &[Patch(RODATA + 16, 8, 0x1008), Patch(RODATA + 48, 8, 1)], want: Some(Fault::Overlap(0x1008)) },
    Case { what: "kept sections of 2^30 bytes", len: 992, patches: &[Patch(BSS + 32, 8, 0x3fff_fff0), Patch(BSS + 16, 8, 0x2000_0000)], want: None },
    Case { what: "kept sections of more bytes", len: 992, patches: &[Patch(BSS + 32, 8, 0x3fff_fff1), Patch(BSS + 16, 8, 0x2000_0000)], want: Some(Fault::BadSection(4)) },
    Case { what: "code of 2^24 bytes", len: 8388800, patches: &[Patch(TEXT + 32, 8, 8_388_608), Patch(RODATA + 32, 8, 8_388_608), Patch(RODATA + 8, 8, 6), Patch(RODATA + 16, 8, 0x2000_0000), Patch(TEXT + 16, 8, 0x4000_0000)], want: None },
    Case { what: "code of more bytes", len: 8388800, patches: &[Patch(TEXT + 32, 8, 8_388_608), Patch(RODATA + 32, 8, 8_388_609), Patch(RODATA + 8, 8, 6), Patch(RODATA + 16, 8, 0x2000_0000), Patch(TEXT + 16, 8, 0x4000_0000)], want: Some(Fault::BadSection(1)) },
    Case { what: "no SYMTAB", len: 992, patches: &[Patch(SYMTAB + 4, 4, 1)], want: Some(Fault::Stripped) },
    Case { what: "a second SYMTAB", len: 992, patches: &[Patch(DYNSYM + 4, 4, 2)], want: Some(Fault::BadSection(8)) },
    Case { what: "a second DYNSYM", len: 992, patches: &[Patch(DYNSTR + 4, 4, 11)], want: Some(Fault::BadSection(6)) },
    Case { what: "entries of 16 bytes, and 47 bytes of them", len: 992, patches: &[Patch(SYMTAB + 56, 8, 16), Patch(SYMTAB + 32, 8, 47)], want: Some(Fault::BadHeader(856)) },
    Case { what: "SYMTAB of 47 bytes, and a bad DYNSYM", len: 992, patches: &[Patch(SYMTAB + 32, 8, 47), Patch(DYNSYM + 56, 8, 16)], want: Some(Fault::BadHeader(832)) },
    Case { what: "SYMTAB past the end, and a bad DYNSYM", len: 992, patches: &[Patch(SYMTAB + 24, 8, 945), Patch(DYNSYM + 56, 8, 16)], want: Some(Fault::Truncated(945)) },
    Case { what: "symbol names in no string table", len: 992, patches: &[Patch(SYMTAB + 40, 4, 1)], want: Some(Fault::BadSection(8)) },
    Case { what: "symbol names in section 0", len: 992, patches: &[Patch(SYMTAB + 40, 4, 0), Patch(292, 4, 3)], want: Some(Fault::BadSection(8)) },
    Case { what: "symbol names in section e_shnum", len: 992, patches: &[Patch(SYMTAB + 40, 4, 11)], want: Some(Fault::BadSection(8)) },
    Case { what: "symbol names past the end", len: 992, patches: &[Patch(STRTAB + 32, 8, 793)], want: Some(Fault::Truncated(200)) },
    Case { what: "DYNSYM of entries of 16 bytes, and a bad symbol", len: 992, patches: &[Patch(DYNSYM + 56, 8, 16), Patch(182, 2, 11)], want: Some(Fault::BadHeader(664)) },
    Case { what: "DYNSYM with names in no string table", len: 992, patches: &[Patch(DYNSYM + 40, 4, 1)], want: Some(Fault::BadSection(5)) },
    Case { what: "st_shndx at e_shnum, and no name", len: 992, patches: &[Patch(182, 2, 11), Patch(176, 4, 0)], want: Some(Fault::BadSection(11)) },
    Case { what: "st_shndx 65280, and no name", len: 992, patches: &[Patch(182, 2, 65280), Patch(176, 4, 0)], want: None },
    Case { what: "st_shndx 0, and no name", len: 992, patches: &[Patch(182, 2, 0), Patch(176, 4, 0)], want: None },
    Case { what: "no name", len: 992, patches: &[Patch(176, 4, 0)], want: Some(Fault::BadString(200)) },
    Case { what: "a name with a blank", len: 992, patches: &[Patch(203, 1, 0x20)], want: Some(Fault::BadString(201)) },
    Case { what: "a name without an end", len: 992, patches: &[Patch(207, 1, 0x61)], want: Some(Fault::BadString(201)) },
    Case { what: "a name of 4,096 bytes", len: 5089, patches: &[Patch(STRTAB + 24, 8, 991), Patch(STRTAB + 32, 8, 4098), Patch(5088, 1, 0)], want: None },
    Case { what: "a name of 4,097 bytes", len: 5090, patches: &[Patch(STRTAB + 24, 8, 991), Patch(STRTAB + 32, 8, 4099), Patch(5089, 1, 0)], want: Some(Fault::BadString(992)) },
];

fn read_patched(alloc: Global, len: usize, patches: &[Patch]) -> Result<Elf, Refusal> {
    Elf::read(alloc, patched(alloc, len, patches)?)
}

#[test]
fn answers_the_first_fault(rt: HostRuntime) -> Result<(), Fail> {
    for case in &CASES {
        let fault = read_patched(rt.alloc(), case.len, case.patches).err();
        assert_eq!(rt; fault, case.want.map(Refusal::Fault), "{}", case.what);
    }
    Ok(())
}

fn good(alloc: Global) -> Result<Elf, Refusal> {
    Elf::read(alloc, good_file(alloc)?)
}

/// The index, address, size and contents of a section.
struct Shown(u32, u64, u64, &'static [u8]);

static CODE: [Shown; 1] = [Shown(1, 0x1000, 9, b"\xb8\x3c\0\0\0\x31\xff\x0f\x05")];

#[rattlefmt::skip]
static DATA_KEPT: [Shown; 3] = [
    Shown(2, 0x2000, 8, b"\x01\x02\x03\x04\x07\0\0\0"),
    Shown(3, 0x3000, 8, &[0; 8]),
    Shown(4, 0x4000, 16, &[]),
];

fn is_shown(elf: &Elf, section: &Section, shown: &Shown) -> bool {
    (section.index, section.addr, section.size) == (shown.0, shown.1, shown.2)
        && elf.section_bytes(section) == shown.3
}

fn are_shown(elf: &Elf, sections: &[Section], list: &[Shown]) -> bool {
    sections.len() == list.len()
        && sections
            .iter()
            .zip(list)
            .all(|(section, shown)| is_shown(elf, section, shown))
}

#[test]
fn shows_sections(rt: HostRuntime) -> Result<(), Fail> {
    let elf = good(rt.alloc())?;
    assert_eq!(rt; (elf.entry(), elf.sections().len()), (0x1000, 11));
    assert!(rt; are_shown(&elf, elf.code(), &CODE) && are_shown(&elf, elf.kept(), &DATA_KEPT));
    Ok(())
}

fn keeps_its_bytes(alloc: Global) -> Result<bool, Refusal> {
    let bytes = good_file(alloc)?;
    let elf = good(alloc)?;
    Ok(elf.file() == bytes.as_slice())
}

#[test]
fn shows_the_bytes(rt: HostRuntime) -> Result<(), Fail> {
    assert!(rt; keeps_its_bytes(rt.alloc())?);
    Ok(())
}

/// The name of a symbol of the one table or the other.
fn symbol_name(elf: &Elf, dynamic: bool, k: usize) -> &[u8] {
    let symbols = if dynamic {
        elf.dynamic_symbols()
    } else {
        elf.symbols()
    };
    match symbols.get(k) {
        Some(symbol) => elf.name_of(symbol.name),
        None => &[],
    }
}

/// Binding, type, section, value and size of a symbol.
fn numbers_of(symbol: &Symbol) -> (u8, u8, u16, u64, u64) {
    (
        symbol.bind,
        symbol.sort,
        symbol.section,
        symbol.value,
        symbol.size,
    )
}

#[test]
fn shows_symbols(rt: HostRuntime) -> Result<(), Fail> {
    let elf = good(rt.alloc())?;
    let counts = (elf.symbols().len(), elf.dynamic_symbols().len());
    assert_eq!(rt; counts, (2, 2));
    let start = elf.symbols().get(1).map(numbers_of);
    assert_eq!(rt; start, Some((1, 2, 1, 0x1000, 9)));
    let names = (symbol_name(&elf, false, 1), symbol_name(&elf, true, 1));
    assert!(rt; names == (b"_start".as_slice(), b"puts".as_slice()));
    Ok(())
}

/// An address and a length, and the bytes that stand there.
struct Range(u64, u64, Option<&'static [u8]>);

static RANGES: [Range; 9] = [
    Range(0x1000, 2, Some(b"\xb8\x3c")),
    Range(0x1005, 4, Some(b"\x31\xff\x0f\x05")),
    Range(0x1005, 5, None),
    Range(0x1000, u64::MAX, None),
    Range(0x1008, 0, Some(b"")),
    Range(0x1009, 0, None),
    Range(0x0fff, 2, None),
    Range(0x2004, 1, Some(b"\x07")),
    Range(0x4000, 1, None),
];

#[test]
fn reads_by_address(rt: HostRuntime) -> Result<(), Fail> {
    let elf = good(rt.alloc())?;
    for Range(address, len, want) in &RANGES {
        assert!(rt;
            elf.bytes_at(*address, *len) == *want,
            "at {address}, {len}"
        );
    }
    Ok(())
}

/// An address, the index of the section around it, the number of the kept section around it, and that of the one that ends at it.
struct Around(u64, Option<u32>, Option<u32>, Option<u32>);

/// `.rodata` has 8 bytes at 0x2000, `.data` 8 behind them, and `.bss` 16 at 0x4000; `.text` has 9 at 0x1000.
#[rattlefmt::skip]
static AROUND: [Around; 12] = [
    Around(0, None, None, None),
    Around(0x1000, Some(1), None, None),
    Around(0x1009, None, None, None),
    Around(0x1fff, None, None, None),
    Around(0x2000, Some(2), Some(0), None),
    Around(0x2007, Some(2), Some(0), None),
    Around(0x2008, Some(3), Some(1), Some(0)),
    Around(0x2010, None, None, Some(1)),
    Around(0x4000, Some(4), Some(2), None),
    Around(0x400f, Some(4), Some(2), None),
    Around(0x4010, None, None, Some(2)),
    Around(u64::MAX, None, None, None),
];

/// Puts `.data` directly behind `.rodata`.
static TOUCHING: [Patch; 2] = [Patch(DATA + 16, 8, 0x2008), Patch(DATA + 48, 8, 8)];

fn sections_at(elf: &Elf, address: u64) -> (Option<u32>, Option<u32>, Option<u32>) {
    (
        elf.section_around(address).map(|section| section.index),
        elf.kept_around(address),
        elf.kept_ending(address),
    )
}

#[test]
fn finds_sections_by_address(rt: HostRuntime) -> Result<(), Fail> {
    let elf = read_patched(rt.alloc(), 992, &TOUCHING)?;
    for Around(address, section, kept, ending) in &AROUND {
        assert_eq!(rt;
            sections_at(&elf, *address),
            (*section, *kept, *ending),
            "{address}"
        );
    }
    Ok(())
}
