//! A small file with one relocation table, and what is read where its entries or its headers differ.
use crate::files::{File, Filled, Given, Named, parts_of, put};
use rw_base::{Fault, Refusal};
use rw_elf::Elf;
use rw_make::{Parts, make};
use rw_reloc::{Relocs, Slot, Target};
use std::alloc::{AllocError, Global};
use std::test::Fail;

/// The contents of `.rodata` are a relocation entry of type 38 at 0x3000.
#[rattlefmt::skip]
static SECTIONS: [Given; 5] = [
    Given(b".text", 1, 6, 0x1000, &[0xcc; 16]),
    Given(b".rodata", 1, 2, 0x2000, b"\0\x30\0\0\0\0\0\0\x26\0\0\0\0\0\0\0\0\0\0\0\0\0\0\0"),
    Given(b".data", 1, 3, 0x3000, &[0; 64]),
    Given(b".bss", 8, 3, 0x4000, &[0; 32]),
    Given(b".got.plt", 1, 3, 0x5000, &[0; 24]),
];

#[rattlefmt::skip]
static SYMBOLS: [Named; 16] = [
    Named(b"puts", 2, 0, 0, 0),
    Named(b"stdout", 1, 4, 0x4000, 8),
    Named(b"table", 1, 2, 0x2008, 8),
    Named(b"local", 6, 0, 0, 0),
    Named(b"chosen", 10, 1, 0x1000, 16),
    Named(b"a-b", 2, 0, 0, 0),
    Named(b"1st", 2, 0, 0, 0),
    Named(b"$1", 2, 0, 0, 0),
    Named(b".Ls0", 2, 0, 0, 0),
    Named(b"main", 2, 0, 0, 0),
    Named(b"__retro_counts", 1, 4, 0x4000, 8),
    Named(b"", 1, 2, 0x2000, 0),
    Named(b"environ", 1, 4, 0x4010, 16),
    Named(b"_start", 2, 1, 0x1000, 16),
    Named(b"big", 1, 4, 0x4000, 33),
    Named(b"none", 1, 4, 0x4000, 0),
];

/// The place of a field: the index of a section, an offset in its header, and the width in bytes.
pub(crate) struct Patch(
    pub(crate) u64,
    pub(crate) u64,
    pub(crate) usize,
    pub(crate) u64,
);

/// Where the header of a section says of which type it is, its flags, size, link and size of an entry.
pub(crate) const TYPE: u64 = 4;

pub(crate) const FLAGS: u64 = 8;

pub(crate) const SIZE: u64 = 32;

pub(crate) const LINK: u64 = 40;

pub(crate) const ENTSIZE: u64 = 56;

/// The index of `.rodata`, and that of the relocation table.
const RODATA: u64 = 2;

const RELA: u64 = 8;

/// The file of some parts with dynamic symbols, and some fields of its section headers changed.
pub(crate) fn patched(
    alloc: Global,
    parts: &Parts,
    patches: &[Patch],
) -> Result<Vec<u8>, AllocError> {
    let mut bytes = make(alloc, parts)?;
    let count = (parts.sections.len() as u64).saturating_add(7);
    let headers = (bytes.len() as u64).saturating_sub(count.saturating_mul(64));
    for Patch(section, field, width, value) in patches {
        let at = headers
            .saturating_add(section.saturating_mul(64))
            .saturating_add(*field);
        put(&mut bytes, at as usize, *width, *value);
    }
    Ok(bytes)
}

/// The file with these entries, and some fields of its section headers changed.
fn file_of(alloc: Global, filled: &[Filled], patches: &[Patch]) -> Result<Vec<u8>, AllocError> {
    let file = File {
        sections: &SECTIONS,
        symbols: &[],
        dynamic: &SYMBOLS,
        filled,
    };
    patched(alloc, &parts_of(alloc, &file)?, patches)
}

/// Why the relocations of a file are refused, if they are.
pub(crate) fn refusal_of(alloc: Global, bytes: Vec<u8>) -> Result<Option<Refusal>, Refusal> {
    let elf = Elf::read(alloc, bytes)?;
    Ok(Relocs::read(alloc, &elf).err())
}

pub(crate) fn relocs_of(alloc: Global, bytes: Vec<u8>) -> Result<Relocs, Refusal> {
    let elf = Elf::read(alloc, bytes)?;
    Relocs::read(alloc, &elf)
}

/// Some entries and changes, and the fault that is then the first, or none.
struct Case {
    what: &'static str,
    filled: &'static [Filled],
    patches: &'static [Patch],
    want: Option<Fault>,
}

#[rattlefmt::skip]
static CASES: [Case; 49] = [
    Case { what: "no entry", filled: &[], patches: &[], want: None },
    Case { what: "entries of 16 bytes in an empty table", filled: &[], patches: &[Patch(RELA, ENTSIZE, 8, 16)], want: Some(Fault::BadHeader(1384)) },
    Case { what: "23 bytes of an entry", filled: &[Filled(0x3000, 0, 8, 0)], patches: &[Patch(RELA, SIZE, 8, 23)], want: Some(Fault::BadHeader(1384)) },
    Case { what: "entries of 16 bytes, and 23 bytes of them", filled: &[Filled(0x3000, 0, 8, 0)], patches: &[Patch(RELA, ENTSIZE, 8, 16), Patch(RELA, SIZE, 8, 23)], want: Some(Fault::BadHeader(1408)) },
    Case { what: "REL", filled: &[Filled(0x3000, 0, 8, 0)], patches: &[Patch(RELA, TYPE, 4, 9)], want: Some(Fault::UnknownReloc(0x1000_01f8, 0)) },
    Case { what: "RELR with entries of 24 bytes", filled: &[Filled(0x3000, 0, 8, 0)], patches: &[Patch(RELA, TYPE, 4, 19)], want: Some(Fault::BadHeader(1408)) },
    Case { what: "an empty RELR with entries of 24 bytes", filled: &[], patches: &[Patch(RELA, TYPE, 4, 19)], want: Some(Fault::BadHeader(1384)) },
    Case { what: "RELR of 23 bytes", filled: &[Filled(0x3000, 0, 8, 0)], patches: &[Patch(RELA, TYPE, 4, 19), Patch(RELA, ENTSIZE, 8, 8), Patch(RELA, SIZE, 8, 23)], want: Some(Fault::BadHeader(1384)) },
    Case { what: "an empty RELR", filled: &[], patches: &[Patch(RELA, TYPE, 4, 19), Patch(RELA, ENTSIZE, 8, 8)], want: None },
    Case { what: "RELR that isn't loaded", filled: &[Filled(3, 0, 8, 0)], patches: &[Patch(RELA, TYPE, 4, 19), Patch(RELA, FLAGS, 8, 0)], want: None },
    Case { what: "an empty REL", filled: &[], patches: &[Patch(RELA, TYPE, 4, 9), Patch(RELA, ENTSIZE, 8, 16)], want: None },
    Case { what: "a table that is not loaded", filled: &[Filled(0x3000, 0, 37, 0)], patches: &[Patch(RELA, FLAGS, 8, 0), Patch(RELA, ENTSIZE, 8, 16)], want: None },
    Case { what: "type 37", filled: &[Filled(0x3000, 0, 37, 0)], patches: &[], want: Some(Fault::UnknownReloc(0x3000, 37)) },
    Case { what: "type 0 at no place", filled: &[Filled(0x9000, 99, 0, 0)], patches: &[], want: None },
    Case { what: "the lower offset first", filled: &[Filled(0x3008, 0, 38, 0), Filled(0x3000, 0, 37, 0)], patches: &[], want: Some(Fault::UnknownReloc(0x3000, 37)) },
    Case { what: "the first of two at one offset", filled: &[Filled(0x3000, 0, 39, 0), Filled(0x3000, 0, 37, 0)], patches: &[], want: Some(Fault::UnknownReloc(0x3000, 39)) },
    Case { what: "the table of the lower index first", filled: &[Filled(0x3000, 0, 37, 0)], patches: &[Patch(RODATA, TYPE, 4, 4), Patch(RODATA, ENTSIZE, 8, 24)], want: Some(Fault::UnknownReloc(0x3000, 38)) },
    Case { what: "a table without symbols", filled: &[Filled(0x3000, 1, 1, 0)], patches: &[Patch(RELA, LINK, 4, 7)], want: Some(Fault::UnknownReloc(0x3000, 1)) },
    Case { what: "a table that links to no section", filled: &[Filled(0x3000, 1, 6, 0)], patches: &[Patch(RELA, LINK, 4, 12)], want: Some(Fault::UnknownReloc(0x3000, 6)) },
    Case { what: "RELATIVE in a table without symbols", filled: &[Filled(0x3000, 99, 8, 0)], patches: &[Patch(RELA, LINK, 4, 7)], want: None },
    Case { what: "symbol 0", filled: &[Filled(0x3000, 0, 1, 0)], patches: &[], want: Some(Fault::UnknownReloc(0x3000, 1)) },
    Case { what: "a symbol past the table", filled: &[Filled(0x3000, 17, 7, 0)], patches: &[], want: Some(Fault::UnknownReloc(0x3000, 7)) },
    Case { what: "a thread-local symbol", filled: &[Filled(0x3000, 4, 1, 0)], patches: &[], want: Some(Fault::UnknownReloc(0x3000, 1)) },
    Case { what: "a symbol of type GNU_IFUNC", filled: &[Filled(0x3000, 5, 6, 0)], patches: &[], want: Some(Fault::UnknownReloc(0x3000, 6)) },
    Case { what: "an imported address that is moved", filled: &[Filled(0x3000, 1, 1, 1)], patches: &[], want: Some(Fault::UnknownReloc(0x3000, 1)) },
    Case { what: "a moved import of a bad name", filled: &[Filled(0x3000, 6, 1, 1)], patches: &[], want: Some(Fault::UnknownReloc(0x3000, 1)) },
    Case { what: "a GLOB_DAT with an addend", filled: &[Filled(0x3000, 1, 6, 1)], patches: &[], want: None },
    Case { what: "an import with a hyphen, at a bad place", filled: &[Filled(0x9000, 6, 1, 0)], patches: &[], want: Some(Fault::BadString(632)) },
    Case { what: "an import that begins with a digit", filled: &[Filled(0x3000, 7, 6, 0)], patches: &[], want: Some(Fault::BadString(636)) },
    Case { what: "an import that begins with a dollar sign", filled: &[Filled(0x3000, 8, 6, 0)], patches: &[], want: Some(Fault::BadString(640)) },
    Case { what: "an import that begins as a label", filled: &[Filled(0x3000, 9, 7, 0)], patches: &[], want: Some(Fault::BadString(643)) },
    Case { what: "an import named main", filled: &[Filled(0x3000, 10, 7, 0)], patches: &[], want: Some(Fault::BadString(648)) },
    Case { what: "a copy of the counters", filled: &[Filled(0x4000, 11, 5, 0)], patches: &[], want: Some(Fault::BadString(653)) },
    Case { what: "a copy named _start", filled: &[Filled(0x4000, 14, 5, 0)], patches: &[], want: Some(Fault::BadString(677)) },
    Case { what: "a copy without a name", filled: &[Filled(0x4000, 12, 5, 0)], patches: &[], want: Some(Fault::BadString(668)) },
    Case { what: "a defined symbol without a name", filled: &[Filled(0x3000, 12, 1, 8)], patches: &[], want: None },
    Case { what: "a place outside all sections", filled: &[Filled(0x3040, 0, 8, 0)], patches: &[], want: Some(Fault::BadRelocPlace(0x3040)) },
    Case { what: "a place at the end", filled: &[Filled(0x3038, 0, 8, 0)], patches: &[], want: None },
    Case { what: "a place past the end", filled: &[Filled(0x3039, 0, 8, 0)], patches: &[], want: Some(Fault::BadRelocPlace(0x3039)) },
    Case { what: "a place that would wrap", filled: &[Filled(0xffff_ffff_ffff_fffc, 0, 8, 0)], patches: &[], want: Some(Fault::BadRelocPlace(0xffff_ffff_ffff_fffc)) },
    Case { what: "a place in constant data", filled: &[Filled(0x2000, 0, 8, 0)], patches: &[], want: Some(Fault::BadRelocPlace(0x2000)) },
    Case { what: "a place without bytes in the file", filled: &[Filled(0x4000, 0, 8, 0)], patches: &[], want: Some(Fault::BadRelocPlace(0x4000)) },
    Case { what: "a copy of 33 bytes to 32", filled: &[Filled(0x4000, 15, 5, 0)], patches: &[], want: Some(Fault::BadRelocPlace(0x4000)) },
    Case { what: "a copy of no bytes", filled: &[Filled(0x4000, 16, 5, 0)], patches: &[], want: Some(Fault::BadRelocPlace(0x4000)) },
    Case { what: "a copy to data", filled: &[Filled(0x3000, 2, 5, 0)], patches: &[], want: None },
    Case { what: "a copy to a section that is not kept", filled: &[Filled(0x5000, 2, 5, 0)], patches: &[], want: Some(Fault::BadRelocPlace(0x5000)) },
    Case { what: "places that touch", filled: &[Filled(0x3008, 0, 8, 0), Filled(0x3000, 0, 8, 0)], patches: &[], want: None },
    Case { what: "places that overlap", filled: &[Filled(0x3007, 0, 8, 0), Filled(0x3000, 0, 8, 0)], patches: &[], want: Some(Fault::BadRelocPlace(0x3007)) },
    Case { what: "a copy that overlaps another", filled: &[Filled(0x4008, 2, 5, 0), Filled(0x4000, 13, 5, 0)], patches: &[], want: Some(Fault::BadRelocPlace(0x4008)) },
];

fn refusal_in(alloc: Global, case: &Case) -> Result<Option<Refusal>, Refusal> {
    refusal_of(alloc, file_of(alloc, case.filled, case.patches)?)
}

#[test]
fn answers_the_first_fault(rt: HostRuntime) -> Result<(), Fail> {
    for case in &CASES {
        let refusal = refusal_in(rt.alloc(), case)?;
        assert_eq!(rt; refusal, case.want.map(Refusal::Fault), "{}", case.what);
    }
    Ok(())
}

#[rattlefmt::skip]
static FILLED: [Filled; 11] = [
    Filled(0x3010, 0, 8, 0x2000),
    Filled(0x3000, 1, 1, 0),
    Filled(0x5000, 1, 6, 7),
    Filled(0x3008, 3, 1, 4),
    Filled(0x5010, 3, 7, 9),
    Filled(0x3020, 77, 0, 5),
    Filled(0x3018, 3, 6, 9),
    Filled(0x5008, 1, 7, 0),
    Filled(0x4010, 13, 5, 0),
    Filled(0x3028, 3, 1, 0xffff_ffff_ffff_dff7),
    Filled(0x4000, 2, 5, 0),
];

#[rattlefmt::skip]
static SLOTS: [Slot; 10] = [
    Slot { address: 0x3000, kind: 1, target: Target::Import(1), kept: true },
    Slot { address: 0x3008, kind: 1, target: Target::To(0x200c), kept: true },
    Slot { address: 0x3010, kind: 8, target: Target::To(0x2000), kept: true },
    Slot { address: 0x3018, kind: 6, target: Target::To(0x2008), kept: true },
    Slot { address: 0x3028, kind: 1, target: Target::To(0xffff_ffff_ffff_ffff), kept: true },
    Slot { address: 0x4000, kind: 5, target: Target::Copy(2, 8), kept: true },
    Slot { address: 0x4010, kind: 5, target: Target::Copy(13, 16), kept: true },
    Slot { address: 0x5000, kind: 6, target: Target::Import(1), kept: false },
    Slot { address: 0x5008, kind: 7, target: Target::Import(1), kept: false },
    Slot { address: 0x5010, kind: 7, target: Target::To(0x2008), kept: false },
];

fn shown(alloc: Global) -> Result<Relocs, Refusal> {
    relocs_of(alloc, file_of(alloc, &FILLED, &[])?)
}

#[test]
fn shows_the_slots(rt: HostRuntime) -> Result<(), Fail> {
    let relocs = shown(rt.alloc())?;
    assert!(rt; relocs.slots() == SLOTS.as_slice());
    for slot in &SLOTS {
        let found = (
            relocs.slot_at(slot.address),
            relocs.slot_at(slot.address ^ 1),
        );
        assert_eq!(rt; found, (Some(*slot), None), "{}", slot.address);
    }
    Ok(())
}
