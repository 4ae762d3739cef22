//! A small file with a table in compact form and one of type `SHT_RELA`, and what is read where their numbers differ.
use crate::files::{File, Filled, Given, Named, parts_of};
use crate::reloc::{Patch, patched, refusal_of, relocs_of};
use rw_base::{Fault, Refusal};
use rw_make::{PartSection, Parts};
use rw_reloc::{Relocs, Slot, Target};
use std::alloc::{AllocError, Global};
use std::test::Fail;

#[rattlefmt::skip]
static SECTIONS: [Given; 4] = [
    Given(b".text", 1, 6, 0x1000, &[0xcc; 16]),
    Given(b".data", 1, 3, 0x3000, &[0; 528]),
    Given(b".rodata", 1, 2, 0x2000, &[0; 8]),
    Given(b".bss", 8, 3, 0x4000, &[0; 32]),
];

#[rattlefmt::skip]
static SYMBOLS: [Named; 3] = [
    Named(b"environ", 1, 4, 0x4000, 8),
    Named(b"huge", 1, 4, 0x4000, u64::MAX),
    Named(b"puts", 2, 0, 0, 0),
];

/// The words of `.data` that aren't 0: its place there, and its number.
static WORDS: [(usize, u64); 5] = [
    (0, 0x3008),
    (1, 9),
    (2, 0x1000),
    (63, u64::MAX),
    (64, 0x7fff_ffff_ffff),
];

/// The place of the numbers in the file.
const NUMBERS: u64 = 64 + 16 + 528 + 8;

fn words_of(alloc: Global) -> Result<Vec<u8>, AllocError> {
    let mut bytes = Vec::new(alloc);
    for place in 0..66usize {
        let known = WORDS.iter().find(|word| word.0 == place);
        let number = known.map_or(0, |word| word.1);
        bytes.extend_from_slice(&number.to_le_bytes())?;
    }
    Ok(bytes)
}

fn parts_with(alloc: Global, filled: &[Filled]) -> Result<Parts, AllocError> {
    let file = File {
        sections: &SECTIONS,
        symbols: &[],
        dynamic: &SYMBOLS,
        filled,
    };
    parts_of(alloc, &file)
}

/// The file with these numbers in a table of type `SHT_RELR`, and these entries in one of type `SHT_RELA`.
fn file_of(
    alloc: Global,
    numbers: &[u64],
    filled: &[Filled],
    patches: &[Patch],
) -> Result<Vec<u8>, AllocError> {
    let mut parts = parts_with(alloc, filled)?;
    if let Some(data) = parts.sections.get_mut(1) {
        data.bytes = words_of(alloc)?;
    }
    let mut bytes = Vec::new(alloc);
    for number in numbers {
        bytes.extend_from_slice(&number.to_le_bytes())?;
    }
    parts.sections.push(PartSection {
        name: Vec::from_slice(alloc, b".relr.dyn")?,
        kind: 19,
        flags: 2,
        addr: 0x6000,
        bytes,
        size: 0,
    })?;
    patched(alloc, &parts, patches)
}

/// Some numbers, entries and changes, and the fault that is then the first.
struct Case {
    what: &'static str,
    numbers: &'static [u64],
    filled: &'static [Filled],
    patches: &'static [Patch],
    want: Fault,
}

#[rattlefmt::skip]
static CASES: [Case; 19] = [
    Case { what: "a bitmap first", numbers: &[3], filled: &[], patches: &[], want: Fault::BadHeader(NUMBERS) },
    Case { what: "a bitmap of no words first", numbers: &[1, 0x3000], filled: &[], patches: &[], want: Fault::BadHeader(NUMBERS) },
    Case { what: "an address of 2^47", numbers: &[0x3000, 0x8000_0000_0000], filled: &[], patches: &[], want: Fault::BadHeader(NUMBERS + 8) },
    Case { what: "the greatest even number", numbers: &[0x3000, 0x3008, 0xffff_ffff_ffff_fffe], filled: &[], patches: &[], want: Fault::BadHeader(NUMBERS + 16) },
    Case { what: "the highest address", numbers: &[0x7fff_ffff_fffe], filled: &[], patches: &[], want: Fault::BadRelocPlace(0x7fff_ffff_fffe) },
    Case { what: "a bitmap up to 2^47", numbers: &[0x7fff_ffff_fff8, 3], filled: &[], patches: &[], want: Fault::BadHeader(NUMBERS + 8) },
    Case { what: "a bitmap below 2^47", numbers: &[0x7fff_ffff_fff0, 3], filled: &[], patches: &[], want: Fault::BadRelocPlace(0x7fff_ffff_fff0) },
    Case { what: "a second bitmap up to 2^47", numbers: &[0x7fff_ffff_fe00, 1, 3], filled: &[], patches: &[], want: Fault::BadHeader(NUMBERS + 16) },
    Case { what: "a bitmap of no words above all addresses", numbers: &[0x7fff_ffff_fff8, 1, 1], filled: &[], patches: &[], want: Fault::BadRelocPlace(0x7fff_ffff_fff8) },
    Case { what: "a bad number behind a word at no place", numbers: &[0x9000, 0x8000_0000_0000], filled: &[], patches: &[], want: Fault::BadHeader(NUMBERS + 8) },
    Case { what: "a word twice", numbers: &[0x3000, 0x3000], filled: &[], patches: &[], want: Fault::BadRelocPlace(0x3000) },
    Case { what: "words that overlap", numbers: &[0x3000, 0x3004], filled: &[], patches: &[], want: Fault::BadRelocPlace(0x3004) },
    Case { what: "words of two tables that overlap", numbers: &[0x3006], filled: &[Filled(0x3000, 0, 8, 0)], patches: &[], want: Fault::BadRelocPlace(0x3006) },
    Case { what: "a word in constant data", numbers: &[0x2000], filled: &[], patches: &[], want: Fault::BadRelocPlace(0x2000) },
    Case { what: "a word without bytes in the file", numbers: &[0x3000, 0x4000], filled: &[], patches: &[], want: Fault::BadRelocPlace(0x4000) },
    Case { what: "a word past its section", numbers: &[0x320a], filled: &[], patches: &[], want: Fault::BadRelocPlace(0x320a) },
    Case { what: "a copy of 2^64 - 1 bytes", numbers: &[], filled: &[Filled(0x4000, 2, 5, 0)], patches: &[], want: Fault::BadRelocPlace(0x4000) },
    Case { what: "a word at a copy that ends there", numbers: &[0x4008], filled: &[Filled(0x4000, 1, 5, 0)], patches: &[], want: Fault::BadRelocPlace(0x4008) },
    Case { what: "a bad entry at a lower place", numbers: &[0x4000], filled: &[Filled(0x3000, 0, 37, 0)], patches: &[], want: Fault::UnknownReloc(0x3000, 37) },
];

fn refusal_in(alloc: Global, case: &Case) -> Result<Option<Refusal>, Refusal> {
    let bytes = file_of(alloc, case.numbers, case.filled, case.patches)?;
    refusal_of(alloc, bytes)
}

#[test]
fn answers_the_first_fault_of_compact_tables(rt: HostRuntime) -> Result<(), Fail> {
    for case in &CASES {
        let refusal = refusal_in(rt.alloc(), case)?;
        assert_eq!(rt; refusal, Some(Refusal::Fault(case.want)), "{}", case.what);
    }
    Ok(())
}

/// Some numbers, and the words that they name, with the targets that stand there.
struct Shown {
    what: &'static str,
    numbers: &'static [u64],
    filled: &'static [Filled],
    words: &'static [(u64, u64)],
}

#[rattlefmt::skip]
static SHOWN: [Shown; 9] = [
    Shown { what: "no number", numbers: &[], filled: &[], words: &[] },
    Shown { what: "an address", numbers: &[0x3000], filled: &[], words: &[(0x3000, 0x3008)] },
    Shown { what: "a bitmap behind an address", numbers: &[0x3000, 3], filled: &[], words: &[(0x3000, 0x3008), (0x3008, 9)] },
    Shown { what: "the third word of a bitmap", numbers: &[0x3000, 9], filled: &[], words: &[(0x3000, 0x3008), (0x3018, 0)] },
    Shown { what: "the last word of a bitmap, and the first of the next", numbers: &[0x3000, 0x8000_0000_0000_0001, 3], filled: &[], words: &[(0x3000, 0x3008), (0x31f8, u64::MAX), (0x3200, 0x7fff_ffff_ffff)] },
    Shown { what: "a bitmap of no words", numbers: &[0x3000, 1, 3], filled: &[], words: &[(0x3000, 0x3008), (0x3200, 0x7fff_ffff_ffff)] },
    Shown { what: "an address behind a bitmap", numbers: &[0x3200, 1, 0x3000, 3], filled: &[], words: &[(0x3000, 0x3008), (0x3008, 9), (0x3200, 0x7fff_ffff_ffff)] },
    Shown { what: "an even address that isn't a multiple of 8", numbers: &[0x3002, 3], filled: &[], words: &[(0x3002, 0x0009_0000_0000_0000), (0x300a, 0x1000_0000_0000_0000)] },
    Shown { what: "a table of each form", numbers: &[0x3000, 5], filled: &[Filled(0x3008, 0, 8, 7)], words: &[(0x3000, 0x3008), (0x3008, 7), (0x3010, 0x1000)] },
];

fn relocs_in(alloc: Global, numbers: &[u64], filled: &[Filled]) -> Result<Relocs, Refusal> {
    relocs_of(alloc, file_of(alloc, numbers, filled, &[])?)
}

fn is_word(slot: &Slot, word: (u64, u64)) -> bool {
    *slot
        == Slot {
            address: word.0,
            kind: 8,
            target: Target::To(word.1),
            kept: true,
        }
}

fn are_words(slots: &[Slot], words: &[(u64, u64)]) -> bool {
    slots.len() == words.len()
        && slots
            .iter()
            .zip(words)
            .all(|(slot, word)| is_word(slot, *word))
}

#[test]
fn shows_the_words_that_compact_tables_name(rt: HostRuntime) -> Result<(), Fail> {
    for shown in &SHOWN {
        let relocs = relocs_in(rt.alloc(), shown.numbers, shown.filled)?;
        assert!(rt; are_words(relocs.slots(), shown.words), "{}", shown.what);
    }
    Ok(())
}

/// An address, the place of the slot around it, and the number of the copy around it.
struct Around {
    address: u64,
    slot: Option<u64>,
    copy: Option<usize>,
}

#[rattlefmt::skip]
static AROUND: [Around; 12] = [
    Around { address: 0x2fff, slot: None, copy: None },
    Around { address: 0x3000, slot: Some(0x3000), copy: None },
    Around { address: 0x3007, slot: Some(0x3000), copy: None },
    Around { address: 0x3008, slot: Some(0x3008), copy: None },
    Around { address: 0x3010, slot: None, copy: None },
    Around { address: 0x4000, slot: Some(0x4000), copy: Some(0) },
    Around { address: 0x4007, slot: Some(0x4000), copy: Some(0) },
    Around { address: 0x4008, slot: None, copy: None },
    Around { address: 0x4010, slot: Some(0x4010), copy: Some(1) },
    Around { address: 0x4017, slot: Some(0x4010), copy: Some(1) },
    Around { address: 0x4018, slot: None, copy: None },
    Around { address: u64::MAX, slot: None, copy: None },
];

#[rattlefmt::skip]
static COPIES: [Filled; 2] = [
    Filled(0x4010, 1, 5, 0),
    Filled(0x4000, 1, 5, 0),
];

fn places_around(relocs: &Relocs, address: u64) -> (Option<u64>, Option<usize>) {
    (
        relocs.slot_around(address).map(|slot| slot.address),
        relocs.copy_around(address),
    )
}

#[test]
fn finds_slots_and_copies_around_addresses(rt: HostRuntime) -> Result<(), Fail> {
    let relocs = relocs_in(rt.alloc(), &[0x3000, 3], &COPIES)?;
    assert_eq!(rt; relocs.copies().len(), 2);
    for Around {
        address,
        slot,
        copy,
    } in &AROUND {
        assert_eq!(rt;
            places_around(&relocs, *address),
            (*slot, *copy),
            "{address}"
        );
    }
    Ok(())
}

/// Why a file is refused that imports a symbol whose name has as many letters, if it is.
fn refusal_of_name(alloc: Global, letters: usize) -> Result<Option<Refusal>, Refusal> {
    let filled = [Filled(0x3000, 3, 6, 0)];
    let mut parts = parts_with(alloc, &filled)?;
    if let Some(symbol) = parts.dynamic.get_mut(2) {
        symbol.name.clear();
        symbol.name.resize(letters, b'f')?;
    }
    refusal_of(alloc, patched(alloc, &parts, &[])?)
}

/// The name stands behind the sections' 616 bytes, 96 bytes of symbols, a zero byte and two names.
static NAME_LENGTHS: [(usize, Option<Fault>); 4] = [
    (0, Some(Fault::BadString(726))),
    (1, None),
    (4096, None),
    (4097, Some(Fault::BadString(726))),
];

#[test]
fn refuses_imports_of_more_than_4096_bytes(rt: HostRuntime) -> Result<(), Fail> {
    for (letters, want) in &NAME_LENGTHS {
        let refusal = refusal_of_name(rt.alloc(), *letters)?;
        assert_eq!(rt; refusal, want.map(Refusal::Fault), "{letters}");
    }
    Ok(())
}
