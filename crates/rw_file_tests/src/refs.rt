//! Small files, and what their addresses stand for.
use crate::files::{
    COPY, FUNC, File, Filled, GLOB_DAT, Given, JUMP_SLOT, Named, R_64, RELATIVE, parts_started,
    section_of,
};
use rw_base::{Fault, Refusal};
use rw_elf::Elf;
use rw_funcs::Functions;
use rw_make::{Parts, make};
use rw_refs::{check_code, check_slots, ref_at, stub_at, target_at};
use rw_reloc::Relocs;
use rw_words::Atom;
use std::alloc::{AllocError, Global};
use std::test::Fail;

/// The dynamic symbols of each file: imports with the numbers 1 and 2, one that `.text` defines, and two that are copied.
#[rattlefmt::skip]
static DYNAMIC: [Named; 5] = [
    Named(b"puts", FUNC, 0, 0, 0),
    Named(b"exit", FUNC, 0, 0, 0),
    Named(b"table", FUNC, 1, 0x1000, 0),
    Named(b"stdout", FUNC, 1, 0x4008, 8),
    Named(b"environ", FUNC, 1, 0x4010, 12),
];

/// The parts of a file with this code at 0x1000, all of which is the function `_start`.
fn parts_in(
    alloc: Global,
    text: &[u8],
    sections: &[Given],
    filled: &[Filled],
) -> Result<Parts, AllocError> {
    let file = File {
        sections,
        symbols: &[],
        dynamic: &DYNAMIC,
        filled,
    };
    parts_started(alloc, text, &file)
}

/// `ud2`.
const UD2: &[u8] = b"\x0f\x0b";

/// Slots above the stubs, below them, and at a distance from 0x1106 that has bit 31.
#[rattlefmt::skip]
static SLOTS: [Given; 3] = [
    Given(b".got", 1, 3, 0x3000, &[0; 16]),
    Given(b".low", 1, 3, 0x0800, &[0; 16]),
    Given(b".far", 1, 3, 0x8000_2000, &[0; 16]),
];

/// The name, type and contents of a section at 0x1100, the slots, and the import of the stub at an address.
struct Stub {
    what: &'static str,
    name: &'static [u8],
    kind: u32,
    code: &'static [u8],
    filled: &'static [Filled],
    at: u64,
    want: Option<u32>,
}

#[rattlefmt::skip]
static STUBS: [Stub; 27] = [
    Stub { what: "endbr64 and bnd", name: b".plt.sec", kind: 1, code: b"\xf3\x0f\x1e\xfa\xf2\xff\x25\xf5\x1e\0\0\x0f\x1f\x44\0\0", filled: &[Filled(0x3000, 1, JUMP_SLOT, 0)], at: 0x1100, want: Some(1) },
    Stub { what: "the same behind endbr64", name: b".plt.sec", kind: 1, code: b"\xf3\x0f\x1e\xfa\xf2\xff\x25\xf5\x1e\0\0", filled: &[Filled(0x3000, 1, JUMP_SLOT, 0)], at: 0x1104, want: Some(1) },
    Stub { what: "inside endbr64", name: b".plt.sec", kind: 1, code: b"\xf3\x0f\x1e\xfa\xf2\xff\x25\xf5\x1e\0\0", filled: &[Filled(0x3000, 1, JUMP_SLOT, 0)], at: 0x1101, want: None },
    Stub { what: "endbr64 alone", name: b".plt", kind: 1, code: b"\xf3\x0f\x1e\xfa\xff\x25\xf6\x1e\0\0", filled: &[Filled(0x3000, 2, JUMP_SLOT, 0)], at: 0x1100, want: Some(2) },
    Stub { what: "bnd alone", name: b".plt.got", kind: 1, code: b"\xf2\xff\x25\xf9\x1e\0\0", filled: &[Filled(0x3000, 1, GLOB_DAT, 0)], at: 0x1100, want: Some(1) },
    Stub { what: "the jump alone, up to the end of its section", name: b".plt", kind: 1, code: b"\xff\x25\xfa\x1e\0\0", filled: &[Filled(0x3000, 1, JUMP_SLOT, 0)], at: 0x1100, want: Some(1) },
    Stub { what: "cut by its section's end", name: b".plt", kind: 1, code: b"\xff\x25\xfa\x1e\0", filled: &[Filled(0x3000, 1, JUMP_SLOT, 0)], at: 0x1100, want: None },
    Stub { what: "cut behind endbr64", name: b".plt", kind: 1, code: b"\xf3\x0f\x1e\xfa\xff\x25\xf6\x1e\0", filled: &[Filled(0x3000, 1, JUMP_SLOT, 0)], at: 0x1100, want: None },
    Stub { what: "bnd before endbr64", name: b".plt", kind: 1, code: b"\xf2\xf3\x0f\x1e\xfa\xff\x25\xf5\x1e\0\0", filled: &[Filled(0x3000, 1, JUMP_SLOT, 0)], at: 0x1100, want: None },
    Stub { what: "bnd twice", name: b".plt", kind: 1, code: b"\xf2\xf2\xff\x25\xf8\x1e\0\0", filled: &[Filled(0x3000, 1, JUMP_SLOT, 0)], at: 0x1100, want: None },
    Stub { what: "a call", name: b".plt", kind: 1, code: b"\xff\x15\xfa\x1e\0\0", filled: &[Filled(0x3000, 1, JUMP_SLOT, 0)], at: 0x1100, want: None },
    Stub { what: "behind its section", name: b".plt", kind: 1, code: b"\xff\x25\xfa\x1e\0\0", filled: &[Filled(0x3000, 1, JUMP_SLOT, 0)], at: 0x1106, want: None },
    Stub { what: "a section of another name", name: b".plt.abc", kind: 1, code: b"\xff\x25\xfa\x1e\0\0", filled: &[Filled(0x3000, 1, JUMP_SLOT, 0)], at: 0x1100, want: None },
    Stub { what: "startup code", name: b".init", kind: 1, code: b"\xff\x25\xfa\x1e\0\0", filled: &[Filled(0x3000, 1, JUMP_SLOT, 0)], at: 0x1100, want: None },
    Stub { what: "a section without bytes in the file", name: b".plt", kind: 8, code: b"\xff\x25\xfa\x1e\0\0", filled: &[Filled(0x3000, 1, JUMP_SLOT, 0)], at: 0x1100, want: None },
    Stub { what: "no slot", name: b".plt", kind: 1, code: b"\xff\x25\xfa\x1e\0\0", filled: &[], at: 0x1100, want: None },
    Stub { what: "inside a slot", name: b".plt", kind: 1, code: b"\xff\x25\xfb\x1e\0\0", filled: &[Filled(0x3000, 1, JUMP_SLOT, 0)], at: 0x1100, want: None },
    Stub { what: "a slot of type R_X86_64_64", name: b".plt", kind: 1, code: b"\xff\x25\xfa\x1e\0\0", filled: &[Filled(0x3000, 1, R_64, 0), Filled(0x3008, 2, GLOB_DAT, 0)], at: 0x1100, want: None },
    Stub { what: "one of type R_X86_64_GLOB_DAT beside it", name: b".plt", kind: 1, code: b"\xff\x25\x02\x1f\0\0", filled: &[Filled(0x3000, 1, R_64, 0), Filled(0x3008, 2, GLOB_DAT, 0)], at: 0x1100, want: Some(2) },
    Stub { what: "a symbol of the file", name: b".plt", kind: 1, code: b"\xff\x25\xfa\x1e\0\0", filled: &[Filled(0x3000, 3, JUMP_SLOT, 0)], at: 0x1100, want: None },
    Stub { what: "an address of the file", name: b".plt", kind: 1, code: b"\xff\x25\xfa\x1e\0\0", filled: &[Filled(0x3000, 0, RELATIVE, 0x1000)], at: 0x1100, want: None },
    Stub { what: "a negative displacement", name: b".plt", kind: 1, code: b"\xff\x25\xfa\xf6\xff\xff", filled: &[Filled(0x0800, 1, JUMP_SLOT, 0)], at: 0x1100, want: Some(1) },
    Stub { what: "a displacement that wraps", name: b".plt", kind: 1, code: b"\xff\x25\xfa\x0e\0\x80", filled: &[Filled(0x8000_2000, 1, JUMP_SLOT, 0)], at: 0x1100, want: None },
    Stub { what: "an address of no section", name: b".plt", kind: 1, code: b"\xff\x25\xfa\x1e\0\0", filled: &[Filled(0x3000, 1, JUMP_SLOT, 0)], at: u64::MAX, want: None },
    Stub { what: "a second stub", name: b".plt.sec", kind: 1, code: b"\xff\x25\xfa\x1e\0\0\xff\x25\xfc\x1e\0\0", filled: &[Filled(0x3000, 1, JUMP_SLOT, 0), Filled(0x3008, 2, JUMP_SLOT, 0)], at: 0x1106, want: Some(2) },
    Stub { what: "an address of code", name: b".plt", kind: 1, code: b"\xff\x25\xfa\x1e\0\0", filled: &[Filled(0x3000, 1, JUMP_SLOT, 0)], at: 0x1000, want: None },
    Stub { what: "the first byte alone", name: b".plt", kind: 1, code: b"\xff", filled: &[Filled(0x3000, 1, JUMP_SLOT, 0)], at: 0x1100, want: None },
];

fn stub_in(alloc: Global, case: &Stub) -> Result<Option<u32>, Refusal> {
    let mut parts = parts_in(alloc, UD2, &SLOTS, case.filled)?;
    let plt = Given(case.name, case.kind, 6, 0x1100, case.code);
    parts.sections.push(section_of(alloc, &plt)?)?;
    let elf = Elf::read(alloc, make(alloc, &parts)?)?;
    let relocs = Relocs::read(alloc, &elf)?;
    Ok(stub_at(&elf, &relocs, case.at))
}

#[test]
fn finds_stubs(rt: HostRuntime) -> Result<(), Fail> {
    for case in &STUBS {
        let stub = stub_in(rt.alloc(), case)?;
        assert_eq!(rt; stub, case.want, "{}", case.what);
    }
    Ok(())
}

/// Data before the code, and behind it in two sections that touch; a stub with its slot; sections that are left out; and zeros with
/// two copies that touch.
#[rattlefmt::skip]
static DATA: [Given; 8] = [
    Given(b".rodata", 1, 2, 0x0ff0, &[0; 16]),
    Given(b".plt.sec", 1, 6, 0x1100, b"\xff\x25\xfa\x1e\0\0"),
    Given(b".data", 1, 3, 0x2000, &[0; 16]),
    Given(b".data.more", 1, 3, 0x2010, &[0; 8]),
    Given(b".got", 1, 3, 0x3000, &[0; 8]),
    Given(b".got.plt", 1, 3, 0x3100, &[0; 16]),
    Given(b".interp", 1, 2, 0x3200, &[0; 16]),
    Given(b".bss", 8, 3, 0x4000, &[0; 32]),
];

#[rattlefmt::skip]
static COPIED: [Filled; 3] = [Filled(0x3000, 1, JUMP_SLOT, 0), Filled(0x4008, 4, COPY, 0), Filled(0x4010, 5, COPY, 0)];

/// `xorl %edi, %edi`, `ud2`.
const CODE: &[u8] = b"\x31\xff\x0f\x0b";

/// An address, its reference, and what it is as the target of a jump.
struct Meant(u64, Option<Atom>, Option<Atom>);

#[rattlefmt::skip]
static MEANT: [Meant; 32] = [
    Meant(0, None, None),
    Meant(0x0fef, None, None),
    Meant(0x0ff0, Some(Atom::Ptr(0, 0)), None),
    Meant(0x0fff, Some(Atom::Ptr(0, 15)), None),
    Meant(0x1000, Some(Atom::Ptr(0, 16)), Some(Atom::Code(0x1000))),
    Meant(0x1001, None, None),
    Meant(0x1002, Some(Atom::Code(0x1002)), Some(Atom::Code(0x1002))),
    Meant(0x1004, None, None),
    Meant(0x1100, Some(Atom::Import(1)), Some(Atom::Import(1))),
    Meant(0x1101, None, None),
    Meant(0x2000, Some(Atom::Ptr(1, 0)), None),
    Meant(0x200f, Some(Atom::Ptr(1, 15)), None),
    Meant(0x2010, Some(Atom::Ptr(2, 0)), None),
    Meant(0x2017, Some(Atom::Ptr(2, 7)), None),
    Meant(0x2018, Some(Atom::Ptr(2, 8)), None),
    Meant(0x2019, None, None),
    Meant(0x3000, Some(Atom::Ptr(3, 0)), None),
    Meant(0x3008, Some(Atom::Ptr(3, 8)), None),
    Meant(0x3100, None, None),
    Meant(0x3110, None, None),
    Meant(0x3200, None, None),
    Meant(0x4000, Some(Atom::Ptr(4, 0)), None),
    Meant(0x4007, Some(Atom::Ptr(4, 7)), None),
    Meant(0x4008, Some(Atom::Ptr(5, 0)), None),
    Meant(0x400f, Some(Atom::Ptr(5, 7)), None),
    Meant(0x4010, Some(Atom::Ptr(6, 0)), None),
    Meant(0x401b, Some(Atom::Ptr(6, 11)), None),
    Meant(0x401c, Some(Atom::Ptr(4, 28)), None),
    Meant(0x4020, Some(Atom::Ptr(4, 32)), None),
    Meant(0x4021, None, None),
    Meant(1 << 47, None, None),
    Meant(u64::MAX, None, None),
];

fn meant_at(alloc: Global, address: u64) -> Result<(Option<Atom>, Option<Atom>), Refusal> {
    let parts = parts_in(alloc, CODE, &DATA, &COPIED)?;
    let elf = Elf::read(alloc, make(alloc, &parts)?)?;
    let relocs = Relocs::read(alloc, &elf)?;
    let functions = Functions::find(alloc, &elf, &relocs)?;
    Ok((
        ref_at(&elf, &relocs, &functions, address),
        target_at(&elf, &relocs, &functions, address),
    ))
}

#[test]
fn tells_what_addresses_stand_for(rt: HostRuntime) -> Result<(), Fail> {
    for Meant(address, reference, target) in &MEANT {
        let meant = meant_at(rt.alloc(), *address)?;
        assert_eq!(rt; meant, (*reference, *target), "{address}");
    }
    Ok(())
}

/// Code, further sections and relocations, and the first fault of what the code and then the slots refer to.
struct Case {
    what: &'static str,
    text: &'static [u8],
    sections: &'static [Given],
    filled: &'static [Filled],
    want: Option<Fault>,
}

fn fault_of(alloc: Global, case: &Case) -> Result<Option<Fault>, Refusal> {
    let parts = parts_in(alloc, case.text, case.sections, case.filled)?;
    let elf = Elf::read(alloc, make(alloc, &parts)?)?;
    let relocs = Relocs::read(alloc, &elf)?;
    let functions = Functions::find(alloc, &elf, &relocs)?;
    let code = check_code(&elf, &relocs, &functions);
    let slots = check_slots(&elf, &relocs, &functions);
    Ok(code.and(slots).err())
}

/// `leaq 0x2010(%rip), %rax` with the address of the operand, and `ud2`.
const LEA: &[u8] = b"\x48\x8d\x05\x09\x10\0\0\x0f\x0b";

#[rattlefmt::skip]
static CASES: [Case; 27] = [
    Case { what: "the start of a section that ends another", text: LEA, sections: &[Given(b".rodata", 1, 2, 0x2000, &[0; 16]), Given(b".rodata.more", 1, 2, 0x2010, &[0; 16])], filled: &[], want: None },
    Case { what: "the end of a section", text: LEA, sections: &[Given(b".rodata", 1, 2, 0x2000, &[0; 16])], filled: &[], want: None },
    Case { what: "an address behind a section", text: LEA, sections: &[Given(b".rodata", 1, 2, 0x2000, &[0; 8])], filled: &[], want: Some(Fault::BadReference(0x1000)) },
    Case { what: "a section that is left out", text: LEA, sections: &[Given(b".interp", 1, 2, 0x2010, &[0; 8])], filled: &[], want: Some(Fault::BadReference(0x1000)) },
    Case { what: "slots of stubs", text: LEA, sections: &[Given(b".got.plt", 1, 3, 0x2010, &[0; 8])], filled: &[], want: Some(Fault::BadReference(0x1000)) },
    Case { what: "an address of the canary", text: b"\x64\x48\x8b\x04\x25\x28\0\0\0\x0f\x0b", sections: &[], filled: &[], want: None },
    Case { what: "a call of a point", text: b"\xe8\x0b\0\0\0\x90\x90\x90\x90\x90\x90\x90\x90\x90\x90\x90\x31\xff\xb8\x3c\0\0\0\x0f\x05", sections: &[], filled: &[], want: None },
    Case { what: "a jump into itself", text: b"\xeb\xff", sections: &[], filled: &[], want: Some(Fault::BadTarget(0x1000)) },
    Case { what: "a jump on condition into another instruction", text: b"\x74\x01\x31\xff\x0f\x0b", sections: &[], filled: &[], want: Some(Fault::BadTarget(0x1000)) },
    Case { what: "a call behind the function", text: b"\xe8\0\0\0\0", sections: &[], filled: &[], want: Some(Fault::BadTarget(0x1000)) },
    Case { what: "a call of a stub", text: b"\xe8\xfb\0\0\0\x0f\x0b", sections: &[Given(b".plt", 1, 6, 0x1100, b"\xff\x25\xfa\x1e\0\0"), Given(b".got", 1, 3, 0x3000, &[0; 8])], filled: &[Filled(0x3000, 1, JUMP_SLOT, 0)], want: None },
    Case { what: "a call of a stub without an import", text: b"\xe8\xfb\0\0\0\x0f\x0b", sections: &[Given(b".plt", 1, 6, 0x1100, b"\xff\x25\xfa\x1e\0\0"), Given(b".got", 1, 3, 0x3000, &[0; 8])], filled: &[Filled(0x3000, 1, R_64, 0)], want: Some(Fault::BadTarget(0x1000)) },
    Case { what: "the address of a stub", text: b"\x48\x8d\x05\xf9\0\0\0\x0f\x0b", sections: &[Given(b".plt", 1, 6, 0x1100, b"\xff\x25\xfa\x1e\0\0"), Given(b".got", 1, 3, 0x3000, &[0; 8])], filled: &[Filled(0x3000, 1, JUMP_SLOT, 0)], want: None },
    Case { what: "a call of data", text: b"\xe8\xfb\x0f\0\0\x0f\x0b", sections: &[Given(b".data", 1, 3, 0x2000, &[0; 8])], filled: &[], want: Some(Fault::BadTarget(0x1000)) },
    Case { what: "a call of a section's end", text: b"\xe8\x0b\x10\0\0\x0f\x0b", sections: &[Given(b".data", 1, 3, 0x2000, &[0; 16])], filled: &[], want: Some(Fault::BadTarget(0x1000)) },
    Case { what: "a jump to a point at a section's end", text: b"\xeb\xfe", sections: &[Given(b".data", 1, 3, 0x0ff0, &[0; 16])], filled: &[], want: None },
    Case { what: "the address of a point at a section's end", text: b"\x48\x8d\x05\xf9\xff\xff\xff\x0f\x0b", sections: &[Given(b".data", 1, 3, 0x0ff0, &[0; 16])], filled: &[], want: None },
    Case { what: "the first of two points", text: b"\x48\x8d\x05\0\0\0\x10\xeb\xff", sections: &[], filled: &[], want: Some(Fault::BadReference(0x1000)) },
    Case { what: "code before data", text: b"\xeb\xff", sections: &[Given(b".data", 1, 3, 0x3000, &[0; 16])], filled: &[Filled(0x3000, 0, RELATIVE, 0x9000)], want: Some(Fault::BadTarget(0x1000)) },
    Case { what: "a slot with an address of its section", text: UD2, sections: &[Given(b".data", 1, 3, 0x3000, &[0; 16])], filled: &[Filled(0x3000, 0, RELATIVE, 0x3008)], want: None },
    Case { what: "a slot with the end of its section", text: UD2, sections: &[Given(b".data", 1, 3, 0x3000, &[0; 16])], filled: &[Filled(0x3000, 0, RELATIVE, 0x3010)], want: None },
    Case { what: "a slot with an address of nothing", text: UD2, sections: &[Given(b".data", 1, 3, 0x3000, &[0; 16])], filled: &[Filled(0x3000, 0, RELATIVE, 0x9000)], want: Some(Fault::BadRelocTarget(0x3000)) },
    Case { what: "the lower of two", text: UD2, sections: &[Given(b".data", 1, 3, 0x3000, &[0; 16])], filled: &[Filled(0x3008, 0, RELATIVE, 0x9000), Filled(0x3000, 0, RELATIVE, 0x1001)], want: Some(Fault::BadRelocTarget(0x3000)) },
    Case { what: "a slot with a point", text: UD2, sections: &[Given(b".data", 1, 3, 0x3000, &[0; 16])], filled: &[Filled(0x3000, 3, R_64, 0)], want: None },
    Case { what: "a slot inside an instruction", text: UD2, sections: &[Given(b".data", 1, 3, 0x3000, &[0; 16])], filled: &[Filled(0x3000, 3, R_64, 1)], want: Some(Fault::BadRelocTarget(0x3000)) },
    Case { what: "a slot in a section that is left out", text: UD2, sections: &[Given(b".got.plt", 1, 3, 0x3000, &[0; 16])], filled: &[Filled(0x3000, 0, RELATIVE, 0x9000)], want: None },
    Case { what: "an import and a copy", text: UD2, sections: &[Given(b".data", 1, 3, 0x3000, &[0; 16]), Given(b".bss", 8, 3, 0x4000, &[0; 16])], filled: &[Filled(0x3000, 1, GLOB_DAT, 0), Filled(0x4008, 4, COPY, 0)], want: None },
];

#[test]
fn answers_the_first_fault(rt: HostRuntime) -> Result<(), Fail> {
    for case in &CASES {
        let fault = fault_of(rt.alloc(), case)?;
        assert_eq!(rt; fault, case.want, "{}", case.what);
    }
    Ok(())
}
