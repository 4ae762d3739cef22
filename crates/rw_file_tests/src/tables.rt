//! Small files with a dispatch or two, and what is found and refused where their code, their tables or the tables' section
//! differ.
use crate::files::{File, Given, parts_started};
use rw_base::{Fault, Refusal};
use rw_elf::Elf;
use rw_funcs::Functions;
use rw_make::{Parts, make};
use rw_reloc::Relocs;
use rw_tables::{Table, Tables};
use std::alloc::{AllocError, Global};
use std::test::Fail;

/// `movl`, `cmpl $2, %edi`, `ja`, `leaq 0x2000(%rip), %rdx`, `movslq (%rdx,%rdi,4), %rax`, `addq %rdx, %rax`,
/// `notrack jmp *%rax`, and three places to jump to, from 0x1000 on.
const ONE: &[u8] =
    b"\xbf\0\0\0\0\x83\xff\x02\x77\x24\x48\x8d\x15\xef\x0f\0\0\x48\x63\x04\xba\x48\x01\xd0\x3e\xff\xe0\xbf\x0a\0\0\0\xeb\x0c\xbf\x0b\0\0\0\xeb\x05\xbf\x0c\0\0\0\xb8\x3c\0\0\0\x0f\x05";

/// Two such dispatches through tables at 0x2000, with bounds of 2 and 1, and `ud2`, from 0x1000 on.
const TWO: &[u8] =
    b"\x83\xff\x02\x77\x27\x48\x8d\x15\xf4\x0f\0\0\x48\x63\x04\xba\x48\x01\xd0\x3e\xff\xe0\x83\xff\x01\x77\x11\x48\x8d\x15\xde\x0f\0\0\x48\x63\x04\xba\x48\x01\xd0\x3e\xff\xe0\x0f\x0b";

/// The distances of the three places from 0x2000.
const WORDS: &[u8] = b"\x1b\xf0\xff\xff\x22\xf0\xff\xff\x29\xf0\xff\xff";

/// Distances that lead from 0x2000 and from 0x2004 to points of the two dispatches.
const SHARED: &[u8] =
    b"\x0c\xf0\xff\xff\x0c\xf0\xff\xff\x0c\xf0\xff\xff\x0c\xf0\xff\xff\x0c\xf0\xff\xff";

/// Three that do from 0x2000, and two that do from 0x200c.
const APART: &[u8] =
    b"\x0c\xf0\xff\xff\x0c\xf0\xff\xff\x0c\xf0\xff\xff\x04\xf0\xff\xff\x04\xf0\xff\xff";

/// Two that do from 0x2000, and one that does from 0x2008.
const TURNED: &[u8] = b"\x0c\xf0\xff\xff\x0c\xf0\xff\xff\x08\xf0\xff\xff";

const READ: u64 = 2;

const WRITTEN: u64 = 3;

/// Code with changes by place, data at 0x2000 with its flags, and the tables, or the fault.
struct Case {
    what: &'static str,
    code: &'static [u8],
    changes: &'static [(usize, u8)],
    words: &'static [u8],
    flags: u64,
    want: Result<&'static [Table], Fault>,
}

const FOUND: Result<&[Table], Fault> = Ok(&[Table {
    base: 0x2000,
    count: 3,
}]);

#[rattlefmt::skip]
static CASES: [Case; 19] = [
    Case { what: "a dispatch", code: ONE, changes: &[], words: WORDS, flags: READ, want: FOUND },
    Case { what: "a word that leads to no point", code: ONE, changes: &[], words: b"\x1b\xf0\xff\xff\x22\xf0\xff\xff\x2a\xf0\xff\xff", flags: READ, want: Err(Fault::BadTable(0x1018)) },
    Case { what: "a negative bound", code: ONE, changes: &[(7, 0xff)], words: WORDS, flags: READ, want: Err(Fault::UnknownTable(0x1018)) },
    Case { what: "a table past its section", code: ONE, changes: &[(7, 0x03)], words: WORDS, flags: READ, want: Err(Fault::BadTable(0x1018)) },
    Case { what: "a table of one word more than the bound", code: ONE, changes: &[(7, 0x01)], words: WORDS, flags: READ, want: Ok(&[Table { base: 0x2000, count: 2 }]) },
    Case { what: "a table that may be written", code: ONE, changes: &[], words: WORDS, flags: WRITTEN, want: Err(Fault::BadTable(0x1018)) },
    Case { what: "jb in place of ja", code: ONE, changes: &[(8, 0x72)], words: WORDS, flags: READ, want: Err(Fault::UnknownTable(0x1018)) },
    Case { what: "a 32-bit lea", code: ONE, changes: &[(10, 0x40)], words: WORDS, flags: READ, want: Err(Fault::UnknownTable(0x1018)) },
    Case { what: "sub in place of cmp", code: ONE, changes: &[(6, 0xef)], words: WORDS, flags: READ, want: FOUND },
    Case { what: "a write of 16 bits of the base", code: ONE, changes: &[(17, 0x66), (18, 0x89), (19, 0xc2), (20, 0x90)], words: WORDS, flags: READ, want: Err(Fault::UnknownTable(0x1018)) },
    Case { what: "an instruction between add and jump", code: ONE, changes: &[(17, 0x48), (18, 0x01), (19, 0xd0), (20, 0x90), (21, 0x90), (22, 0x90), (23, 0x90)], words: WORDS, flags: READ, want: Err(Fault::UnknownTable(0x1018)) },
    Case { what: "a table elsewhere", code: ONE, changes: &[(13, 0xf3)], words: WORDS, flags: READ, want: Err(Fault::BadTable(0x1018)) },
    Case { what: "no data", code: ONE, changes: &[], words: b"", flags: READ, want: Err(Fault::BadTable(0x1018)) },
    Case { what: "ja behind the jump", code: ONE, changes: &[(8, 0x72), (32, 0x77)], words: WORDS, flags: READ, want: Err(Fault::UnknownTable(0x1018)) },
    Case { what: "one base, fewer words", code: TWO, changes: &[], words: SHARED, flags: READ, want: FOUND },
    Case { what: "one base, more words", code: TWO, changes: &[(24, 4)], words: SHARED, flags: READ, want: Ok(&[Table { base: 0x2000, count: 5 }]) },
    Case { what: "a table in another", code: TWO, changes: &[(24, 0), (30, 0xe2)], words: SHARED, flags: READ, want: Err(Fault::BadTable(0x1029)) },
    Case { what: "one table behind another", code: TWO, changes: &[(30, 0xea)], words: APART, flags: READ, want: Ok(&[Table { base: 0x2000, count: 3 }, Table { base: 0x200c, count: 2 }]) },
    Case { what: "one table before another", code: TWO, changes: &[(2, 0), (8, 0xfc)], words: TURNED, flags: READ, want: Ok(&[Table { base: 0x2000, count: 2 }, Table { base: 0x2008, count: 1 }]) },
];

fn code_of(alloc: Global, case: &Case) -> Result<Vec<u8>, AllocError> {
    let mut code = Vec::from_slice(alloc, case.code)?;
    for (place, byte) in case.changes {
        if let Some(old) = code.get_mut(*place) {
            *old = *byte;
        }
    }
    Ok(code)
}

/// The parts of a file with this code and, if there are any, these words at 0x2000.
fn parts_in(
    alloc: Global,
    code: &[u8],
    words: &'static [u8],
    flags: u64,
) -> Result<Parts, AllocError> {
    let rodata = [Given(b".rodata", 1, flags, 0x2000, words)];
    let file = File {
        sections: if words.is_empty() { &[] } else { &rodata },
        symbols: &[],
        dynamic: &[],
        filled: &[],
    };
    parts_started(alloc, code, &file)
}

fn found(alloc: Global, code: &[u8], words: &'static [u8], flags: u64) -> Result<Tables, Refusal> {
    let parts = parts_in(alloc, code, words, flags)?;
    let elf = Elf::read(alloc, make(alloc, &parts)?)?;
    let relocs = Relocs::read(alloc, &elf)?;
    let functions = Functions::find(alloc, &elf, &relocs)?;
    Tables::find(alloc, &elf, &relocs, &functions)
}

fn found_in(alloc: Global, case: &Case) -> Result<Tables, Refusal> {
    let code = code_of(alloc, case)?;
    found(alloc, &code, case.words, case.flags)
}

#[test]
fn answers_the_tables_or_the_first_fault(rt: HostRuntime) -> Result<(), Fail> {
    for case in &CASES {
        let found = found_in(rt.alloc(), case);
        let list = found.as_ref().map(Tables::list).map_err(|refusal| *refusal);
        assert_eq!(rt; list, case.want.map_err(Refusal::Fault), "{}", case.what);
    }
    Ok(())
}

/// Addresses around the table of the first code, with the point and the base of the word that starts there.
static ENTRIES: [(u64, Option<(u64, u64)>); 11] = [
    (0, None),
    (0x101b, None),
    (0x1ffc, None),
    (0x2000, Some((0x101b, 0x2000))),
    (0x2001, None),
    (0x2003, None),
    (0x2004, Some((0x1022, 0x2000))),
    (0x2006, None),
    (0x2008, Some((0x1029, 0x2000))),
    (0x200b, None),
    (0x200c, None),
];

#[test]
fn a_word_is_found_where_it_starts(rt: HostRuntime) -> Result<(), Fail> {
    let tables = found(rt.alloc(), ONE, WORDS, READ)?;
    for (address, want) in &ENTRIES {
        assert_eq!(rt; tables.entry_at(*address), *want, "{address:x}");
    }
    Ok(())
}

/// Code alone, and the fault of its jump.
struct Jump {
    what: &'static str,
    code: &'static [u8],
    want: Option<Fault>,
}

#[rattlefmt::skip]
static JUMPS: [Jump; 8] = [
    Jump { what: "behind an add", code: b"\x48\x01\xd0\xff\xe0", want: Some(Fault::UnknownTable(0x1003)) },
    Jump { what: "with notrack", code: b"\x48\x01\xd0\x3e\xff\xe0", want: Some(Fault::UnknownTable(0x1003)) },
    Jump { what: "before another jump", code: b"\x48\x01\xd0\xff\xe0\xeb\xff", want: Some(Fault::UnknownTable(0x1003)) },
    Jump { what: "behind an add that isn't directly before it", code: b"\x48\x01\xd0\x89\xc9\xff\xe0", want: Some(Fault::UnknownTable(0x1005)) },
    Jump { what: "of a register that was moved after the add", code: b"\x48\x01\xd0\x48\x89\xd0\xff\xe0", want: None },
    Jump { what: "behind an add of 32 bits", code: b"\x01\xd0\xff\xe0", want: None },
    Jump { what: "with a jump behind the add", code: b"\x48\x01\xd0\x74\0\xff\xe0", want: None },
    Jump { what: "of a register whose second byte was written after the add", code: b"\x48\x01\xd0\xb4\x01\xff\xe0", want: None },
];

fn fault_of(alloc: Global, code: &[u8]) -> Option<Fault> {
    match found(alloc, code, &[], READ) {
        Err(Refusal::Fault(fault)) => Some(fault),
        _ => None,
    }
}

#[test]
fn considers_jumps_behind_an_add(rt: HostRuntime) -> Result<(), Fail> {
    for jump in &JUMPS {
        let fault = fault_of(rt.alloc(), jump.code);
        assert_eq!(rt; fault, jump.want, "{}", jump.what);
    }
    Ok(())
}
