//! What a row of a table says, and the file that it is about.

use rw_base::Refusal;
use rw_elf::Elf;
use rw_funcs::Functions;
use rw_live::Live;
use rw_make::{PartRela, PartSection, PartSymbol, Parts, make};
use rw_probe::{Leaders, Mode, Probe, probe};
use rw_reloc::Relocs;
use rw_tables::Tables;
use std::alloc::{AllocError, Global};
use std::process::Abort;
use std::test::Fail;

/// The name, address and size of a function.
pub struct Named(pub &'static [u8], pub u64, pub u64);

/// The name, flags and contents of a section at 0x2000.
pub struct Data(pub &'static [u8], pub u64, pub &'static [u8]);

/// A place, and the address of the file that a relocation puts there.
pub struct Filled(pub u64, pub u64);

/// A leader, and the probe there.
pub struct Row(pub u64, pub Probe);

/// Code at 0x1000 with functions, the first of which is entered, data and relocations, and the leaders in a mode.
pub struct Case {
    pub what: &'static str,
    pub text: &'static [u8],
    pub functions: &'static [Named],
    pub data: &'static [Data],
    pub filled: &'static [Filled],
    pub mode: Mode,
    pub rows: &'static [Row],
}

const R_X86_64_RELATIVE: u32 = 8;

fn section_of(
    alloc: Global,
    name: &[u8],
    flags: u64,
    addr: u64,
    bytes: &[u8],
) -> Result<PartSection, AllocError> {
    Ok(PartSection {
        name: Vec::from_slice(alloc, name)?,
        kind: 1,
        flags,
        addr,
        bytes: Vec::from_slice(alloc, bytes)?,
        size: bytes.len() as u64,
    })
}

fn symbol_of(alloc: Global, named: &Named) -> Result<PartSymbol, AllocError> {
    let Named(name, value, size) = named;
    Ok(PartSymbol {
        name: Vec::from_slice(alloc, *name)?,
        bind: 1,
        sort: 2,
        section: 1,
        value: *value,
        size: *size,
    })
}

fn file_of(alloc: Global, case: &Case) -> Result<Vec<u8>, AllocError> {
    let mut sections = Vec::new(alloc);
    sections.push(section_of(alloc, b".text", 6, 0x1000, case.text)?)?;
    for Data(name, flags, bytes) in case.data {
        sections.push(section_of(alloc, *name, *flags, 0x2000, *bytes)?)?;
    }
    let mut symbols = Vec::new(alloc);
    for named in case.functions {
        symbols.push(symbol_of(alloc, named)?)?;
    }
    let mut relas = Vec::new(alloc);
    for Filled(offset, addend) in case.filled {
        relas.push(PartRela {
            offset: *offset,
            sym: 0,
            kind: R_X86_64_RELATIVE,
            addend: *addend,
        })?;
    }
    make(
        alloc,
        &Parts {
            sections,
            symbols,
            dynamic: Vec::new(alloc),
            relas,
            entry: 0x1000,
        },
    )
}

/// The leaders of a file in a mode, and its functions.
#[derive(Drop)]
struct Found {
    functions: Functions,
    leaders: Leaders,
}

fn find_leaders(alloc: Global, case: &Case) -> Result<Found, Refusal> {
    let elf = Elf::read(alloc, file_of(alloc, case)?)?;
    let relocs = Relocs::read(alloc, &elf)?;
    let functions = Functions::find(alloc, &elf, &relocs)?;
    let tables = Tables::find(alloc, &elf, &relocs, &functions)?;
    let leaders = Leaders::of(alloc, &elf, &relocs, &functions, &tables, case.mode)?;
    Ok(Found { functions, leaders })
}

/// The probe at a point, if it is one of a function.
fn probe_at(alloc: Global, functions: &Functions, at: u64) -> Result<Option<Probe>, AllocError> {
    let Some(number) = functions.function_of(at) else {
        return Ok(None);
    };
    if number as usize >= functions.list().len() {
        return Ok(None);
    }
    let live = Live::of(alloc, functions, number)?;
    Ok(Some(probe(&live, at)))
}

/// Checks the leaders of a case, their numbers and the probes there.
pub fn check<A: Abort>(rt: &A, alloc: Global, case: &Case) -> Result<(), Fail> {
    let found = find_leaders(alloc, case)?;
    let list = found.leaders.list();
    assert_eq!(rt; list.len(), case.rows.len(), "{}", case.what);
    for (number, row) in case.rows.iter().enumerate() {
        let Row(at, want) = row;
        assert_eq!(rt; list.get(number), Some(at), "{} {at:x}", case.what);
        assert_eq!(rt;
            found.leaders.number_of(*at),
            Some(number as u32),
            "{} {at:x}",
            case.what
        );
        assert_eq!(rt;
            found.leaders.number_of(*at | 1 << 63),
            None,
            "{} {at:x}",
            case.what
        );
        let probe = probe_at(alloc, &found.functions, *at)?;
        assert_eq!(rt; probe, Some(*want), "{} {at:x}", case.what);
    }
    Ok(())
}
