//! What a row of a table says, and the file that it is about.

use rw_base::Refusal;
use rw_elf::Elf;
use rw_funcs::Functions;
use rw_live::Live;
use rw_make::{PartSection, PartSymbol, Parts, make};
use rw_reloc::Relocs;
use std::alloc::{AllocError, Global};
use std::process::Abort;
use std::test::Fail;
use x86_insn::Reg;
use x86_meaning::Flag::{self, Cf, Of, Pf, Sf, Zf};

/// The name, address and size of a function.
pub struct Named(pub &'static [u8], pub u64, pub u64);

/// Registers.
pub enum Registers {
    /// These.
    Only(&'static [Reg]),
    /// All others.
    AllBut(&'static [Reg]),
}

/// An address, and the registers and flags that are live there.
pub struct Row(pub u64, pub Registers, pub &'static [Flag]);

/// Code at 0x1000 with functions, the first of which is entered, and what is live in the function with a number.
pub struct Case {
    pub what: &'static str,
    pub text: &'static [u8],
    pub functions: &'static [Named],
    pub number: u32,
    pub rows: &'static [Row],
}

/// All five flags.
pub const FLAGS: [Flag; 5] = [Cf, Zf, Sf, Of, Pf];

impl Registers {
    fn has(&self, r: Reg) -> bool {
        match *self {
            Registers::Only(list) => list.contains(&r),
            Registers::AllBut(list) => !list.contains(&r),
        }
    }
}

fn has_flag(list: &[Flag], flag: Flag) -> bool {
    list.iter().any(|other| other.code() == flag.code())
}

fn symbol_of(alloc: Global, named: &Named) -> Result<PartSymbol, AllocError> {
    let Named(name, value, size) = named;
    Ok(PartSymbol {
        name: Vec::from_slice(alloc, *name)?,
        bind: 1,
        sort: 2,
        section: 1,
        value: *value,
        size: *size,
    })
}

fn file_of(alloc: Global, case: &Case) -> Result<Vec<u8>, AllocError> {
    let mut sections = Vec::new(alloc);
    sections.push(PartSection {
        name: Vec::from_slice(alloc, b".text")?,
        kind: 1,
        flags: 6,
        addr: 0x1000,
        bytes: Vec::from_slice(alloc, case.text)?,
        size: case.text.len() as u64,
    })?;
    let mut symbols = Vec::new(alloc);
    for named in case.functions {
        symbols.push(symbol_of(alloc, named)?)?;
    }
    make(
        alloc,
        &Parts {
            sections,
            symbols,
            dynamic: Vec::new(alloc),
            relas: Vec::new(alloc),
            entry: 0x1000,
        },
    )
}

/// What is live in the function of a case, if there is one with that number.
fn live_in(alloc: Global, case: &Case) -> Result<Option<Live>, Refusal> {
    let elf = Elf::read(alloc, file_of(alloc, case)?)?;
    let relocs = Relocs::read(alloc, &elf)?;
    let functions = Functions::find(alloc, &elf, &relocs)?;
    if case.number as usize >= functions.list().len() {
        return Ok(None);
    }
    Ok(Some(Live::of(alloc, &functions, case.number)?))
}

fn check_row<A: Abort>(rt: &A, live: &Live, what: &str, row: &Row) {
    let Row(at, registers, flags) = row;
    for r in Reg::ALL {
        assert_eq!(rt;
            live.reg_live(*at, r),
            registers.has(r),
            "{what}: {r:?} at {at:x}"
        );
    }
    for flag in FLAGS {
        let code = flag.code();
        assert_eq!(rt;
            live.flag_live(*at, flag),
            has_flag(*flags, flag),
            "{what}: flag {code} at {at:x}"
        );
    }
}

/// Checks each row of a case.
pub fn check<A: Abort>(rt: &A, alloc: Global, case: &Case) -> Result<(), Fail> {
    let live = live_in(alloc, case)?;
    assert!(rt; live.is_some(), "{}", case.what);
    if let Some(live) = live {
        for row in case.rows {
            check_row(rt, &live, case.what, row);
        }
    }
    Ok(())
}
