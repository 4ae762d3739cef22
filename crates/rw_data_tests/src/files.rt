//! Small files, made of what differs between them.

use rw_make::{PartRela, PartSection, PartSymbol, Parts, make};
use std::alloc::{AllocError, Global};

/// The name, type, flags, address and contents of a section.
#[derive(Drop)]
pub(crate) struct Given(
    pub &'static [u8],
    pub u32,
    pub u64,
    pub u64,
    pub &'static [u8],
);

/// The name, binding, section, value and size of a symbol.
#[derive(Drop)]
pub(crate) struct Named(pub &'static [u8], pub u8, pub u16, pub u64, pub u64);

/// The place, symbol, type and addend of a relocation.
#[derive(Drop)]
pub(crate) struct Filled(pub u64, pub u32, pub u32, pub u64);

/// What is changed of a file that is made.
#[derive(Drop)]
pub(crate) enum Change {
    Nothing,
    /// It gets a length, with bytes 0 at its end where it is longer.
    Length(usize),
    /// A byte of the file header.
    Header(usize, u8),
    /// The `sh_type` of the header of a section.
    Kind(usize, u8),
}

/// The parts of a file: what is in it, from its sections on, with the entry.
pub(crate) struct File {
    pub sections: &'static [Given],
    pub functions: &'static [Named],
    pub dynamic: &'static [Named],
    pub filled: &'static [Filled],
    pub entry: u64,
}

pub(crate) const COPY: u32 = 5;

pub(crate) const GLOB_DAT: u32 = 6;

pub(crate) const JUMP_SLOT: u32 = 7;

pub(crate) const RELATIVE: u32 = 8;

fn section_of(alloc: Global, given: &Given) -> Result<PartSection, AllocError> {
    let Given(name, kind, flags, addr, bytes) = given;
    Ok(PartSection {
        name: Vec::from_slice(alloc, *name)?,
        kind: *kind,
        flags: *flags,
        addr: *addr,
        bytes: Vec::from_slice(alloc, *bytes)?,
        size: bytes.len() as u64,
    })
}

fn symbol_of(alloc: Global, named: &Named) -> Result<PartSymbol, AllocError> {
    let Named(name, bind, section, value, size) = named;
    Ok(PartSymbol {
        name: Vec::from_slice(alloc, *name)?,
        bind: *bind,
        sort: 2,
        section: *section,
        value: *value,
        size: *size,
    })
}

pub(crate) fn made(alloc: Global, file: &File) -> Result<Vec<u8>, AllocError> {
    let mut sections = Vec::new(alloc);
    for given in file.sections {
        sections.push(section_of(alloc, given)?)?;
    }
    let mut symbols = Vec::new(alloc);
    for named in file.functions {
        symbols.push(symbol_of(alloc, named)?)?;
    }
    let mut dynamic = Vec::new(alloc);
    for named in file.dynamic {
        dynamic.push(symbol_of(alloc, named)?)?;
    }
    let mut relas = Vec::new(alloc);
    for Filled(offset, sym, kind, addend) in file.filled {
        relas.push(PartRela {
            offset: *offset,
            sym: *sym,
            kind: *kind,
            addend: *addend,
        })?;
    }
    let parts = Parts {
        sections,
        symbols,
        dynamic,
        relas,
        entry: file.entry,
    };
    make(alloc, &parts)
}

fn set(bytes: &mut [u8], at: usize, value: u8) {
    if let Some(place) = bytes.get_mut(at) {
        *place = value;
    }
}

/// The number of the 8 bytes at a place, or 0 where there are fewer.
fn number_at(bytes: &[u8], at: usize) -> u64 {
    let mut number = 0;
    for (k, byte) in bytes.iter().skip(at).take(8).enumerate() {
        number |= u64::from(*byte).wrapping_shl(k.wrapping_mul(8) as u32);
    }
    number
}

/// The same with a change.
pub(crate) fn changed(alloc: Global, file: &File, change: &Change) -> Result<Vec<u8>, AllocError> {
    let mut bytes = made(alloc, file)?;
    match change {
        Change::Nothing => {}
        Change::Length(length) => bytes.resize(*length, 0)?,
        Change::Header(at, value) => set(&mut bytes, *at, *value),
        Change::Kind(section, value) => {
            let headers = number_at(&bytes, 40) as usize;
            let at = headers
                .wrapping_add(section.wrapping_mul(64))
                .wrapping_add(4);
            set(&mut bytes, at, *value);
        }
    }
    Ok(bytes)
}
