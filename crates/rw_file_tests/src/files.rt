//! Small files, made of what differs between them.
use rw_make::{PartRela, PartSection, PartSymbol, Parts};
use std::alloc::{AllocError, Global};

/// The name, type, flags, address and contents of a section.
#[derive(Drop)]
pub(crate) struct Given(
    pub &'static [u8],
    pub u32,
    pub u64,
    pub u64,
    pub &'static [u8],
);

/// The name, type, section, value and size of a symbol.
#[derive(Drop)]
pub(crate) struct Named(pub &'static [u8], pub u8, pub u16, pub u64, pub u64);

/// The type of a symbol of a function, in `Named`.
pub(crate) const FUNC: u8 = 2;

/// The place, symbol, type and addend of a relocation.
#[derive(Drop)]
pub(crate) struct Filled(pub u64, pub u32, pub u32, pub u64);

/// The types of relocations, in `Filled`.
pub(crate) const R_64: u32 = 1;

pub(crate) const COPY: u32 = 5;

pub(crate) const GLOB_DAT: u32 = 6;

pub(crate) const JUMP_SLOT: u32 = 7;

pub(crate) const RELATIVE: u32 = 8;

/// What is in a file. Its entry is 0x1000.
#[derive(Drop)]
pub(crate) struct File<'a> {
    pub sections: &'a [Given],
    pub symbols: &'a [Named],
    pub dynamic: &'a [Named],
    pub filled: &'a [Filled],
}

pub(crate) fn section_of(alloc: Global, given: &Given) -> Result<PartSection, AllocError> {
    let Given(name, kind, flags, addr, bytes) = given;
    Ok(PartSection {
        name: Vec::from_slice(alloc, *name)?,
        kind: *kind,
        flags: *flags,
        addr: *addr,
        bytes: Vec::from_slice(alloc, *bytes)?,
        size: bytes.len() as u64,
    })
}

fn symbol_of(alloc: Global, named: &Named) -> Result<PartSymbol, AllocError> {
    let Named(name, sort, section, value, size) = named;
    Ok(PartSymbol {
        name: Vec::from_slice(alloc, *name)?,
        bind: 1,
        sort: *sort,
        section: *section,
        value: *value,
        size: *size,
    })
}

fn symbols_of(alloc: Global, list: &[Named]) -> Result<Vec<PartSymbol>, AllocError> {
    let mut symbols = Vec::new(alloc);
    for named in list {
        symbols.push(symbol_of(alloc, named)?)?;
    }
    Ok(symbols)
}

pub(crate) fn parts_of(alloc: Global, file: &File) -> Result<Parts, AllocError> {
    let mut sections = Vec::new(alloc);
    for given in file.sections {
        sections.push(section_of(alloc, given)?)?;
    }
    let mut relas = Vec::new(alloc);
    for Filled(offset, sym, kind, addend) in file.filled {
        relas.push(PartRela {
            offset: *offset,
            sym: *sym,
            kind: *kind,
            addend: *addend,
        })?;
    }
    Ok(Parts {
        sections,
        symbols: symbols_of(alloc, file.symbols)?,
        dynamic: symbols_of(alloc, file.dynamic)?,
        relas,
        entry: 0x1000,
    })
}

/// The parts of a file whose first section is this code at 0x1000, as `.text`.
pub(crate) fn parts_with(alloc: Global, code: &[u8], file: &File) -> Result<Parts, AllocError> {
    let mut parts = parts_of(alloc, file)?;
    let mut text = section_of(alloc, &Given(b".text", 1, 6, 0x1000, &[]))?;
    text.bytes.extend_from_slice(code)?;
    parts.sections.insert(0, text)?;
    Ok(parts)
}

/// The same, with one function more, `_start`, which is all of that code.
pub(crate) fn parts_started(alloc: Global, code: &[u8], file: &File) -> Result<Parts, AllocError> {
    let mut parts = parts_with(alloc, code, file)?;
    let start = Named(b"_start", FUNC, 1, 0x1000, code.len() as u64);
    parts.symbols.push(symbol_of(alloc, &start)?)?;
    Ok(parts)
}

/// Writes the low bytes of a number at a place, as many as there is room for.
pub(crate) fn put(bytes: &mut [u8], at: usize, width: usize, number: u64) {
    for (k, byte) in number.to_le_bytes().iter().take(width).enumerate() {
        if let Some(place) = bytes.get_mut(at.saturating_add(k)) {
            *place = *byte;
        }
    }
}
