//! Small files for tests, and calls on them, which have ample memory.

use crate::call::retro;
use rw_elf::abi::{
    SHF_ALLOC, SHF_EXECINSTR, SHF_WRITE, SHT_INIT_ARRAY, SHT_PROGBITS, STB_GLOBAL, STT_FUNC,
};
use rw_io::{MemFiles, MemSink, MemSource};
use rw_make::{PartRela, PartSection, PartSymbol, Parts, make};
use std::alloc::{AllocError, Global};

/// The flags of data that is read only.
pub const DATA: u64 = SHF_ALLOC;

/// The flags of data that may be written.
pub const WRITABLE: u64 = SHF_ALLOC | SHF_WRITE;

/// The flags of code.
pub const CODE: u64 = SHF_ALLOC | SHF_EXECINSTR;

/// `mov $60, %eax`, `xor %edi, %edi` and `syscall`.
pub const EXIT: &[u8] = &[0xb8, 0x3c, 0, 0, 0, 0x31, 0xff, 0x0f, 0x05];

/// An array of one address.
const ARRAY: &[u8] = &[0; 8];

/// The name, type, flags, address and contents of a section.
#[derive(Drop)]
pub struct Section(
    pub &'static [u8],
    pub u32,
    pub u64,
    pub u64,
    pub &'static [u8],
);

/// The name, binding, section, value and size of a symbol; its type is `STT_FUNC`.
#[derive(Drop)]
pub struct Symbol(pub &'static [u8], pub u8, pub u16, pub u64, pub u64);

/// The place, symbol, type and addend of a relocation.
#[derive(Drop)]
pub struct Rela(pub u64, pub u32, pub u32, pub u64);

/// The name, address and size of a function in `.text`.
#[derive(Drop)]
pub struct Function(pub &'static str, pub u64, pub u64);

fn section_of(alloc: Global, section: &Section) -> Result<PartSection, AllocError> {
    let Section(name, kind, flags, addr, bytes) = section;
    Ok(PartSection {
        name: Vec::from_slice(alloc, *name)?,
        kind: *kind,
        flags: *flags,
        addr: *addr,
        bytes: Vec::from_slice(alloc, *bytes)?,
        size: bytes.len() as u64,
    })
}

fn symbols_of(alloc: Global, symbols: &[Symbol]) -> Result<Vec<PartSymbol>, AllocError> {
    let mut parts = Vec::new(alloc);
    for Symbol(name, bind, section, value, size) in symbols {
        parts.push(PartSymbol {
            name: Vec::from_slice(alloc, *name)?,
            bind: *bind,
            sort: STT_FUNC,
            section: *section,
            value: *value,
            size: *size,
        })?;
    }
    Ok(parts)
}

/// A file of these sections, symbols, dynamic symbols and relocations, with an entry.
pub fn file_of(
    alloc: Global,
    sections: &[Section],
    symbols: &[Symbol],
    dynamic: &[Symbol],
    relas: &[Rela],
    entry: u64,
) -> Result<Vec<u8>, AllocError> {
    let mut part_sections = Vec::new(alloc);
    for section in sections {
        part_sections.push(section_of(alloc, section)?)?;
    }
    let mut part_relas = Vec::new(alloc);
    for Rela(offset, sym, kind, addend) in relas {
        part_relas.push(PartRela {
            offset: *offset,
            sym: *sym,
            kind: *kind,
            addend: *addend,
        })?;
    }
    let parts = Parts {
        sections: part_sections,
        symbols: symbols_of(alloc, symbols)?,
        dynamic: symbols_of(alloc, dynamic)?,
        relas: part_relas,
        entry,
    };
    make(alloc, &parts)
}

/// A file with this code at 0x1000, these functions in it, an entry, and an array of addresses of functions at an
/// address that isn't 0.
pub fn file_with(
    alloc: Global,
    code: &'static [u8],
    functions: &[Function],
    entry: u64,
    array: u64,
) -> Result<Vec<u8>, AllocError> {
    let text = Section(b".text", SHT_PROGBITS, CODE, 0x1000, code);
    let mut sections = vec![in alloc; text]?;
    if array != 0 {
        sections.push(Section(b".init_array", SHT_INIT_ARRAY, WRITABLE, array, ARRAY))?;
    }
    let mut symbols = Vec::new(alloc);
    for Function(name, address, size) in functions {
        symbols.push(Symbol(name.as_bytes(), STB_GLOBAL, 1, *address, *size))?;
    }
    file_of(alloc, &sections, &symbols, &[], &[], entry)
}

/// A file whose one function is this code at 0x1000.
pub fn file_of_code(alloc: Global, code: &'static [u8]) -> Result<Vec<u8>, AllocError> {
    let start = [Function("_start", 0x1000, code.len() as u64)];
    file_with(alloc, code, &start, 0x1000, 0)
}

/// What a call answers, and what its outputs then hold.
#[derive(Drop)]
pub struct Ended {
    pub status: u8,
    pub out: MemSink,
    pub err: MemSink,
}

/// The read, the write to `out` or the write to `err` that fails, by its number from 1 on.
#[derive(Clone, Copy)]
pub enum Failing {
    Nothing,
    Read(u64),
    Write(u64),
    Line(u64),
}

/// Calls with these words and the one file `x`.
pub fn call(alloc: Global, words: &[&str], file: Vec<u8>) -> Result<Ended, AllocError> {
    call_failing(alloc, words, file, Failing::Nothing)
}

/// The same where a read or a write fails.
pub fn call_failing(
    alloc: Global,
    words: &[&str],
    file: Vec<u8>,
    failing: Failing,
) -> Result<Ended, AllocError> {
    let mut texts = Vec::new(alloc);
    for word in words {
        texts.push(String::from_str(alloc, *word)?)?;
    }
    let files = vec![in alloc; (String::from_str(alloc, "x")?, file)]?;
    let mut reads = Vec::new(alloc);
    let mut writes = Vec::new(alloc);
    let mut lines = Vec::new(alloc);
    match failing {
        Failing::Nothing => {}
        Failing::Read(number) => reads.push(number)?,
        Failing::Write(number) => writes.push(number)?,
        Failing::Line(number) => lines.push(number)?,
    }
    let mut files = MemFiles::new(files, reads);
    let mut input = MemSource::new(Vec::new(alloc), Vec::new(alloc));
    let mut out = MemSink::new(alloc, writes);
    let mut err = MemSink::new(alloc, lines);
    let status = retro(alloc, &texts, &mut files, &mut input, &mut out, &mut err);
    Ok(Ended { status, out, err })
}
