//! The contents, headers and names of sections, as they are added one by one.

ghost use Rattle.std.specs.Prelude.{◌≡◌, ◌≤◌, ◌<◌, ◌+◌, ◌-◌, ◌*◌, ◌++◌, [], ◌∷◌, ◌^◌, List, OnOk, IfOk, length, map};
ghost use Rattle.rw_make.specs.Image.{Piece, given, made, tables, dynamic_pieces, symbol_pieces, names_piece, section_header, identification, file_header, file_of_pieces};
ghost use Rattle.rw_make.specs.Layout.{Holds, piece_of};

use crate::bytes::{next_place, put_half, put_name, put_padded, put_word, put_xword};
use crate::parts::{PartSection, Parts};
use crate::tables::{rela_table, symbol_tables};
use std::alloc::{AllocError, Global};

const SYMTAB: u32 = 2;

const STRTAB: u32 = 3;

const RELA: u32 = 4;

const NOBITS: u32 = 8;

const DYNSYM: u32 = 11;

const RELR: u32 = 19;

const ALLOC: u64 = 2;

/// The length of the file header, and of a section header.
const HEADER: u64 = 64;

/// The length of an entry of a symbol table, and of a relocation table.
const ENTRY: u64 = 24;

/// The length of an entry of a relocation table in compact form.
const RELR_ENTRY: u64 = 8;

/// The address of the first section for dynamic linking.
const DYNAMIC_ADDR: u64 = 0x1000_0000;

/// A section to add: its name, its bytes, and what its header says.
#[derive(Clone, Copy)]
pub(crate) struct Section<'a> {
    name: &'a [u8],
    kind: u32,
    flags: u64,
    addr: u64,
    contents: &'a [u8],
    size: u64,
    link: u64,
    align: u64,
    entry_size: u64,
}

impl<'a> Section<'a> {
    /// A given section.
    #[tactic(auto, unfolding(crate::specs::Image::given, crate::specs::Layout::piece_of))]
    fn given(section: &'a PartSection) -> Self
        ensures { piece_of result ≡ given section.now }
    {
        let holds_bytes = section.kind != NOBITS;
        Section {
            name: &section.name,
            kind: section.kind,
            flags: section.flags,
            addr: section.addr,
            contents: if holds_bytes { &section.bytes } else { &[] },
            size: if holds_bytes {
                section.bytes.len() as u64
            } else {
                section.size
            },
            link: 0,
            align: 16,
            entry_size: if section.kind == RELR { RELR_ENTRY } else { 0 },
        }
    }

    /// A section that is made.
    #[tactic(auto, unfolding(crate::specs::Image::made, crate::specs::Layout::piece_of))]
    fn made(
        name: &'a [u8],
        kind: u32,
        flags: u64,
        addr: u64,
        contents: &'a [u8],
        link: u64,
        entry_size: u64,
    ) -> Self
        ensures { piece_of result ≡ made name.now kind flags addr contents.now link entry_size }
    {
        Section {
            name,
            kind,
            flags,
            addr,
            contents,
            size: contents.len() as u64,
            link,
            align: 8,
            entry_size,
        }
    }
}

/// Adds a section header, with the place of the name in its table and that of the contents in the file.
#[tactic(auto, unfolding(crate::specs::Image::section_header, crate::specs::Layout::piece_of))]
fn put_header(
    out: &mut Vec<u8>,
    name: u64,
    offset: u64,
    section: &Section,
) -> Result<(), AllocError>
    ensures { OnOk result (out.new.items ≡ out.old.items ++ section_header name offset (piece_of section.now)) }
{
    put_word(out, name)?;
    put_word(out, u64::from(section.kind))?;
    put_xword(out, section.flags)?;
    put_xword(out, section.addr)?;
    put_xword(out, offset)?;
    put_xword(out, section.size)?;
    put_word(out, section.link)?;
    put_word(out, 0)?;
    put_xword(out, section.align)?;
    put_xword(out, section.entry_size)?;
    Ok(())
}

/// The sections that were added so far.
#[derive(Drop)]
pub(crate) struct Layout {
    contents: Vec<u8>,
    headers: Vec<u8>,
    names: Vec<u8>,
}

impl Layout {
    /// No section but the null one.
    pub(crate) fn new(alloc: Global) -> Result<Self, AllocError>
        ensures { IfOk result (λ layout. Holds [] layout) }
    {
        Ok(Layout {
            contents: Vec::new(alloc),
            headers: vec![in alloc; 0; HEADER as usize]?,
            names: vec![in alloc; 0]?,
        })
    }

    /// The index of the next section.
    fn next_index(&self) -> u64
        ensures index { (pieces : List Piece) → Holds pieces self.now → result ≡ length pieces + 1 }
        ensures bound { result < 2 ^ 60 }
    {
        self.headers.len() as u64 / HEADER
    }

    fn add(&mut self, section: &Section) -> Result<(), AllocError>
        ensures { (pieces : List Piece) → Holds pieces self.old → OnOk result (Holds (pieces ++ piece_of section.now ∷ []) self.new) }
    {
        let name = self.names.len() as u64;
        let offset = HEADER + self.contents.len() as u64;
        put_header(&mut self.headers, name, offset, section)?;
        put_padded(&mut self.contents, section.contents)?;
        put_name(&mut self.names, section.name)?;
        Ok(())
    }

    /// Adds the given sections.
    pub(crate) fn add_given(&mut self, sections: &[PartSection]) -> Result<(), AllocError>
        ensures { (pieces : List Piece) → Holds pieces self.old → OnOk result (Holds (pieces ++ map given sections.now) self.new) }
    {
        for section in sections {
            self.add(&Section::given(section))?;
        }
        Ok(())
    }

    /// Adds the sections for dynamic linking.
    #[tactic(auto, unfolding(crate::specs::Image::dynamic_pieces))]
    fn add_dynamic(&mut self, alloc: Global, parts: &Parts) -> Result<(), AllocError>
        ensures { (pieces : List Piece) → Holds pieces self.old → OnOk result (Holds (pieces ++ dynamic_pieces (length pieces + 1) parts.now) self.new) }
    {
        let first = self.next_index();
        let symbols = symbol_tables(alloc, &parts.dynamic)?;
        let relas = rela_table(alloc, &parts.relas)?;
        let names_addr = next_place(DYNAMIC_ADDR + symbols.entries.len() as u64)?;
        let names_end = names_addr
            .checked_add(symbols.names.len() as u64)
            .ok_or(AllocError)?;
        let relas_addr = next_place(names_end)?;
        self.add(&Section::made(
            b".dynsym",
            DYNSYM,
            ALLOC,
            DYNAMIC_ADDR,
            &symbols.entries,
            first + 1,
            ENTRY,
        ))?;
        self.add(&Section::made(b".dynstr", STRTAB, ALLOC, names_addr, &symbols.names, 0, 0))?;
        self.add(&Section::made(b".rela.dyn", RELA, ALLOC, relas_addr, &relas, first, ENTRY))?;
        Ok(())
    }

    /// Adds the symbol table and its names.
    #[tactic(auto, unfolding(crate::specs::Image::symbol_pieces))]
    fn add_symbols(&mut self, alloc: Global, parts: &Parts) -> Result<(), AllocError>
        ensures { (pieces : List Piece) → Holds pieces self.old → OnOk result (Holds (pieces ++ symbol_pieces (length pieces + 1) parts.now) self.new) }
    {
        let first = self.next_index();
        let symbols = symbol_tables(alloc, &parts.symbols)?;
        self.add(&Section::made(b".symtab", SYMTAB, 0, 0, &symbols.entries, first + 1, ENTRY))?;
        self.add(&Section::made(b".strtab", STRTAB, 0, 0, &symbols.names, 0, 0))?;
        Ok(())
    }

    /// Adds the tables of symbols and relocations.
    #[tactic(auto, unfolding(crate::specs::Image::tables))]
    pub(crate) fn add_tables(&mut self, alloc: Global, parts: &Parts) -> Result<(), AllocError>
        ensures { (pieces : List Piece) → Holds pieces self.old → OnOk result (Holds (pieces ++ tables (length pieces + 1) parts.now) self.new) }
    {
        if parts.dynamic.is_empty() && parts.relas.is_empty() {
            return self.add_symbols(alloc, parts);
        }
        self.add_dynamic(alloc, parts)?;
        self.add_symbols(alloc, parts)?;
        Ok(())
    }

    /// Adds the names of all sections.
    #[tactic(auto, unfolding(crate::specs::Image::names_piece))]
    pub(crate) fn add_names(&mut self, alloc: Global) -> Result<(), AllocError>
        ensures { (pieces : List Piece) → Holds pieces self.old → OnOk result (Holds (pieces ++ names_piece pieces ∷ []) self.new) }
    {
        let mut names = self.names.to_vec(alloc)?;
        put_name(&mut names, b".shstrtab")?;
        self.add(&Section::made(b".shstrtab", STRTAB, 0, 0, &names, 0, 0))?;
        Ok(())
    }

    /// The file, whose last section has the names.
    #[tactic(auto, unfolding(crate::specs::Image::file_of_pieces))]
    pub(crate) fn file(&self, alloc: Global, entry: u64) -> Result<Vec<u8>, AllocError>
        ensures { (pieces : List Piece) → Holds pieces self.now → IfOk result (λ file. file.items ≡ file_of_pieces entry pieces) }
    {
        let mut file = Vec::new(alloc);
        let headers_at = HEADER + self.contents.len() as u64;
        put_file_header(&mut file, entry, headers_at, self.next_index())?;
        file.extend_from_slice(&self.contents)?;
        file.extend_from_slice(&self.headers)?;
        Ok(file)
    }
}

/// Adds the identification: magic, class, byte order, version, and zeros.
#[tactic(auto, unfolding(crate::specs::Image::identification))]
fn put_identification(out: &mut Vec<u8>) -> Result<(), AllocError>
    ensures { OnOk result (out.new.items ≡ out.old.items ++ identification) }
{
    out.extend_from_slice(&[0x7f, b'E', b'L', b'F', 2, 1, 1, 0, 0, 0, 0, 0, 0, 0, 0, 0])?;
    Ok(())
}

/// Adds the file header, for this number of section headers, of which the last names the sections.
#[tactic(auto, unfolding(crate::specs::Image::file_header))]
fn put_file_header(
    out: &mut Vec<u8>,
    entry: u64,
    headers_at: u64,
    header_count: u64,
) -> Result<(), AllocError>
    ensures { OnOk result (out.new.items ≡ out.old.items ++ file_header entry headers_at header_count (header_count - 1)) }
{
    put_identification(out)?;
    put_half(out, 3)?;
    put_half(out, 62)?;
    put_word(out, 1)?;
    put_xword(out, entry)?;
    put_xword(out, 0)?;
    put_xword(out, headers_at)?;
    put_word(out, 0)?;
    put_half(out, HEADER)?;
    put_half(out, 0)?;
    put_half(out, 0)?;
    put_half(out, HEADER)?;
    put_half(out, header_count)?;
    put_half(out, header_count.saturating_sub(1))?;
    Ok(())
}
