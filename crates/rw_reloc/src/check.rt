//! The rules of the phase relocations.
ghost use Rattle.std.specs.Prelude.{◌≡◌, ◌+◌, ◌^◌, ◌<◌, ◌≤◌, ◌&&◌, IsTrue, length, false, nat_lt, option_and_then};
ghost use Rattle.std.specs.Option.{option_map_or};
ghost use Rattle.std.specs.Result.{result_err};
ghost use Rattle.rw_base.specs.Rules.{first_of, each_of};
ghost use Rattle.rw_elf.specs.Header.{header_count};
ghost use Rattle.rw_elf.specs.Places.{Covers};
ghost use Rattle.rw_elf.specs.Section.{header_at, sections};
ghost use Rattle.rw_elf.specs.Tables.{IsNameIn};
ghost use Rattle.rw_reloc.specs.Entries.{entries};
ghost use Rattle.rw_reloc.specs.Relocations.{entry_fault, entry_faults, entry_finding, has_symbol, has_symbols, holds, is_good_place, is_known, is_plain, links_to_symbols, moves_import, name_fault, overlaps, reaches, size_fault, table_fault, table_faults, table_finding};
ghost use Rattle.rw_reloc.specs.Relr.{is_relr};
ghost use Rattle.rw_reloc.specs.Targets.{is_copy, symbol_of};

use crate::abi::{
    R_X86_64_64, R_X86_64_COPY, R_X86_64_GLOB_DAT, R_X86_64_JUMP_SLOT, R_X86_64_RELATIVE,
};
use crate::entry::{ENTRY_SIZE, Entry};
use crate::kept::is_kept_at;
use crate::names::{Foreign, is_import_name};
use crate::relr::{NUMBER_SIZE, check_numbers, is_relr};
use crate::target::{is_undefined, symbol_of, target_of};
use rw_base::Fault;
use rw_base::places::Places;
use rw_elf::abi::{
    E_SHOFF, SECTION_HEADER_SIZE, SH_ENTSIZE, SH_SIZE, SHF_WRITE, SHT_DYNSYM, SHT_REL, SHT_RELA,
    SHT_RELR, STT_GNU_IFUNC, STT_TLS,
};
use rw_elf::number::u64_at;
use rw_elf::{Elf, Section, Symbol};

/// Where the header of a section begins in the file.
fn header_at(elf: &Elf, section: &Section) -> usize
    requires { section.now.index < header_count elf.now }
    ensures place { result ≡ header_at elf.now section.now.index }
    ensures within { result + 64 ≤ length elf.now }
{
    u64_at(elf.file(), E_SHOFF) as usize + SECTION_HEADER_SIZE * section.index as usize
}

/// What is wrong with the sizes of a table whose entries have this many bytes.
fn check_sizes(elf: &Elf, section: &Section, size: u64) -> Result<(), Fault>
    requires index { section.now.index < header_count elf.now }
    requires some { 0 < size }
    ensures { result_err result ≡ size_fault elf.now section.now size }
{
    let at = header_at(elf, section);
    if u64_at(elf.file(), at + SH_ENTSIZE) != size {
        return Err(Fault::BadHeader((at + SH_ENTSIZE) as u64));
    }
    if section.size % size != 0 {
        return Err(Fault::BadHeader((at + SH_SIZE) as u64));
    }
    Ok(())
}

/// What is wrong with a section as a relocation table.
#[tactic(auto, unfolding(crate::specs::Relocations::table_fault))]
fn check_table(elf: &Elf, section: &Section) -> Result<(), Fault>
    requires index { section.now.index < header_count elf.now }
    requires inside { IsTrue (is_relr section.now) → section.now.offset + section.now.size ≤ length elf.now }
    ensures { result_err result ≡ table_fault elf.now section.now }
{
    if section.is_of_kind(SHT_REL) && section.size > 0 {
        return Err(Fault::UnknownReloc(section.addr, 0));
    }
    if section.is_of_kind(SHT_RELA) {
        check_sizes(elf, section, ENTRY_SIZE)?;
    }
    if section.is_of_kind(SHT_RELR) {
        check_sizes(elf, section, NUMBER_SIZE)?;
    }
    if is_relr(section) {
        check_numbers(elf.file(), section)?;
    }
    Ok(())
}

/// What is wrong with the first loaded relocation table that has a fault as a whole.
#[tactic(auto, unfolding(crate::specs::Relocations::table_faults))]
pub(crate) fn check_tables(elf: &Elf) -> Result<(), Fault>
    ensures { result_err result ≡ first_of (table_faults elf.now) }
{
    // (for its clause `clean`: the file has no fault in these tables)
    let _file = elf.file();
    for section in elf.sections() {
        if section.is_allocated() {
            check_table(elf, section)?;
        }
    }
    Ok(())
}

/// Whether the type is one of the accepted ones.
fn is_known(kind: u32) -> bool
    ensures { result ≡ is_known kind }
{
    matches!(
        kind,
        R_X86_64_64 | R_X86_64_COPY | R_X86_64_GLOB_DAT | R_X86_64_JUMP_SLOT | R_X86_64_RELATIVE
    )
}

/// Whether a section links to the DYNSYM.
fn links_to_symbols(list: &[Section], section: &Section) -> bool
    ensures { result ≡ links_to_symbols list.now section.now }
{
    list.get(section.link as usize)
        .is_some_and(|linked| linked.is_of_kind(SHT_DYNSYM))
}

/// Whether the section with this index links to the DYNSYM.
fn has_symbols(list: &[Section], index: u32) -> bool
    ensures { result ≡ has_symbols list.now index }
{
    list.get(index as usize)
        .is_some_and(|section| links_to_symbols(list, section))
}

/// Whether a symbol is neither thread-local nor found by a function at load time.
fn is_plain(symbol: &Symbol) -> bool
    ensures { result ≡ is_plain symbol.now }
{
    symbol.sort != STT_TLS && symbol.sort != STT_GNU_IFUNC
}

/// Whether the entry has a symbol in the DYNSYM, to which its table links.
fn has_symbol(elf: &Elf, entry: &Entry) -> bool
    ensures { result ≡ has_symbol elf.now entry.now }
{
    symbol_of(elf, entry).is_some_and(|symbol| has_symbols(elf.sections(), entry.table)
        && is_plain(&symbol))
}

/// Whether the entry would move an imported address.
fn moves_import(elf: &Elf, entry: &Entry) -> bool
    ensures { result ≡ moves_import elf.now entry.now }
{
    symbol_of(elf, entry).is_some_and(|symbol| {
        entry.kind == R_X86_64_64 && is_undefined(&symbol) && entry.addend != 0
    })
}

/// What is wrong with the name of the symbol of an entry.
fn check_name(elf: &Elf, foreign: &Places<Foreign>, entry: &Entry) -> Result<(), Fault>
    requires fits { length elf.now < 2 ^ 32 }
    requires foreign { foreign.now ≡ elf.now }
    ensures { result_err result ≡ option_and_then (name_fault elf.now entry.now) (symbol_of elf.now entry.now) }
{
    let Some(symbol) = symbol_of(elf, entry) else {
        return Ok(());
    };
    if (is_undefined(&symbol) || entry.is_copy()) && !is_import_name(elf, foreign, symbol.name) {
        return Err(Fault::BadString(symbol.name.at));
    }
    Ok(())
}

/// Whether the section has the place of an entry that begins in it, and lets it be written.
fn holds(entry: &Entry, size: u64, section: &Section) -> bool
    requires { Covers entry.now.offset section.now }
    ensures { result ≡ holds entry.now.offset size (is_copy entry.now) section.now }
{
    section.has_flag(SHF_WRITE)
        && size <= section.size - (entry.offset - section.addr)
        && (entry.is_copy() || section.has_bytes())
}

/// Whether the place of an entry can be filled.
fn is_good_place(elf: &Elf, entry: &Entry) -> bool
    ensures { result ≡ is_good_place elf.now entry.now }
{
    let size = target_of(elf, entry).size();
    match elf.section_around(entry.offset) {
        Some(section) => {
            size > 0
                && holds(entry, size, &section)
                && (!entry.is_copy() || is_kept_at(elf, entry.offset))
        }
        None => false,
    }
}

/// What is wrong with an entry by itself.
#[tactic(auto, unfolding(crate::specs::Relocations::entry_fault))]
fn check_entry(elf: &Elf, foreign: &Places<Foreign>, entry: &Entry) -> Result<(), Fault>
    requires fits { length elf.now < 2 ^ 32 }
    requires foreign { foreign.now ≡ elf.now }
    ensures { result_err result ≡ entry_fault elf.now entry.now }
{
    if !is_known(entry.kind) {
        return Err(Fault::UnknownReloc(entry.offset, entry.kind));
    }
    if !(entry.is_relative() || has_symbol(elf, entry)) {
        return Err(Fault::UnknownReloc(entry.offset, entry.kind));
    }
    if moves_import(elf, entry) {
        return Err(Fault::UnknownReloc(entry.offset, entry.kind));
    }
    check_name(elf, foreign, entry)?;
    if !is_good_place(elf, entry) {
        return Err(Fault::BadRelocPlace(entry.offset));
    }
    Ok(())
}

/// Whether the place of an entry ends above an address.
fn reaches(elf: &Elf, entry: &Entry, address: u64) -> bool
    ensures { result ≡ reaches elf.now address entry.now }
{
    let size = target_of(elf, entry).size();
    u128::from(entry.offset) + u128::from(size) > u128::from(address)
}

/// What is wrong with the first entry that has a fault by itself or overlaps the one before it.
#[tactic(auto, unfolding(crate::specs::Relocations::entry_faults))]
pub(crate) fn check_entries(
    elf: &Elf,
    foreign: &Places<Foreign>,
    list: &[Entry],
) -> Result<(), Fault>
    requires fits { length elf.now < 2 ^ 32 }
    requires foreign { foreign.now ≡ elf.now }
    requires list { list.now ≡ entries elf.now }
    ensures { result_err result ≡ first_of (entry_faults elf.now) }
{
    for (place, entry) in list.iter().enumerate() {
        check_entry(elf, foreign, entry)?;
        if place > 0 && reaches(elf, &list[place - 1], entry.offset) {
            return Err(Fault::BadRelocPlace(entry.offset));
        }
    }
    Ok(())
}
