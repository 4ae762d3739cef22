//! All relocation entries of a file that have an effect.
ghost use Rattle.std.specs.Prelude.{◌≡◌, ◌+◌, ◌∷◌, [], ◌++◌, ◌≤◌, IfOk, IsTrue, None, OnOk, length, filter};
ghost use Rattle.std.specs.List.{flat_map};
ghost use Rattle.rw_base.specs.Rules.{first_of};
ghost use Rattle.rw_elf.specs.Section.{sections};
ghost use Rattle.rw_reloc.specs.Entries.{by_offset, entries, entries_in, entries_of, has_effect, has_entries, HaveTheirIndex};
ghost use Rattle.rw_reloc.specs.Relocations.{table_faults};
ghost use Rattle.rw_reloc.specs.Relr.{is_relr, number_faults, number_in_place, relative_entries, relative_entry, relr_words};

use crate::abi::R_X86_64_RELATIVE;
use crate::entry::{ENTRY_SIZE, Entry, read_entry};
use crate::relr::{is_relr, relr_words};
use rw_elf::abi::SHT_RELA;
use rw_elf::number::u64_at;
use rw_elf::{Elf, Section};
use std::alloc::{AllocError, Global};

/// Whether a section is a table of entries that is loaded.
fn has_entries(section: &Section) -> bool
    ensures { result ≡ has_entries section.now }
{
    section.is_placed() && section.kind == SHT_RELA
}

/// Adds an entry that has an effect.
fn add_entry(list: &mut Vec<Entry>, entry: Entry) -> Result<(), AllocError>
    ensures { OnOk result (list.new.items ≡ list.old.items ++ filter has_effect (entry ∷ [])) }
{
    if entry.has_effect() {
        list.push(entry)?;
    }
    Ok(())
}

/// Adds the entries of a table.
fn add_entries(list: &mut Vec<Entry>, bytes: &[u8], table: &Section) -> Result<(), AllocError>
    requires { table.now.offset + table.now.size ≤ length bytes.now }
    ensures { OnOk result (list.new.items ≡ list.old.items ++ entries_in bytes.now table.now) }
{
    for index in 0..table.size / ENTRY_SIZE {
        add_entry(list, read_entry(bytes, table, index))?;
    }
    Ok(())
}

/// The number of the 8 bytes in place at an address, or 0 where the file has no such bytes.
#[tactic(auto, unfolding(crate::specs::Relr::number_in_place))]
fn number_in_place(elf: &Elf, address: u64) -> u64
    ensures { result ≡ number_in_place elf.now address }
{
    // (for its clause `clean`: the file has no fault in these tables)
    let _file = elf.file();
    match elf.bytes_at(address, 8) {
        Some(word) => u64_at(word, 0),
        None => 0,
    }
}

/// A word that a table names, as an entry.
#[tactic(auto, unfolding(crate::specs::Relr::relative_entry))]
fn relative_entry(elf: &Elf, table: &Section, address: u64, index: u64) -> Entry
    ensures { result ≡ relative_entry elf.now table.now address index }
{
    Entry {
        offset: address,
        kind: R_X86_64_RELATIVE,
        symbol: 0,
        addend: number_in_place(elf, address),
        table: table.index,
        index,
    }
}

/// Adds the words that a table in compact form names.
#[tactic(auto, unfolding(crate::specs::Relr::relative_entries))]
fn add_relative(
    list: &mut Vec<Entry>,
    elf: &Elf,
    table: &Section,
    words: &[u64],
) -> Result<(), AllocError>
    requires { words.now ≡ relr_words elf.now table.now }
    ensures { OnOk result (list.new.items ≡ list.old.items ++ relative_entries elf.now table.now) }
{
    for (index, word) in words.iter().enumerate() {
        list.push(relative_entry(elf, table, *word, index as u64))?;
    }
    Ok(())
}

/// Adds the entries of a section, if it is a table of either form that is loaded.
fn add_section(
    alloc: Global,
    list: &mut Vec<Entry>,
    elf: &Elf,
    section: &Section,
) -> Result<(), AllocError>
    requires rela { IsTrue (has_entries section.now) → section.now.offset + section.now.size ≤ length elf.now }
    requires relr { IsTrue (is_relr section.now) → section.now.offset + section.now.size ≤ length elf.now }
    requires numbers { IsTrue (is_relr section.now) → first_of (number_faults elf.now section.now) ≡ None }
    ensures { OnOk result (list.new.items ≡ list.old.items ++ entries_of elf.now section.now) }
{
    if has_entries(section) {
        add_entries(list, elf.file(), section)?;
    } else if is_relr(section) {
        let words = relr_words(alloc, elf.file(), section)?;
        add_relative(list, elf, section, &words)?;
    }
    Ok(())
}

/// The entries of all tables, by table and index.
fn read_entries(alloc: Global, elf: &Elf) -> Result<Vec<Entry>, AllocError>
    requires { first_of (table_faults elf.now) ≡ None }
    ensures { IfOk result (λ list. list.items ≡ flat_map (entries_of elf.now) (sections elf.now)) }
{
    // (for its clause `clean`: the file has no fault in these tables)
    let _file = elf.file();
    let mut list = Vec::new(alloc);
    for section in elf.sections() {
        add_section(alloc, &mut list, elf, section)?;
    }
    Ok(list)
}

/// The entries by `r_offset`, table and index.
fn sort_by_offset(list: &mut Vec<Entry>) -> Result<(), AllocError>
    requires { HaveTheirIndex list.old.items }
    ensures { OnOk result (list.new.items ≡ by_offset list.old.items) }
{
    list.sort_by_key(|entry| (entry.offset, entry.table, entry.index))?;
    Ok(())
}

/// The entries of a file that have an effect, in their order.
#[tactic(auto, unfolding(crate::specs::Entries::entries))]
pub(crate) fn ordered_entries(alloc: Global, elf: &Elf) -> Result<Vec<Entry>, AllocError>
    requires { first_of (table_faults elf.now) ≡ None }
    ensures { IfOk result (λ list. list.items ≡ entries elf.now) }
{
    let mut list = read_entries(alloc, elf)?;
    sort_by_offset(&mut list)?;
    Ok(list)
}
