//! The words of tables, by the addresses at which they start.

ghost use Rattle.std.specs.Prelude.{◌≡◌, ◌≤◌, ◌^◌, All, IfOk, OnOk, Some, option_map};
ghost use Rattle.rw_tables.specs.Entries.{AddsEntry, AddsWords, AreEntriesOf};
ghost use Rattle.rw_tables.specs.Tables.{end_of, entry_of, target_at};

use crate::table::{Table, target_at};
use rw_elf::Elf;
use std::alloc::{AllocError, Global};
use std::collections::BTreeMap;

// Adds an entry, unless there is one at that address.
fn add_entry(
    entries: &mut BTreeMap<u64, (u64, u64)>,
    address: u64,
    entry: (u64, u64),
) -> Result<(), AllocError>
    ensures { OnOk result (AddsEntry entries.old entries.new address (Some entry)) }
{
    if entries.contains_key(&address) {
        return Ok(());
    }
    match entries.insert(address, entry) {
        Ok(_) => Ok(()),
        Err(_) => Err(AllocError),
    }
}

// Adds the word of the table with a base that starts at an address.
fn add_word(
    elf: &Elf,
    base: u64,
    address: u64,
    entries: &mut BTreeMap<u64, (u64, u64)>,
) -> Result<(), AllocError>
    ensures { OnOk result (AddsEntry entries.old entries.new address (option_map (entry_of base) (target_at elf.now base address))) }
{
    match target_at(elf, base, address) {
        Some(target) => add_entry(entries, address, (target, base)),
        None => Ok(()),
    }
}

fn add_words(
    elf: &Elf,
    table: &Table,
    entries: &mut BTreeMap<u64, (u64, u64)>,
) -> Result<(), AllocError>
    requires { end_of table.now ≤ 2 ^ 47 }
    ensures { OnOk result (AddsWords elf.now table.now entries.old entries.new) }
{
    for k in 0..table.count {
        add_word(elf, table.base, table.base + 4 * k, entries)?;
    }
    Ok(())
}

/// The point to which each word of some tables leads, and the base of its table, by the address at which the word starts.
pub(crate) fn entries_of(
    alloc: Global,
    elf: &Elf,
    tables: &[Table],
) -> Result<BTreeMap<u64, (u64, u64)>, AllocError>
    requires { All (λ t. end_of t ≤ 2 ^ 47) tables.now }
    ensures { IfOk result (AreEntriesOf elf.now tables.now) }
{
    let mut entries = BTreeMap::new(alloc);
    for table in tables {
        add_words(elf, table, &mut entries)?;
    }
    Ok(entries)
}
