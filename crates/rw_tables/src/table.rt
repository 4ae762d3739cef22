//! What a jump table has to be.

ghost use Rattle.std.specs.Prelude.{◌≡◌, ℕ, ◌+◌, ◌*◌, ◌<◌, ◌≤◌, ◌^◌, ◌||◌, List, Some, false, true, length, slice_get};
ghost use Rattle.std.specs.List.{list_all, list_any, range_with_len};
ghost use Rattle.std.specs.Option.{option_map_or};
ghost use Rattle.rw_tables.specs.declared.table.Table.{Table as TableFields};
ghost use Rattle.rw_tables.specs.Known.{AreLed, Knows, count_of, number_or_zero};
ghost use Rattle.rw_tables.specs.Tables.{end_of, holds, is_constant, leads, all_lead, overlaps, is_good, target_at, word_target};

use crate::known::{count_of, first_above, last_below};
use byteorder::{ByteOrder, LittleEndian};
use rw_base::{Width, sign};
use rw_elf::abi::SHF_WRITE;
use rw_elf::{Elf, Section};
use rw_funcs::Functions;
use std::collections::BTreeMap;

/// A jump table: words of 4 bytes, each of which is a signed distance from the first byte of the table to a point.
#[derive(Clone, Copy, Debug, PartialEq, Eq)]
pub struct Table {
    /// The address of its first byte, in the file.
    pub base: u64,
    /// The number of its words, from 1 to 65,536.
    pub count: u64,
}

fn end_of(table: &Table) -> u128
    ensures { result ≡ end_of table.now }
{
    u128::from(table.base) + 4 * u128::from(table.count)
}

fn holds(table: &Table, section: &Section) -> bool
    ensures { result ≡ holds table.now section.now }
{
    let end = u128::from(section.addr) + u128::from(section.size);
    !section.has_flag(SHF_WRITE)
        && section.addr <= table.base
        && u128::from(table.base) < end
        && end_of(table) <= end
}

// Whether the table lies in one kept section that isn't written. The time is logarithmic in the number of sections.
fn is_constant(elf: &Elf, table: &Table) -> bool
    ensures { result ≡ is_constant elf.now table.now }
{
    // (for its clause `clean`: the file has no fault in these tables)
    let _file = elf.file();
    match elf.kept_around(table.base) {
        Some(number) => holds(table, &elf.kept()[number as usize]),
        None => false,
    }
}

fn word_target(base: u64, word: &[u8]) -> u64
    requires { length word.now ≡ 4 }
    ensures { result ≡ word_target base word.now }
{
    base.wrapping_add(sign(u64::from(LittleEndian::read_u32(word)), Width::L))
}

/// Where the word at an address leads, where the file has its bytes.
pub(crate) fn target_at(elf: &Elf, base: u64, address: u64) -> Option<u64>
    ensures { result ≡ target_at elf.now base address }
{
    // (for its clause `clean`: the file has no fault in these tables)
    let _file = elf.file();
    let word = elf.bytes_at(address, 4)?;
    Some(word_target(base, word))
}

fn leads(elf: &Elf, functions: &Functions, base: u64, address: u64) -> bool
    requires { functions.now ≡ elf.now }
    ensures { result ≡ leads elf.now base address }
{
    match target_at(elf, base, address) {
        Some(target) => functions.is_point(target),
        None => false,
    }
}

// Whether each word of a table leads to a point, where the first words do.
fn all_lead(elf: &Elf, functions: &Functions, table: &Table, first: u64) -> bool
    requires file { functions.now ≡ elf.now }
    requires first { (k : ℕ) → k < first → leads elf.now table.now.base (table.now.base + 4 * k) ≡ true }
    requires fits { end_of table.now ≤ 2 ^ 47 }
    ensures { result ≡ all_lead elf.now table.now }
{
    for k in first..table.count {
        if !leads(elf, functions, table.base, table.base + 4 * k) {
            return false;
        }
    }
    true
}

fn overlaps(table: &Table, other: &Table) -> bool
    ensures { result ≡ overlaps table.now other.now }
{
    table.base != other.base
        && u128::from(other.base) < end_of(table)
        && u128::from(table.base) < end_of(other)
}

fn overlaps_some(table: &Table, other: Option<Table>) -> bool
    ensures { result ≡ option_map_or (overlaps table.now) other false }
{
    match other {
        Some(other) => overlaps(table, &other),
        None => false,
    }
}

fn either(a: bool, b: bool) -> bool
    ensures { result ≡ (a || b) }
{
    a || b
}

// Whether a table overlaps an earlier one: if it does, it overlaps one of its neighbours.
fn overlaps_any(table: &Table, known: &BTreeMap<u64, u64>) -> bool
    ensures { (earlier : List TableFields) → Knows earlier known.now → result ≡ list_any (overlaps table.now) earlier }
{
    let low = last_below(known, table.base);
    let high = first_above(known, table.base);
    let below = overlaps_some(table, low);
    let above = overlaps_some(table, high);
    either(below, above)
}

fn first_unknown(known: &BTreeMap<u64, u64>, base: u64) -> u64
    ensures { result ≡ number_or_zero (count_of known.now base) }
{
    match count_of(known, base) {
        Some(count) => count,
        None => 0,
    }
}

/// Whether a table is good beside those that are known. Only words that no known table of its base has are read.
pub(crate) fn is_good(
    elf: &Elf,
    functions: &Functions,
    known: &BTreeMap<u64, u64>,
    table: &Table,
) -> bool
    requires file { functions.now ≡ elf.now }
    requires led { AreLed elf.now known.now }
    ensures { (earlier : List TableFields) → Knows earlier known.now → result ≡ is_good elf.now earlier table.now }
{
    // (for its clause `clean`: the file has no fault in these tables)
    let _file = elf.file();
    if !is_constant(elf, table) {
        return false;
    }
    if !all_lead(elf, functions, table, first_unknown(known, table.base)) {
        return false;
    }
    !overlaps_any(table, known)
}
