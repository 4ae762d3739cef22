//! The phase symbols.
ghost use Rattle.std.specs.Prelude.{◌≡◌, ◌+◌, ◌*◌, ◌^◌, ◌<◌, ◌≤◌, All, IfOk, OnOk, Some, length, filter, slice_get};
ghost use Rattle.std.specs.Result.{result_err};
ghost use Rattle.rw_base.specs.Answers.{Judges};
ghost use Rattle.rw_base.specs.Rules.{first};
ghost use Rattle.rw_elf.specs.Header.{header_table, header_count};
ghost use Rattle.rw_elf.specs.Section.{sections};
ghost use Rattle.rw_elf.specs.Symbols.{is_of_kind, of_kind, no_table, second, first_table_fault, symbol_rules, symbols, dynamic_symbols, symbols_of, IsReadable};
ghost use Rattle.rw_elf.specs.Tables.{IsNameIn};
ghost use Rattle.rw_elf.specs.declared.section.Section.{Section as SectionFields};

use crate::abi::{E_SHNUM, SHT_DYNSYM, SHT_SYMTAB};
use crate::number::u16_at;
use crate::scan::{NotGraphic, Zero};
use crate::section::Section;
use crate::symbol::{Symbol, check_symbol_table, check_symbols, read_symbols, strings_of};
use rw_base::places::Places;
use rw_base::{Fault, Refusal};
use std::alloc::{AllocError, Global};

/// The sections of a kind among some.
fn filter_by_kind(alloc: Global, list: &[Section], kind: u32) -> Result<Vec<Section>, AllocError>
    ensures { IfOk result (λ found. found.items ≡ filter (is_of_kind kind) list.now) }
{
    list.iter()
        .copied()
        .filter(|section| section.is_of_kind(kind))
        .collect(alloc)
}

/// The sections of a kind, by index.
fn sections_of_kind(
    alloc: Global,
    bytes: &[u8],
    list: &[Section],
    kind: u32,
) -> Result<Vec<Section>, AllocError>
    requires { list.now ≡ sections bytes.now }
    ensures found { IfOk result (λ found. found.items ≡ of_kind bytes.now kind) }
    ensures indices { IfOk result (λ found. All (λ s. s.index < header_count bytes.now) found.items) }
{
    let found = filter_by_kind(alloc, list, kind)?;
    Ok(found)
}

/// There has to be a symbol table.
fn check_any(tables: &[Section]) -> Result<(), Fault>
    ensures { result_err result ≡ no_table tables.now }
{
    if tables.is_empty() {
        return Err(Fault::Stripped);
    }
    Ok(())
}

/// There may be no second one.
fn check_alone(tables: &[Section]) -> Result<(), Fault>
    ensures { result_err result ≡ second tables.now }
{
    match tables.get(1) {
        Some(table) => Err(Fault::BadSection(table.index)),
        None => Ok(()),
    }
}

/// The first of some symbol tables, as a whole.
fn check_first(bytes: &[u8], list: &[Section], tables: &[Section]) -> Result<(), Fault>
    requires list { list.now ≡ sections bytes.now }
    requires within { header_table bytes.now + 64 * header_count bytes.now ≤ length bytes.now }
    requires header { 64 ≤ length bytes.now }
    requires indices { All (λ s. s.index < header_count bytes.now) tables.now }
    ensures fault { result_err result ≡ first_table_fault bytes.now tables.now }
    ensures readable { OnOk result ((t : SectionFields) → slice_get tables.now 0 ≡ Some t → IsReadable bytes.now t) }
{
    match tables.first() {
        Some(table) => check_symbol_table(bytes, list, table),
        None => Ok(()),
    }
}

/// The symbols of the first of some symbol tables.
#[tactic(auto, unfolding(crate::specs::Symbols::symbols_of))]
fn symbols_of(
    alloc: Global,
    bytes: &[u8],
    zeros: &Places<Zero>,
    list: &[Section],
    tables: &[Section],
) -> Result<Vec<Symbol>, AllocError>
    requires zeros { zeros.now ≡ bytes.now }
    requires fits { length bytes.now < 2 ^ 32 }
    requires list { list.now ≡ sections bytes.now }
    requires readable { (t : SectionFields) → slice_get tables.now 0 ≡ Some t → IsReadable bytes.now t }
    ensures symbols { IfOk result (λ symbols. symbols.items ≡ symbols_of bytes.now tables.now) }
    ensures names { IfOk result (λ symbols. All (λ s. IsNameIn bytes.now s.name) symbols.items) }
{
    if tables.is_empty() {
        return Ok(Vec::new(alloc));
    }
    let table = tables[0];
    match strings_of(list, &table) {
        None => Ok(Vec::new(alloc)),
        Some(strings) => read_symbols(alloc, bytes, zeros, table, *strings),
    }
}

/// The symbols of the SYMTAB and of the DYNSYM.
#[derive(Drop)]
pub(crate) struct SymbolTables {
    pub(crate) symbols: Vec<Symbol>,
    pub(crate) dynamic: Vec<Symbol>,
}

/// The phase symbols. The places of the zero bytes are let go before those of other bytes are
/// found, so that memory for one of both is enough.
#[tactic(auto, unfolding(crate::specs::Symbols::symbol_rules, crate::specs::Symbols::symbol_faults))]
pub(crate) fn symbol_tables(
    alloc: Global,
    bytes: &[u8],
    zeros: Places<Zero>,
    list: &[Section],
) -> Result<SymbolTables, Refusal>
    requires zeros { zeros ≡ bytes.now }
    requires fits { length bytes.now < 2 ^ 32 }
    requires header { 64 ≤ length bytes.now }
    requires within { header_table bytes.now + 64 * header_count bytes.now ≤ length bytes.now }
    requires list { list.now ≡ sections bytes.now }
    ensures judged { Judges result (first (symbol_rules bytes.now)) }
    ensures symbols { IfOk result (λ tables. tables.symbols.items ≡ symbols bytes.now) }
    ensures symbol_names { IfOk result (λ tables. All (λ s. IsNameIn bytes.now s.name) tables.symbols.items) }
    ensures dynamic { IfOk result (λ tables. tables.dynamic.items ≡ dynamic_symbols bytes.now) }
    ensures dynamic_names { IfOk result (λ tables. All (λ s. IsNameIn bytes.now s.name) tables.dynamic.items) }
{
    let tables = sections_of_kind(alloc, bytes, list, SHT_SYMTAB)?;
    let dynamic_tables = sections_of_kind(alloc, bytes, list, SHT_DYNSYM)?;
    check_any(&tables)?;
    check_alone(&tables)?;
    check_alone(&dynamic_tables)?;
    check_first(bytes, list, &tables)?;
    check_first(bytes, list, &dynamic_tables)?;
    let symbols = symbols_of(alloc, bytes, &zeros, list, &tables)?;
    let dynamic = symbols_of(alloc, bytes, &zeros, list, &dynamic_tables)?;
    drop(zeros);
    let breaks = Places::<NotGraphic>::of(alloc, bytes)?;
    check_symbols(&breaks, u16_at(bytes, E_SHNUM), &symbols)?;
    Ok(SymbolTables { symbols, dynamic })
}
