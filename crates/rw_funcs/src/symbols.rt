//! The symbols of functions, and the bytes of a function.

ghost use Rattle.std.specs.Prelude.{◌≡◌, All, IfOk, OnOk, take, drop};
ghost use Rattle.std.specs.List.{dedup};
ghost use Rattle.rw_elf.specs.Symbols.{considered_symbols};
ghost use Rattle.rw_elf.specs.Tables.{IsNameIn};
ghost use Rattle.rw_funcs.specs.Functions.{is_code_at, is_function, function_symbols, end_of, by_range, same_range, its_section, code_of_symbol};

use rw_elf::{Elf, NameAt, Section, Symbol};
use std::alloc::{AllocError, Global};

const NO_SECTION: Section = Section {
    index: 0,
    name: NameAt { at: 0, len: 0 },
    kind: 0,
    flags: 0,
    addr: 0,
    offset: 0,
    size: 0,
    link: 0,
    align: 0,
};

fn is_code_at(elf: &Elf, index: u16) -> bool
    ensures { result ≡ is_code_at elf.now index }
{
    match elf.sections().get(usize::from(index)) {
        Some(section) => elf.is_code(section),
        None => false,
    }
}

/// Whether a symbol is that of a function: of size above 0, in a code section.
#[tactic(auto, unfolding(crate::specs::Functions::is_function))]
pub(crate) fn is_function(elf: &Elf, symbol: &Symbol) -> bool
    ensures { result ≡ is_function elf.now symbol.now }
{
    symbol.is_considered() && symbol.size > 0 && is_code_at(elf, symbol.section)
}

// The symbols of functions, in table order.
#[tactic(auto, unfolding(crate::specs::Functions::function_symbols))]
fn function_symbols(alloc: Global, elf: &Elf) -> Result<Vec<Symbol>, AllocError>
    ensures list { IfOk result (λ list. list.items ≡ function_symbols elf.now) }
    ensures names { IfOk result (λ list. All (λ s. IsNameIn elf.now s.name) list.items) }
{
    elf.symbols()
        .iter()
        .copied()
        .filter(|symbol| is_function(elf, symbol))
        .collect(alloc)
}

/// The address behind a function.
pub(crate) fn end_of(function: &Symbol) -> u128
    ensures { result ≡ end_of function.now }
{
    u128::from(function.value) + u128::from(function.size)
}

// The considered symbols, in table order.
#[tactic(auto, unfolding(rw_elf::specs::Symbols::considered_symbols))]
fn considered_symbols(alloc: Global, elf: &Elf) -> Result<Vec<Symbol>, AllocError>
    ensures list { IfOk result (λ list. list.items ≡ considered_symbols elf.now) }
    ensures names { IfOk result (λ list. All (λ s. IsNameIn elf.now s.name) list.items) }
{
    elf.symbols()
        .iter()
        .copied()
        .filter(|symbol| symbol.is_considered())
        .collect(alloc)
}

fn sort_by_range(list: &mut Vec<Symbol>) -> Result<(), AllocError>
    ensures { OnOk result (list.new.items ≡ by_range list.old.items) }
{
    list.sort_by_key(|function| (function.value, end_of(function)))?;
    Ok(())
}

/// The symbols of functions, by start and then end.
pub(crate) fn functions_by_range(alloc: Global, elf: &Elf) -> Result<Vec<Symbol>, AllocError>
    ensures list { IfOk result (λ list. list.items ≡ by_range (function_symbols elf.now)) }
    ensures names { IfOk result (λ list. All (λ s. IsNameIn elf.now s.name) list.items) }
{
    let mut list = function_symbols(alloc, elf)?;
    sort_by_range(&mut list)?;
    Ok(list)
}

/// The considered symbols, by start and then end.
pub(crate) fn considered_by_range(alloc: Global, elf: &Elf) -> Result<Vec<Symbol>, AllocError>
    ensures list { IfOk result (λ list. list.items ≡ by_range (considered_symbols elf.now)) }
    ensures names { IfOk result (λ list. All (λ s. IsNameIn elf.now s.name) list.items) }
{
    let mut list = considered_symbols(alloc, elf)?;
    sort_by_range(&mut list)?;
    Ok(list)
}

/// Keeps the first symbol of each range, of symbols in order.
pub(crate) fn keep_first_of_range(list: &mut Vec<Symbol>)
    ensures { list.new.items ≡ dedup same_range list.old.items }
{
    list.dedup_by_key(|function| (function.value, function.size));
}

fn its_section(elf: &Elf, function: &Symbol) -> Section
    ensures { result ≡ its_section elf.now function.now }
{
    match elf.sections().get(usize::from(function.section)) {
        Some(section) => *section,
        None => NO_SECTION,
    }
}

/// The bytes from a place on.
#[tactic(auto, using(std::proofs::lemmas::List::take_rest))]
pub(crate) fn rest(bytes: &[u8], at: u64) -> &[u8]
    ensures { result.now ≡ drop at bytes.now }
{
    if at >= bytes.len() as u64 {
        &[]
    } else {
        &bytes[at as usize..]
    }
}

/// The first n bytes.
pub(crate) fn front(bytes: &[u8], n: u64) -> &[u8]
    ensures { result.now ≡ take n bytes.now }
{
    if n >= bytes.len() as u64 {
        bytes
    } else {
        &bytes[..n as usize]
    }
}

/// The bytes of a function.
#[tactic(auto, unfolding(crate::specs::Functions::code_of_symbol))]
pub(crate) fn function_code<'a>(elf: &'a Elf, function: &Symbol) -> &'a [u8]
    ensures { result.now ≡ code_of_symbol elf.now function.now }
{
    let section = its_section(elf, function);
    let bytes = elf.section_bytes(&section);
    front(
        rest(bytes, function.value.saturating_sub(section.addr)),
        function.size,
    )
}
