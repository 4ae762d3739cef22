//! What entries put at their places.
ghost use Rattle.std.specs.Prelude.{◌≡◌, IfSome};
ghost use Rattle.rw_elf.specs.Tables.{IsNameIn};
ghost use Rattle.rw_reloc.specs.Targets.{is_undefined, symbol_of, symbol_target, target_of};

use crate::abi::R_X86_64_64;
use crate::entry::Entry;
use crate::slot::Target;
use rw_elf::abi::SHN_UNDEF;
use rw_elf::{Elf, Symbol};

/// The symbol of an entry in the DYNSYM.
#[tactic(auto, unfolding(crate::specs::Targets::symbol_of))]
pub(crate) fn symbol_of(elf: &Elf, entry: &Entry) -> Option<Symbol>
    ensures symbol { result ≡ symbol_of elf.now entry.now }
    ensures name { IfSome result (λ s. IsNameIn elf.now s.name) }
{
    if entry.is_relative() || entry.symbol == 0 {
        return None;
    }
    elf.dynamic_symbols().get(entry.symbol as usize).copied()
}

/// Whether no section of the file defines a symbol.
pub(crate) fn is_undefined(symbol: &Symbol) -> bool
    ensures { result ≡ is_undefined symbol.now }
{
    symbol.section == SHN_UNDEF
}

/// What an entry with this symbol puts at its place.
fn symbol_target(entry: &Entry, symbol: &Symbol) -> Target
    ensures { result ≡ symbol_target entry.now symbol.now }
{
    if entry.is_copy() {
        Target::Copy(entry.symbol, symbol.size)
    } else if is_undefined(symbol) {
        Target::Import(entry.symbol)
    } else if entry.kind == R_X86_64_64 {
        Target::To(symbol.value.wrapping_add(entry.addend))
    } else {
        Target::To(symbol.value)
    }
}

/// What an entry puts at its place.
#[tactic(auto, unfolding(crate::specs::Targets::target_of))]
pub(crate) fn target_of(elf: &Elf, entry: &Entry) -> Target
    ensures { result ≡ target_of elf.now entry.now }
{
    match symbol_of(elf, entry) {
        Some(symbol) => symbol_target(entry, &symbol),
        None => Target::To(entry.addend),
    }
}
