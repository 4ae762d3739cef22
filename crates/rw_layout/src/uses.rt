//! Whether what lines use is defined.

ghost use Rattle.std.specs.Prelude.{◌≡◌, Contains, map, not, position, true};
ghost use Rattle.asm_items.specs.Named.{named};
ghost use Rattle.asm_items.specs.Formed.{AreItems, is_item};
ghost use Rattle.asm_items.specs.declared.item.Item.TheVariants.{Name};
ghost use Rattle.rw_layout.specs.Order.{counts_name};
ghost use Rattle.rw_layout.specs.Keys as keys;
ghost use Rattle.rw_layout.specs.Uses.{is_counts_line};

use crate::definitions::Definitions;
use crate::order::has_counts_name;
use asm_items::{Item, Names, Sym};

fn has_entry(defined: &Definitions, key: (u8, u64)) -> bool
    ensures { result ≡ keys.has_entry defined.now.entries key }
{
    defined.contains_key(&key)
}

fn is_known(defined: &Definitions, counters: bool, symbol: Sym) -> bool
    ensures { result ≡ keys.is_known defined.now.entries counters symbol }
{
    match symbol {
        Sym::Code(a) => has_entry(defined, (0, a)),
        Sym::Section(n, _) => has_entry(defined, (2, u64::from(n))),
        Sym::Named(id, offset) => offset == 0 || has_entry(defined, (4, u64::from(id.0))),
        Sym::Counter(_) => counters,
    }
}

fn is_known_or_none(defined: &Definitions, counters: bool, symbol: Option<Sym>) -> bool
    ensures { result ≡ keys.is_known_or_none defined.now.entries counters symbol }
{
    match symbol {
        Some(symbol) => is_known(defined, counters, symbol),
        None => true,
    }
}

fn uses_known(defined: &Definitions, counters: bool, item: &Item) -> bool
    ensures { result ≡ keys.uses_known defined.now.entries counters item.now }
{
    match item {
        Item::Ins(insn) => is_known_or_none(defined, counters, insn.reference()),
        Item::Quad(symbol) => is_known(defined, counters, *symbol),
        Item::LongDiff(code, table) => {
            has_entry(defined, (0, *code)) && has_entry(defined, (3, *table))
        }
        _ => true,
    }
}

fn is_counts_line(names: &Names, item: &Item) -> bool
    requires { is_item (named names.now item.now) ≡ true }
    ensures { result ≡ is_counts_line (named names.now item.now) }
{
    match item {
        Item::Name(id) => has_counts_name(names, *id),
        _ => false,
    }
}

/// The first line that uses what isn't defined.
pub(crate) fn first_unknown(items: &[Item], defined: &Definitions, counters: bool) -> Option<usize>
    ensures { result ≡ position (λ item. not (keys.uses_known defined.now.entries counters item)) items.now }
{
    items
        .iter()
        .position(|item| !uses_known(defined, counters, item))
}

/// Whether a line names the counters.
pub(crate) fn has_counters(names: &Names, items: &[Item]) -> bool
    requires { AreItems (map (named names.now) items.now) }
    ensures { keys.Tells result (Contains (map (named names.now) items.now) (Name counts_name)) }
{
    for item in items {
        if is_counts_line(names, item) {
            return true;
        }
    }
    false
}
