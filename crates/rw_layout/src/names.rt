//! The addresses of names.

ghost use Rattle.std.specs.Prelude.{◌≡◌, ◌≢◌, ◌<◌, ◌^◌, true, false, Some, None, IfOk, length, slice_get, slice_set};
ghost use Rattle.asm_items.specs.Lines.{copies_of};
ghost use Rattle.rw_layout.specs.Program.{IsText, seen, shown};
ghost use Rattle.rw_layout.specs.NameTable.{IsTable, copied_at, named_at, own_among};
ghost use Rattle.rw_layout.specs.NameTable as table;

use crate::units::LEAST_ALIGN;
use asm_items::{Item, NameId, Sym};
use asm_read::Text;
use std::alloc::{AllocError, Global};

fn symbol_name(symbol: Sym) -> Option<NameId>
    ensures { result ≡ table.symbol_name symbol }
{
    match symbol {
        Sym::Named(id, _) => Some(id),
        _ => None,
    }
}

// The name that a line uses.
fn name_used(item: &Item) -> Option<NameId>
    ensures { result ≡ table.name_used item.now }
{
    match item {
        Item::Ins(insn) => match insn.reference() {
            Some(symbol) => symbol_name(symbol),
            None => None,
        },
        Item::Quad(symbol) => symbol_name(*symbol),
        _ => None,
    }
}

// The name that a line copies.
fn name_copied(item: &Item) -> Option<NameId>
    ensures { result ≡ table.name_copied item.now }
{
    match item {
        Item::Copy(id, _) => Some(*id),
        _ => None,
    }
}

// No address for any name.
fn no_addresses(alloc: Global, text: &Text) -> Result<Vec<Option<u64>>, AllocError>
    ensures { IfOk result (λ list. IsTable text.now.names list.items (λ name. None)) }
{
    let mut list = Vec::with_capacity(alloc, text.names.len())?;
    for _ in 0..text.names.len() {
        list.push(None)?;
    }
    Ok(list)
}

// Gives a name its address, unless it has one.
fn give(list: &mut Vec<Option<u64>>, id: NameId, address: u64) -> bool
    requires { id.0 < length list.old.items }
    ensures given { result ≡ true → (slice_get list.old.items id.0 ≡ Some None) × (list.new.items ≡ slice_set list.old.items id.0 (Some address)) }
    ensures kept { result ≡ false → (slice_get list.old.items id.0 ≢ Some None) × (list.new.items ≡ list.old.items) }
{
    let k = id.0 as usize;
    if list[k].is_none() {
        list[k] = Some(address);
        true
    } else {
        false
    }
}

// Gives the names of copies their addresses, each where it comes first.
fn name_copies(text: &Text, bases: &[u64], list: &mut Vec<Option<u64>>)
    requires formed { IsText (seen text.now) }
    requires bases { length bases.now ≡ length (copies_of (shown (seen text.now))) }
    requires none { IsTable text.now.names list.old.items (λ name. None) }
    ensures { IsTable text.now.names list.new.items (copied_at bases.now (copies_of (shown (seen text.now)))) }
{
    text.names.are_distinct();
    let mut copies = 0;
    for i in 0..text.items.len() {
        if let Some(id) = name_copied(&text.items[i]) {
            give(list, id, bases[copies]);
            copies += 1;
        }
    }
}

/// The addresses of the names that lines copy or use, by their numbers: of a copy, its base, and of another the next from
/// the first on, by its first use.
pub(crate) fn name_addresses(
    alloc: Global,
    text: &Text,
    bases: &[u64],
    first: u64,
) -> Result<Vec<Option<u64>>, AllocError>
    requires formed { IsText (seen text.now) }
    requires fits { first < 2 ^ 62 }
    requires bases { length bases.now ≡ length (copies_of (shown (seen text.now))) }
    ensures { IfOk result (λ list. IsTable text.now.names list.items (named_at bases.now first (copies_of (shown (seen text.now))) (own_among (shown (seen text.now)) (shown (seen text.now))))) }
{
    text.names.are_distinct();
    let mut list = no_addresses(alloc, text)?;
    name_copies(text, bases, &mut list);
    let mut next = first;
    for i in 0..text.items.len() {
        if let Some(id) = name_used(&text.items[i]) {
            if give(&mut list, id, next) {
                next += LEAST_ALIGN;
            }
        }
    }
    Ok(list)
}
