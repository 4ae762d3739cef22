//! The lines of the instructions, by their addresses.

ghost use Rattle.std.specs.Prelude.{◌≡◌, ◌<◌, ◌≤◌, ℕ, List, IfOk, length, slice_index};
ghost use Rattle.std.specs.List.Sorted.{IsNonDecreasingBy};
ghost use Rattle.asm_items.specs.Named.{named};
ghost use Rattle.rw_layout.specs.Places.{AreInsns, insn_at};
ghost use Rattle.rw_layout.specs.Places as places;
ghost use Rattle.rw_layout.specs.Program.{IsText, seen, shown};

use asm_items::Item;
use asm_read::Text;
use std::alloc::{AllocError, Global};

fn is_insn(item: &Item) -> bool
    ensures { (names : List (List ℕ)) → result ≡ places.is_insn (named names item.now) }
{
    match item {
        Item::Ins(_) => true,
        _ => false,
    }
}

fn count_insns(items: &[Item]) -> usize {
    items.iter().filter(|item| is_insn(item)).count()
}

fn address_of(addresses: &[u64], line: u32) -> u64
    ensures { result ≡ slice_index addresses.now line }
{
    match addresses.get(line as usize) {
        Some(address) => *address,
        None => 0,
    }
}

/// The lines of the instructions, by ascending address.
pub(crate) fn insns_by_address(
    alloc: Global,
    text: &Text,
    addresses: &[u64],
) -> Result<Vec<u32>, AllocError>
    requires { IsText (seen text.now) }
    ensures ascend { IfOk result (λ lines. IsNonDecreasingBy (λ q. slice_index addresses.now q) lines.items) }
    ensures insns { IfOk result (λ lines. AreInsns lines.items (shown (seen text.now)) (length text.now.items.items)) }
{
    let mut lines = Vec::with_capacity(alloc, count_insns(&text.items))?;
    for i in 0..text.items.len() as u32 {
        let item = &text.items[i as usize];
        if is_insn(item) {
            lines.push(i)?;
        }
    }
    lines.sort_unstable_by_key(|line| address_of(addresses, *line));
    Ok(lines)
}

// How many of the lines, which ascend by address, have an address below this one.
fn count_below(lines: &[u32], addresses: &[u64], address: u64) -> usize
    requires { IsNonDecreasingBy (λ q. slice_index addresses.now q) lines.now }
    ensures within { result ≤ length lines.now }
    ensures below { (k : ℕ) → k < result → slice_index addresses.now (slice_index lines.now k) < address }
    ensures above { (k : ℕ) → result ≤ k → k < length lines.now → address ≤ slice_index addresses.now (slice_index lines.now k) }
{
    lines.partition_point(|line| address_of(addresses, *line) < address)
}

/// The line at an address, among lines that ascend by address.
pub(crate) fn insn_at(lines: &[u32], addresses: &[u64], address: u64) -> Option<u32>
    requires { IsNonDecreasingBy (λ q. slice_index addresses.now q) lines.now }
    ensures { result ≡ insn_at lines.now addresses.now address }
{
    let next = count_below(lines, addresses, address);
    if next >= lines.len() {
        return None;
    }
    let line = lines[next];
    if address_of(addresses, line) == address {
        Some(line)
    } else {
        None
    }
}
