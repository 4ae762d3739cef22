//! The lines that define something, by ascending key.

ghost use Rattle.std.specs.Prelude.{◌≡◌, ◌<◌, ◌≤◌, ◌^◌, true, false, ℕ, Some, IfOk, length, slice_get};
ghost use Rattle.std.specs.Map.{lookup};
ghost use Rattle.rw_layout.specs.Checks.{Nowhere};
ghost use Rattle.rw_layout.specs.Keys.{AreKeyed, Ascend, Key, KeyTwice, is_key};
ghost use Rattle.rw_layout.specs.Keys as keys;

use crate::definitions::{count_keyed, key_of};
use asm_items::Item;
use std::alloc::{AllocError, Global};

/// The kind and the number of what a line defines, and the line.
pub(crate) type KeyedLine = ((u8, u64), u32);

/// The lines that define something, by ascending key, where no line defines again what an earlier one does.
pub(crate) fn lines_by_key(alloc: Global, items: &[Item]) -> Result<Vec<KeyedLine>, AllocError>
    requires few { length items.now < 2 ^ 32 }
    requires once { Nowhere (KeyTwice items.now) }
    ensures ascend { IfOk result (λ lines. Ascend lines.items) }
    ensures keyed { IfOk result (λ lines. AreKeyed lines.items items.now (length items.now)) }
{
    let mut lines = Vec::with_capacity(alloc, count_keyed(items))?;
    for (i, item) in items.iter().enumerate() {
        if let Some(key) = key_of(item) {
            lines.push((key, i as u32))?;
        }
    }
    lines.sort_unstable_by_key(|line| line.0);
    Ok(lines)
}

fn comes_before(a: (u8, u64), b: (u8, u64)) -> bool
    ensures { result ≡ keys.comes_before a b }
{
    a.0 < b.0 || (a.0 == b.0 && a.1 < b.1)
}

// How many of the lines, which ascend by key, have a key before this one.
fn count_before(lines: &[KeyedLine], key: (u8, u64)) -> usize
    requires { Ascend lines.now }
    ensures before { (k : ℕ) (line : Key × ℕ) → k < result → slice_get lines.now k ≡ Some line → keys.comes_before line.0 key ≡ true }
    ensures behind { (k : ℕ) (line : Key × ℕ) → result ≤ k → slice_get lines.now k ≡ Some line → keys.comes_before line.0 key ≡ false }
{
    lines.partition_point(|line| comes_before(line.0, key))
}

/// The line of a key, among lines by ascending key. The time is logarithmic.
pub(crate) fn line_of(lines: &[KeyedLine], key: (u8, u64)) -> Option<u32>
    requires { Ascend lines.now }
    ensures { result ≡ lookup (is_key key) lines.now }
{
    let next = count_before(lines, key);
    if next >= lines.len() {
        return None;
    }
    let line = lines[next];
    if line.0 == key { Some(line.1) } else { None }
}
