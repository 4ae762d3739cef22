//! The tables found so far, by their bases.

ghost use Rattle.std.specs.Prelude.{◌≡◌, IfNone, IfSome, OnOk};
ghost use Rattle.rw_tables.specs.Known.{AddsTable, HasNoneAbove, HasNoneBelow, IsFirstAbove, IsLastBelow, count_of, grown};

use crate::table::Table;
use std::alloc::AllocError;
use std::collections::BTreeMap;
use std::ops::Bound;

/// The greatest count of a base.
pub(crate) fn count_of(known: &BTreeMap<u64, u64>, base: u64) -> Option<u64>
    ensures { result ≡ count_of known.now base }
{
    known.get(&base).copied()
}

/// The table of the greatest base below an address.
pub(crate) fn last_below(known: &BTreeMap<u64, u64>, address: u64) -> Option<Table>
    ensures some { IfSome result (IsLastBelow known.now address) }
    ensures none { IfNone result (HasNoneBelow known.now address) }
{
    match known.range(..address).next_back() {
        Some((base, count)) => Some(Table {
            base: *base,
            count: *count,
        }),
        None => None,
    }
}

/// The table of the least base above an address.
pub(crate) fn first_above(known: &BTreeMap<u64, u64>, address: u64) -> Option<Table>
    ensures some { IfSome result (IsFirstAbove known.now address) }
    ensures none { IfNone result (HasNoneAbove known.now address) }
{
    match known
        .range((Bound::Excluded(address), Bound::Unbounded))
        .next()
    {
        Some((base, count)) => Some(Table {
            base: *base,
            count: *count,
        }),
        None => None,
    }
}

fn grown(count: u64, old: Option<u64>) -> u64
    ensures { result ≡ grown count old }
{
    match old {
        Some(old) if old > count => old,
        _ => count,
    }
}

/// Adds a table.
pub(crate) fn add(known: &mut BTreeMap<u64, u64>, table: &Table) -> Result<(), AllocError>
    ensures { OnOk result (AddsTable known.old known.new table.now) }
{
    let count = grown(table.count, count_of(known, table.base));
    match known.insert(table.base, count) {
        Ok(_) => Ok(()),
        Err(_) => Err(AllocError),
    }
}
