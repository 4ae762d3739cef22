//! Holes of regions, in order where they ascend.

ghost use Rattle.std.specs.Prelude.{◌≡◌, ◌<◌, ◌≤◌, ◌&&◌, ℕ, nat_eq, nat_lt, IsTrue, IfSome, not, true, false, length, slice_get, Some};
ghost use Rattle.rw_domain.specs.declared.place.Hole.{Hole as HoleFields};
ghost use Rattle.rw_domain.specs.NumberPlaces.{touches, touches_hole};
ghost use Rattle.rw_domain.specs.Holes.{is_before, Ascend};

use crate::place::Hole;
use std::marker::Model;

/// The holes of regions. Where they ascend by region and offset, a look-up halves them; else it goes through all.
#[derive(Drop)]
pub(crate) struct Holes {
    list: Vec<Hole>,
    ascend: bool,
}

impl Model for Holes {
    ghost use Rattle.std.specs.Prelude.{◌≡◌, List, true};
    ghost use Rattle.rw_domain.specs.declared.place.Hole.{Hole as HoleFields};
    ghost use Rattle.rw_domain.specs.Holes.{Ascend};

    ghost Value = { List HoleFields };

    ghost view = { λ h. h.list.items };

    ghost invariant = { λ h. h.ascend ≡ true → Ascend h.list.items };
}

/// The hole belongs to an earlier region, or to this one, where it ends at the offset or before it.
fn is_before(region: u32, offset: u64, hole: Hole) -> bool
    ensures { result ≡ is_before region offset hole }
{
    hole.region < region || hole.region == region && hole.end <= offset
}

/// Each hole has a byte at least, and comes before where the next begins.
fn ascend(list: &[Hole]) -> bool
    ensures { IsTrue result → Ascend list.now }
{
    for i in 0..list.len() {
        let hole = list[i];
        if hole.end <= hole.start {
            return false;
        }
        if i > 0 && !is_before(hole.region, hole.start, list[i - 1]) {
            return false;
        }
    }
    true
}

/// How many of the holes, which ascend, come before an offset of a region.
pub(crate) fn count_before(list: &[Hole], region: u32, offset: u64) -> usize
    requires { Ascend list.now }
    ensures before { (k : ℕ) (h : HoleFields) → k < result → slice_get list.now k ≡ Some h → is_before region offset h ≡ true }
    ensures behind { (k : ℕ) (h : HoleFields) → result ≤ k → slice_get list.now k ≡ Some h → is_before region offset h ≡ false }
{
    list.partition_point(|hole| is_before(region, offset, *hole))
}

/// A byte from `start` up to `end` of a region is in the hole.
fn is_touched(hole: Hole, region: u32, start: u64, end: u64) -> bool
    ensures { result ≡ touches region start end hole }
{
    hole.region == region && hole.start.max(start) < hole.end.min(end)
}

/// The range touches none of the region's holes.
fn is_free(list: &[Hole], region: u32, start: u64, end: u64) -> bool
    ensures { result ≡ not (touches_hole list.now region start end) }
{
    for hole in list {
        if is_touched(*hole, region, start, end) {
            return false;
        }
    }
    true
}

/// The hole belongs to a region, where it begins before an offset.
fn begins_before(region: u32, offset: u64, hole: Hole) -> bool
    ensures { result ≡ (nat_eq hole.region region && nat_lt hole.start offset) }
{
    hole.region == region && hole.start < offset
}

/// The same where the holes ascend: the first that doesn't come before the range is the one to look at.
fn is_free_in_order(list: &[Hole], region: u32, start: u64, end: u64) -> bool
    requires { Ascend list.now }
    ensures { result ≡ not (touches_hole list.now region start end) }
{
    if end <= start {
        return true;
    }
    let next = count_before(list, region, start);
    if next >= list.len() {
        return true;
    }
    !begins_before(region, end, list[next])
}

impl Holes {
    pub(crate) fn new(list: Vec<Hole>) -> Holes
        ensures { result ≡ list.items }
    {
        let ascend = ascend(&list);
        Holes { list, ascend }
    }

    /// The range touches none of the region's holes.
    pub(crate) fn are_clear_of(&self, region: u32, start: u64, end: u64) -> bool
        ensures { result ≡ not (touches_hole self.now region start end) }
    {
        if self.ascend {
            is_free_in_order(&self.list, region, start, end)
        } else {
            is_free(&self.list, region, start, end)
        }
    }

    /// The holes, where they ascend.
    pub(crate) fn in_order(&self) -> Option<&[Hole]>
        ensures { IfSome result (λ list. (list.now ≡ self.now) × Ascend self.now) }
    {
        if self.ascend { Some(&self.list) } else { None }
    }
}
