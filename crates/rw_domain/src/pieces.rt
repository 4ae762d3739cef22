//! Ranges of addresses that belong to one region each. With holes a region has several, and another region may lie
//! between them.
ghost use Rattle.std.specs.Prelude.{◌≡◌, ◌+◌, ◌-◌, ◌<◌, ◌≤◌, ◌^◌, ℕ, nat_le, IsTrue, IfOk, OnOk, IfSome, true, List, [], ◌∷◌, ◌++◌, length, slice_get, slice_index, slice_index_or, Some};
ghost use Rattle.std.specs.List.{All, AllPairs, Contains};
ghost use Rattle.std.specs.List.Sorted.{IsNonDecreasingBy};
ghost use Rattle.rw_domain.specs.declared.pieces.Piece.{Piece as PieceFields};
ghost use Rattle.rw_domain.specs.NumberPlaces.{is_inside, first_place};
ghost use Rattle.rw_domain.specs.Holes.{Ascend};
ghost use Rattle.rw_domain.specs.Pieces.{IsPiece, HoldsRange, AreCut, Ordered, EndBelow};

use crate::holes::{Holes, count_before};
use crate::lookup::find_place;
use crate::place::{Hole, Place, Region};
use std::alloc::{AllocError, Global};

/// Addresses from `start` up to `end`, of one region.
#[derive(Clone, Copy)]
pub(crate) struct Piece {
    pub(crate) start: u64,
    pub(crate) end: u64,
    pub(crate) region: u32,
}

/// How many of the pieces, which ascend, begin at or below an address.
fn count_up_to(list: &[Piece], address: u64) -> usize
    requires { IsNonDecreasingBy (λ p. p.start) list.now }
    ensures within { result ≤ length list.now }
    ensures below { (k : ℕ) (p : PieceFields) → k < result → slice_get list.now k ≡ Some p → p.start ≤ address }
    ensures above { (k : ℕ) (p : PieceFields) → result ≤ k → slice_get list.now k ≡ Some p → address < p.start }
{
    list.partition_point(|piece| piece.start <= address)
}

/// The place of a range of addresses, by the last piece that begins at its start or below it. A range without bytes is
/// looked for region by region.
pub(crate) fn place_among(
    pieces: &[Piece],
    regions: &[Region],
    bases: &[u64],
    holes: &Holes,
    address: u64,
    len: u64,
) -> Option<Place>
    requires few { length regions.now < 2 ^ 32 }
    requires based { length bases.now ≡ length regions.now }
    requires ordered { Ordered regions.now bases.now holes.now pieces.now }
    ensures { result ≡ first_place regions.now bases.now holes.now address len }
{
    if len == 0 {
        return find_place(regions, bases, holes, address, len);
    }
    let next = count_up_to(pieces, address);
    if next == 0 {
        return None;
    }
    let piece = pieces[next - 1];
    if piece.end <= address {
        return None;
    }
    if piece.end - address < len {
        return None;
    }
    Some(Place {
        region: piece.region,
        offset: address - bases[piece.region as usize],
    })
}

/// How far a range from an offset on may go and be inside a region.
fn free_end(holes: &[Hole], number: u32, region: Region, from: u64) -> u64
    requires { Ascend holes.now }
    ensures { (end : ℕ) → from < end → is_inside holes.now region number from end ≡ nat_le end result }
{
    let next = count_before(holes, number, from);
    if next >= holes.len() {
        return region.size;
    }
    let hole = holes[next];
    if hole.region == number {
        region.size.min(hole.start)
    } else {
        region.size
    }
}

/// Appends the longest piece of a region from an offset on, if there is one.
fn push_piece(
    pieces: &mut Vec<Piece>,
    regions: &[Region],
    bases: &[u64],
    holes: &[Hole],
    number: u32,
    from: u64,
) -> Result<(), AllocError>
    requires there { number < length regions.now }
    requires based { length bases.now ≡ length regions.now }
    requires fit { EndBelow regions.now bases.now }
    requires ascend { Ascend holes.now }
    ensures sound { OnOk result (All (IsPiece regions.now bases.now holes.now) pieces.old.items → All (IsPiece regions.now bases.now holes.now) pieces.new.items) }
    ensures kept { OnOk result ((p : PieceFields) → Contains pieces.old.items p → Contains pieces.new.items p) }
    ensures held { OnOk result ((end : ℕ) → HoldsRange regions.now bases.now holes.now pieces.new.items number from end) }
{
    let region = regions[number as usize];
    let base = bases[number as usize];
    let end = free_end(holes, number, region, from);
    if from < end {
        pieces.push(Piece {
            start: base + from,
            end: base + end,
            region: number,
        })?;
    }
    Ok(())
}

/// The pieces of all regions: those that begin where a region does, and those that begin where a hole ends.
fn cut(
    alloc: Global,
    regions: &[Region],
    bases: &[u64],
    holes: &[Hole],
) -> Result<Vec<Piece>, AllocError>
    requires few { length regions.now < 2 ^ 32 }
    requires based { length bases.now ≡ length regions.now }
    requires fit { EndBelow regions.now bases.now }
    requires ascend { Ascend holes.now }
    ensures { IfOk result (λ pieces. AreCut regions.now bases.now holes.now pieces.items) }
{
    let mut pieces = Vec::new(alloc);
    for number in 0..regions.len() {
        push_piece(&mut pieces, regions, bases, holes, number as u32, 0)?;
    }
    for hole in holes {
        if (hole.region as usize) < regions.len() {
            push_piece(&mut pieces, regions, bases, holes, hole.region, hole.end)?;
        }
    }
    Ok(pieces)
}

/// Each region ends below 2^64.
fn end_below(regions: &[Region], bases: &[u64]) -> bool
    requires { length bases.now ≡ length regions.now }
    ensures { IsTrue result → EndBelow regions.now bases.now }
{
    for number in 0..regions.len() {
        if bases[number] > u64::MAX - regions[number].size {
            return false;
        }
    }
    true
}

/// None of the pieces goes on where the next has begun.
fn are_apart(pieces: &[Piece]) -> bool
    requires { All (λ p. p.start < p.end) pieces.now }
    ensures { IsTrue result → AllPairs (λ p q. p.end ≤ q.start) pieces.now }
{
    for i in 1..pieces.len() {
        if pieces[i].start < pieces[i - 1].end {
            return false;
        }
    }
    true
}

/// The pieces of all regions in order, where the holes ascend and no two regions share a byte that isn't in a hole.
pub(crate) fn order(
    alloc: Global,
    regions: &[Region],
    bases: &[u64],
    holes: &Holes,
) -> Result<Option<Vec<Piece>>, AllocError>
    requires few { length regions.now < 2 ^ 32 }
    requires based { length bases.now ≡ length regions.now }
    ensures { IfOk result (λ found. IfSome found (λ pieces. Ordered regions.now bases.now holes.now pieces.items)) }
{
    let Some(holes) = holes.in_order() else {
        return Ok(None);
    };
    if !end_below(regions, bases) {
        return Ok(None);
    }
    let mut pieces = cut(alloc, regions, bases, holes)?;
    pieces.sort_unstable_by_key(|piece| piece.start);
    if are_apart(&pieces) {
        Ok(Some(pieces))
    } else {
        Ok(None)
    }
}

/// The pieces before a place end at an address or below it.
fn end_by(pieces: &[Piece], place: usize, address: u64) -> bool
    requires within { place ≤ length pieces.now }
    requires some { All (λ p. p.start < p.end) pieces.now }
    requires apart { AllPairs (λ p q. p.end ≤ q.start) pieces.now }
    ensures { IsTrue result → (k : ℕ) (d : PieceFields) → k < place → (slice_index_or pieces.now k d).end ≤ address }
{
    if place == 0 {
        return true;
    }
    pieces[place - 1].end <= address
}

/// The pieces from a place on begin at an address or above it.
fn begin_from(pieces: &[Piece], place: usize, address: u64) -> bool
    requires some { All (λ p. p.start < p.end) pieces.now }
    requires apart { AllPairs (λ p q. p.end ≤ q.start) pieces.now }
    ensures { IsTrue result → (k : ℕ) (d : PieceFields) → place ≤ k → k < length pieces.now → address ≤ (slice_index_or pieces.now k d).start }
{
    if place >= pieces.len() {
        return true;
    }
    address <= pieces[place].start
}

/// The pieces with that of one more region, where it shares no address with the others.
pub(crate) fn grow(
    mut pieces: Vec<Piece>,
    regions: &[Region],
    bases: &[u64],
    holes: &Holes,
    region: Region,
    base: u64,
) -> Option<Vec<Piece>>
    requires few { length regions.now < 2 ^ 32 }
    requires based { length bases.now ≡ length regions.now }
    requires ordered { Ordered regions.now bases.now holes.now pieces.items }
    ensures { IfSome result (λ grown. Ordered (regions.now ++ region ∷ []) (bases.now ++ base ∷ []) holes.now grown.items) }
{
    let number = regions.len() as u32;
    if region.size == 0 {
        return Some(pieces);
    }
    let end = base.checked_add(region.size)?;
    let next = count_up_to(&pieces, base);
    if !end_by(&pieces, next, base) {
        return None;
    }
    if !begin_from(&pieces, next, end) {
        return None;
    }
    if !holes.are_clear_of(number, 0, region.size) {
        return None;
    }
    match pieces.insert(
        next,
        Piece {
            start: base,
            end,
            region: number,
        },
    ) {
        Ok(()) => Some(pieces),
        Err(_) => None,
    }
}
