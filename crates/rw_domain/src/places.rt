//! The places that words name.

ghost use Rattle.std.specs.Prelude.{◌≡◌, ◌+◌};
ghost use Rattle.rw_domain.specs.NumberPlaces.{pointed_place, is_byte_of, accessed_place};
ghost use Rattle.rw_domain.specs.Symbols.{is_at_most_size, is_below_size, align_of, atom_place, kind_place, atom_fits, kind_fits};

use crate::cause::Cause;
use crate::holes::Holes;
use crate::lookup::{permit, place_in_region};
use crate::place::{Access, Place, Region};
use rw_words::{Atom, Kind};

/// There is such a region, and the offset is at most its size.
pub(crate) fn at_most_size(regions: &[Region], number: u32, offset: u64) -> bool
    ensures { result ≡ is_at_most_size regions.now number offset }
{
    regions
        .get(number as usize)
        .is_some_and(|region| offset <= region.size)
}

/// There is such a region, and the offset is below its size.
pub(crate) fn below_size(regions: &[Region], number: u32, offset: u64) -> bool
    ensures { result ≡ is_below_size regions.now number offset }
{
    regions
        .get(number as usize)
        .is_some_and(|region| offset < region.size)
}

/// The byte is below the region's size and in none of its holes.
pub(crate) fn has_byte(regions: &[Region], holes: &Holes, number: u32, offset: u64) -> bool
    ensures { result ≡ is_byte_of regions.now holes.now number offset }
{
    point(regions, holes, number, offset, 1).is_some()
}

/// The alignment of a region, at least 1.
pub(crate) fn alignment(regions: &[Region], number: u32) -> u64
    ensures { result ≡ align_of regions.now number }
{
    match regions.get(number as usize) {
        Some(region) => region.align.max(1),
        None => 1,
    }
}

/// The place, where the whole range is inside the region.
fn point(regions: &[Region], holes: &Holes, number: u32, offset: u64, len: u64) -> Option<Place>
    ensures { result ≡ pointed_place regions.now holes.now number offset len }
{
    let region = regions.get(number as usize)?;
    place_in_region(holes, number, *region, offset, len)
}

/// The place of an access from an atom on.
fn place_of_atom(
    regions: &[Region],
    holes: &Holes,
    a: Atom,
    len: u64,
    access: Access,
) -> Result<Place, Cause>
    ensures { result ≡ atom_place regions.now holes.now a len access }
{
    match a {
        Atom::Ptr(number, offset) => {
            let place = point(regions, holes, number, offset, len).ok_or(Cause::AddressOutside)?;
            permit(regions, access, place)
        }
        _ => Err(Cause::AddressUnknown),
    }
}

/// The place of an access of some bytes from an address on.
pub(crate) fn place_of_kind(
    regions: &[Region],
    holes: &Holes,
    at: Kind,
    len: u64,
    access: Access,
) -> Result<Place, Cause>
    ensures { result ≡ kind_place regions.now holes.now at len access }
{
    match at {
        Kind::Number(_) => Err(Cause::AddressOutside),
        Kind::Whole(a) => place_of_atom(regions, holes, a, len, access),
        Kind::Mixed => Err(Cause::AddressUnknown),
    }
}

/// The word points into the stack, with at least 256 bytes below it.
pub(crate) fn is_in_stack(regions: &[Region], canary: u32, sp: Kind) -> bool
    ensures { result ≡ kind_fits regions.now canary sp }
{
    match sp {
        Kind::Whole(Atom::Ptr(number, offset)) => {
            number as u64 + 2 == canary as u64
                && 256 <= offset
                && at_most_size(regions, number, offset)
        }
        _ => false,
    }
}
