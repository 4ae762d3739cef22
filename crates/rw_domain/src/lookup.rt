//! Where an address belongs, and which accesses are permitted there.

ghost use Rattle.std.specs.Prelude.{◌≡◌, ◌<◌, ◌+◌, ◌^◌, ◌≤◌, length, slice_get, Some};
ghost use Rattle.rw_domain.specs.NumberPlaces.{place_inside, place_in, place_at, first_place, is_writable, permitted_place};

use crate::cause::Cause;
use crate::holes::Holes;
use crate::place::{Access, Place, Region};

/// The place at an offset of a region, where the whole range is inside it.
pub(crate) fn place_in_region(
    holes: &Holes,
    number: u32,
    region: Region,
    offset: u64,
    len: u64,
) -> Option<Place>
    ensures { result ≡ place_inside holes.now number region offset len }
{
    let end = offset.checked_add(len)?;
    if end <= region.size && holes.are_clear_of(number, offset, end) {
        Some(Place {
            region: number,
            offset,
        })
    } else {
        None
    }
}

/// The place at an address, where the region lies at a base and the whole range is inside it.
fn place_at_base(
    holes: &Holes,
    number: u32,
    region: Region,
    base: u64,
    address: u64,
    len: u64,
) -> Option<Place>
    ensures { result ≡ place_in holes.now number region base address len }
{
    let offset = address.checked_sub(base)?;
    place_in_region(holes, number, region, offset, len)
}

/// The place in the first region that the whole range is inside of.
pub(crate) fn find_place(
    regions: &[Region],
    bases: &[u64],
    holes: &Holes,
    address: u64,
    len: u64,
) -> Option<Place>
    requires few { length regions.now < 2 ^ 32 }
    requires based { length bases.now ≡ length regions.now }
    ensures { result ≡ first_place regions.now bases.now holes.now address len }
{
    for number in 0..regions.len() {
        let place = place_at_base(
            holes,
            number as u32,
            regions[number],
            bases[number],
            address,
            len,
        );
        if place.is_some() {
            return place;
        }
    }
    None
}

/// Whether the region may be written.
fn writes(regions: &[Region], number: u32) -> bool
    ensures { result ≡ is_writable regions.now number }
{
    regions
        .get(number as usize)
        .is_some_and(|region| region.writable)
}

/// The access is permitted at a place.
pub(crate) fn permit(regions: &[Region], access: Access, place: Place) -> Result<Place, Cause>
    ensures { result ≡ permitted_place regions.now access place }
{
    match access {
        Access::Write if !writes(regions, place.region) => Err(Cause::NotWritable),
        Access::Read | Access::Write => Ok(place),
    }
}
