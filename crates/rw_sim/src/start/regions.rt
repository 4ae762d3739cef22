//! The regions of a file at its start, and what doesn't belong to them.

ghost use Rattle.std.specs.Prelude.{◌≡◌, ◌≤◌, ◌+◌, ◌++◌, ◌∷◌, ◌^◌, [], Contains, IfOk, length, option_and_then};
ghost use Rattle.std.specs.List.{filter_map};
ghost use Rattle.rw_elf.specs.Places.{kept_around};
ghost use Rattle.rw_reloc.specs.Slots.{copies_of};
ghost use Rattle.rw_code.specs.Ground.{copied_region, copy_alignment, hole_in, holes_of, kept_region};
ghost use Rattle.rw_code.specs.Start.{IsStart, regions_of, texts_offset as texts_of, words_size};
ghost use Rattle.rw_sim.specs.Start.{file_ground, start_with};

use super::{STACK_SIZE, words};
use rw_code::texts_offset;
use rw_data::Picture;
use rw_domain::{Hole, Region};
use rw_elf::Section;
use rw_elf::abi::SHF_WRITE;
use rw_reloc::Slot;
use std::alloc::{AllocError, Global};

/// How many regions the file brings: its kept sections and its copies.
pub(crate) fn count(picture: &Picture) -> u32
    ensures count { result ≡ length (file_ground picture.now).regions }
    ensures few { result ≤ 2 ^ 31 }
{
    // (for its clauses `clean`: the file has no fault)
    let _slots = picture.relocs().slots();
    (picture.elf().kept().len() + picture.relocs().copies().len()) as u32
}

fn kept_region(section: &Section) -> Region
    ensures { result ≡ kept_region section.now }
{
    Region {
        size: section.size,
        align: section.align,
        writable: section.has_flag(SHF_WRITE),
        zero: !section.has_bytes(),
    }
}

/// The greatest power of two up to 16 that divides an address.
fn copy_alignment(address: u64) -> u64
    ensures { result ≡ copy_alignment address }
{
    if address % 16 == 0 {
        16
    } else if address % 8 == 0 {
        8
    } else if address % 4 == 0 {
        4
    } else if address % 2 == 0 {
        2
    } else {
        1
    }
}

fn copied_region(copy: &Slot) -> Region
    ensures { result ≡ copied_region copy.now }
{
    Region {
        size: copy.target.size(),
        align: copy_alignment(copy.address),
        writable: true,
        zero: false,
    }
}

/// The regions that the file brings.
fn file_regions(alloc: Global, picture: &Picture) -> Result<Vec<Region>, AllocError>
    ensures { IfOk result (λ regions. regions.items ≡ (file_ground picture.now).regions) }
{
    let mut regions = Vec::new(alloc);
    for section in picture.elf().kept() {
        regions.push(kept_region(section))?;
    }
    for copy in picture.relocs().copies() {
        regions.push(copied_region(copy))?;
    }
    Ok(regions)
}

/// The size of the region of the arguments, in bytes.
fn arguments_size(args: &[String]) -> u64
    requires { IsStart (start_with args.now) }
    ensures { result ≡ texts_of (start_with args.now) + words_size (start_with args.now) }
{
    texts_offset(words::count(args)) + words::size(args)
}

/// All regions: those of the file, the counters, of which a file has none, the stack, the arguments and the canary.
pub(crate) fn all(
    alloc: Global,
    picture: &Picture,
    args: &[String],
) -> Result<Vec<Region>, AllocError>
    requires { IsStart (start_with args.now) }
    ensures { IfOk result (λ regions. regions.items ≡ regions_of (file_ground picture.now) (start_with args.now)) }
{
    let mut regions = file_regions(alloc, picture)?;
    regions.push(Region {
        size: 0,
        align: 8,
        writable: true,
        zero: true,
    })?;
    regions.push(Region {
        size: STACK_SIZE,
        align: 4096,
        writable: true,
        zero: false,
    })?;
    regions.push(Region {
        size: arguments_size(args),
        align: 16,
        writable: true,
        zero: false,
    })?;
    regions.push(Region {
        size: 8,
        align: 8,
        writable: false,
        zero: false,
    })?;
    Ok(regions)
}

/// The bytes of a copy in the kept section that has them.
fn hole_of(picture: &Picture, copy: &Slot) -> Option<Hole>
    requires { Contains (copies_of picture.now) copy.now }
    ensures { result ≡ option_and_then (hole_in picture.now copy.now) (kept_around picture.now copy.now.address) }
{
    let number = picture.elf().kept_around(copy.address)?;
    let start = copy.address - picture.elf().kept()[number as usize].addr;
    Some(Hole {
        region: number,
        start,
        end: start + copy.target.size(),
    })
}

/// Adds the bytes of a copy in the kept section that has them, if one does.
fn push_hole(picture: &Picture, copy: &Slot, holes: &mut Vec<Hole>) -> Result<(), AllocError>
    requires { Contains (copies_of picture.now) copy.now }
    ensures { IfOk result (λ _. holes.new.items ≡ holes.old.items ++ filter_map (λ c. option_and_then (hole_in picture.now c) (kept_around picture.now c.address)) (copy.now ∷ [])) }
{
    let Some(hole) = hole_of(picture, copy) else {
        return Ok(());
    };
    holes.push(hole)?;
    Ok(())
}

/// The bytes of kept sections that belong to copies.
pub(crate) fn holes(alloc: Global, picture: &Picture) -> Result<Vec<Hole>, AllocError>
    ensures { IfOk result (λ holes. holes.items ≡ holes_of picture.now) }
{
    let mut holes = Vec::new(alloc);
    for copy in picture.relocs().copies() {
        push_hole(picture, copy, &mut holes)?;
    }
    Ok(holes)
}
