//! The first contents of a file's sections.

ghost use Rattle.std.specs.Prelude.{◌≡◌, ◌<◌, ◌+◌, ◌++◌, Some, IfOk, drop, length, map, slice_get};
ghost use Rattle.rw_elf.specs.Tables.{kept_sections};
ghost use Rattle.rw_domain.specs.Operators.{IsInside};
ghost use Rattle.rw_machine.specs.Running.{written_at};
ghost use Rattle.rw_machine.specs.State.{machine_of};
ghost use Rattle.rw_machine.specs.Views.{HasRange, IsLaidOut};
ghost use Rattle.rw_code.specs.Start.{Start, regions_of};
ghost use Rattle.rw_data.specs.Regions.{start_cell, start_cells};
ghost use Rattle.rw_sim.specs.Start.{file_ground};

use super::Machine;
use rw_data::Picture;
use rw_domain::Place;
use rw_elf::Section;
use rw_words::Cell;
use std::alloc::{AllocError, Global};

/// What a byte of a section holds at first. Nothing is known of one that belongs to a copy.
fn start_cell(picture: &Picture, region: u32, section: &Section, offset: u64) -> Cell
    requires section { slice_get (kept_sections picture.now) region ≡ Some section.now }
    requires offset { offset < section.now.size }
    ensures { result ≡ start_cell picture.now section.now (section.now.addr + offset) }
{
    match picture.relocs().copy_around(section.addr + offset) {
        Some(_) => Cell::Undef,
        None => picture.first_cell(region, offset),
    }
}

/// Writes what a section holds at first over the row of its region.
fn put_section(
    alloc: Global,
    picture: &Picture,
    region: u32,
    section: &Section,
    state: &mut Machine,
) -> Result<(), AllocError>
    requires section { slice_get (kept_sections picture.now) region ≡ Some section.now }
    requires inside { IsInside (machine_of state.old).placed.regions (record { region = region; offset = 0 }) section.now.size }
    requires range { HasRange (machine_of state.old).memory (record { region = region; offset = 0 }) section.now.size }
    ensures { IfOk result (λ _. machine_of state.new ≡ record (machine_of state.old) { memory = written_at (machine_of state.old).memory (record { region = region; offset = 0 }) (start_cells picture.now section.now) }) }
{
    for offset in 0..section.size {
        let cell = start_cell(picture, region, section, offset);
        state.put(alloc, Place { region, offset }, cell)?;
    }
    Ok(())
}

/// Writes the first contents of the sections over the rows of their regions.
pub(crate) fn put(alloc: Global, picture: &Picture, state: &mut Machine) -> Result<(), AllocError>
    requires regions { (start : Start) × ((machine_of state.old).placed.regions ≡ regions_of (file_ground picture.now) start) }
    requires rows { IsLaidOut (machine_of state.old).placed.regions (machine_of state.old).memory }
    ensures { IfOk result (λ _. machine_of state.new ≡ record (machine_of state.old) { memory = map (start_cells picture.now) (kept_sections picture.now) ++ drop (length (kept_sections picture.now)) (machine_of state.old).memory }) }
{
    let kept = picture.elf().kept();
    for number in 0..kept.len() {
        put_section(alloc, picture, number as u32, &kept[number], state)?;
    }
    Ok(())
}
