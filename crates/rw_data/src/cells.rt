//! First contents, byte by byte.

ghost use Rattle.std.specs.Prelude.{◌≡◌, ◌+◌, ◌≤◌, ◌<◌, Contains, IfSome, find};
ghost use Rattle.std.specs.List.{AllPairs};
ghost use Rattle.rw_elf.specs.Ranges.{CountsUpTo};
ghost use Rattle.rw_elf.specs.Tables.{kept_sections};
ghost use Rattle.rw_tables.specs.Tables.{EndsBefore};
ghost use Rattle.rw_refs.specs.References.{reference_at};
ghost use Rattle.rw_data.specs.FirstCells.{atom_in, byte_in, cell_at, distance_at, distance_from, first_cell, has_address, slot_cell_at, table_around, word_cell_at};
ghost use Rattle.rw_data.specs.Picture.{IsInRegion};

use crate::picture::Picture;
use rw_elf::Section;
use rw_refs::ref_at;
use rw_reloc::Target;
use rw_tables::Table;
use rw_words::{Atom, Cell};

fn distance_from(point: u64, atom: Atom) -> Option<Atom>
    ensures { result ≡ distance_from point atom }
{
    match atom {
        Atom::Ptr(region, offset) => Some(Atom::Diff(point, region, offset)),
        _ => None,
    }
}

// How many tables, which ascend, begin at or below an address.
fn count_up_to(tables: &[Table], address: u64) -> usize
    requires { AllPairs EndsBefore tables.now }
    ensures { CountsUpTo (λ t. t.base) tables.now address result }
{
    tables.partition_point(|table| table.base <= address)
}

// The table that an address belongs to, among tables that don't overlap.
fn around(tables: &[Table], address: u64) -> Option<Table>
    requires { AllPairs EndsBefore tables.now }
    ensures table { result ≡ find (has_address address) tables.now }
    ensures from { IfSome result (λ t. t.base ≤ address) }
{
    let next = count_up_to(tables, address);
    if next == 0 {
        return None;
    }
    let table = tables[next - 1];
    if (address - table.base) / 4 < table.count {
        Some(table)
    } else {
        None
    }
}

impl Picture {
    // The reference of an address.
    fn reference_at(&self, address: u64) -> Option<Atom>
        ensures { result ≡ reference_at self.now address }
    {
        ref_at(self.elf(), self.relocs(), self.funcs(), address)
    }

    // What a slot holds the address of.
    pub(crate) fn atom_in(&self, target: Target) -> Option<Atom>
        ensures { result ≡ atom_in self.now target }
    {
        match target {
            Target::To(address) => self.reference_at(address),
            Target::Import(number) => Some(Atom::Import(number)),
            Target::Copy(_, _) => None,
        }
    }

    // A byte of a slot.
    fn slot_cell_at(&self, address: u64) -> Option<Cell>
        ensures { result ≡ slot_cell_at self.now address }
    {
        let slot = self.relocs().slot_around(address)?;
        let atom = self.atom_in(slot.target)?;
        Some(Cell::Part(atom, (address - slot.address) as u8))
    }

    // What the table word at an address is.
    fn distance_at(&self, address: u64) -> Option<Atom>
        ensures { result ≡ distance_at self.now address }
    {
        let (point, base) = self.tables().entry_at(address)?;
        distance_from(point, self.reference_at(base)?)
    }

    // The table that an address belongs to.
    fn table_around(&self, address: u64) -> Option<Table>
        ensures table { result ≡ table_around self.now address }
        ensures from { IfSome result (λ t. t.base ≤ address) }
    {
        around(self.tables().list(), address)
    }

    // A byte of a table word.
    fn word_cell_at(&self, address: u64) -> Option<Cell>
        ensures { result ≡ word_cell_at self.now address }
    {
        let table = self.table_around(address)?;
        let byte = (address - table.base) % 4;
        let atom = self.distance_at(address - byte)?;
        Some(Cell::Part(atom, byte as u8))
    }

    // The byte of a section as it stands in the file.
    fn byte_in(&self, section: &Section, address: u64) -> u8
        requires kept { Contains (kept_sections self.now) section.now }
        requires low { section.now.addr ≤ address }
        requires high { address < section.now.addr + section.now.size }
        ensures { result ≡ byte_in self.now section.now address }
    {
        if section.has_bytes() {
            self.elf().file()[(section.offset + (address - section.addr)) as usize]
        } else {
            0
        }
    }

    /// What the byte at an offset of the kept section with a number is before the program runs: a byte of the address that a
    /// slot holds, a byte of the distance that a word of a jump table is, or else the byte of the file, which is 0 in a section of
    /// type `SHT_NOBITS`. Under a copied symbol it is the byte of the file. It takes no memory, and logarithmic time.
    pub fn first_cell(&self, region: u32, offset: u64) -> Cell
        requires { IsInRegion self.now region offset }
        ensures { result ≡ first_cell self.now region offset }
    {
        let section = &self.elf().kept()[region as usize];
        self.cell_at(section, section.addr + offset)
    }

    // The first content at an address of a kept section.
    #[tactic(auto, unfolding(crate::specs::FirstCells::cell_at))]
    fn cell_at(&self, section: &Section, address: u64) -> Cell
        requires kept { Contains (kept_sections self.now) section.now }
        requires low { section.now.addr ≤ address }
        requires high { address < section.now.addr + section.now.size }
        ensures { result ≡ cell_at self.now section.now address }
    {
        if let Some(cell) = self.slot_cell_at(address) {
            return cell;
        }
        if let Some(cell) = self.word_cell_at(address) {
            return cell;
        }
        Cell::Num(self.byte_in(section, address))
    }
}
