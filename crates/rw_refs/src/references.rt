//! What addresses stand for.

ghost use Rattle.std.specs.Prelude.{◌≡◌};
ghost use Rattle.rw_refs.specs.References.{copy_at, data_at, end_at, inside_at, reference_at, target_at};

use crate::stubs::stub_at;
use rw_elf::Elf;
use rw_funcs::Functions;
use rw_reloc::Relocs;
use rw_words::Atom;

// The place of a copy.
fn copy_at(elf: &Elf, relocs: &Relocs, address: u64) -> Option<Atom>
    requires { relocs.now ≡ elf.now }
    ensures { result ≡ copy_at elf.now address }
{
    // (for its clause `clean`: the relocations have no fault)
    let _slots = relocs.slots();
    let number = relocs.copy_around(address)?;
    let copy = &relocs.copies()[number];
    let region = elf.kept().len() + number;
    Some(Atom::Ptr(region as u32, address - copy.address))
}

// A place inside a kept section.
fn inside_at(elf: &Elf, address: u64) -> Option<Atom>
    ensures { result ≡ inside_at elf.now address }
{
    let number = elf.kept_around(address)?;
    let section = &elf.kept()[number as usize];
    Some(Atom::Ptr(number, address - section.addr))
}

// The end of a kept section.
fn end_at(elf: &Elf, address: u64) -> Option<Atom>
    ensures { result ≡ end_at elf.now address }
{
    let number = elf.kept_ending(address)?;
    let section = &elf.kept()[number as usize];
    Some(Atom::Ptr(number, section.size))
}

// A place in data.
fn data_at(elf: &Elf, relocs: &Relocs, address: u64) -> Option<Atom>
    requires { relocs.now ≡ elf.now }
    ensures { result ≡ data_at elf.now address }
{
    // (for its clause `clean`: the file has no fault in these tables)
    let _file = elf.file();
    if let Some(atom) = copy_at(elf, relocs, address) {
        return Some(atom);
    }
    inside_at(elf, address).or(end_at(elf, address))
}

/// The target of a direct jump or call to an address: the instruction there, or else the import of the stub there. `None`
/// exactly where there is neither. The time is logarithmic in the numbers of sections and of slots.
#[tactic(auto, unfolding(crate::specs::References::target_at))]
pub fn target_at(elf: &Elf, relocs: &Relocs, functions: &Functions, address: u64) -> Option<Atom>
    requires relocs { relocs.now ≡ elf.now }
    requires functions { functions.now ≡ elf.now }
    ensures { result ≡ target_at elf.now address }
{
    if functions.is_point(address) {
        return Some(Atom::Code(address));
    }
    Some(Atom::Import(stub_at(elf, relocs, address)?))
}

/// The reference of an address; `None` exactly where it has none.
///
/// It is the first of these that applies: the copy whose place has the address; the kept section that starts there, that has
/// it, or that ends there; the instruction that starts there; the import of the stub there. Kept sections are the first
/// regions, in the order of [`Elf::kept`]; the copies follow them, by ascending address. The time is logarithmic in the numbers
/// of sections and of slots.
#[tactic(auto, unfolding(crate::specs::References::target_at, crate::specs::References::reference_at))]
pub fn ref_at(elf: &Elf, relocs: &Relocs, functions: &Functions, address: u64) -> Option<Atom>
    requires relocs { relocs.now ≡ elf.now }
    requires functions { functions.now ≡ elf.now }
    ensures { result ≡ reference_at elf.now address }
{
    if let Some(atom) = data_at(elf, relocs, address) {
        return Some(atom);
    }
    target_at(elf, relocs, functions, address)
}
