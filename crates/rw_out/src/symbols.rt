//! The symbols of the text: what the addresses of a file are in it.

ghost use Rattle.std.specs.Prelude.{◌≡◌, option_map, if◌then◌else◌};
ghost use Rattle.asm_items.specs.Named.{map_sym};
ghost use Rattle.x86_insn.specs.References.{reference_of};
ghost use Rattle.rw_elf.specs.Name.{name_bytes};
ghost use Rattle.rw_refs.specs.References.{reference_at, target_at};
ghost use Rattle.rw_refs.specs.CodeReferences.{is_direct};
ghost use Rattle.rw_out.specs.Items.{atom_symbol, place_symbol, symbol_named};
ghost use Rattle.rw_out.specs.Positions.{copy_place, dynamic_place, target_place};

use asm_items::Sym;
use rw_data::Picture;
use rw_elf::NameAt;
use rw_refs::{ref_at, target_at};
use rw_reloc::Target;
use rw_words::Atom;
use x86_insn::Insn;

const NO_NAME: NameAt = NameAt { at: 0, len: 0 };

// The name of the dynamic symbol with a number.
fn dynamic_place(picture: &Picture, number: u32) -> NameAt
    ensures { result ≡ dynamic_place picture.now number }
{
    match picture.elf().dynamic_symbols().get(number as usize) {
        Some(symbol) => symbol.name,
        None => NO_NAME,
    }
}

/// The name of what a slot imports or copies.
pub(crate) fn target_place(picture: &Picture, target: Target) -> NameAt
    ensures { result ≡ target_place picture.now target }
{
    match target {
        Target::To(_) => NO_NAME,
        Target::Import(number) => dynamic_place(picture, number),
        Target::Copy(number, _) => dynamic_place(picture, number),
    }
}

// The name of the copy with a number.
fn copy_place(picture: &Picture, number: usize) -> NameAt
    ensures { result ≡ copy_place picture.now number }
{
    match picture.relocs().copies().get(number) {
        Some(copy) => target_place(picture, copy.target),
        None => NO_NAME,
    }
}

// The symbol of a place in data.
fn place_symbol(picture: &Picture, region: u32, offset: u64) -> Sym<NameAt>
    ensures { map_sym (name_bytes picture.now) result ≡ place_symbol picture.now region offset }
{
    let kept = picture.elf().kept().len();
    let number = region as usize;
    if number < kept {
        Sym::Section(region, offset)
    } else {
        Sym::Named(copy_place(picture, number - kept), offset)
    }
}

/// The symbol of what an address stands for.
pub(crate) fn atom_symbol(picture: &Picture, atom: Atom) -> Sym<NameAt>
    ensures { map_sym (name_bytes picture.now) result ≡ atom_symbol picture.now atom }
{
    match atom {
        Atom::Ptr(region, offset) => place_symbol(picture, region, offset),
        Atom::Code(address) => Sym::Code(address),
        Atom::Import(number) => Sym::Named(dynamic_place(picture, number), 0),
        _ => Sym::Code(0),
    }
}

fn is_direct(insn: &Insn<u64>) -> bool
    ensures { result ≡ is_direct insn.now }
{
    matches!(
        insn,
        Insn::Jcc { .. } | Insn::Jmp { .. } | Insn::Call { .. }
    )
}

// What an address that an instruction names stands for.
fn named_atom(picture: &Picture, direct: bool, address: u64) -> Option<Atom>
    ensures { result ≡ if direct then target_at picture.now address else reference_at picture.now address }
{
    let (elf, relocs, funcs) = (picture.elf(), picture.relocs(), picture.funcs());
    if direct {
        target_at(elf, relocs, funcs, address)
    } else {
        ref_at(elf, relocs, funcs, address)
    }
}

// The symbol of an address that an instruction names.
#[tactic(auto, unfolding(crate::specs::Items::symbol_named))]
fn symbol_named(picture: &Picture, direct: bool, address: u64) -> Sym<NameAt>
    ensures { map_sym (name_bytes picture.now) result ≡ symbol_named picture.now direct address }
{
    match named_atom(picture, direct, address) {
        Some(atom) => atom_symbol(picture, atom),
        None => Sym::Code(address),
    }
}

/// The symbol of the address that an instruction names, if it names one.
pub(crate) fn insn_symbol(picture: &Picture, insn: &Insn<u64>) -> Option<Sym<NameAt>>
    ensures { option_map (map_sym (name_bytes picture.now)) result ≡ option_map (symbol_named picture.now (is_direct insn.now)) (reference_of insn.now) }
{
    let address = insn.reference()?;
    Some(symbol_named(picture, is_direct(insn), address))
}
