//! The names of imported symbols, and which of them are copied into the file.

ghost use Rattle.std.specs.Prelude.{◌≡◌};
ghost use Rattle.rw_code.specs.Imports.{copy_of, import_name, is_copied, target_name};

use rw_elf::Elf;
use rw_reloc::{Relocs, Slot, Target};

// The name of a symbol of the section of type `SHT_DYNSYM`, by its number.
fn import_name(elf: &Elf, number: u32) -> &[u8]
    ensures { result.now ≡ import_name elf.now number }
{
    match elf.dynamic_symbols().get(number as usize) {
        Some(symbol) => elf.name_of(symbol.name),
        None => &[],
    }
}

// The name of what is copied to a slot.
fn target_name<'a>(elf: &'a Elf, slot: &Slot) -> &'a [u8]
    ensures { result.now ≡ target_name elf.now slot.now.target }
{
    match slot.target {
        Target::Copy(number, _) => import_name(elf, number),
        _ => &[],
    }
}

// The number of the copy of a name; of several the one at the least address. The time is linear in the number of copies.
fn copy_of(elf: &Elf, relocs: &Relocs, name: &[u8]) -> Option<usize>
    requires { relocs.now ≡ elf.now }
    ensures { result ≡ copy_of elf.now name.now }
{
    relocs
        .copies()
        .iter()
        .position(|slot| target_name(elf, slot) == name)
}

/// Whether the name of an imported symbol is copied into the file. The time is linear in the number of copies.
pub(crate) fn is_copied(elf: &Elf, relocs: &Relocs, number: u32) -> bool
    requires { relocs.now ≡ elf.now }
    ensures { result ≡ is_copied elf.now number }
{
    copy_of(elf, relocs, import_name(elf, number)).is_some()
}
