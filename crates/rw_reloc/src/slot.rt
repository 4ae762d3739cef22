//! Slots, the places that relocations fill.
ghost use Rattle.std.specs.Prelude.{◌≡◌};
ghost use Rattle.rw_reloc.specs.Slots.{is_copy_slot};
ghost use Rattle.rw_reloc.specs.Targets.{target_size};

use crate::abi::R_X86_64_COPY;
use rw_elf::ranges::Ranged;

/// What a relocation puts at its place.
#[derive(Clone, Copy, Debug, PartialEq, Eq)]
pub enum Target {
    /// An address of the file, plus the base at which the file is loaded.
    To(u64),
    /// The address of an imported symbol. The field is its number in the section of type `SHT_DYNSYM`.
    Import(u32),
    /// The bytes of an imported symbol. The fields are its number there and its size in bytes.
    Copy(u32, u64),
}

impl Target {
    /// How many bytes are put: 8, or the size of the copied symbol.
    pub fn size(&self) -> u64
        ensures { result ≡ target_size self.now }
    {
        match self {
            Target::Copy(_, size) => *size,
            _ => 8,
        }
    }
}

/// A place of the file's data that a relocation fills when the file is loaded.
#[derive(Clone, Copy, Debug, PartialEq, Eq)]
pub struct Slot {
    /// The address of its first byte, `r_offset`.
    pub address: u64,
    /// The type of the relocation, one of the numbers `R_X86_64_..` of [`abi`](crate::abi) but
    /// `R_X86_64_NONE`.
    pub kind: u32,
    /// What is put there.
    pub target: Target,
    /// Whether the place is in a kept section.
    pub kept: bool,
}

impl Slot {
    /// Whether a symbol is copied to the place.
    pub(crate) fn is_copy(&self) -> bool
        ensures { result ≡ is_copy_slot self.now }
    {
        self.kind == R_X86_64_COPY
    }
}

impl Ranged for Slot {
    ghost use Rattle.std.specs.Prelude.{◌+◌};
    ghost use Rattle.rw_reloc.specs.Targets.{target_size};

    ghost start_of = { λ s. s.address };

    ghost end_of = { λ s. s.address + target_size s.target };

    fn start(&self) -> u64 {
        self.address
    }

    fn passes(&self, address: u64) -> bool {
        address - self.address < self.target.size()
    }
}
