//! Relocation entries, as they stand in a table (gABI, "Relocation").
ghost use Rattle.std.specs.Prelude.{◌≡◌, ◌+◌, ◌*◌, ◌≤◌, length};
ghost use Rattle.rw_reloc.specs.Entries.{entry_at, has_effect};
ghost use Rattle.rw_reloc.specs.Targets.{is_copy, is_relative};

use crate::abi::{R_X86_64_COPY, R_X86_64_NONE, R_X86_64_RELATIVE};
use rw_elf::Section;
use rw_elf::number::u64_at;

/// The size of an entry, in bytes.
pub(crate) const ENTRY_SIZE: u64 = 24;

// Where the fields of an entry stand (gABI, "Relocation").
const R_INFO: usize = 8;

const R_ADDEND: usize = 16;

/// A relocation entry, and where it stands.
#[derive(Clone, Copy)]
pub(crate) struct Entry {
    /// `r_offset`, the address of the place.
    pub(crate) offset: u64,
    /// The type, one of the numbers `R_X86_64_..` or another.
    pub(crate) kind: u32,
    /// The number of the symbol.
    pub(crate) symbol: u32,
    /// `r_addend`, as two's complement.
    pub(crate) addend: u64,
    /// The index of the table, which is a section.
    pub(crate) table: u32,
    /// The number of the entry in its table, from 0 on.
    pub(crate) index: u64,
}

impl Entry {
    /// Whether the entry does anything.
    pub(crate) fn has_effect(&self) -> bool
        ensures { result ≡ has_effect self.now }
    {
        self.kind != R_X86_64_NONE
    }

    /// Whether the entry puts an address of the file at its place.
    pub(crate) fn is_relative(&self) -> bool
        ensures { result ≡ is_relative self.now }
    {
        self.kind == R_X86_64_RELATIVE
    }

    /// Whether the entry puts the bytes of a symbol at its place.
    pub(crate) fn is_copy(&self) -> bool
        ensures { result ≡ is_copy self.now }
    {
        self.kind == R_X86_64_COPY
    }
}

/// The entry at an index of a table.
#[tactic(auto, unfolding(crate::specs::Entries::entry_at))]
pub(crate) fn read_entry(bytes: &[u8], table: &Section, index: u64) -> Entry
    requires { table.now.offset + 24 * index + 24 ≤ length bytes.now }
    ensures { result ≡ entry_at bytes.now table.now index }
{
    let at = (table.offset + ENTRY_SIZE * index) as usize;
    let info = u64_at(bytes, at + R_INFO);
    Entry {
        offset: u64_at(bytes, at),
        kind: (info % (1 << 32)) as u32,
        symbol: (info / (1 << 32)) as u32,
        addend: u64_at(bytes, at + R_ADDEND),
        table: table.index,
        index,
    }
}
