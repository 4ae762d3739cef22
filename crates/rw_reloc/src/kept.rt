//! Which addresses belong to kept sections.
ghost use Rattle.std.specs.Prelude.{◌≡◌};
ghost use Rattle.rw_reloc.specs.Slots.{is_kept_at};

use rw_elf::Elf;

/// Whether an address belongs to a kept section.
pub(crate) fn is_kept_at(elf: &Elf, address: u64) -> bool
    ensures { result ≡ is_kept_at elf.now address }
{
    // (for its clause `clean`: the file has no fault in these tables)
    let _file = elf.file();
    elf.kept_around(address).is_some()
}
