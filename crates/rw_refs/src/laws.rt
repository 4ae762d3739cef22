//! Laws of the definitions.

ghost use Rattle.std.specs.Prelude.{◌≡◌, List, ℕ, []};
ghost use Rattle.rw_elf.specs.Tables.{kept_sections};
ghost use Rattle.rw_reloc.specs.Slots.{slots_of};
ghost use Rattle.rw_refs.specs.References.{point_at, reference_at, target_at};

/// In a file without kept sections and without slots an address stands for the instruction that starts there, or for nothing.
pub fn code_stands_alone()
    ensures reference { (bytes : List ℕ) (a : ℕ) → kept_sections bytes ≡ [] → slots_of bytes ≡ [] → reference_at bytes a ≡ point_at bytes a }
    ensures target { (bytes : List ℕ) (a : ℕ) → kept_sections bytes ≡ [] → slots_of bytes ≡ [] → target_at bytes a ≡ point_at bytes a }
{}
