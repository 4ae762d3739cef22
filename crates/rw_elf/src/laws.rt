//! Laws of the definitions: what holds of each file in which no rule of this crate finds a fault.
ghost use Rattle.std.specs.Prelude.{◌≡◌, ◌+◌, ◌^◌, ◌<◌, ◌≤◌, List, ℕ, length, sum_by, Contains, Some, None, true};
ghost use Rattle.std.specs.List.{AllPairs};
ghost use Rattle.rw_base.specs.Name.{is_good_name};
ghost use Rattle.rw_base.specs.Rules.{first};
ghost use Rattle.rw_elf.specs.Header.{header_count};
ghost use Rattle.rw_elf.specs.Name.{name_bytes};
ghost use Rattle.rw_elf.specs.Places.{EndsBefore, IsAligned, covers, section_around};
ghost use Rattle.rw_elf.specs.Section.{sections};
ghost use Rattle.rw_elf.specs.Sections.{is_placed, has_bytes};
ghost use Rattle.rw_elf.specs.Symbols.{considered_symbols};
ghost use Rattle.rw_elf.specs.Tables.{elf_rules, kept_sections, code_sections};
ghost use Rattle.rw_elf.specs.declared.section.Section.{Section};
ghost use Rattle.rw_elf.specs.declared.symbol.Symbol.{Symbol};

/// An address belongs to one allocated section at most. The bytes of an allocated section that has
/// any lie in the file. The kept sections ascend without an overlap, and so do the code sections.
pub fn sections_are_apart()
    ensures one { (bytes : List ℕ) (address : ℕ) (s : Section) → first (elf_rules bytes) ≡ None → Contains (sections bytes) s → covers address s ≡ true → section_around bytes address ≡ Some s }
    ensures stored { (bytes : List ℕ) (s : Section) → first (elf_rules bytes) ≡ None → Contains (sections bytes) s → is_placed s ≡ true → has_bytes s ≡ true → s.offset + s.size ≤ length bytes }
    ensures kept { (bytes : List ℕ) → first (elf_rules bytes) ≡ None → AllPairs EndsBefore (kept_sections bytes) }
    ensures code { (bytes : List ℕ) → first (elf_rules bytes) ≡ None → AllPairs EndsBefore (code_sections bytes) }
{}

/// A considered symbol names a section of the table, and has a good name.
pub fn considered_symbols_are_good()
    ensures section { (bytes : List ℕ) (s : Symbol) → first (elf_rules bytes) ≡ None → Contains (considered_symbols bytes) s → s.section < header_count bytes }
    ensures name { (bytes : List ℕ) (s : Symbol) → first (elf_rules bytes) ≡ None → Contains (considered_symbols bytes) s → is_good_name (name_bytes bytes s.name) ≡ true }
{}

/// An allocated section stands at a multiple of its alignment, which is 0 or a power of two up to 2^16, and ends at
/// or below 2^47. The kept sections have 2^30 bytes together at most, and the code sections 2^24.
pub fn sections_keep_the_limits()
    ensures aligned { (bytes : List ℕ) (s : Section) → first (elf_rules bytes) ≡ None → Contains (sections bytes) s → is_placed s ≡ true → IsAligned s }
    ensures below { (bytes : List ℕ) (s : Section) → first (elf_rules bytes) ≡ None → Contains (sections bytes) s → is_placed s ≡ true → s.addr + s.size ≤ 2 ^ 47 }
    ensures kept { (bytes : List ℕ) → first (elf_rules bytes) ≡ None → sum_by (λ s. s.size) (kept_sections bytes) ≤ 2 ^ 30 }
    ensures code { (bytes : List ℕ) → first (elf_rules bytes) ≡ None → sum_by (λ s. s.size) (code_sections bytes) ≤ 2 ^ 24 }
{}
