//! Laws of the definitions: what holds of the slots of each file in which no rule of this crate finds a
//! fault.
ghost use Rattle.std.specs.Prelude.{◌≡◌, ◌↔◌, ◌+◌, ◌-◌, ◌*◌, ◌<◌, ◌≤◌, List, ℕ, Contains, None, Some, false, true, get_or, length};
ghost use Rattle.std.specs.Int.{bit_at};
ghost use Rattle.std.specs.List.{AllPairs};
ghost use Rattle.rw_base.specs.Rules.{first};
ghost use Rattle.rw_reloc.specs.Relocations.{is_copied, is_held, is_imported, relocation_rules, symbol_passes};
ghost use Rattle.rw_reloc.specs.Relr.{base_at, is_address, words_named};
ghost use Rattle.rw_reloc.specs.Slots.{EndsBefore, is_kept_at, slot_at, slots_of};
ghost use Rattle.rw_reloc.specs.declared.slot.Slot.{Slot};
ghost use Rattle.rw_reloc.specs.declared.slot.Target.TheVariants.{Copy, Import};

/// The slots ascend without an overlap, and each is the one slot at its address.
pub fn slots_are_apart()
    ensures apart { (bytes : List ℕ) → first (relocation_rules bytes) ≡ None → AllPairs EndsBefore (slots_of bytes) }
    ensures one { (bytes : List ℕ) (s : Slot) → first (relocation_rules bytes) ≡ None → Contains (slots_of bytes) s → slot_at (slots_of bytes) s.address ≡ Some s }
{}

/// The place of a slot lies inside one section that may be written; where nothing is copied to it, that
/// section has bytes in the file. The slot says whether the section is kept.
pub fn slots_lie_in_sections()
    ensures kept { (bytes : List ℕ) (s : Slot) → first (relocation_rules bytes) ≡ None → Contains (slots_of bytes) s → s.kept ≡ is_kept_at bytes s.address }
    ensures held { (bytes : List ℕ) (s : Slot) → first (relocation_rules bytes) ≡ None → Contains (slots_of bytes) s → is_held bytes s ≡ true }
{}

/// What is imported is an undefined dynamic symbol with an import name. What is copied is one with an
/// import name, of the size that the slot says, which is above 0, and goes to a kept section.
pub fn imports_have_names()
    ensures import { (bytes : List ℕ) (s : Slot) (number : ℕ) → first (relocation_rules bytes) ≡ None → Contains (slots_of bytes) s → s.target ≡ Import number → symbol_passes bytes number (is_imported bytes) ≡ true }
    ensures copy { (bytes : List ℕ) (s : Slot) (number size : ℕ) → first (relocation_rules bytes) ≡ None → Contains (slots_of bytes) s → s.target ≡ Copy number size → symbol_passes bytes number (is_copied bytes size) ≡ true }
    ensures size { (bytes : List ℕ) (s : Slot) (number size : ℕ) → first (relocation_rules bytes) ≡ None → Contains (slots_of bytes) s → s.target ≡ Copy number size → 0 < size }
    ensures kept { (bytes : List ℕ) (s : Slot) (number size : ℕ) → first (relocation_rules bytes) ≡ None → Contains (slots_of bytes) s → s.target ≡ Copy number size → s.kept ≡ true }
{}

/// A table in compact form names words as the generic ABI says: an even number names the word at it. Bit `i` of an odd one,
/// from 1 to 63, names the word `8 * (i - 1)` behind its base. Where the `n` numbers before it are odd, and the one before
/// these is even, the base is the latter, and 8 and `504 * n` more.
pub fn compact_tables_name_words()
    ensures address { (base number word : ℕ) → is_address number ≡ true → Contains (words_named base number) word ↔ (word ≡ number) }
    ensures bitmap { (base number word : ℕ) → is_address number ≡ false → Contains (words_named base number) word ↔ ((i : ℕ) × (1 ≤ i) × (i ≤ 63) × (bit_at number i ≡ 1) × (word ≡ base + 8 * (i - 1))) }
    ensures base { (numbers : List ℕ) (place n : ℕ) → place + n < length numbers → is_address (get_or numbers place 0) ≡ true → ((k : ℕ) → place < k → k ≤ place + n → is_address (get_or numbers k 0) ≡ false) → base_at numbers (place + n + 1) ≡ get_or numbers place 0 + 8 + 504 * n }
{}
