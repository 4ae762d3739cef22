//! The laws of layouts.

ghost use Rattle.std.specs.Prelude.{◌≡◌, ◌≢◌, ◌+◌, ◌∷◌, ◌<◌, ◌≤◌, ℕ, List, [], Some, map, replicate, slice_get};
ghost use Rattle.x86_insn.specs.declared.instruction.Insn.{Insn};
ghost use Rattle.asm_items.specs.declared.item.Item.TheVariants.{Ins};
ghost use Rattle.asm_items.specs.declared.item.Sym.{Sym};
ghost use Rattle.asm_items.specs.declared.item.Sym.TheVariants.{Counter};
ghost use Rattle.asm_items.specs.Lines.{Items, align_of, copies_number, copies_of, counters_size, sections_of, size_of, used_names};
ghost use Rattle.asm_items.specs.Layout.{Extent, IsLayout, IsOwnName, Layout, section_bytes, symbol_at};
ghost use Rattle.asm_items.specs.Example.{called_name, copied_name, example_items, example_layout, example_names, example_regions};

/// What has an address of its own in a layout: two instructions have two, that of a name that isn't copied is no
/// instruction's and no byte of a region, and two copies that have bytes are of two names.
pub fn addresses_are_apart()
    ensures insns { (items : Items) (regions : List Extent) (names : List (List ℕ)) (layout : Layout) → IsLayout items regions names layout
        → (q p : ℕ) (i j : Insn (Sym (List ℕ))) → slice_get items q ≡ Some (Ins i) → slice_get items p ≡ Some (Ins j) → layout.insn q ≡ layout.insn p → q ≡ p }
    ensures names { (items : Items) (regions : List Extent) (names : List (List ℕ)) (layout : Layout) → IsLayout items regions names layout
        → (name : List ℕ) → IsOwnName items names name → (r o : ℕ) (a : Extent) → slice_get regions r ≡ Some a → o < a.size → layout.name name ≢ layout.region r + o }
    ensures outside { (items : Items) (regions : List Extent) (names : List (List ℕ)) (layout : Layout) → IsLayout items regions names layout
        → (name : List ℕ) → IsOwnName items names name → (q : ℕ) (i : Insn (Sym (List ℕ))) → slice_get items q ≡ Some (Ins i) → layout.name name ≢ layout.insn q }
    ensures copies { (items : Items) (regions : List Extent) (names : List (List ℕ)) (layout : Layout) → IsLayout items regions names layout
        → (k m : ℕ) (one other : List ℕ × ℕ) (a b : Extent) → slice_get (copies_of items) k ≡ Some one → slice_get (copies_of items) m ≡ Some other
        → slice_get regions (copies_number items + k) ≡ Some a → slice_get regions (copies_number items + m) ≡ Some b → 1 ≤ a.size → 1 ≤ b.size → k ≢ m → one.0 ≢ other.0 }
{}

/// A text with data, a copied symbol, a called one, a jump table and a counter has a layout, and its sections these
/// bytes: two numbers, the address of the copied symbol's fifth byte, and the distance of a label from its table.
pub fn example_is_laid()
    ensures layout { IsLayout example_items example_regions example_names example_layout }
    ensures bytes { map (section_bytes example_items example_layout) (sections_of example_items)
        ≡ (7 ∷ 9 ∷ 0x14 ∷ 0 ∷ 3 ∷ 0 ∷ 0 ∷ 0 ∷ 0 ∷ 0 ∷ 4 ∷ 0 ∷ 255 ∷ 255 ∷ []) ∷ replicate 16 0 ∷ [] }
    ensures sizes { map (λ s. size_of s.lines) (sections_of example_items) ≡ 14 ∷ 16 ∷ [] }
    ensures alignments { map (λ s. align_of s.lines) (sections_of example_items) ≡ 8 ∷ 32 ∷ [] }
    ensures counters { counters_size example_items ≡ 8 }
    ensures counter { symbol_at example_items example_layout (Counter 0) ≡ 0x30040 }
    ensures names { used_names example_items ≡ called_name ∷ copied_name ∷ [] }
{}
