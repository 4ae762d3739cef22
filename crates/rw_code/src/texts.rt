//! The laws of the printed program of a text.

ghost use Rattle.std.specs.Prelude.{◌≡◌, ◌∷◌, ◌++◌, ℕ, List, [], Some, Ok, Err, false, true, map, replicate, slice_get};
ghost use Rattle.asm_items.specs.Lines.{DataSection, Items, counters_number, counters_size, sections_of};
ghost use Rattle.asm_items.specs.Layout.{IsLayout, Layout, section_bytes};
ghost use Rattle.asm_items.specs.Example.{example_items, example_layout, example_names};
ghost use Rattle.rw_code.specs.Printed.{PrintedBegins, is_hosted_text, printed, start_of, text_ground};
ghost use Rattle.rw_code.specs.Start.{Start};
ghost use Rattle.rw_domain.specs.Placed.{Placed};
ghost use Rattle.rw_domain.specs.declared.cause.Cause.TheVariants.{TargetNoPoint};
ghost use Rattle.rw_machine.specs.Step.{Machine};
ghost use Rattle.rw_machine.specs.declared.goal.Goal.TheVariants.{At, Finish, Import};
ghost use Rattle.rw_words.specs.Addresses.{Addresses};
ghost use Rattle.rw_words.specs.declared.atom.Cell.TheVariants.{Num, Undef};

/// A printed program starts with exactly the bytes of the lines of its sections, and with counters that are 0.
pub fn sections_hold_their_bytes()
    ensures sections { (l : Addresses) (items : Items) (layout : Layout) (start : Start) (machine : Machine Placed ℕ ℕ ℕ) → PrintedBegins l items layout start machine
        → (k : ℕ) (section : DataSection) → slice_get (sections_of items) k ≡ Some section → slice_get machine.memory k ≡ Some (section_bytes items layout section) }
    ensures counters { (l : Addresses) (items : Items) (layout : Layout) (start : Start) (machine : Machine Placed ℕ ℕ ℕ) → PrintedBegins l items layout start machine
        → slice_get machine.memory (counters_number items) ≡ Some (replicate (counters_size items) 0) }
{}

/// What the text of `asm_items::laws::example_is_laid` says of its start, and where addresses lead in its program: that of
/// a label to the label, that of a called name to the symbol, that of the end out of the run, and those of a copy, of a
/// section and of a byte inside an instruction nowhere.
pub fn example_starts()
    ensures sizes { map (λ r. r.size) (text_ground example_items example_layout).regions ≡ 14 ∷ 16 ∷ 8 ∷ [] }
    ensures alignments { map (λ r. r.align) (text_ground example_items example_layout).regions ≡ 8 ∷ 32 ∷ 16 ∷ [] }
    ensures writable { map (λ r. r.writable) (text_ground example_items example_layout).regions ≡ false ∷ true ∷ true ∷ [] }
    ensures contents { (text_ground example_items example_layout).contents
        ≡ map Num (7 ∷ 9 ∷ 0x14 ∷ 0 ∷ 3 ∷ 0 ∷ 0 ∷ 0 ∷ 0 ∷ 0 ∷ 4 ∷ 0 ∷ 255 ∷ 255 ∷ []) ∷ replicate 16 (Num 0) ∷ replicate 8 Undef ∷ [] }
    ensures counters { (text_ground example_items example_layout).counters ≡ 8 }
    ensures hosted { is_hosted_text example_items ≡ false }
    ensures start { start_of example_items ≡ 7 }
    ensures label { (printed example_items example_names example_layout).target 0x20013 ≡ Ok (At 12) }
    ensures entry { (printed example_items example_names example_layout).target 0x20000 ≡ Ok (At 7) }
    ensures called { (printed example_items example_names example_layout).target 0x60000 ≡ Ok (Import 0) }
    ensures finish { (printed example_items example_names example_layout).target 0x8000 ≡ Ok Finish }
    ensures copy { (printed example_items example_names example_layout).target 0x30010 ≡ Err TargetNoPoint }
    ensures section { (printed example_items example_names example_layout).target 0x30000 ≡ Err TargetNoPoint }
    ensures inside { (printed example_items example_names example_layout).target 0x20001 ≡ Err TargetNoPoint }
{}
