//! What the rule of layouts gives to a text.

ghost use Rattle.std.specs.Prelude.{◌≡◌, ◌∷◌, ◌+◌, ◌^◌, ◌<◌, ◌≤◌, [], ℕ, List, Some, map};
ghost use Rattle.asm_items.specs.Example.{called_name, copied_name, example_items};
ghost use Rattle.x86_insn.specs.declared.instruction.Insn.TheVariants.{Call};
ghost use Rattle.asm_items.specs.declared.item.Item.TheVariants.{Ins};
ghost use Rattle.asm_items.specs.declared.item.Label.TheVariants as label;
ghost use Rattle.asm_items.specs.declared.item.Sym.TheVariants.{Named};
ghost use Rattle.asm_items.specs.Layout.{IsLayout};
ghost use Rattle.asm_items.specs.Lines.{Items, copies_number, used_names};
ghost use Rattle.rw_layout.specs.Checks.{IsProgram, Nowhere};
ghost use Rattle.rw_layout.specs.ExampleRun.{example_run};
ghost use Rattle.rw_layout.specs.Program.{IsText, Numbered, shown};
ghost use Rattle.rw_layout.specs.Reach.{IsFar, distance_of};
ghost use Rattle.rw_layout.specs.RunRegions.{AreUsed, HasRoom, IsSmallProgram, RunRegions, fresh_sizes, run_extents};
ghost use Rattle.rw_layout.specs.declared.laying.Order.{Order};
ghost use Rattle.rw_layout.specs.declared.laying.Order.TheVariants.{Forward, Reverse};
ghost use Rattle.rw_layout.specs.Rule.{functions_number, layout_of};

/// A text of a function with five instructions, a section of 14 bytes at a multiple of 8, one of 16 bytes at a multiple of
/// 32, a counter, a copied symbol and a called one, laid out with a gap of 32 bytes.
pub fn example_is_laid()
    ensures forward { map (layout_of example_items Forward 32 []).region (0 ∷ 1 ∷ 2 ∷ 3 ∷ []) ≡ 65616 ∷ 65664 ∷ 65760 ∷ 65712 ∷ [] }
    ensures reverse { map (layout_of example_items Reverse 32 []).region (0 ∷ 1 ∷ 2 ∷ 3 ∷ []) ≡ 65648 ∷ 65600 ∷ 65776 ∷ 65536 ∷ [] }
    ensures insns { map (layout_of example_items Forward 32 []).insn (8 ∷ 9 ∷ 11 ∷ 13 ∷ 15 ∷ []) ≡ 65536 ∷ 65544 ∷ 65552 ∷ 65560 ∷ 65568 ∷ [] }
    ensures labels { map (layout_of example_items Reverse 32 []).label (label.Code 0x100c ∷ label.Past 0x1000 ∷ label.Section 1 ∷ label.Table 0x200a ∷ []) ≡ 65720 ∷ 65728 ∷ 65600 ∷ 65658 ∷ [] }
    ensures names { map (layout_of example_items Forward 32 []).name (copied_name ∷ called_name ∷ []) ≡ 65760 ∷ 65776 ∷ [] }
    ensures distance { distance_of example_items (layout_of example_items Forward 32 []) 11 (Ins (Call (Named called_name 0))) ≡ Some (record { symbol = Named called_name 0; bytes = 216 }) }
{}

/// What the rule gives for a program is a layout: in each order, with a gap of at most 2^20 bytes, for each run that has room and
/// for names that lines use, where no distance is out of reach. The text of a `Program` is such a program if it has fewer than
/// 2^24 functions and sections (clause `programs`).
pub fn rule_gives_layouts()
    ensures layouts { (items : Items) (order : Order) (gap : ℕ) (run : RunRegions) (names : List (List ℕ))
        → IsSmallProgram items → gap ≤ 2 ^ 20 → HasRoom run → AreUsed items names
        → Nowhere (IsFar items (layout_of items order gap (fresh_sizes run)))
        → IsLayout items (run_extents items run) names (layout_of items order gap (fresh_sizes run)) }
    ensures programs { (text : Numbered) → IsText text → IsProgram (shown text)
        → functions_number (shown text) + copies_number (shown text) < 2 ^ 24 → IsSmallProgram (shown text) }
{}

/// The worked text is such a program, with a run that has room and no distance out of reach: what the rule gives for it, forward
/// or in reverse with a gap of 32 bytes, is a layout.
pub fn example_has_layouts()
    ensures program { IsSmallProgram example_items }
    ensures room { HasRoom example_run }
    ensures layouts { (order : Order) → IsLayout example_items (run_extents example_items example_run) (used_names example_items)
        (layout_of example_items order 32 (fresh_sizes example_run)) }
{}
