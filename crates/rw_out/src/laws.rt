//! The law that a text simulates its file.

ghost use Rattle.std.specs.Prelude.{◌≡◌, ◌<◌, ℕ, List, None, All};
ghost use Rattle.asm_print.specs.Text.{text_of};
ghost use Rattle.rw_out.specs.Items.{items_of, items_with};
ghost use Rattle.rw_probe.specs.declared.form.Probe.{Probe};
ghost use Rattle.rw_probe.specs.declared.leaders.Mode.{Mode};
ghost use Rattle.rw_probe.specs.declared.leaders.Mode.TheVariants.{Nothing};
ghost use Rattle.asm_items.specs.Lines.{Items};
ghost use Rattle.rw_out.specs.Probed.{AreItemsOf, AreProbes, probes_of};
ghost use Rattle.rw_out.specs.Rewritten.{IsRewritten};
ghost use Rattle.rw_data.specs.FirstFault.{first_fault};
ghost use Rattle.rw_out.specs.Simulates.{Simulates};

/// Where a file of bytes has no fault, the original at any placing and the program of its items at any layout do what the
/// symbolic machine of the file does, for as long as it doesn't stop: memory, events and end, and registers and flags.
///
/// This holds in every mode, with the probes of the mode, whose instructions the printed program makes besides. In a text with
/// probes the registers and flags are those that are live, and each counter holds how often its leader was entered. All of this
/// holds for whatever list of items has the same text.
pub fn simulation()
    ensures simulates { (file : List ℕ) (mode : Mode) (forms : List Probe) → first_fault file ≡ None → All (λ b. b < 256) file → AreProbes file mode forms
        → Simulates file mode (items_with file (probes_of file mode forms)) }
    ensures rewritten { (file : List ℕ) (mode : Mode) (forms : List Probe) → first_fault file ≡ None → All (λ b. b < 256) file → AreProbes file mode forms
        → IsRewritten file mode (text_of (items_with file (probes_of file mode forms))) }
{}

/// There is one list of items of a file in a mode, since each leader has one probe. In mode `Nothing` it has no probes.
pub fn items_are_one_list()
    ensures one { (file : List ℕ) (mode : Mode) (items others : Items) → AreItemsOf file mode items → AreItemsOf file mode others → items ≡ others }
    ensures without_probes { (file : List ℕ) (items : Items) → AreItemsOf file Nothing items → items ≡ items_of file }
{}
