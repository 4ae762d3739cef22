//! Files that meet the premises of `rw_out::laws::simulation`, and what their programs do.

ghost use Rattle.std.specs.Prelude.{◌≡◌, ◌+◌, ℕ, [], ◌∷◌, None, true};
ghost use Rattle.rw_out.specs.Items.{items_of};
ghost use Rattle.rw_probe.specs.declared.leaders.Mode.TheVariants.{Blocks};
ghost use Rattle.rw_out.specs.Probed.{AreProbes};
ghost use Rattle.rw_domain.specs.Placed.{Placed};
ghost use Rattle.rw_machine.specs.Step.{Machine};
ghost use Rattle.rw_code.specs.Printed.{IsNamed, PrintedBegins, printed};
ghost use Rattle.rw_data.specs.FirstFault.{first_fault};
ghost use Rattle.rw_out.specs.Simulates.{IsTextLayout, names_of, text_addresses};
ghost use Rattle.rw_code.specs.Example.{exit_file, exit_start, Exits};
ghost use Rattle.rw_out_examples.specs.SlotExample.{slot_file, slot_ground, slot_layout, slot_placing};
ghost use Rattle.rw_code.specs.File.{labels_of, symbolic};
ghost use Rattle.rw_code.specs.Mirrors.{Begins};
ghost use Rattle.rw_code.specs.Original.{original};
ghost use Rattle.rw_code.specs.Placing.{IsPlacing, placing_addresses};
ghost use Rattle.rw_code.specs.Replies.{AreLawful};
ghost use Rattle.rw_code.specs.Start.{numbers_placed, words_start};
ghost use Rattle.rw_out_examples.specs.Example.{exit_layout};
ghost use Rattle.rw_out_examples.specs.PutsExample.{puts_answers, puts_file, puts_ground, puts_layout, puts_placing, CallsPuts};
ghost use Rattle.rw_code.specs.Imports.{have_one_name, import_name};
ghost use Rattle.rw_out_examples.specs.CopyExample.{TrapsAtUd2, copy_file, copy_ground, copy_layout, copy_placing};
ghost use Rattle.rw_out_examples.specs.CopyHostedExample.{hosted_answers, hosted_file, hosted_ground, hosted_layout, hosted_placing, CallsBoth};
ghost use Rattle.rw_out_examples.specs.DataExample.{ExitsWith, data_file, data_ground, data_layout, data_placing};
ghost use Rattle.rw_out_examples.specs.BlocksExample.{CountsWith, block_forms, block_items, block_layout, blocks_file};
ghost use Rattle.rw_out_examples.specs.JumpExample.{jump_file, jump_file_of, jump_ground, jump_ground_of, jump_layout};

/// The premises of `rw_out::laws::simulation` can be met.
///
/// The file that the program is run on as an example has no fault, and there is a place for its text; its start, its place
/// and an answer to its one system call are those of `rw_code::laws::example_exits`. The theorem holds of these, and gives
/// that the printed program exits with 0 after three steps, as the original does.
pub fn premises_are_met()
    ensures file { first_fault exit_file ≡ None }
    ensures layout { IsTextLayout exit_file (items_of exit_file) exit_start exit_layout }
    ensures printed { (machine : Machine Placed ℕ ℕ ℕ) → PrintedBegins (text_addresses exit_file exit_layout) (items_of exit_file) exit_layout exit_start machine
        → Exits (printed (items_of exit_file) (names_of exit_file (items_of exit_file)) exit_layout) machine }
{}

/// They can be met by a file with data: its code loads a byte from a section and exits with
/// it. There are a place for the file and one for its text; the law gives that from each machine that begins as they say,
/// the original and the printed program ask for exit with 7 after four steps, and so exit.
pub fn data_premises_are_met()
    ensures file { first_fault data_file ≡ None }
    ensures placing { IsPlacing data_file data_ground exit_start data_placing }
    ensures layout { IsTextLayout data_file (items_of data_file) exit_start data_layout }
    ensures original { (machine : Machine Placed ℕ ℕ ℕ)
        → Begins (placing_addresses data_file data_placing) data_ground exit_start (numbers_placed data_ground exit_start data_placing.region) (data_placing.base + data_ground.entry) machine
        → ExitsWith 4 7 (original data_file data_placing) machine }
    ensures printed { (machine : Machine Placed ℕ ℕ ℕ) → PrintedBegins (text_addresses data_file data_layout) (items_of data_file) data_layout exit_start machine
        → ExitsWith 4 7 (printed (items_of data_file) (names_of data_file (items_of data_file)) data_layout) machine }
{}

/// They can be met by files with a jump table as well, which differ in the index alone. With index 1 the code goes through the second
/// word, whose bytes depend on where text and table lie, and asks for exit with 11 after eleven steps. Index 3 is past the bound: the
/// code doesn't read the table, and asks for exit with 3 after five steps.
pub fn table_premises_are_met()
    ensures file { (index : ℕ) → first_fault (jump_file_of index) ≡ None }
    ensures placing { (index : ℕ) → IsPlacing (jump_file_of index) (jump_ground_of index) exit_start data_placing }
    ensures layout { (index : ℕ) → IsTextLayout (jump_file_of index) (items_of (jump_file_of index)) exit_start jump_layout }
    ensures original { (machine : Machine Placed ℕ ℕ ℕ)
        → Begins (placing_addresses jump_file data_placing) jump_ground exit_start (numbers_placed jump_ground exit_start data_placing.region) (data_placing.base + jump_ground.entry) machine
        → ExitsWith 11 11 (original jump_file data_placing) machine }
    ensures printed { (machine : Machine Placed ℕ ℕ ℕ) → PrintedBegins (text_addresses jump_file jump_layout) (items_of jump_file) jump_layout exit_start machine
        → ExitsWith 11 11 (printed (items_of jump_file) (names_of jump_file (items_of jump_file)) jump_layout) machine }
    ensures original_past { let file = jump_file_of 3 in let needed = jump_ground_of 3 in (machine : Machine Placed ℕ ℕ ℕ)
        → Begins (placing_addresses file data_placing) needed exit_start (numbers_placed needed exit_start data_placing.region) (data_placing.base + needed.entry) machine
        → ExitsWith 5 3 (original file data_placing) machine }
    ensures printed_past { let file = jump_file_of 3 in (machine : Machine Placed ℕ ℕ ℕ)
        → PrintedBegins (text_addresses file jump_layout) (items_of file) jump_layout exit_start machine
        → ExitsWith 5 3 (printed (items_of file) (names_of file (items_of file)) jump_layout) machine }
{}

/// They can be met by a file whose data holds an address as well: a slot of its data holds the address of the number behind it, to
/// which its code goes through the slot, and it asks for exit with this number, which is 9, after four steps.
pub fn slot_is_followed()
    ensures file { first_fault slot_file ≡ None }
    ensures placing { IsPlacing slot_file slot_ground exit_start slot_placing }
    ensures layout { IsTextLayout slot_file (items_of slot_file) exit_start slot_layout }
    ensures original { (machine : Machine Placed ℕ ℕ ℕ)
        → Begins (placing_addresses slot_file slot_placing) slot_ground exit_start (numbers_placed slot_ground exit_start slot_placing.region) (slot_placing.base + slot_ground.entry) machine
        → ExitsWith 4 9 (original slot_file slot_placing) machine }
    ensures printed { (machine : Machine Placed ℕ ℕ ℕ) → PrintedBegins (text_addresses slot_file slot_layout) (items_of slot_file) slot_layout exit_start machine
        → ExitsWith 4 9 (printed (items_of slot_file) (names_of slot_file (items_of slot_file)) slot_layout) machine }
{}

/// They can be met by a file into which a symbol is copied: its code loads this symbol, which the text has by its name, and traps
/// at `ud2` in its second step.
pub fn copied_symbol_is_loaded()
    ensures file { first_fault copy_file ≡ None }
    ensures placing { IsPlacing copy_file copy_ground exit_start copy_placing }
    ensures layout { IsTextLayout copy_file (items_of copy_file) exit_start copy_layout }
    ensures original { (machine : Machine Placed ℕ ℕ ℕ)
        → Begins (placing_addresses copy_file copy_placing) copy_ground exit_start (numbers_placed copy_ground exit_start copy_placing.region) (copy_placing.base + copy_ground.entry) machine
        → TrapsAtUd2 (original copy_file copy_placing) machine }
    ensures printed { (machine : Machine Placed ℕ ℕ ℕ) → PrintedBegins (text_addresses copy_file copy_layout) (items_of copy_file) copy_layout exit_start machine
        → TrapsAtUd2 (printed (items_of copy_file) (names_of copy_file (items_of copy_file)) copy_layout) machine }
{}

/// And by a file that a C library starts, and that imports a function.
///
/// Its code calls the function through a stub, with the address of its constant data. The theorem gives that the original and the
/// printed program call it once, with the place of this data as the first argument, and return 0 after six steps.
pub fn puts_is_called()
    ensures file { first_fault puts_file ≡ None }
    ensures placing { IsPlacing puts_file puts_ground exit_start puts_placing }
    ensures layout { IsTextLayout puts_file (items_of puts_file) exit_start puts_layout }
    ensures answers { AreLawful (labels_of puts_file puts_ground) (symbolic puts_file) (words_start puts_ground exit_start) puts_answers }
    ensures original { (machine : Machine Placed ℕ ℕ ℕ)
        → Begins (placing_addresses puts_file puts_placing) puts_ground exit_start (numbers_placed puts_ground exit_start puts_placing.region) 0x11000 machine
        → CallsPuts (λ i j. have_one_name puts_file i j ≡ true) 0x12000 (original puts_file puts_placing) machine }
    ensures printed { let names = names_of puts_file (items_of puts_file) in
        (machine : Machine Placed ℕ ℕ ℕ) → PrintedBegins (text_addresses puts_file puts_layout) (items_of puts_file) puts_layout exit_start machine
        → CallsPuts (IsNamed (import_name puts_file) names) 0x100000 (printed (items_of puts_file) names puts_layout) machine }
{}

/// And by a file that has all of these: a C library starts it, a symbol is copied into it, and it imports two functions.
///
/// Its code calls the first function with the address of the copied symbol, and then the second. The theorem gives that the original
/// and the printed program call these two, the first with the place of their copy as the first argument, and return 0 after
/// seven steps.
pub fn copied_symbol_is_passed()
    ensures file { first_fault hosted_file ≡ None }
    ensures placing { IsPlacing hosted_file hosted_ground exit_start hosted_placing }
    ensures layout { IsTextLayout hosted_file (items_of hosted_file) exit_start hosted_layout }
    ensures answers { AreLawful (labels_of hosted_file hosted_ground) (symbolic hosted_file) (words_start hosted_ground exit_start) hosted_answers }
    ensures original { (machine : Machine Placed ℕ ℕ ℕ)
        → Begins (placing_addresses hosted_file hosted_placing) hosted_ground exit_start (numbers_placed hosted_ground exit_start hosted_placing.region) 0x11000 machine
        → CallsBoth (λ i j. have_one_name hosted_file i j ≡ true) 0x14000 (original hosted_file hosted_placing) machine }
    ensures printed { let names = names_of hosted_file (items_of hosted_file) in
        (machine : Machine Placed ℕ ℕ ℕ) → PrintedBegins (text_addresses hosted_file hosted_layout) (items_of hosted_file) hosted_layout exit_start machine
        → CallsBoth (IsNamed (import_name hosted_file) names) 0x300000 (printed (items_of hosted_file) names hosted_layout) machine }
{}

/// They can be met by a file with probes at its blocks.
///
/// Its code calls a function that calls itself until its argument is 0, and exits with the sum of the numbers up to 3. Five of its
/// six probes are one instruction; the one behind the call goes through a register that isn't live. The theorem gives that the
/// printed program asks for exit with 6 and exits after 48 steps, of which 33 are those of the file, and that its counters
/// then hold 1, 1, 4, 3, 3 and 1.
pub fn blocks_are_counted()
    ensures file { first_fault blocks_file ≡ None }
    ensures probes { AreProbes blocks_file Blocks block_forms }
    ensures layout { IsTextLayout blocks_file block_items exit_start block_layout }
    ensures printed { (machine : Machine Placed ℕ ℕ ℕ) → PrintedBegins (text_addresses blocks_file block_layout) block_items block_layout exit_start machine
        → CountsWith 48 6 (1 ∷ 1 ∷ 4 ∷ 3 ∷ 3 ∷ 1 ∷ []) (printed block_items (names_of blocks_file block_items) block_layout) machine }
{}
