//! The laws of the programs of a file.

ghost use Rattle.std.specs.Prelude.{All, List, None, [], codes, ℕ, ◌<◌, ◌∷◌, ◌≡◌};
ghost use Rattle.rw_base.specs.Rules.{first};
ghost use Rattle.rw_base.specs.declared.span.Span.{Span};
ghost use Rattle.rw_code.specs.Example.{Exits, exit_file, exit_ground, exit_placing, exit_start, exits};
ghost use Rattle.rw_code.specs.File.{labels_of, symbolic};
ghost use Rattle.rw_code.specs.FirstWords.{HostedWords, OwnWords};
ghost use Rattle.rw_code.specs.Fits.{FitsFile};
ghost use Rattle.rw_code.specs.Ground.{Ground};
ghost use Rattle.rw_code.specs.ImportExample.{CallsImport, import_answers, import_file, import_ground, import_placing};
ghost use Rattle.rw_code.specs.Mirrors.{Begins, OriginalMirrors};
ghost use Rattle.rw_code.specs.Original.{original};
ghost use Rattle.rw_code.specs.Placing.{IsPlacing, name_address, placing_addresses};
ghost use Rattle.rw_code.specs.Replies.{AreLawful};
ghost use Rattle.rw_code.specs.Start.{IsStart, Start, numbers_placed, words_start};
ghost use Rattle.rw_code.specs.declared.point.FilePoint.TheVariants.{At};
ghost use Rattle.rw_domain.specs.Placed.{Placed};
ghost use Rattle.rw_elf.specs.Tables.{elf_rules};
ghost use Rattle.rw_funcs.specs.Found.{found_rules};
ghost use Rattle.rw_funcs.specs.Functions.{function_rules};
ghost use Rattle.rw_funcs.specs.Points.{point_rules};
ghost use Rattle.rw_live.specs.LiveSteps.{HasPoints};
ghost use Rattle.rw_live.specs.Nodes.{points_in};
ghost use Rattle.rw_machine.specs.Program.{GivesInstructions};
ghost use Rattle.rw_machine.specs.Step.{Machine};
ghost use Rattle.rw_refs.specs.CodeReferences.{code_rules};
ghost use Rattle.rw_words.specs.Addresses.{Addresses};
ghost use Rattle.rw_words.specs.Laws.{HoldBytes};

/// The symbolic program of a file has the points of each function, and what it gives are instructions. So what is live in a
/// function is enough for its steps (`rw_live::laws::live_is_enough`).
pub fn symbolic_has_points()
    ensures points { (file : List ℕ) (span : Span) → HasPoints (points_in file span) At (symbolic file) }
    ensures instructions { (file : List ℕ) → All (λ b. b < 256) file → first (elf_rules file) ≡ None → first (found_rules file) ≡ None → GivesInstructions (symbolic file) }
{}

/// Where no rule on sections, symbols, functions, instructions or what code refers to finds a fault, and the ground that a
/// start takes fits the file, the original does what the symbolic machine of the file does, for as long as that doesn't
/// stop.
///
/// Take any start, any place for the file, any lawful answers and any `n` below 2^64 for which the symbolic machine makes
/// `n` steps. From each machine over numbers for which the start stands, and with answers for which those stand along the
/// run, the original makes `n` steps too. Registers, flags and memory of the symbolic machine then stand for its own, the
/// events so far correspond one by one, and both have ended alike or neither has; as long as the run goes on, both are at
/// one point.
pub fn original_mirrors()
    ensures { (file : List ℕ) (file_ground : Ground) → first (elf_rules file) ≡ None → first (function_rules file) ≡ None → first (point_rules file) ≡ None → first (code_rules file) ≡ None
        → FitsFile file file_ground → OriginalMirrors file file_ground }
{}

/// Wherever atoms lie and regions are placed, each start has a machine over numbers that starts so.
pub fn starts_are_met<P>()
    ensures { (l : Addresses) (file_ground : Ground) (start : Start) (laid : Placed) (first : P) → All HoldBytes file_ground.contents → IsStart start
        → (machine : Machine Placed ℕ ℕ P) × Begins l file_ground start laid first machine }
{}

/// Where the first words of two starts stand, by computing: of a program that a C library starts, and of one that starts itself.
pub fn first_words_stand()
    ensures hosted { HostedWords }
    ensures own { OwnWords }
{}

/// The premises of `original_mirrors` can be met.
///
/// The file that the program is run on as an example has a start and a place, and its one system call has a lawful answer.
/// The law holds of these, and gives that the original exits with 0 after three steps.
pub fn example_exits()
    ensures start { IsStart exit_start }
    ensures fits { FitsFile exit_file exit_ground }
    ensures placing { IsPlacing exit_file exit_ground exit_start exit_placing }
    ensures answers { AreLawful (labels_of exit_file exit_ground) (symbolic exit_file) (words_start exit_ground exit_start) (exits ∷ []) }
    ensures original { (machine : Machine Placed ℕ ℕ ℕ)
        → Begins (placing_addresses exit_file exit_placing) exit_ground exit_start (numbers_placed exit_ground exit_start exit_placing.region) 0x11000 machine
        → Exits (original exit_file exit_placing) machine }
{}

/// The same of a file with data, imports and copies.
///
/// The file imports a function, and one symbol is copied to two places of its data. The answer to its system call holds the
/// address of the imported function, which it then calls; the answer to this call ends the run. The law gives that the
/// original makes both calls and exits with 7 after three steps. The symbol has the address of its first copy.
pub fn example_calls_an_import()
    ensures fits { FitsFile import_file import_ground }
    ensures placing { IsPlacing import_file import_ground exit_start import_placing }
    ensures answers { AreLawful (labels_of import_file import_ground) (symbolic import_file) (words_start import_ground exit_start) import_answers }
    ensures copies { name_address import_file import_placing (codes "x") ≡ 0x14008 }
    ensures original { (machine : Machine Placed ℕ ℕ ℕ)
        → Begins (placing_addresses import_file import_placing) import_ground exit_start (numbers_placed import_ground exit_start import_placing.region) 0x11000 machine
        → CallsImport (original import_file import_placing) (placing_addresses import_file import_placing) machine }
{}
