//! What leaders and probes are good for.

ghost use Rattle.std.specs.Prelude.{◌≡◌, ◌↔◌, ◌<◌, ◌≤◌, ℕ, ◌+◌, ◌^◌, List, All, Contains, Bool, true, false, Option, None, Some, Ok, length, replicate};
ghost use Rattle.std.specs.List.Sorted.{IsStrictlyIncreasing};
ghost use Rattle.rw_base.specs.Rules.{first};
ghost use Rattle.rw_elf.specs.Tables.{elf_rules};
ghost use Rattle.x86_insn.specs.declared.kinds.Plain.TheVariants.{Endbr64};
ghost use Rattle.x86_insn.specs.declared.instruction.Insn.TheVariants.{Plain};
ghost use Rattle.x86_insn.specs.WellFormed.{is_instruction};
ghost use Rattle.rw_words.specs.declared.atom.Atom.{Atom};
ghost use Rattle.rw_words.specs.declared.atom.Cell.{Cell};
ghost use Rattle.rw_words.specs.Addresses.{Addresses};
ghost use Rattle.rw_domain.specs.declared.place.Access.TheVariants.{Write};
ghost use Rattle.rw_domain.specs.declared.place.Place.{Place};
ghost use Rattle.rw_domain.specs.declared.place.Region.{Region};
ghost use Rattle.rw_domain.specs.Placed.{Placed};
ghost use Rattle.rw_domain.specs.NumberPlaces.{numbers_over};
ghost use Rattle.rw_domain.specs.RegionsLaidOut.{RegionsAreLaidOut};
ghost use Rattle.rw_domain.specs.LaidOut.{KnownByteStands, WordStands};
ghost use Rattle.rw_domain.specs.Symbols.{symbols_over};
ghost use Rattle.rw_funcs.specs.Found.{found_rules};
ghost use Rattle.rw_funcs.specs.Points.{Point, file_points, is_point, point_at};
ghost use Rattle.rw_machine.specs.Program.{Program};
ghost use Rattle.rw_machine.specs.Events.{Reply};
ghost use Rattle.rw_machine.specs.Step.{Machine, fits_stack, swept_machine};
ghost use Rattle.rw_machine.specs.Correspond.{MachinesCorrespond};
ghost use Rattle.rw_machine.specs.Domains.{numbers, symbols};
ghost use Rattle.rw_live.specs.LiveSteps.{AgreeOnLive};
ghost use Rattle.rw_runs.specs.Runs.{first_run, made, total};
ghost use Rattle.rw_runs.specs.Correspond.{AllRepliesCorrespond, NumbersRun, WordsRun};
ghost use Rattle.rw_tables.specs.Tables.{table_rules};
ghost use Rattle.rw_probe.specs.declared.leaders.Mode.{Mode};
ghost use Rattle.rw_probe.specs.declared.form.Probe.{Probe};
ghost use Rattle.rw_probe.specs.Leaders.{is_leader, leaders_of};
ghost use Rattle.rw_probe.specs.Probes.{IsProbe, probe_insns, step_count};
ghost use Rattle.rw_probe.specs.Counting.{Counts, HasRegisters, HasRoomFor, IsEightBytes, StandFrom};
ghost use Rattle.rw_probe.specs.Forgetting.{HasFreeRoom, HasFreeRoomFor, HasStack, HasWords, counter_bytes, counter_place, forgotten, incremented};
ghost use Rattle.rw_probe.specs.ProbedPrograms.{AreProbed, HasCounters, HasFunctions, ProbedProgramStands, TestsPoint};
ghost use Rattle.rw_probe.specs.ProbedRuns.{AllFitBeside, ProbedRunStands, StartsProbed, entries, probe_cost};

/// The leaders of a mode are a set of points: those in the list are exactly its elements, and they ascend. There are 16,777,216
/// at most, as code has no more bytes.
pub fn leaders_are_points()
    ensures elements { (bytes : List ℕ) (mode : Mode) (c : ℕ) → first (elf_rules bytes) ≡ None → first (found_rules bytes) ≡ None → first (table_rules bytes) ≡ None
        → Contains (leaders_of bytes mode) c ↔ (is_leader bytes mode c ≡ true) }
    ensures points { (bytes : List ℕ) (mode : Mode) → All (λ c. is_point (file_points bytes) c ≡ true) (leaders_of bytes mode) }
    ensures ascend { (bytes : List ℕ) (mode : Mode) → first (elf_rules bytes) ≡ None → first (found_rules bytes) ≡ None → IsStrictlyIncreasing (leaders_of bytes mode) }
    ensures few { (bytes : List ℕ) (mode : Mode) → first (elf_rules bytes) ≡ None → first (found_rules bytes) ≡ None → length (leaders_of bytes mode) ≤ 16777216 }
{}

/// At each point there is one probe at most.
pub fn one_probe()
    ensures { (points : List Point) (c : ℕ) (p q : Probe) → IsProbe points c p → IsProbe points c q → p ≡ q }
{}

/// A probe has one, three or seven instructions, and each is one of the table.
pub fn probes_are_instructions<R>()
    ensures count { (counter : R) (probe : Probe) → length (probe_insns counter probe) ≡ step_count probe }
    ensures formed { (counter : R) (probe : Probe) → All (λ i. is_instruction i ≡ true) (probe_insns counter probe) }
{}

/// `endbr64` reads and writes nothing: the probe at it is the probe at the point behind it.
pub fn probes_stand_behind_endbr64()
    ensures { (points : List Point) (c : ℕ) (p : Point) (probe : Probe) → point_at points c ≡ Some p → p.insn ≡ Plain Endbr64 → IsProbe points c probe → IsProbe points (p.place + p.len) probe }
{}

/// What the instructions of a probe do to a machine over numbers.
///
/// Let them stand one after another in a program from the machine's point on, and let the word of their reference be the
/// address of eight bytes that may be written. Then the machine makes 1, 3 or 7 steps without an event, and comes to the
/// point behind them. The number of these bytes is one more, modulo 2^64. No register is changed but the one that the probe
/// goes through, and no flag but ZF, SF, OF and PF, and those by `incq` alone. No other byte of memory is changed but, by a
/// spill, the eight from `%rsp` - 136 on: a value in the red zone is left. A spill needs these to be bytes that may be written,
/// in another region.
pub fn probes_count<P, R>()
    ensures { (prog : Program P R ℕ) (probe : Probe) (counter : R) (place saved : Place) (behind : P) (run : NumbersRun P)
        → StandFrom prog run.machine.point (probe_insns counter probe) behind → run.ending ≡ None
        → IsEightBytes run.machine (prog.resolve counter false) place → HasRegisters run.machine → HasRoomFor run.machine probe place saved
        → (n : Machine Placed ℕ ℕ P) × (made numbers prog (step_count probe) run ≡ Some (record run { machine = n }))
        × (n.point ≡ behind) × Counts probe place saved run.machine n }
{}

/// What a probe leaves of a machine that corresponds to one over words.
///
/// Let counters, eight bytes each, be the spare region, and let the reference of the instructions lead to one of them. Then
/// the machine behind the probe corresponds to the one over words of which the probe's register, or for `incq` ZF, SF, OF and
/// PF, are forgotten; that counter is one more, and the others are as they were. A spill needs the eight cells from `%rsp` - 136
/// on to be unknown, as [`swept_stacks_have_room`] has them after each step.
pub fn probes_correspond<P, O, R>()
    ensures { (l : Addresses) (known : Atom → Bool) (near near' : P → O → Bool) (prog : Program O R ℕ) (probe : Probe) (counter : R) (region k : ℕ) (counts : List ℕ) (saved : Place) (behind : O)
        (m : Machine Placed (List Cell) Cell P) (run : NumbersRun O)
        → StandFrom prog run.machine.point (probe_insns counter probe) behind → run.ending ≡ None
        → k < length counts → (numbers_over run.machine.placed).place (prog.resolve counter false) 8 Write ≡ Ok (counter_place region k)
        → HasWords m → HasFreeRoomFor m probe saved → near' m.point behind ≡ true
        → MachinesCorrespond l known (Some (region, counter_bytes counts)) near m run.machine
        → (n : Machine Placed ℕ ℕ O) × (made numbers prog (step_count probe) run ≡ Some (record run { machine = n }))
        × MachinesCorrespond l known (Some (region, counter_bytes (incremented k counts))) near' (forgotten probe m) n }
{}

/// After each step a spill has the room that it needs: where the stack pointer is in the stack, with 256 bytes below it, and
/// nothing is known below the red zone.
pub fn swept_stacks_have_room<P>()
    ensures { (m : Machine Placed (List Cell) Cell P) (number : ℕ) (stack : Region) → HasStack m number stack → fits_stack (symbols_over m.placed) m.registers ≡ true
        → (saved : Place) × HasFreeRoom (swept_machine (symbols_over m.placed) m) saved }
{}

/// A machine that agrees with another on what is live at a point still does, where what the probe there changes is forgotten
/// of it.
pub fn probes_keep_live<P>()
    ensures { (points : List Point) (c : ℕ) (probe : Probe) (m o : Machine Placed (List Cell) Cell P)
        → IsProbe points c probe → AgreeOnLive points c m o → AgreeOnLive points c m (forgotten probe o) }
{}

/// A program with probes does what the program over words does, for as long as that doesn't stop, and each counter holds
/// how often its leader was entered.
///
/// Let the points of the program over words be those of functions, and let the program over numbers have, at the label of each
/// point, its instruction, and at a leader the probe by what is live there: before the instruction, or behind it where that is
/// `endbr64`. Let two machines correspond, the second with counters of 0 in the spare region, and let answers correspond along
/// the run of the first, none of which writes to that region. Where the first makes `n` steps, the second makes these and the
/// instructions of the probes at the points of these steps.
///
/// Then `%rsp`, all rows of memory, and the registers and flags that are live at the point stand, the second machine is at the
/// label of that point, the events so far correspond one by one, and both have ended alike or neither has. Where the run has
/// ended or is behind a function, only `%rsp` and memory need to stand. Eight bytes of the spare region for each leader are
/// how many of the `n` steps were at it. Without leaders and probes this is the law of runs.
pub fn probed_runs_correspond<P, O, R>()
    ensures { (l : Addresses) (known : Atom → Bool) (named : ℕ → ℕ → Bool) (label : P → O → Bool) (c : Program P ℕ (List Cell)) (d : Program O R ℕ) (counter : ℕ → R) (probe_at : P → Option (ℕ × Probe))
        (around : ℕ → List Point) (at : ℕ → P) (is_there : ℕ → P → Bool) (leaders : List ℕ) (region : ℕ)
        (m : Machine Placed (List Cell) Cell P) (o : Machine Placed ℕ ℕ O) (answers : List (Reply (List Cell) Cell)) (replies : List (Reply ℕ ℕ)) (n : ℕ) (run : WordsRun P)
        → ProbedProgramStands (WordStands l known) (λ i j. named i j ≡ true) (λ p q. label p q ≡ true) c d counter probe_at
        → HasFunctions around at c → AreProbed around at leaders probe_at → TestsPoint at is_there
        → StartsProbed m → HasCounters d counter region (length leaders) o.placed
        → MachinesCorrespond l known (Some (region, counter_bytes (replicate (length leaders) 0))) label m o
        → AllFitBeside region c m answers → AllRepliesCorrespond l known None c m answers o.placed replies
        → n < 2 ^ 64 → made symbols c n (first_run m answers) ≡ Some run
        → (other : NumbersRun O) × (made numbers d (total symbols c (probe_cost probe_at) n (first_run m answers)) (first_run o replies) ≡ Some other)
        × ProbedRunStands (WordStands l known) (KnownByteStands l known) (Some (region, counter_bytes (entries is_there leaders c n (first_run m answers)))) (λ i j. named i j ≡ true)
        (RegionsAreLaidOut l) (λ p q. label p q ≡ true) around at run other }
{}
