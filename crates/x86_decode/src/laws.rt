//! Laws of all spellings, each a function whose contract is the law.

ghost use Rattle.std.specs.Prelude.{◌≡◌, ◌<◌, ◌≤◌, ◌+◌, ◌%◌, ◌^◌, ℕ, ℤ, List, [], ◌++◌, length, take, true, IfSome, Some};
ghost use Rattle.std.specs.Int.{w32};
ghost use Rattle.std.specs.Int.RustNames.{FitsSigned};
ghost use Rattle.std.specs.List.{All};
ghost use Rattle.x86_insn.specs.declared.instruction.Insn.{Insn};
ghost use Rattle.x86_insn.specs.WellFormed.{is_instruction};
ghost use Rattle.x86_insn.specs.References.{reference_of};
ghost use Rattle.x86_decode.specs.Canonical.{canonical, InRange, LiesAt};
ghost use Rattle.x86_decode.specs.Reading.{decode_of};
ghost use Rattle.x86_decode.specs.Spelling.{Spells};

/// Bytes spell at most one instruction at an address.
pub fn one_instruction()
    ensures { (i j : Insn ℕ) (address : ℕ) (bytes : List ℕ) → Spells i address bytes → Spells j address bytes → i ≡ j }
{}

/// No spelling at an address is a proper prefix of another one there.
pub fn no_spelling_begins_another()
    ensures { (i j : Insn ℕ) (address : ℕ) (bytes more : List ℕ) → Spells i address bytes → Spells j address (bytes ++ more) → more ≡ [] }
{}

/// What is read from left to right is spelled: where reading answers an instruction and a length, as many of the bytes
/// spell the instruction.
pub fn decoded_is_spelled()
    ensures { (i : Insn ℕ) (n : ℕ) (address : ℕ) (bytes : List ℕ) → decode_of address bytes ≡ Some (i, n) → (n ≤ length bytes) × Spells i address (take n bytes) }
{}

/// What the front of some bytes spells is read: reading answers the instruction that it spells, and its length.
pub fn spelled_is_decoded()
    ensures { (i : Insn ℕ) (n : ℕ) (address : ℕ) (bytes : List ℕ) → n ≤ length bytes → Spells i address (take n bytes) → decode_of address bytes ≡ Some (i, n) }
{}

/// What bytes spell is a well formed instruction.
pub fn spelled_is_well_formed()
    ensures { (i : Insn ℕ) (address : ℕ) (bytes : List ℕ) → All (λ b. b < 256) bytes → Spells i address bytes → is_instruction i ≡ true }
{}

/// The canonical spelling of a well formed instruction spells it at an address, where its reference, if there is one,
/// lies at the distance `d` of 32 bits from the next instruction. The numbers are in the ranges of their types.
pub fn canonical_spelling()
    ensures { (i : Insn ℕ) (address : ℕ) (d : ℤ) → is_instruction i ≡ true → InRange i → FitsSigned w32 d →
        LiesAt ((address + length (canonical d i)) % 2 ^ 64) d i → Spells i address (canonical d i) × All (λ b. b < 256) (canonical d i) }
{}

/// Each well formed instruction is spelled by some bytes at some address.
pub fn every_instruction_is_spelled()
    ensures { (i : Insn ℕ) → is_instruction i ≡ true → InRange i → IfSome (reference_of i) (λ r. r < 2 ^ 64) →
        (address : ℕ) × (address < 2 ^ 64) × (bytes : List ℕ) × All (λ b. b < 256) bytes × Spells i address bytes }
{}
