//! The replies of built-in answers are lawful, and where the regions lie that come during a run.

ghost use Rattle.std.specs.Prelude.{◌≡◌, ◌≤◌, ◌<◌, ◌+◌, ◌*◌, ◌-◌, ◌%◌, ◌^◌, ◌∷◌, ◌++◌, ℕ, List, All, length, sum, Ok};
ghost use Rattle.rw_words.specs.declared.atom.Cell.{Cell};
ghost use Rattle.rw_domain.specs.NumberPlaces.{numbers_over};
ghost use Rattle.rw_domain.specs.Placed.{Placed};
ghost use Rattle.rw_domain.specs.Symbols.{symbols_over};
ghost use Rattle.rw_machine.specs.Program.{IsWide};
ghost use Rattle.rw_sim.specs.declared.callee.Callee.TheVariants as callee;
ghost use Rattle.rw_sim.specs.Answers.{Answer};
ghost use Rattle.rw_sim.specs.Builtins.{system_answer, import_answer};
ghost use Rattle.rw_sim.specs.FirstBytes.{first_byte_of_words, first_byte_of_numbers};
ghost use Rattle.rw_sim.specs.Fresh.{first_fresh_base, fresh_base};
ghost use Rattle.rw_sim.specs.Lawful.{IsLawful, IsTakenFor};
ghost use Rattle.rw_sim.specs.Replies.{reply_of_answer};

/// The reply of a built-in answer is lawful, over words and over numbers.
///
/// The call's words have width Q, no more bytes are taken for the answer than it asks for, and with one more region there
/// are still fewer than 2^32 - 1. Then the result has width Q, nothing is known of the registers that the call loses, each
/// write is inside a writable region and in none of its holes, and a fresh region has a byte at least and an alignment that
/// is a power of two. Where a region lies over numbers says `fresh_regions_lie`.
pub fn replies_are_lawful()
    ensures words_system { (placed : Placed) (memory : List (List Cell)) (words : List (List Cell)) (call base : ℕ) (taken : List ℕ) (answer : Answer (List Cell) Cell)
        → All (IsWide (symbols_over placed)) words → length placed.regions + 1 < 2 ^ 32 - 1 → IsTakenFor answer taken
        → system_answer (symbols_over placed) memory words call ≡ Ok answer
        → IsLawful (symbols_over placed) placed callee.System (reply_of_answer (symbols_over placed) callee.System (first_byte_of_words placed base) taken answer) }
    ensures words_import { (placed : Placed) (memory : List (List Cell)) (words : List (List Cell)) (fresh symbol : ℕ) (name : List ℕ) (base : ℕ) (taken : List ℕ) (answer : Answer (List Cell) Cell)
        → All (IsWide (symbols_over placed)) words → length placed.regions + 1 < 2 ^ 32 - 1 → IsTakenFor answer taken
        → import_answer (symbols_over placed) memory words fresh symbol name ≡ Ok answer
        → IsLawful (symbols_over placed) placed callee.Import (reply_of_answer (symbols_over placed) callee.Import (first_byte_of_words placed base) taken answer) }
    ensures numbers_system { (placed : Placed) (memory : List (List ℕ)) (words : List ℕ) (call base : ℕ) (taken : List ℕ) (answer : Answer ℕ ℕ)
        → All (IsWide (numbers_over placed)) words → length placed.regions + 1 < 2 ^ 32 - 1 → IsTakenFor answer taken → base < 2 ^ 64
        → system_answer (numbers_over placed) memory words call ≡ Ok answer
        → IsLawful (numbers_over placed) placed callee.System (reply_of_answer (numbers_over placed) callee.System (first_byte_of_numbers placed base) taken answer) }
    ensures numbers_import { (placed : Placed) (memory : List (List ℕ)) (words : List ℕ) (fresh symbol : ℕ) (name : List ℕ) (base : ℕ) (taken : List ℕ) (answer : Answer ℕ ℕ)
        → All (IsWide (numbers_over placed)) words → length placed.regions + 1 < 2 ^ 32 - 1 → IsTakenFor answer taken → base < 2 ^ 64
        → import_answer (numbers_over placed) memory words fresh symbol name ≡ Ok answer
        → IsLawful (numbers_over placed) placed callee.Import (reply_of_answer (numbers_over placed) callee.Import (first_byte_of_numbers placed base) taken answer) }
{}

/// Where a region lies that comes during a run, over numbers: at a multiple of 16 from 2^46 on, behind all that came before
/// it, with 16 bytes at least between two. Regions of so many bytes end below 2^46 and 32 times as many bytes: those of a
/// run, which have 67,108,864 together at most, end below 2^47.
pub fn fresh_regions_lie()
    ensures from { (sizes : List ℕ) → first_fresh_base ≤ fresh_base sizes }
    ensures aligned { (sizes : List ℕ) → fresh_base sizes % 16 ≡ 0 }
    ensures up_to { (sizes : List ℕ) → All (λ size. 1 ≤ size) sizes → fresh_base sizes ≤ first_fresh_base + 32 * sum sizes }
    ensures apart { (before : List ℕ) (size : ℕ) (behind : List ℕ) → fresh_base before + size + 16 ≤ fresh_base (before ++ size ∷ behind) }
{}
