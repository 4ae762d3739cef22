//! Laws of the operators: what is computed over words of cells stands for what is computed over numbers.
ghost use Rattle.std.specs.Prelude.{ℕ, ◌≡◌, ◌+◌, ◌-◌, ◌<◌, ◌≤◌, ◌^◌, ◌⊎◌, Bool, true};
ghost use Rattle.rw_base.specs.declared.width.Width.TheVariants.{L, Q};
ghost use Rattle.rw_words.specs.declared.atom.Atom.{Atom};
ghost use Rattle.rw_words.specs.declared.atom.Atom.TheVariants.{Ptr, Code, Diff};
ghost use Rattle.rw_words.specs.Addresses.{Addresses, address_of};
ghost use Rattle.rw_domain.specs.Placed.{Placed};
ghost use Rattle.rw_domain.specs.LaidOut.{DomainsAreLaidOut, WordStands, KnownByteStands};
ghost use Rattle.rw_domain.specs.Stands.{OperatorsStand};
ghost use Rattle.rw_domain.specs.OtherOperators.{OtherOperatorsStand};
ghost use Rattle.rw_domain.specs.Numbers.{low, extend_of};
ghost use Rattle.rw_domain.specs.NumberPlaces.{numbers_over};
ghost use Rattle.rw_domain.specs.Symbols.{symbols_over};

/// Where words, bytes and flags stand for numbers at some addresses, each result and each flag over words stands for
/// that over numbers, and each access that is permitted over words is permitted over numbers, at the same place.
///
/// The two domains needn't have the same regions. Over numbers a region may be larger, as that of the counters, which has
/// no byte over words; it may lack a hole, as a printed section under a copy; and it may have any alignment. What may
/// lie in a hole over words doesn't matter. `proofs/LaidOutExample.antt` has an original and a printed program of one file.
///
/// Each side condition of `DomainsAreLaidOut` is needed, as these examples show; `proofs/Needed.antt` computes them. A region has
/// 16 bytes and an alignment of 16 over words and over numbers where no other is said, and `cmp` is that of 64 bits.
///
/// - `least`: with a base of 0, `cmp` of the pointer at offset 0 with 0 sets ZF; over words it is clear.
/// - `most`: with a base of 2^63 it sets SF, which is clear over words. With a base of 2^47 - 8, `cmp` of the pointer at
///   offset 8 with 2^47 clears CF, which is set over words.
/// - `power`: with an alignment of 24 and a base of 4,104, the pointer at offset 0 and -16 is 4,096; over words, as 16 is
///   at most 24, it is that pointer, 4,104.
/// - `aligned`: with a base of 4,104, the pointer at offset 8 and -16 is 4,112; over words it is the pointer at offset 0,
///   4,104.
/// - `bases`, `bytes`, `writable`: with a base of 8,192 over numbers where words have 4,096, with a hole at the bytes 0
///   to 7 over numbers alone, or with a region that is writable over words alone, an access of 8 bytes at offset 0 is
///   permitted over words and refused over numbers. So is one at offset 8 of a region that has 8 bytes over numbers.
/// - `apart`: with bases of 4,096 and 4,104, `cmp` of offset 8 of the first and offset 0 of the second sets ZF, as both
///   are 4,104; over words it is clear. With counters at 4,096, which have no byte over words and 32 over numbers, and a
///   region at 4,112, an access at offset 0 of that region is one of the counters over numbers.
/// - `canary`, `has_canary`: with bases of 4,096 and 8,192, and the canary in region 1 over words and in region 0 over
///   numbers, its address is 8,192 over words and 4,096 over numbers. With the canary in region 2, which there isn't, it
///   is 0 over numbers, and over words whatever `l` has for region 2.
/// - `known_canary`, `moved`, `met`: the canary, the pointer at offset 0 plus 8, and a pointer plus the distance of an
///   instruction from it are words of these atoms, so they must have an address.
/// - `code`: with an instruction at 0, `cmp` of its address with 0 sets ZF, and with one at 2^63 it sets SF; over words
///   both are clear.
/// - `codes_apart`: with two instructions at 4,096, `cmp` of their addresses sets ZF; over words it is clear.
/// - `near`: with a pointer to 4,096 and an instruction 2^31 above it, the low 32 bits of the distance have the sign
///   extension 2^64 - 2^31; over words it is the distance, 2^31.
pub fn operators_stand()
    ensures operators { (l : Addresses) (known : Atom → Bool) (words numbers : Placed) → DomainsAreLaidOut l known words numbers
        → OperatorsStand (WordStands l known) (KnownByteStands l known) (symbols_over words) (numbers_over numbers) }
    ensures others { (l : Addresses) (known : Atom → Bool) (words numbers : Placed) → DomainsAreLaidOut l known words numbers
        → OtherOperatorsStand (WordStands l known) (symbols_over words) (numbers_over numbers) }
{}

/// The place of a table plus the sign extension of the low 32 bits of a distance from it is the instruction's address,
/// where the distance fits 32 bits with its sign.
pub fn tables_lead_to_code()
    ensures { (l : Addresses) (c r o : ℕ)
        → (address_of l (Diff c r o) < 2 ^ 31) ⊎ (2 ^ 64 - 2 ^ 31 ≤ address_of l (Diff c r o))
        → low Q (address_of l (Ptr r o) + extend_of true L (low L (address_of l (Diff c r o))) Q) ≡ address_of l (Code c) }
{}
