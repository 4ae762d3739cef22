//! Operators with two operands over words, with their flags.

ghost use Rattle.std.specs.Prelude.{◌≡◌, ◌-◌, ◌+◌, ◌^◌, ◌≤◌, ◌<◌, ◌&&◌, nat_le};
ghost use Rattle.std.specs.Int.{is_power_of_two};
ghost use Rattle.rw_base.specs.declared.width.Width.TheVariants.{Q};
ghost use Rattle.rw_domain.specs.Numbers.{low, modulus};
ghost use Rattle.rw_domain.specs.Symbols.{word_number, word_kind, word_of, no_flags, unknown_result, moved_kind, place_and_distance, kinds_sum, differ_flags, positive_flags, equal_flags, flags_if, place_with_number, place_with_place, code_with_code, atoms_compared, atom_with_number, comparison_flags, atoms_difference, kinds_difference, is_mask, masked_kind, kept_atom, kinds_and, kinds_or, atom_flags, kept_flags, alu_kinds, alu_rows, needs_carry, needed_flag, alu_words};

use crate::arithmetic::{alu_numbers, known, subtract};
use crate::cause::Cause;
use crate::flags::{Flags, Tri};
use crate::holes::Holes;
use crate::place::Region;
use crate::places::{alignment, at_most_size, below_size, has_byte};
use rw_base::Width;
use rw_words::{Atom, Kind, Word};
use x86_insn::AluOp;

/// The flags of a number from 1 up to 2^47 compared with 0, and of a logical operation that gives one.
const POSITIVE: Flags = Flags {
    cf: Tri::No,
    zf: Tri::No,
    sf: Tri::No,
    of: Tri::No,
    pf: Tri::Unknown,
};

/// The flags of two places or points that differ, compared.
const DIFFER: Flags = Flags {
    cf: Tri::Unknown,
    zf: Tri::No,
    sf: Tri::Unknown,
    of: Tri::Unknown,
    pf: Tri::Unknown,
};

/// The flags of a number compared with a greater one.
const BELOW: Flags = Flags {
    cf: Tri::Yes,
    zf: Tri::No,
    sf: Tri::Unknown,
    of: Tri::Unknown,
    pf: Tri::Unknown,
};

/// The flags of two equal numbers compared.
const EQUAL: Flags = Flags {
    cf: Tri::No,
    zf: Tri::Yes,
    sf: Tri::No,
    of: Tri::No,
    pf: Tri::Yes,
};

/// The word of 64 bits of a kind.
pub(crate) fn word(kind: Kind) -> Word
    ensures { result ≡ word_of kind }
{
    match kind {
        Kind::Number(n) => Word::num(Width::Q, n),
        Kind::Whole(a) => Word::atom(a),
        Kind::Mixed => Word::undef(Width::Q),
    }
}

/// What the low 64 bits of a word are.
pub(crate) fn kind_of_word(a: Word) -> Kind
    ensures { result ≡ word_kind a }
{
    a.low(Width::Q).kind()
}

/// An undefined word, with unknown flags.
pub(crate) fn nothing(w: Width) -> (Word, Flags)
    ensures { result ≡ unknown_result w }
{
    (Word::undef(w), Flags::UNKNOWN)
}

/// The flags where a condition holds; else nothing is known of them.
fn if_so(holds: bool, flags: Flags) -> Flags
    ensures { result ≡ flags_if holds flags }
{
    if holds { flags } else { Flags::UNKNOWN }
}

/// A place moved by a number.
pub(crate) fn move_place(a: Atom, n: u64) -> Kind
    ensures { result ≡ moved_kind a n }
{
    match a {
        Atom::Ptr(r, o) => Kind::Whole(Atom::Ptr(r, o.wrapping_add(n))),
        _ => Kind::Mixed,
    }
}

/// A place of a region plus the distance of a point of the code from that place: the point.
fn add_distance(a: Atom, b: Atom) -> Kind
    ensures { result ≡ place_and_distance a b }
{
    match (a, b) {
        (Atom::Ptr(r, o), Atom::Diff(c, s, p)) | (Atom::Diff(c, s, p), Atom::Ptr(r, o)) => {
            if r == s && o == p {
                Kind::Whole(Atom::Code(c))
            } else {
                Kind::Mixed
            }
        }
        _ => Kind::Mixed,
    }
}

/// The sum of two words of 64 bits.
pub(crate) fn add_kinds(a: Kind, b: Kind) -> Kind
    ensures { result ≡ kinds_sum a b }
{
    match (a, b) {
        (Kind::Number(m), Kind::Number(n)) => Kind::Number(m.wrapping_add(n)),
        (Kind::Whole(a), Kind::Number(n)) | (Kind::Number(n), Kind::Whole(a)) => move_place(a, n),
        (Kind::Whole(a), Kind::Whole(b)) => add_distance(a, b),
        (Kind::Mixed, _) | (_, Kind::Mixed) => Kind::Mixed,
    }
}

/// The flags of a place compared with a number.
fn compare_with_number(regions: &[Region], r: u32, o: u64, n: u64) -> Flags
    ensures { result ≡ place_with_number regions.now r o n }
{
    if n == 0 {
        if_so(at_most_size(regions, r, o), POSITIVE)
    } else {
        if_so(0x8000_0000_0000 <= n && below_size(regions, r, o), BELOW)
    }
}

/// The flags of two places compared.
fn compare_places(regions: &[Region], holes: &Holes, r: u32, o: u64, s: u32, p: u64) -> Flags
    ensures { result ≡ place_with_place regions.now holes.now r o s p }
{
    if r == s {
        let (_, flags) = subtract(Width::Q, o, p, false);
        if_so(
            at_most_size(regions, r, o) && at_most_size(regions, r, p),
            flags,
        )
    } else {
        if_so(
            has_byte(regions, holes, r, o) && has_byte(regions, holes, s, p),
            DIFFER,
        )
    }
}

/// The flags of two points of the code compared.
fn compare_code(c: u64, d: u64) -> Flags
    ensures { result ≡ code_with_code c d }
{
    if c == d { EQUAL } else { DIFFER }
}

/// The flags of two atoms compared.
fn compare_atoms(regions: &[Region], holes: &Holes, a: Atom, b: Atom) -> Flags
    ensures { result ≡ atoms_compared regions.now holes.now a b }
{
    match (a, b) {
        (Atom::Ptr(r, o), Atom::Ptr(s, p)) => compare_places(regions, holes, r, o, s, p),
        (Atom::Code(c), Atom::Code(d)) => compare_code(c, d),
        _ => Flags::UNKNOWN,
    }
}

/// The flags of an atom compared with a number.
fn compare_atom(regions: &[Region], a: Atom, n: u64) -> Flags
    ensures { result ≡ atom_with_number regions.now a n }
{
    match a {
        Atom::Ptr(r, o) => compare_with_number(regions, r, o, n),
        Atom::Code(_) => if_so(n == 0, POSITIVE),
        _ => Flags::UNKNOWN,
    }
}

/// The flags of cmp and sub.
fn compare(regions: &[Region], holes: &Holes, a: Kind, b: Kind) -> Flags
    ensures { result ≡ comparison_flags regions.now holes.now a b }
{
    match (a, b) {
        (Kind::Number(m), Kind::Number(n)) => subtract(Width::Q, m, n, false).1,
        (Kind::Whole(a), Kind::Number(n)) => compare_atom(regions, a, n),
        (Kind::Whole(a), Kind::Whole(b)) => compare_atoms(regions, holes, a, b),
        _ => Flags::UNKNOWN,
    }
}

/// The distance of two places of one region.
fn distance_of_atoms(a: Atom, b: Atom) -> Kind
    ensures { result ≡ atoms_difference a b }
{
    match (a, b) {
        (Atom::Ptr(r, o), Atom::Ptr(s, p)) if r == s => Kind::Number(o.wrapping_sub(p)),
        _ => Kind::Mixed,
    }
}

/// The difference of two words of 64 bits.
fn subtract_kinds(a: Kind, b: Kind) -> Kind
    ensures { result ≡ kinds_difference a b }
{
    match (a, b) {
        (Kind::Number(m), Kind::Number(n)) => Kind::Number(m.wrapping_sub(n)),
        (Kind::Whole(a), Kind::Number(n)) => move_back(a, n),
        (Kind::Whole(a), Kind::Whole(b)) => distance_of_atoms(a, b),
        _ => Kind::Mixed,
    }
}

/// A place moved back by a number.
fn move_back(a: Atom, n: u64) -> Kind
    ensures { result ≡ moved_kind a (modulus Q - n) }
{
    match a {
        Atom::Ptr(r, o) => Kind::Whole(Atom::Ptr(r, o.wrapping_sub(n))),
        _ => Kind::Mixed,
    }
}

/// The number is all ones above its lowest bits, which are as many as an alignment has zeros, or fewer.
fn masks(align: u64, n: u64) -> bool
    ensures { result ≡ is_mask align n }
{
    n != 0 && is_power_up_to(align, u64::MAX - n + 1)
}

/// Whether a number is a power of two, and no more than an alignment.
fn is_power_up_to(align: u64, m: u64) -> bool
    ensures { result ≡ (nat_le m align && is_power_of_two m) }
{
    m <= align && m.is_power_of_two()
}

/// A place with its lowest bits cleared, no more of them than the alignment of its region has zeros.
fn mask_place(regions: &[Region], a: Atom, n: u64) -> Kind
    ensures { result ≡ masked_kind regions.now a n }
{
    match a {
        Atom::Ptr(r, o) if masks(alignment(regions, r), n) => Kind::Whole(Atom::Ptr(r, o & n)),
        _ => Kind::Mixed,
    }
}

/// The conjunction or disjunction of two atoms, which is known where they are one.
fn keep_equal(a: Atom, b: Atom) -> Kind
    ensures { result ≡ kept_atom a b }
{
    if a == b { Kind::Whole(a) } else { Kind::Mixed }
}

/// The conjunction of two words of 64 bits, of which not both are numbers.
fn and_kinds(regions: &[Region], a: Kind, b: Kind) -> Kind
    ensures { result ≡ kinds_and regions.now a b }
{
    match (a, b) {
        (Kind::Whole(a), Kind::Number(n)) => mask_place(regions, a, n),
        (Kind::Whole(a), Kind::Whole(b)) => keep_equal(a, b),
        _ => Kind::Mixed,
    }
}

/// The disjunction of two words of 64 bits, of which not both are numbers.
fn or_kinds(a: Kind, b: Kind) -> Kind
    ensures { result ≡ kinds_or a b }
{
    match (a, b) {
        (Kind::Whole(a), Kind::Whole(b)) => keep_equal(a, b),
        _ => Kind::Mixed,
    }
}

/// The flags of a logical operation that gives an atom.
fn flags_of_atom(regions: &[Region], a: Atom) -> Flags
    ensures { result ≡ atom_flags regions.now a }
{
    match a {
        Atom::Ptr(r, o) => if_so(at_most_size(regions, r, o), POSITIVE),
        Atom::Code(_) => POSITIVE,
        _ => Flags::UNKNOWN,
    }
}

/// The flags of a logical operation on two words, which are known where they are one atom.
fn flags_of_equal(regions: &[Region], a: Kind, b: Kind) -> Flags
    ensures { result ≡ kept_flags regions.now a b }
{
    match (a, b) {
        (Kind::Whole(a), Kind::Whole(b)) => if_so(a == b, flags_of_atom(regions, a)),
        _ => Flags::UNKNOWN,
    }
}

/// The rows at 64 bits.
fn alu_of_kinds(regions: &[Region], holes: &Holes, op: AluOp, a: Kind, b: Kind) -> (Word, Flags)
    ensures { result ≡ alu_kinds regions.now holes.now op a b }
{
    match op {
        AluOp::Add => (word(add_kinds(a, b)), Flags::UNKNOWN),
        AluOp::Sub | AluOp::Cmp => (word(subtract_kinds(a, b)), compare(regions, holes, a, b)),
        AluOp::And => (
            word(and_kinds(regions, a, b)),
            flags_of_equal(regions, a, b),
        ),
        AluOp::Or => (word(or_kinds(a, b)), flags_of_equal(regions, a, b)),
        AluOp::Xor | AluOp::Adc | AluOp::Sbb => nothing(Width::Q),
    }
}

/// Result and flags of an operator with two operands, of which not both are numbers.
fn alu_of_row(
    regions: &[Region],
    holes: &Holes,
    op: AluOp,
    w: Width,
    a: Word,
    b: Word,
) -> (Word, Flags)
    ensures { result ≡ alu_rows regions.now holes.now op w a b }
{
    match w {
        Width::Q => alu_of_kinds(regions, holes, op, kind_of_word(a), kind_of_word(b)),
        Width::B | Width::W | Width::L => nothing(w),
    }
}

/// The carry flag where adc or sbb needs it.
fn carry_for(op: AluOp, before: Flags) -> Result<bool, Cause>
    ensures { result ≡ needed_flag op before }
{
    match op {
        AluOp::Adc | AluOp::Sbb => known(before.cf),
        _ => Ok(false),
    }
}

/// Result and flags of an operator with two operands.
pub(crate) fn alu_of_words(
    regions: &[Region],
    holes: &Holes,
    op: AluOp,
    w: Width,
    a: Word,
    b: Word,
    before: Flags,
) -> Result<(Word, Flags), Cause>
    ensures { result ≡ alu_words regions.now holes.now op w a b before }
{
    match (a.low(w).number(), b.low(w).number()) {
        (Some(m), Some(n)) => {
            let (r, flags) = alu_numbers(op, w, m, n, before)?;
            Ok((Word::num(w, r), flags))
        }
        _ => {
            carry_for(op, before)?;
            Ok(alu_of_row(regions, holes, op, w, a, b))
        }
    }
}
