//! Sums, differences and logical operations of numbers, with their flags (Intel SDM vol. 1, 3.4.3.1).

ghost use Rattle.std.specs.Prelude.{◌≡◌, ◌≤◌, ◌<◌, ◌+◌, ◌-◌, ◌*◌, ◌%◌, ◌^◌, pos, neg_ℤ, ◌≤ℤ◌, ◌<ℤ◌, Ok};
ghost use Rattle.rw_base.specs.Width.{bit_count};
ghost use Rattle.rw_domain.specs.Numbers.{modulus, low, half, is_negative, signed_value, wrapped_number, fits_signed, is_odd, tri, is_same, has_even_parity, flags_of, with_cf, bit_value, whole_sum, whole_less, sum_overflows, sum_result, difference_overflows, difference_result, logic_result, known_flag, with_carry, alu_of, one_of};

use crate::cause::Cause;
use crate::flags::{Flags, Tri};
use rw_base::{Width, low};
use x86_insn::{AluOp, OneOp};

/// 2 to the number of bits.
pub(crate) fn modulus_of(w: Width) -> u128
    ensures value { result ≡ modulus w }
    ensures least { 256 ≤ result }
    ensures most { result ≤ 2 ^ 64 }
{
    match w {
        Width::B => 0x100,
        Width::W => 0x1_0000,
        Width::L => 0x1_0000_0000,
        Width::Q => 0x1_0000_0000_0000_0000,
    }
}

/// The number of the sign bit alone.
pub(crate) fn half_of(w: Width) -> u64
    ensures { result ≡ half w }
{
    match w {
        Width::B => 0x80,
        Width::W => 0x8000,
        Width::L => 0x8000_0000,
        Width::Q => 0x8000_0000_0000_0000,
    }
}

/// The number has the sign bit.
pub(crate) fn has_sign(w: Width, n: u64) -> bool
    ensures { result ≡ is_negative w n }
{
    half_of(w) <= low(n, w)
}

/// Whether the lowest bit is set.
pub(crate) fn odd(n: u64) -> bool
    ensures { result ≡ is_odd n }
{
    n % 2 == 1
}

/// A flag that is known.
pub(crate) fn tri_of(b: bool) -> Tri
    ensures { result ≡ tri b }
{
    if b { Tri::Yes } else { Tri::No }
}

/// Whether two bits are equal.
pub(crate) fn equal(a: bool, b: bool) -> bool
    ensures { result ≡ is_same a b }
{
    if a { b } else { !b }
}

/// The lowest byte has an even number of ones.
pub(crate) fn even_parity(n: u64) -> bool
    ensures { result ≡ has_even_parity n }
{
    (n % 256).count_ones() % 2 == 0
}

/// All five flags of a result.
fn all_flags(w: Width, carry: bool, overflow: bool, n: u64) -> Flags
    ensures { result ≡ flags_of w carry overflow n }
{
    Flags {
        cf: tri_of(carry),
        zf: tri_of(n == 0),
        sf: tri_of(has_sign(w, n)),
        of: tri_of(overflow),
        pf: tri_of(even_parity(n)),
    }
}

/// A sum and a carry, before it is reduced to the width.
fn sum_with_carry(w: Width, a: u64, b: u64, carry: bool) -> u128
    ensures { result ≡ whole_sum w a b carry }
{
    low(a, w) as u128 + low(b, w) as u128 + carry as u128
}

/// Sum and flags.
fn add(w: Width, a: u64, b: u64, carry: bool) -> (u64, Flags)
    ensures { result ≡ sum_result w a b carry }
{
    let sum = sum_with_carry(w, a, b, carry);
    let r = (sum % modulus_of(w)) as u64;
    (
        r,
        all_flags(w, modulus_of(w) <= sum, sum_over(w, a, b, r), r),
    )
}

/// Whether the signed sum of `a` and `b`, reduced to `r`, overflows: they have one sign, and `r` the other.
fn sum_over(w: Width, a: u64, b: u64, r: u64) -> bool
    ensures { result ≡ sum_overflows w a b r }
{
    equal(has_sign(w, a), has_sign(w, b)) && !equal(has_sign(w, a), has_sign(w, r))
}

/// Difference and flags; `borrow` takes one more away.
pub(crate) fn subtract(w: Width, a: u64, b: u64, borrow: bool) -> (u64, Flags)
    ensures { result ≡ difference_result w a b borrow }
{
    let less = low(b, w) as u128 + borrow as u128;
    let r = ((low(a, w) as u128 + modulus_of(w) - less) % modulus_of(w)) as u64;
    let flags = all_flags(
        w,
        (low(a, w) as u128) < less,
        difference_over(w, a, b, r),
        r,
    );
    (r, flags)
}

/// Whether the signed difference of `a` and `b`, reduced to `r`, overflows: they differ in sign, and so do `a` and `r`.
fn difference_over(w: Width, a: u64, b: u64, r: u64) -> bool
    ensures { result ≡ difference_overflows w a b r }
{
    !equal(has_sign(w, a), has_sign(w, b)) && !equal(has_sign(w, a), has_sign(w, r))
}

/// A result of bits, without carry and overflow.
fn combine(w: Width, r: u64) -> (u64, Flags)
    ensures { result ≡ logic_result w r }
{
    (r, all_flags(w, false, false, r))
}

/// A flag that has to be known.
pub(crate) fn known(cf: Tri) -> Result<bool, Cause>
    ensures { result ≡ known_flag cf }
{
    match cf {
        Tri::Yes => Ok(true),
        Tri::No => Ok(false),
        Tri::Unknown => Err(Cause::FlagUnknown),
    }
}

/// Result and flags of an operator with two operands.
pub(crate) fn alu_numbers(
    op: AluOp,
    w: Width,
    a: u64,
    b: u64,
    before: Flags,
) -> Result<(u64, Flags), Cause>
    ensures { result ≡ alu_of op w a b before }
{
    Ok(match op {
        AluOp::Add => add(w, a, b, false),
        AluOp::Or => combine(w, low(a, w) | low(b, w)),
        AluOp::Adc => add(w, a, b, known(before.cf)?),
        AluOp::Sbb => subtract(w, a, b, known(before.cf)?),
        AluOp::And => combine(w, low(a, w) & low(b, w)),
        AluOp::Sub | AluOp::Cmp => subtract(w, a, b, false),
        AluOp::Xor => combine(w, low(a, w) ^ low(b, w)),
    })
}

/// Result and flags of an operator with one operand.
pub(crate) fn one_numbers(op: OneOp, w: Width, a: u64, before: Flags) -> (u64, Flags)
    ensures { result ≡ one_of op w a before }
{
    match op {
        OneOp::Inc => keep_carry(before.cf, add(w, a, 1, false)),
        OneOp::Dec => keep_carry(before.cf, subtract(w, a, 1, false)),
        OneOp::Not => (w.mask() - low(a, w), before),
        OneOp::Neg => subtract(w, 0, a, false),
        OneOp::Mul | OneOp::Imul | OneOp::Div | OneOp::Idiv => (low(a, w), before),
    }
}

/// A result with the carry flag of before.
fn keep_carry(cf: Tri, answer: (u64, Flags)) -> (u64, Flags)
    ensures { result ≡ with_cf cf answer }
{
    (answer.0, Flags { cf, ..answer.1 })
}
