//! Shifts and rotates of numbers, with their flags.

ghost use Rattle.std.specs.Prelude.{◌≡◌, ◌≤◌, ◌<◌, ◌*◌, ◌/◌, ◌^◌};
ghost use Rattle.rw_base.specs.Width.{bit_count};
ghost use Rattle.rw_base.specs.declared.width.Width.TheVariants.{B};
ghost use Rattle.rw_domain.specs.Numbers.{low, shift_count, rotation_result, shift_result, carry_of, sign_changes, overflow_of, is_rotate, shift_flags, shifted_by};

use crate::arithmetic::{equal, even_parity, has_sign, modulus_of, odd, tri_of};
use crate::flags::{Flags, Tri};
use crate::signed::{to_number, to_signed};
use rw_base::{Width, low};
use x86_insn::ShiftOp;

/// The count, modulo 64 at 64 bits and else modulo 32.
fn count_of(w: Width, n: u64) -> u8
    ensures count { result ≡ shift_count w n }
    ensures small { result < 64 }
{
    let count = if w == Width::Q { n % 64 } else { n % 32 };
    count as u8
}

/// A shift to the left, without the bits past the width.
fn shift_up(w: Width, a: u64, k: u8) -> u64
    requires { k ≤ 64 }
    ensures { result ≡ low w (low w a * 2 ^ k) }
{
    (((low(a, w) as u128) << k) % modulus_of(w)) as u64
}

/// A shift to the right, with zeros from above.
fn shift_down(w: Width, a: u64, k: u8) -> u64
    requires { k ≤ 64 }
    ensures { result ≡ low w a / 2 ^ k }
{
    (low(a, w) as u128 >> k) as u64
}

/// Rotated to the left by at most the number of bits.
fn rotate(w: Width, a: u64, k: u8) -> u64
    requires { k ≤ bit_count w }
    ensures { result ≡ rotation_result w a k }
{
    shift_up(w, a, k) + shift_down(w, a, w.bits() - k)
}

/// The number after some shifts by one bit.
fn shift(op: ShiftOp, w: Width, a: u64, c: u8) -> u64
    requires { c < 64 }
    ensures { result ≡ shift_result op w a c }
{
    match op {
        ShiftOp::Rol => rotate(w, a, c % w.bits()),
        ShiftOp::Ror => rotate(w, a, w.bits() - c % w.bits()),
        ShiftOp::Shl => shift_up(w, a, c),
        ShiftOp::Shr => shift_down(w, a, c),
        ShiftOp::Sar => to_number(w, to_signed(w, a) >> c),
    }
}

/// The carry flag: the last bit that is shifted out.
fn carry(op: ShiftOp, w: Width, a: u64, c: u8) -> Tri
    requires some { 1 ≤ c }
    requires few { c < 64 }
    ensures { result ≡ carry_of op w a c }
{
    match op {
        ShiftOp::Rol => tri_of(odd(shift(ShiftOp::Rol, w, a, c))),
        ShiftOp::Ror => tri_of(has_sign(w, shift(ShiftOp::Ror, w, a, c))),
        ShiftOp::Shl if c < w.bits() => tri_of(has_sign(w, shift(ShiftOp::Shl, w, a, c - 1))),
        ShiftOp::Shr if c < w.bits() => tri_of(odd(shift(ShiftOp::Shr, w, a, c - 1))),
        ShiftOp::Shl | ShiftOp::Shr => Tri::Unknown,
        ShiftOp::Sar => tri_of(odd(shift(ShiftOp::Sar, w, a, c - 1))),
    }
}

/// The overflow flag of a shift by 1 with the result `r`.
fn changes_sign(op: ShiftOp, w: Width, a: u64, r: u64) -> bool
    ensures { result ≡ sign_changes op w a r }
{
    match op {
        ShiftOp::Rol => !equal(has_sign(w, r), odd(r)),
        ShiftOp::Ror => !equal(has_sign(w, r), odd(r >> (w.bits() - 2))),
        ShiftOp::Shl => !equal(has_sign(w, a), has_sign(w, r)),
        ShiftOp::Shr => has_sign(w, a),
        ShiftOp::Sar => false,
    }
}

/// Whether the operation is a rotate.
fn rotates(op: ShiftOp) -> bool
    ensures { result ≡ is_rotate op }
{
    match op {
        ShiftOp::Rol | ShiftOp::Ror => true,
        ShiftOp::Shl | ShiftOp::Shr | ShiftOp::Sar => false,
    }
}

fn overflow(op: ShiftOp, w: Width, a: u64, c: u8, r: u64) -> Tri
    requires { r ≡ shift_result op w a c }
    ensures { result ≡ overflow_of op w a c }
{
    if c == 1 {
        tri_of(changes_sign(op, w, a, r))
    } else {
        Tri::Unknown
    }
}

/// The flags of a shift by at least 1 with the result `r`.
fn flags_after(op: ShiftOp, w: Width, a: u64, c: u8, r: u64, before: Flags) -> Flags
    requires some { 1 ≤ c }
    requires few { c < 64 }
    requires shifted { r ≡ shift_result op w a c }
    ensures { result ≡ shift_flags op w a c before }
{
    let cf = carry(op, w, a, c);
    let of = overflow(op, w, a, c, r);
    if rotates(op) {
        Flags { cf, of, ..before }
    } else {
        Flags {
            cf,
            zf: tri_of(r == 0),
            sf: tri_of(has_sign(w, r)),
            of,
            pf: tri_of(even_parity(r)),
        }
    }
}

/// Result and flags of a shift by a count.
pub(crate) fn shift_numbers(
    op: ShiftOp,
    w: Width,
    a: u64,
    count: u64,
    before: Flags,
) -> (u64, Flags)
    ensures { result ≡ shifted_by op w a (shift_count w (low B count)) before }
{
    let c = count_of(w, low(count, Width::B));
    if c == 0 {
        (low(a, w), before)
    } else {
        let r = shift(op, w, a, c);
        (r, flags_after(op, w, a, c, r, before))
    }
}
