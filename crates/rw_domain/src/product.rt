//! Products and quotients of numbers.

ghost use Rattle.std.specs.Prelude.{◌≡◌, ◌≤◌, ◌<◌, ◌+◌, ◌*◌, ◌^◌, pos, ◌+ℤ◌, ◌*ℤ◌, ◌≢◌, int_div, int_rem};
ghost use Rattle.std.specs.Int.{int_div_euclid, CanDivide, w128};
ghost use Rattle.rw_domain.specs.Numbers.{modulus, low, signed_value, wrapped_number, product_flags, unsigned_product, signed_product, mul_of, unsigned_quotient, signed_quotient, quotient_of, division_of};

use crate::arithmetic::{modulus_of, tri_of};
use crate::flags::{Flags, Tri};
use crate::signed::{is_in_width, to_number, to_signed};
use rw_base::{Width, low};

/// The flags of a product, by whether its high half says more than the low one.
fn flags_of_product(wide: bool) -> Flags
    ensures { result ≡ product_flags wide }
{
    Flags {
        cf: tri_of(wide),
        zf: Tri::Unknown,
        sf: Tri::Unknown,
        of: tri_of(wide),
        pf: Tri::Unknown,
    }
}

/// Both halves of an unsigned product, and the flags.
fn multiply(w: Width, a: u64, b: u64) -> (u64, u64, Flags)
    ensures { result ≡ unsigned_product w a b }
{
    let product = low(a, w) as u128 * low(b, w) as u128;
    let m = modulus_of(w);
    (
        (product % m) as u64,
        (product / m) as u64,
        flags_of_product(m <= product),
    )
}

/// A signed product, whole.
fn product_of_signed(w: Width, a: u64, b: u64) -> i128
    ensures { result ≡ signed_value w a *ℤ signed_value w b }
{
    to_signed(w, a) * to_signed(w, b)
}

/// The signed number without its lowest bits, as many as the width has.
fn high_half(w: Width, z: i128) -> u64
    ensures { result ≡ wrapped_number w (int_div_euclid z (pos (modulus w))) }
{
    to_number(w, z.div_euclid(modulus_of(w) as i128))
}

/// Both halves of a signed product, and the flags.
fn multiply_signed(w: Width, a: u64, b: u64) -> (u64, u64, Flags)
    ensures { result ≡ signed_product w a b }
{
    let product = product_of_signed(w, a, b);
    let wide = !is_in_width(w, product);
    (
        to_number(w, product),
        high_half(w, product),
        flags_of_product(wide),
    )
}

/// The low half of a product, its high half, and the flags.
pub(crate) fn mul_numbers(signed: bool, w: Width, a: u64, b: u64) -> (u64, u64, Flags)
    ensures { result ≡ mul_of signed w a b }
{
    if signed {
        multiply_signed(w, a, b)
    } else {
        multiply(w, a, b)
    }
}

/// The number of a high and a low half.
fn dividend(w: Width, high: u64, lower: u64) -> u128
    ensures { result ≡ low w high * modulus w + low w lower }
{
    low(high, w) as u128 * modulus_of(w) + low(lower, w) as u128
}

/// The signed number of a high and a low half.
fn signed_dividend(w: Width, high: u64, lower: u64) -> i128
    ensures { result ≡ signed_value w high *ℤ pos (modulus w) +ℤ pos (low w lower) }
{
    to_signed(w, high) * modulus_of(w) as i128 + low(lower, w) as i128
}

/// Quotient and rest of an unsigned division, or `None` where the quotient is too large.
fn divide(w: Width, dividend: u128, by: u64) -> Option<(u64, u64)>
    requires { by ≢ 0 }
    ensures { result ≡ unsigned_quotient w dividend by }
{
    let quotient = dividend / by as u128;
    if quotient < modulus_of(w) {
        Some((quotient as u64, (dividend % by as u128) as u64))
    } else {
        None
    }
}

/// The rest of a signed division, which has the sign of the dividend.
fn rest_of_signed(w: Width, dividend: i128, by: i128) -> u64
    requires { CanDivide w128 dividend by }
    ensures { result ≡ wrapped_number w (int_rem dividend by) }
{
    to_number(w, dividend % by)
}

/// Quotient and rest of a signed division, or `None` where the quotient is too large.
fn divide_signed(w: Width, dividend: i128, by: i128) -> Option<(u64, u64)>
    requires { by ≢ pos 0 }
    ensures { result ≡ signed_quotient w dividend by }
{
    let quotient = dividend.checked_div(by)?;
    if is_in_width(w, quotient) {
        Some((to_number(w, quotient), rest_of_signed(w, dividend, by)))
    } else {
        None
    }
}

/// Quotient and rest, or `None` where the division traps.
pub(crate) fn div_numbers(
    signed: bool,
    w: Width,
    high: u64,
    lower: u64,
    by: u64,
) -> Option<(u64, u64)>
    ensures { result ≡ division_of signed w high lower by }
{
    if low(by, w) == 0 {
        None
    } else if signed {
        divide_signed(w, signed_dividend(w, high, lower), to_signed(w, by))
    } else {
        divide(w, dividend(w, high, lower), low(by, w))
    }
}
