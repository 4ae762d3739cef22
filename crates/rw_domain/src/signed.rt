//! Numbers of a width as signed numbers, in two's complement.

ghost use Rattle.std.specs.Prelude.{◌≡◌, ◌≤◌, ◌<◌, ◌^◌, pos, neg_ℤ, ◌≤ℤ◌, ◌<ℤ◌};
ghost use Rattle.rw_domain.specs.Numbers.{modulus, half, signed_value, wrapped_number, fits_signed};

use crate::arithmetic::{half_of, has_sign, modulus_of};
use rw_base::{Width, low};

/// A number as two's complement.
pub(crate) fn to_signed(w: Width, n: u64) -> i128
    ensures value { result ≡ signed_value w n }
    ensures least { neg_ℤ (pos (2 ^ 63)) ≤ℤ result }
    ensures most { result <ℤ pos (2 ^ 63) }
{
    if has_sign(w, n) {
        low(n, w) as i128 - modulus_of(w) as i128
    } else {
        low(n, w) as i128
    }
}

/// The number of the width that is a signed number, modulo 2 to the number of bits.
pub(crate) fn to_number(w: Width, z: i128) -> u64
    ensures { result ≡ wrapped_number w z }
{
    z.rem_euclid(modulus_of(w) as i128) as u64
}

/// The signed number is one of the width.
pub(crate) fn is_in_width(w: Width, z: i128) -> bool
    ensures { result ≡ fits_signed w z }
{
    let half = half_of(w) as i128;
    -half <= z && z < half
}
