//! Extensions, bytes, tests of bits and searches for bits, over numbers.

ghost use Rattle.std.specs.Prelude.{◌≡◌, ◌≤◌, ◌<◌, ◌^◌, take, reverse};
ghost use Rattle.rw_base.specs.Width.{bit_count};
ghost use Rattle.rw_words.specs.Addresses.{byte_of};
ghost use Rattle.rw_domain.specs.Numbers.{modulus, tri, extend_of, swap_of, join_of, has_bit, bit_changed, bit_flags, bit_of, zeros_below, highest_one, scan_flags, found_bit, scan_of};
ghost use Rattle.rw_domain.specs.Eight.{eight_of};

use crate::arithmetic::{odd, tri_of};
use crate::eight::Eight;
use crate::flags::{Flags, Tri};
use crate::signed::{to_number, to_signed};
use rw_base::{Width, low};
use x86_insn::{BitOp, ScanOp};

/// The number of a width as a number of another, with zeros or its sign above it.
pub(crate) fn extend_number(signed: bool, from: Width, a: u64, to: Width) -> u64
    ensures { result ≡ extend_of signed from a to }
{
    if signed {
        to_number(to, to_signed(from, a))
    } else {
        low(low(a, from), to)
    }
}

/// Byte i, the lowest first, and 0 behind the last.
pub(crate) fn byte_at(a: u64, i: u8) -> u8
    ensures { result ≡ byte_of a i }
{
    match a.to_le_bytes().get(i as usize) {
        Some(byte) => *byte,
        None => 0,
    }
}

/// The number of as many bytes as the width has.
pub(crate) fn join_bytes(w: Width, row: &Eight<u8>) -> u64
    ensures { result ≡ join_of w (eight_of row.now) }
{
    match w {
        Width::B => row.b0 as u64,
        Width::W => u16::from_le_bytes([row.b0, row.b1]) as u64,
        Width::L => u32::from_le_bytes([row.b0, row.b1, row.b2, row.b3]) as u64,
        Width::Q => u64::from_le_bytes([
            row.b0, row.b1, row.b2, row.b3, row.b4, row.b5, row.b6, row.b7,
        ]),
    }
}

/// The bytes in the other order.
pub(crate) fn swap_number(w: Width, a: u64) -> u64
    ensures { result ≡ swap_of w a }
{
    match w {
        Width::B => low(a, w),
        Width::W => (low(a, w) as u16).swap_bytes() as u64,
        Width::L => (low(a, w) as u32).swap_bytes() as u64,
        Width::Q => low(a, w).swap_bytes(),
    }
}

/// Whether a bit is set, counted from the lowest.
fn tests_bit(n: u64, i: u8) -> bool
    requires { i < 64 }
    ensures { result ≡ has_bit n i }
{
    odd(n >> i)
}

/// The number with a bit set, cleared, turned over or left, by the operation.
#[tactic(auto, using(crate::proofs::BitLemmas::bit_room))]
fn change_bit(op: BitOp, n: u64, i: u8) -> u64
    requires { i < 64 }
    ensures { result ≡ bit_changed op n i }
{
    let set = tests_bit(n, i);
    match op {
        BitOp::Bts | BitOp::Btc if !set => n + (1 << i),
        BitOp::Btr | BitOp::Btc if set => n - (1 << i),
        _ => n,
    }
}

/// Result and flags of a bit test.
pub(crate) fn bit_numbers(op: BitOp, w: Width, a: u64, index: u64, before: Flags) -> (u64, Flags)
    ensures { result ≡ bit_of op w a index before }
{
    let n = low(a, w);
    let i = (low(index, w) % w.bits() as u64) as u8;
    let flags = Flags {
        cf: tri_of(tests_bit(n, i)),
        zf: before.zf,
        sf: Tri::Unknown,
        of: Tri::Unknown,
        pf: Tri::Unknown,
    };
    (change_bit(op, n, i), flags)
}

/// The number of zeros below the lowest one.
fn low_zeros(w: Width, n: u64) -> u64
    requires { n < modulus w }
    ensures { result ≡ zeros_below w n }
{
    let zeros = match w {
        Width::B => (n as u8).trailing_zeros(),
        Width::W => (n as u16).trailing_zeros(),
        Width::L => (n as u32).trailing_zeros(),
        Width::Q => n.trailing_zeros(),
    };
    zeros as u64
}

/// The place of the highest one.
fn high_place(w: Width, n: u64) -> u64
    requires some { 1 ≤ n }
    requires fits { n < modulus w }
    ensures { result ≡ highest_one w n }
{
    let zeros = match w {
        Width::B => (n as u8).leading_zeros(),
        Width::W => (n as u16).leading_zeros(),
        Width::L => (n as u32).leading_zeros(),
        Width::Q => n.leading_zeros(),
    };
    (w.bits() as u64 - 1) - zeros as u64
}

/// The flags of a search for a bit.
fn flags_of_scan(cf: Tri, zero: bool) -> Flags
    ensures { result ≡ scan_flags cf zero }
{
    Flags {
        cf,
        zf: tri_of(zero),
        sf: Tri::Unknown,
        of: Tri::Unknown,
        pf: Tri::Unknown,
    }
}

/// Result and flags of a search for a bit.
pub(crate) fn scan_numbers(op: ScanOp, w: Width, a: u64) -> (u64, Flags)
    ensures { result ≡ scan_of op w a }
{
    let n = low(a, w);
    match op {
        ScanOp::Bsf | ScanOp::Bsr if n == 0 => (0, flags_of_scan(Tri::Unknown, true)),
        ScanOp::Bsf => (low_zeros(w, n), flags_of_scan(Tri::Unknown, false)),
        ScanOp::Bsr => (high_place(w, n), flags_of_scan(Tri::Unknown, false)),
        ScanOp::Tzcnt => {
            let zeros = low_zeros(w, n);
            (zeros, flags_of_scan(tri_of(n == 0), zeros == 0))
        }
    }
}
