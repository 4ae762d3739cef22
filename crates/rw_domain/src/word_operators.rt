//! The other operators over words.

ghost use Rattle.std.specs.Prelude.{◌≡◌};
ghost use Rattle.rw_domain.specs.Numbers.{scan_of};
ghost use Rattle.rw_domain.specs.Symbols.{unknown_result, numbered_result, one_rows, step_result, step_of, one_words, shift_words, mul_words, div_words, cell_or_zero, zero_extension, distance_in, distance_from, extend_words, swap_words, bit_words, scan_result, scan_words};

use crate::arithmetic::one_numbers;
use crate::bits::{bit_numbers, extend_number, scan_numbers, swap_number};
use crate::cause::Cause;
use crate::flags::{Flags, Tri};
use crate::product::{div_numbers, mul_numbers};
use crate::shift::shift_numbers;
use crate::word_alu::{kind_of_word, move_place, nothing, word};
use rw_base::Width;
use rw_words::{Atom, Cell, Kind, Word};
use x86_insn::{BitOp, OneOp, ScanOp, ShiftOp};

/// A number as a word, with its flags.
fn of_number(w: Width, answer: (u64, Flags)) -> (Word, Flags)
    ensures { result ≡ numbered_result w answer }
{
    (Word::num(w, answer.0), answer.1)
}

/// How far inc and dec move a place, modulo 2^64.
fn step_by(op: OneOp) -> Option<u64>
    ensures { result ≡ step_of op }
{
    match op {
        OneOp::Inc => Some(1),
        OneOp::Dec => Some(u64::MAX),
        _ => None,
    }
}

/// Result and flags of inc and dec, which move a place.
fn step_kind(by: Option<u64>, kind: Kind, cf: Tri) -> (Word, Flags)
    ensures { result ≡ step_result by kind cf }
{
    match (by, kind) {
        (Some(by), Kind::Whole(Atom::Ptr(r, o))) => {
            (
                word(move_place(Atom::Ptr(r, o), by)),
                Flags {
                    cf,
                    ..Flags::UNKNOWN
                },
            )
        }
        _ => nothing(Width::Q),
    }
}

/// Result and flags of an operator with one operand, which is no number.
fn one_of_row(op: OneOp, w: Width, a: Word, before: Flags) -> (Word, Flags)
    ensures { result ≡ one_rows op w a before }
{
    match w {
        Width::Q => step_kind(step_by(op), kind_of_word(a), before.cf),
        Width::B | Width::W | Width::L => nothing(w),
    }
}

/// Result and flags of an operator with one operand.
pub(crate) fn one_of_word(op: OneOp, w: Width, a: Word, before: Flags) -> (Word, Flags)
    ensures { result ≡ one_words op w a before }
{
    match a.low(w).number() {
        Some(n) => of_number(w, one_numbers(op, w, n, before)),
        None => one_of_row(op, w, a, before),
    }
}

/// Result and flags of a shift by a count, which must be a number.
pub(crate) fn shift_of_words(
    op: ShiftOp,
    w: Width,
    a: Word,
    count: Word,
    before: Flags,
) -> Result<(Word, Flags), Cause>
    ensures { result ≡ shift_words op w a count before }
{
    let Some(count) = count.low(Width::B).number() else {
        return Err(Cause::NumberUnknown);
    };
    Ok(match a.low(w).number() {
        Some(n) => of_number(w, shift_numbers(op, w, n, count, before)),
        None => nothing(w),
    })
}

/// The low half of a product, its high half, and the flags.
pub(crate) fn mul_of_words(signed: bool, w: Width, a: Word, b: Word) -> (Word, Word, Flags)
    ensures { result ≡ mul_words signed w a b }
{
    match (a.low(w).number(), b.low(w).number()) {
        (Some(m), Some(n)) => {
            let (low, high, flags) = mul_numbers(signed, w, m, n);
            (Word::num(w, low), Word::num(w, high), flags)
        }
        _ => (Word::undef(w), Word::undef(w), Flags::UNKNOWN),
    }
}

/// Quotient and rest of numbers, or `None` where the division traps.
pub(crate) fn div_of_words(
    signed: bool,
    w: Width,
    high: Word,
    low: Word,
    by: Word,
) -> Result<Option<(Word, Word)>, Cause>
    ensures { result ≡ div_words signed w high low by }
{
    match (
        high.low(w).number(),
        low.low(w).number(),
        by.low(w).number(),
    ) {
        (Some(high), Some(low), Some(by)) => Ok(match div_numbers(signed, w, high, low, by) {
            Some((quotient, rest)) => Some((Word::num(w, quotient), Word::num(w, rest))),
            None => None,
        }),
        _ => Err(Cause::NumberUnknown),
    }
}

/// The cell of a byte, and past the end of the word a number cell 0.
fn cell_or_number(a: Word, i: u8) -> Cell
    ensures { result ≡ cell_or_zero a i }
{
    match a.cells().get(i as usize) {
        Some(cell) => *cell,
        None => Cell::Num(0),
    }
}

/// The cells, with number cells 0 above them.
fn extend_by_zeros(from: Width, a: Word, to: Width) -> Word
    ensures { result ≡ zero_extension from a to }
{
    let low = a.low(from);
    Word::of(
        to,
        &[
            cell_or_number(low, 0),
            cell_or_number(low, 1),
            cell_or_number(low, 2),
            cell_or_number(low, 3),
            cell_or_number(low, 4),
            cell_or_number(low, 5),
            cell_or_number(low, 6),
            cell_or_number(low, 7),
        ],
    )
}

/// The atom of which four cells are the lowest parts.
fn distance_of(a: Word) -> Option<Atom>
    ensures { result ≡ distance_in a }
{
    if a.cells().len() == 4 {
        a.lowest()
    } else {
        None
    }
}

fn extend_distance(from: Width, found: Option<Atom>, to: Width) -> Word
    ensures { result ≡ distance_from from found to }
{
    match (from, found, to) {
        (Width::L, Some(Atom::Diff(c, r, o)), Width::Q) => Word::atom(Atom::Diff(c, r, o)),
        _ => Word::undef(to),
    }
}

/// A word of one width as one of another.
pub(crate) fn extend_word(signed: bool, from: Width, a: Word, to: Width) -> Word
    ensures { result ≡ extend_words signed from a to }
{
    if !signed {
        return extend_by_zeros(from, a, to);
    }
    match a.low(from).number() {
        Some(n) => Word::num(to, extend_number(true, from, n, to)),
        None => extend_distance(from, distance_of(a.low(from)), to),
    }
}

/// The bytes in the other order.
pub(crate) fn swap_word(w: Width, a: Word) -> Word
    ensures { result ≡ swap_words w a }
{
    match a.low(w).number() {
        Some(n) => Word::num(w, swap_number(w, n)),
        None => Word::undef(w),
    }
}

/// Result and flags of a bit test.
pub(crate) fn bit_of_words(
    op: BitOp,
    w: Width,
    a: Word,
    index: Word,
    before: Flags,
) -> (Word, Flags)
    ensures { result ≡ bit_words op w a index before }
{
    match (a.low(w).number(), index.low(w).number()) {
        (Some(n), Some(i)) => of_number(w, bit_numbers(op, w, n, i, before)),
        _ => nothing(w),
    }
}

/// The result of a search in a number, which is undefined for bsf and bsr of 0.
fn found_word(op: ScanOp, w: Width, n: u64, place: u64) -> Word
    requires { place ≡ (scan_of op w n).0 }
    ensures { result ≡ scan_result op w n }
{
    match op {
        ScanOp::Bsf | ScanOp::Bsr if n == 0 => Word::undef(w),
        _ => Word::num(w, place),
    }
}

/// Result and flags of a search for a bit.
pub(crate) fn scan_word(op: ScanOp, w: Width, a: Word) -> (Word, Flags)
    ensures { result ≡ scan_words op w a }
{
    match a.low(w).number() {
        Some(n) => {
            let (place, flags) = scan_numbers(op, w, n);
            (found_word(op, w, n, place), flags)
        }
        None => nothing(w),
    }
}
