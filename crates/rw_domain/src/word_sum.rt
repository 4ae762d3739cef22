//! Sums that make an address, over words.

ghost use Rattle.std.specs.Prelude.{◌≡◌};
ghost use Rattle.rw_domain.specs.Symbols.{add_words, scaled_index, base_and_index, displaced_sum, word_sum};

use crate::signed::to_number;
use crate::word_alu::{add_kinds, kind_of_word, word};
use rw_base::Width;
use rw_words::{Kind, Word};

/// The sum of two words of 64 bits.
fn add(a: Word, b: Word) -> Word
    ensures { result ≡ add_words a b }
{
    word(add_kinds(kind_of_word(a), kind_of_word(b)))
}

/// An index times its scale.
fn scale(index: (Word, u8)) -> Word
    ensures { result ≡ scaled_index index }
{
    let (a, scale) = index;
    if scale == 1 {
        return a.low(Width::Q);
    }
    match a.low(Width::Q).number() {
        Some(n) => Word::num(Width::Q, n.wrapping_mul(scale as u64)),
        None => Word::undef(Width::Q),
    }
}

/// A base and a scaled index together, where there is any.
fn add_index(base: Option<Word>, index: Option<(Word, u8)>) -> Option<Word>
    ensures { result ≡ base_and_index base index }
{
    match (base, index) {
        (None, None) => None,
        (None, Some(index)) => Some(scale(index)),
        (Some(a), None) => Some(a.low(Width::Q)),
        (Some(a), Some(index)) => Some(add(a, scale(index))),
    }
}

/// A sum and a displacement, which may be alone.
fn displace(sum: Option<Word>, n: u64) -> Word
    ensures { result ≡ displaced_sum sum n }
{
    match sum {
        None => Word::num(Width::Q, n),
        Some(a) if n == 0 => a,
        Some(a) => word(add_kinds(kind_of_word(a), Kind::Number(n))),
    }
}

/// An address: the base, plus the index times its scale, plus the displacement.
pub(crate) fn sum_of_words(base: Option<Word>, index: Option<(Word, u8)>, disp: i32) -> Word
    ensures { result ≡ word_sum base index disp }
{
    displace(add_index(base, index), to_number(Width::Q, disp as i128))
}
