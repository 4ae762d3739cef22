//! What follows a prefix, what stands around a separator, and numbers.

ghost use Rattle.std.specs.Prelude.{◌≡◌, ◌<◌, ◌≤◌, ◌∷◌, ◌++◌, IfSome, length, option_map, take};
ghost use Rattle.std.specs.Char.{digit_value};
ghost use Rattle.asm_print.specs.Pieces.{after_prefix, split, pieces, number_in, signed_in};
ghost use Rattle.asm_read.specs.Found.{Finds};
ghost use Rattle.asm_read.specs.Words.{pieces_left};

/// What follows a prefix.
#[tactic(auto, using(crate::proofs::Separated::prefixes))]
pub fn after<'a>(text: &'a [u8], prefix: &str) -> Option<&'a [u8]>
    ensures { Finds (λ rest. rest.now) result (after_prefix prefix.now text.now) }
{
    text.strip_prefix(prefix.as_bytes())
}

/// What stands before the first such byte, and after it.
#[tactic(auto, using(crate::proofs::Separated::splits))]
pub fn split_at_byte(text: &[u8], byte: u8) -> Option<(&[u8], &[u8])>
    ensures { Finds (λ parts. (parts.0.now, parts.1.now)) result (split byte text.now) }
{
    for (i, b) in text.iter().enumerate() {
        if *b == byte {
            return Some((&text[..i], &text[i + 1..]));
        }
    }
    None
}

/// The value of a digit or a letter in the bases up to 36.
fn digit(byte: u8) -> u8
    ensures { result ≡ digit_value byte }
{
    match byte {
        b'0'..=b'9' => byte - b'0',
        b'A'..=b'Z' => byte - b'A' + 10,
        b'a'..=b'z' => byte - b'a' + 10,
        _ => 36,
    }
}

/// The number of 64 bits that the digits of a base write; no digit at all writes 0.
#[tactic(auto, using(crate::proofs::Separated::digits), unfolding(asm_print::specs::Pieces::number_after))]
pub fn number(base: u8, text: &[u8]) -> Option<u64>
    requires { base ≤ 16 }
    ensures { result ≡ number_in base text.now }
{
    let mut n: u64 = 0;
    for byte in text {
        let d = digit(*byte);
        let next = u128::from(n) * u128::from(base) + u128::from(d);
        if d >= base || next >= 0x1_0000_0000_0000_0000 {
            return None;
        }
        n = next as u64;
    }
    Some(n)
}

/// A number of 64 bits with its sign.
#[tactic(auto, unfolding(asm_print::specs::Pieces::signed_in))]
pub fn signed(text: &[u8]) -> Option<i64>
    ensures { result ≡ signed_in text.now }
{
    if let [b'-', rest @ ..] = text {
        let n = number(10, rest)?;
        if n == 0 {
            return Some(0);
        }
        let below = i64::try_from(n - 1).ok()?;
        return Some(-1 - below);
    }
    let n = number(10, text)?;
    i64::try_from(n).ok()
}

/// The first of the pieces that a byte separates, and what is left behind the byte.
#[tactic(auto, using(crate::proofs::Separated::piecewise))]
pub fn first_piece(text: &[u8], separator: u8) -> (&[u8], Option<&[u8]>)
    ensures pieces { pieces separator text.now ≡ result.0.now ∷ pieces_left separator (option_map (λ rest. rest.now) result.1) }
    ensures front { take (length result.0.now) text.now ≡ result.0.now }
    ensures rest { IfSome result.1 (λ rest. text.now ≡ result.0.now ++ separator ∷ rest.now) }
{
    match split_at_byte(text, separator) {
        None => (text, None),
        Some((front, back)) => (front, Some(back)),
    }
}
