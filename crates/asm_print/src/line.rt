//! A line, and the texts of numbers appended to it.

ghost use Rattle.std.specs.Prelude.{◌≡◌, ◌++◌, [], ◌<◌, ◌≤◌, false, drop, length, decimal};
ghost use Rattle.std.specs.Fmt.{digit_glyph, signed_decimal};
ghost use Rattle.asm_print.specs.Line.{Appends, hex};

use arrayvec::ArrayVec;
use itoa::Buffer;

/// A line of the text. What would go past its capacity is left out.
#[derive(Drop)]
pub struct Line {
    /// The bytes of the line.
    pub bytes: ArrayVec<u8, 8192>,
    ghost fits: { length bytes.items ≤ 8192 },
}

impl Line {
    /// An empty line.
    pub fn new() -> Line
        ensures { result.bytes.items ≡ [] }
    {
        Line {
            bytes: ArrayVec::new(),
        }
    }

    /// Appends bytes, as far as there is room.
    pub fn put(&mut self, text: &[u8])
        ensures { Appends self.old.bytes.items text.now self.new.bytes.items }
    {
        let room = self.bytes.remaining_capacity().min(text.len());
        let _fits = self.bytes.try_extend_from_slice(&text[..room]);
    }

    /// Appends a text, as far as there is room.
    pub fn put_str(&mut self, text: &str)
        ensures { Appends self.old.bytes.items text.now self.new.bytes.items }
    {
        self.put(text.as_bytes());
    }

    /// Appends a number in decimal, as far as there is room.
    pub fn put_decimal(&mut self, n: u64)
        ensures { Appends self.old.bytes.items (decimal n) self.new.bytes.items }
    {
        let mut buffer = Buffer::new();
        self.put_str(buffer.format(n));
    }

    /// Appends a number in decimal, with a minus sign where it is below 0, as far as there is room.
    pub fn put_signed(&mut self, n: i64)
        ensures { Appends self.old.bytes.items (signed_decimal n) self.new.bytes.items }
    {
        let mut buffer = Buffer::new();
        self.put_str(buffer.format(n));
    }

    /// Appends a number in hexadecimal, in lower case and without leading zeros, as far as there is room.
    pub fn put_hex(&mut self, n: u64)
        ensures { Appends self.old.bytes.items (hex n) self.new.bytes.items }
    {
        let mut out = [0; 64];
        let start = encode_hex(n, &mut out);
        self.put(&out[start..]);
    }
}

/// Writes the digits at the end of `out`, and says where they start.
fn encode_hex(n: u64, out: &mut [u8; 64]) -> usize
    ensures bound { result ≤ 64 }
    ensures value { drop result out.new ≡ hex n }
{
    let mut i = 64;
    let mut rest = n;
    while i > 0 {
        i -= 1;
        out[i] = hex_digit((rest % 16) as u8);
        rest /= 16;
        if rest == 0 {
            break;
        }
    }
    i
}

fn hex_digit(d: u8) -> u8
    requires { d < 16 }
    ensures { result ≡ digit_glyph false d }
{
    if d < 10 { b'0' + d } else { b'a' + (d - 10) }
}
