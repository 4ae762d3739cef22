//! Temporary words, and parts of registers.

ghost use Rattle.std.specs.Prelude.{◌≡◌, ◌<◌, slice_set};
ghost use Rattle.rw_domain.specs.Eight.{eight_of};
ghost use Rattle.rw_machine.specs.Running as Runs;
ghost use Rattle.rw_machine.specs.Views.{eight_bytes};

use rw_base::Width;
use rw_domain::{Domain, Eight};
use x86_insn::{Reg, Reg8};
use x86_meaning::Temp;

/// Sets a temporary word, where its number is below 8.
pub(crate) fn set_temp<V: Copy>(temps: &mut Eight<V>, t: Temp, v: V)
    ensures { eight_of temps.new ≡ slice_set (eight_of temps.old) t.0 v }
{
    if t.0 < 8 {
        temps.set(t.0, v);
    }
}

/// The byte of which nothing is known.
pub(crate) fn undefined_byte<D: Domain>(domain: &D) -> D::Byte
    ensures { result ≡ Runs.undefined_byte (D.over (D.placed domain.now)) }
{
    domain.split(domain.undef(Width::B), 0)
}

/// The register that a part is a part of.
pub(crate) fn full_register(part: Reg8) -> Reg
    ensures { result ≡ Runs.full_register part }
{
    match part {
        Reg8::Low(r) | Reg8::High(r) => r,
    }
}

/// The bytes of a word from one on, which is the first or the second.
pub(crate) fn bytes<D: Domain>(domain: &D, v: D::Word, from: u8) -> Eight<D::Byte>
    requires { from < 2 }
    ensures { result ≡ eight_bytes (D.over (D.placed domain.now)) from v }
{
    Eight {
        b0: domain.split(v, from),
        b1: domain.split(v, from + 1),
        b2: domain.split(v, from + 2),
        b3: domain.split(v, from + 3),
        b4: domain.split(v, from + 4),
        b5: domain.split(v, from + 5),
        b6: domain.split(v, from + 6),
        b7: domain.split(v, from + 7),
    }
}

/// A part of a register: its low bytes, or those from its second byte on.
pub(crate) fn part<D: Domain>(domain: &D, w: Width, of: Reg8, v: D::Word) -> D::Word
    ensures { result ≡ Runs.part (D.over (D.placed domain.now)) w of v }
{
    match of {
        Reg8::Low(_) => domain.join(w, &bytes(domain, v, 0)),
        Reg8::High(_) => domain.join(w, &bytes(domain, v, 1)),
    }
}

/// A register after a write of its low bytes: 32 bits clear the upper half, 8 and 16 bits keep the rest.
fn put_low<D: Domain>(domain: &D, w: Width, old: D::Word, v: D::Word) -> D::Word
    ensures { result ≡ Runs.put_low (D.over (D.placed domain.now)) w old v }
{
    let row = match w {
        Width::B => Eight {
            b0: domain.split(v, 0),
            ..bytes(domain, old, 0)
        },
        Width::W => Eight {
            b0: domain.split(v, 0),
            b1: domain.split(v, 1),
            ..bytes(domain, old, 0)
        },
        Width::L => {
            let zero = domain.split(domain.num(Width::B, 0), 0);
            Eight {
                b4: zero,
                b5: zero,
                b6: zero,
                b7: zero,
                ..bytes(domain, v, 0)
            }
        }
        Width::Q => bytes(domain, v, 0),
    };
    domain.join(Width::Q, &row)
}

/// A register after a write of a part.
pub(crate) fn put_part<D: Domain>(
    domain: &D,
    w: Width,
    to: Reg8,
    old: D::Word,
    v: D::Word,
) -> D::Word
    ensures { result ≡ Runs.put_part (D.over (D.placed domain.now)) w to old v }
{
    match to {
        Reg8::Low(_) => put_low(domain, w, old, v),
        Reg8::High(_) => {
            let row = Eight {
                b1: domain.split(v, 0),
                ..bytes(domain, old, 0)
            };
            domain.join(Width::Q, &row)
        }
    }
}
