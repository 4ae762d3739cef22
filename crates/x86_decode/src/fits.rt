//! Which parts of an instruction's bytes a row allows.

ghost use Rattle.std.specs.Prelude.{◌≡◌, ◌<◌, ◌≤◌, find};
ghost use Rattle.x86_decode.specs.Fits.{rex_of, rex_w, rex_b, is_in, is_number, is_canary, is_memory, is_second, is_place, is_size, is_rep, are_marks, fits, has_opcode, row_of, opcode_row, has_modrm, width_of, imm_len};

use crate::row::{Imm, Marks, Numbers, Opcodes, Place, Row, Size};
use crate::table::rows_from;
use rw_base::Width;
use x86_bytes::{Fields, Rm};

/// The REX byte, 0 where there is none.
pub(crate) fn rex_of(rex: Option<u8>) -> u8
    ensures { result ≡ rex_of rex }
{
    rex.unwrap_or(0)
}

/// Bit W of REX.
fn rex_w(f: &Fields) -> bool
    ensures { result ≡ rex_w f.now }
{
    rex_of(f.rex) / 8 % 2 == 1
}

/// Bit B of REX.
fn rex_b(f: &Fields) -> bool
    ensures { result ≡ rex_b f.now }
{
    rex_of(f.rex) % 2 == 1
}

/// Whether an opcode is one of these.
fn is_in(opcodes: Opcodes, o: u16) -> bool
    ensures { result ≡ is_in opcodes o }
{
    match opcodes {
        Opcodes::Run(first, last) => first <= o && o <= last,
        Opcodes::EveryEighth(c) => o < 0x40 && o % 8 == c,
    }
}

/// Whether a number in ModRM, 0 to 7, is one of these.
fn is_number(numbers: Numbers, n: u8) -> bool
    ensures { result ≡ is_number numbers n }
{
    match numbers {
        Numbers::Any => true,
        Numbers::Run(first, last) => first <= n && n <= last,
        Numbers::Shifts => n != 2 && n != 3 && n != 6,
    }
}

/// Whether the operand, with prefix 0x64 where `fs`, is of this kind.
fn is_place(place: Place, rm: &Rm, fs: bool) -> bool
    ensures { result ≡ is_place place rm.now fs }
{
    let memory = matches!(rm, Rm::Mem(_));
    if fs {
        return matches!(place, Place::Any) && matches!(rm, Rm::Mem(m) if m.canary);
    }
    (!matches!(place, Place::Address) || memory)
        && (!matches!(place, Place::Register) || !memory)
        && (!matches!(place, Place::Fa) || matches!(rm, Rm::Reg(2)))
}

/// Whether prefix 0x66 and REX go with these widths.
fn is_size(size: Size, f: &Fields) -> bool
    ensures { result ≡ is_size size f.now }
{
    match f.count66 {
        0 => {
            (!matches!(size, Size::MustW) || rex_w(f))
                && (!matches!(size, Size::Wl) || !rex_w(f))
                && (!matches!(size, Size::Bare) || f.rex.is_none())
        }
        1 if matches!(size, Size::V | Size::Wl) => !rex_w(f),
        _ => matches!(size, Size::Unsized),
    }
}

/// Whether the other prefixes and REX are as asked for.
fn are_marks(marks: Marks, f: &Fields) -> bool
    ensures { result ≡ are_marks marks f.now }
{
    !f.f2
        && is_rep(marks, f.f3)
        && (!f.ds || matches!(marks, Marks::Ds))
        && f.count2e <= u8::from(matches!(marks, Marks::Branch))
        && (!matches!(marks, Marks::RexB) || rex_b(f))
        && (!matches!(marks, Marks::NoRex) || f.rex.is_none())
}

/// Whether 0xF3 may stand, or be absent.
fn is_rep(marks: Marks, f3: bool) -> bool
    ensures { result ≡ is_rep marks f3 }
{
    if f3 {
        matches!(marks, Marks::Rep | Marks::MustRep)
    } else {
        !matches!(marks, Marks::MustRep)
    }
}

/// Whether a row allows these fields, and this register and operand of ModRM.
fn fits(f: &Fields, reg: u8, rm: &Rm, row: &Row) -> bool
    ensures { result ≡ fits f.now reg rm.now row.now }
{
    is_in(row.opcodes, f.opcode)
        && is_number(row.numbers, reg % 8)
        && is_place(row.place, rm, f.fs)
        && is_size(row.size, f)
        && are_marks(row.marks, f)
}

/// The first of some rows that fits.
fn first_fitting(f: &Fields, reg: u8, rm: &Rm, rows: &[Row]) -> Option<Row>
    ensures { result ≡ find (fits f.now reg rm.now) rows.now }
{
    rows.iter().copied().find(|row| fits(f, reg, rm, row))
}

/// The row of these parts, of which there is at most one.
#[tactic(auto, using(crate::proofs::IndexLaws::find_from))]
pub(crate) fn row_of(f: &Fields, reg: u8, rm: &Rm) -> Option<Row>
    ensures { result ≡ row_of f.now reg rm.now }
{
    first_fitting(f, reg, rm, rows_from(f.opcode))
}

/// The first row of an opcode, which says for all of them whether there is a ModRM byte.
#[tactic(auto, using(crate::proofs::IndexLaws::first_from))]
pub(crate) fn opcode_row(o: u16) -> Option<Row>
    ensures { result ≡ opcode_row o }
{
    rows_from(o).first().copied()
}

/// Whether there is a ModRM byte.
pub(crate) fn has_modrm(place: Place) -> bool
    ensures { result ≡ has_modrm place }
{
    !matches!(place, Place::NoModRm)
}

/// The width that 0x66 and REX.W choose.
pub(crate) fn width_of(size: Size, f: &Fields) -> Width
    ensures { result ≡ width_of size f.now }
{
    if matches!(size, Size::B) {
        Width::B
    } else if matches!(size, Size::V | Size::Lq) && rex_w(f) {
        Width::Q
    } else if matches!(size, Size::V | Size::Wl) && f.count66 == 1 {
        Width::W
    } else if matches!(size, Size::V | Size::Lq | Size::Wl) {
        Width::L
    } else {
        Width::Q
    }
}

/// The number of bytes of an immediate.
pub(crate) fn imm_len(imm: Imm, w: Width) -> usize
    ensures value { result ≡ imm_len imm w }
    ensures small { result ≤ 8 }
{
    match imm {
        Imm::Absent => 0,
        Imm::One => 1,
        Imm::Four => 4,
        Imm::Eight => 8,
        Imm::Sized => match w {
            Width::B => 1,
            Width::W => 2,
            Width::L | Width::Q => 4,
        },
    }
}
