//! The bytes read from left to right.

ghost use Rattle.std.specs.Prelude.{◌≡◌, ◌≤◌, ◌+◌, ℕ, length, take, IfSome, IfNone, IsTrue, Some};
ghost use Rattle.x86_insn.specs.declared.instruction.Insn.{Insn};
ghost use Rattle.x86_insn.specs.WellFormed.{is_instruction};
ghost use Rattle.x86_decode.specs.declared.row.Row.{Row};
ghost use Rattle.x86_decode.specs.Fits.{width_of, imm_len};
ghost use Rattle.x86_decode.specs.Spelling.{first_byte, parts_of, Spells};
ghost use Rattle.x86_decode.specs.Reading.{imm_at, row_at, operand_at, window_of, decode_of};

use crate::fits::{has_modrm, imm_len, opcode_row, rex_of, row_of, width_of};
use crate::row::{Parts, Row};
use crate::value::{signed, value};
use rw_base::Width;
use x86_bytes::{Fields, Rm, fields, modrm};
use x86_insn::Insn;

/// The first byte, 0 where there is none.
fn first_byte(bytes: &[u8]) -> u8
    ensures { result ≡ first_byte bytes.now }
{
    match bytes {
        [] => 0,
        [b, ..] => *b,
    }
}

/// The first 15 bytes.
fn window(bytes: &[u8]) -> &[u8]
    ensures value { result.now ≡ take 15 bytes.now }
    ensures short { length result.now ≤ 15 }
{
    if bytes.len() > 15 {
        &bytes[..15]
    } else {
        bytes
    }
}

/// The parts of an instruction of a row and of its width, with the bytes of its immediate.
fn parts_of(f: &Fields, w: Width, reg: u8, rm: Rm, imm: &[u8], next: u64) -> Parts
    requires { length imm.now ≤ 8 }
    ensures { (row : Row) → w ≡ width_of row.size f.now → result ≡ parts_of f.now row reg rm imm.now next }
{
    Parts {
        fields: *f,
        w,
        reg,
        rm,
        imm: signed(imm),
        byte: first_byte(imm),
        next,
    }
}

/// The instruction of a row, with the immediate from a place on, which ends at another.
fn imm_at(
    address: u64,
    bytes: &[u8],
    f: &Fields,
    reg: u8,
    rm: Rm,
    at: u8,
    row: &Row,
) -> Option<(Insn<u64>, usize)>
    requires { length bytes.now ≤ 15 }
    ensures value { result ≡ imm_at address bytes.now f.now reg rm at row.now (imm_len row.now.imm (width_of row.now.size f.now)) }
    ensures short { IfSome result (λ r. r.1 ≤ 15) }
{
    let w = width_of(row.size, f);
    let start = at as usize;
    let end = start + imm_len(row.imm, w);
    if bytes.len() < end {
        return None;
    }
    let next = address.wrapping_add(end as u64);
    let parts = parts_of(f, w, reg, rm, &bytes[start..end], next);
    Some((value(row.name, row.form, &parts), end))
}

/// The instruction of the row that fits, with the immediate from a place on.
#[tactic(auto, unfolding(crate::specs::Reading::row_at))]
fn row_at(
    address: u64,
    bytes: &[u8],
    f: &Fields,
    reg: u8,
    rm: Rm,
    at: u8,
) -> Option<(Insn<u64>, usize)>
    requires { length bytes.now ≤ 15 }
    ensures value { result ≡ row_at address bytes.now f.now reg rm at }
    ensures short { IfSome result (λ r. r.1 ≤ 15) }
{
    let row = row_of(f, reg, &rm)?;
    imm_at(address, bytes, f, reg, rm, at, &row)
}

/// The register and the operand of the ModRM byte, and the place after it: register 0 twice where there is none.
fn operand_at(bytes: &[u8], f: &Fields, first: Row) -> Option<(u8, Rm, u8)>
    requires { f.now.at ≤ 15 }
    ensures { result ≡ operand_at bytes.now f.now first }
{
    if has_modrm(first.place) {
        modrm(bytes, f.at, rex_of(f.rex))
    } else {
        Some((0, Rm::Reg(0), f.at))
    }
}

/// The instruction at the front of at most 15 bytes.
#[tactic(auto, unfolding(crate::specs::Reading::window_of))]
fn window_of(address: u64, bytes: &[u8]) -> Option<(Insn<u64>, usize)>
    requires { length bytes.now ≤ 15 }
    ensures value { result ≡ window_of address bytes.now }
    ensures short { IfSome result (λ r. r.1 ≤ 15) }
{
    let f = fields(bytes)?;
    let first = opcode_row(f.opcode)?;
    let (reg, rm, at) = operand_at(bytes, &f, first)?;
    row_at(address, bytes, &f, reg, rm, at)
}

/// The instruction at the front of the bytes, the first of which lies at an address, and its length in bytes, 1 to 15.
///
/// The answer is `None` exactly where no prefix of the bytes spells an instruction of the table there. Targets
/// and addresses relative to the instruction pointer are absolute, modulo 2^64 (Intel SDM vol. 2, 2.2.1.6). At most 15
/// bytes are read, and no memory is taken.
pub fn decode_one(bytes: &[u8], address: u64) -> Option<(Insn<u64>, u8)>
    ensures found { IfSome result (λ r. (r.1 ≤ length bytes.now) × Spells r.0 address (take r.1 bytes.now)) }
    ensures only { (i : Insn ℕ) (n : ℕ) → n ≤ length bytes.now → Spells i address (take n bytes.now) → result ≡ Some (i, n) }
    ensures none { IfNone result ((i : Insn ℕ) (n : ℕ) → Spells i address (take n bytes.now) → ⊥) }
    ensures well_formed { IfSome result (λ r. IsTrue (is_instruction r.0)) }
    ensures length { IfSome result (λ r. (1 ≤ r.1) × (r.1 ≤ 15)) }
    // The same, read from left to right.
    ensures exact { result ≡ decode_of address bytes.now }
{
    let (insn, length) = window_of(address, window(bytes))?;
    Some((insn, length as u8))
}
