//! The instruction that a row gives for the parts of its bytes.

ghost use Rattle.std.specs.Prelude.{◌≡◌, ◌⊎◌, ◌<◌, ◌≤◌, ◌+◌, ◌%◌, length};
ghost use Rattle.x86_decode.specs.Value.{signed, at_distance, bits, register_of, condition_of, byte_of, register_at, base_at, index_at, memory_at, e_at, e_of, place_at, g_of, o_code, o_of, a_of, i_of, operands_of, alu_of, one_of, shift_of, bit_of, widen_of, spread_of, count_of, value};

use crate::fits::rex_of;
use crate::row::{Form, Name, Parts};
use rw_base::Width;
use x86_bytes::{RawMem, Rm};
use x86_insn::{AluOp, BitOp, Cond, Convert, Count, Insn, Mem, OneOp, Operand, Reg, Reg8, ShiftOp};

/// The sign-extended number of the bytes, lowest first.
#[tactic(auto, unfolding(crate::specs::Value::signed))]
pub(crate) fn signed(bytes: &[u8]) -> i64
    requires { length bytes.now ≤ 8 }
    ensures { result ≡ signed bytes.now }
{
    match bytes {
        [a] => i64::from(a.cast_signed()),
        [a, b] => i64::from(i16::from_le_bytes([*a, *b])),
        [a, b, c, d] => i64::from(i32::from_le_bytes([*a, *b, *c, *d])),
        [a, b, c, d, e, f, g, h] => i64::from_le_bytes([*a, *b, *c, *d, *e, *f, *g, *h]),
        _ => 0,
    }
}

/// The address at a signed distance from another, modulo 2^64.
fn at_distance(next: u64, d: i64) -> u64
    ensures { result ≡ at_distance next d }
{
    next.wrapping_add(d.cast_unsigned())
}

/// The width in bits.
fn bits(w: Width) -> u8
    ensures value { result ≡ bits w }
    ensures some { 0 < result }
{
    match w {
        Width::B => 8,
        Width::W => 16,
        Width::L => 32,
        Width::Q => 64,
    }
}

/// The register of a code, 0 to 15 (Intel SDM vol. 2, table 3-1).
fn register_of(code: u8) -> Reg
    ensures { result ≡ register_of code }
{
    Reg::ALL.get(code as usize).copied().unwrap_or(Reg::Rax)
}

/// The condition of an opcode's four low bits (Intel SDM vol. 2, appendix B, table B-10).
fn condition_of(code: u16) -> Cond
    ensures { result ≡ condition_of code }
{
    Cond::ALL.get(code as usize).copied().unwrap_or(Cond::O)
}

/// The byte register of a code: 4 to 7 are AH, CH, DH and BH without REX, and SPL, BPL, SIL and DIL with any.
fn byte_of(rex: Option<u8>, code: u8) -> Reg8
    ensures { result ≡ byte_of rex code }
{
    if rex.is_none() && 4 <= code && code < 8 {
        Reg8::High(register_of(code - 4))
    } else {
        Reg8::Low(register_of(code))
    }
}

/// The register of a code at a width.
fn register_at(w: Width, rex: Option<u8>, code: u8) -> Operand<u64>
    ensures { result ≡ register_at w rex code }
{
    match w {
        Width::B => Operand::Byte(byte_of(rex, code)),
        Width::W | Width::L | Width::Q => Operand::Reg(register_of(code)),
    }
}

/// The base register of a code.
fn base_at(base: Option<u8>) -> Option<Reg>
    ensures { result ≡ base_at base }
{
    match base {
        None => None,
        Some(code) => Some(register_of(code)),
    }
}

/// The index register of a code, with its scale.
fn index_at(index: Option<(u8, u8)>) -> Option<(Reg, u8)>
    ensures { result ≡ index_at index }
{
    match index {
        None => None,
        Some((code, scale)) => Some((register_of(code), scale)),
    }
}

/// The memory that ModRM names: the canary under prefix 0x64, relative to the next instruction, or by registers.
fn memory_at(fs: bool, next: u64, raw: &RawMem) -> Mem<u64>
    ensures { result ≡ memory_at fs next raw.now }
{
    if fs {
        Mem::Canary
    } else if raw.rip {
        Mem::Rel(at_distance(next, i64::from(raw.disp)))
    } else {
        Mem::At {
            base: base_at(raw.base),
            index: index_at(raw.index),
            disp: raw.disp,
        }
    }
}

/// E, the operand of ModRM.
#[inline(always)]
fn e_of(w: Width, p: &Parts) -> Operand<u64>
    ensures { result ≡ e_of w p.now }
{
    match p.rm {
        Rm::Reg(code) => register_at(w, p.fields.rex, code),
        Rm::Mem(raw) => Operand::Mem(memory_at(p.fields.fs, p.next, &raw)),
    }
}

/// The memory of a row that takes memory alone.
fn place_of(p: &Parts) -> Mem<u64>
    ensures { result ≡ place_at p.now p.now.rm }
{
    match p.rm {
        Rm::Reg(_) => Mem::Canary,
        Rm::Mem(raw) => memory_at(p.fields.fs, p.next, &raw),
    }
}

/// G, the register of ModRM.
fn g_of(w: Width, p: &Parts) -> Operand<u64>
    ensures { result ≡ g_of w p.now }
{
    register_at(w, p.fields.rex, p.reg)
}

/// The code in the low bits of the opcode, with REX.B.
fn o_code(p: &Parts) -> u8
    ensures { result ≡ o_code p.now }
{
    (p.fields.opcode % 8) as u8 + rex_of(p.fields.rex) % 2 * 8
}

/// O, the register of the opcode.
fn o_of(w: Width, p: &Parts) -> Operand<u64>
    ensures { result ≡ o_of w p.now }
{
    register_at(w, p.fields.rex, o_code(p))
}

/// A: AL or rAX.
fn a_of(w: Width) -> Operand<u64>
    ensures { result ≡ a_of w }
{
    match w {
        Width::B => Operand::Byte(Reg8::Low(Reg::Rax)),
        Width::W | Width::L | Width::Q => Operand::Reg(Reg::Rax),
    }
}

/// The two operands, destination first, of which one may be E.
#[inline(always)]
fn operands_of(form: Form, e: Operand<u64>, p: &Parts) -> (Operand<u64>, Operand<u64>)
    requires { e ≡ e_of p.now.w p.now }
    ensures { result ≡ operands_of form p.now.w p.now }
{
    let w = p.w;
    match form {
        Form::EG => (e, g_of(w, p)),
        Form::GE => (g_of(w, p), e),
        Form::AI => (a_of(w), Operand::Imm(p.imm)),
        Form::EI => (e, Operand::Imm(p.imm)),
        Form::OI => (o_of(w, p), Operand::Imm(p.imm)),
        Form::OA => (o_of(w, p), a_of(w)),
        Form::IA => (Operand::Imm(p.imm), a_of(w)),
    }
}

/// An operation of two operands by its number.
fn alu_of(n: u8) -> AluOp
    ensures { result ≡ alu_of n }
{
    match n {
        0 => AluOp::Add,
        1 => AluOp::Or,
        2 => AluOp::Adc,
        3 => AluOp::Sbb,
        4 => AluOp::And,
        5 => AluOp::Sub,
        6 => AluOp::Xor,
        _ => AluOp::Cmp,
    }
}

/// An operation of one operand by its number in 0xF6, 0xF7, 0xFE and 0xFF.
fn one_of(n: u8) -> OneOp
    ensures { result ≡ one_of n }
{
    match n {
        0 => OneOp::Inc,
        1 => OneOp::Dec,
        2 => OneOp::Not,
        3 => OneOp::Neg,
        4 => OneOp::Mul,
        5 => OneOp::Imul,
        6 => OneOp::Div,
        _ => OneOp::Idiv,
    }
}

/// A shift or rotate by its number, which is none of /2, /3 and /6.
fn shift_of(n: u8) -> ShiftOp
    ensures { result ≡ shift_of n }
{
    match n {
        0 => ShiftOp::Rol,
        1 => ShiftOp::Ror,
        4 => ShiftOp::Shl,
        5 => ShiftOp::Shr,
        _ => ShiftOp::Sar,
    }
}

/// A bit operation by its number in 0x0FBA, /4 to /7.
fn bit_of(n: u8) -> BitOp
    ensures { result ≡ bit_of n }
{
    match n {
        4 => BitOp::Bt,
        5 => BitOp::Bts,
        6 => BitOp::Btr,
        _ => BitOp::Btc,
    }
}

/// CBW, CWDE or CDQE by the width that it gives.
fn widen_of(w: Width) -> Convert
    ensures { result ≡ widen_of w }
{
    match w {
        Width::W => Convert::Cbtw,
        Width::Q => Convert::Cltq,
        Width::B | Width::L => Convert::Cwtl,
    }
}

/// CWD, CDQ or CQO by the width that it reads.
fn spread_of(w: Width) -> Convert
    ensures { result ≡ spread_of w }
{
    match w {
        Width::W => Convert::Cwtd,
        Width::Q => Convert::Cqto,
        Width::B | Width::L => Convert::Cltd,
    }
}

/// The count of a shift: its byte modulo 64 at width Q, else modulo 32.
fn count_of(w: Width, byte: u8) -> u8
    ensures { result ≡ count_of w byte }
{
    match w {
        Width::Q => byte % 64,
        Width::B | Width::W | Width::L => byte % 32,
    }
}

/// The instruction that a row gives.
#[tactic(auto, unfolding(crate::specs::Value::value))]
pub(crate) fn value(name: Name, form: Form, p: &Parts) -> Insn<u64>
    ensures { result ≡ value name form p.now }
{
    let w = p.w;
    let op = p.fields.opcode;
    let number = p.reg % 8;
    let e = e_of(w, p);
    let (to, from) = operands_of(form, e, p);
    match name {
        Name::AluByOpcode => {
            Insn::Alu {
                op: alu_of((op / 8 % 8) as u8),
                w,
                to,
                from,
            }
        }
        Name::AluByNumber => {
            Insn::Alu {
                op: alu_of(number),
                w,
                to,
                from,
            }
        }
        Name::Test => { Insn::Test { w, e: to, by: from } }
        Name::Xchg => { Insn::Xchg { w, e: to, g: from } }
        Name::Mov => { Insn::Mov { w, to, from } }
        Name::MovAbs => Insn::MovAbs {
            to: register_of(o_code(p)),
            v: p.imm,
        },
        Name::Lea => Insn::Lea {
            w,
            to: register_of(p.reg),
            at: place_of(p),
        },
        Name::MovZx(from_w) => {
            Insn::MovZx {
                from_w,
                w,
                to: register_of(p.reg),
                from: e_of(from_w, p),
            }
        }
        Name::MovSx(from_w) => {
            Insn::MovSx {
                from_w,
                w,
                to: register_of(p.reg),
                from: e_of(from_w, p),
            }
        }
        Name::Push => Insn::Push { from: to },
        Name::Pop => Insn::Pop { to },
        Name::Imul2 => Insn::Imul2 {
            w,
            to: register_of(p.reg),
            from: e,
        },
        Name::Imul3 => Insn::Imul3 {
            w,
            to: register_of(p.reg),
            from: e,
            by: p.imm,
        },
        Name::One => Insn::One {
            op: one_of(number),
            w,
            at: e,
        },
        Name::ShiftImm => {
            let count = Count::Imm(count_of(w, p.byte));
            Insn::Shift {
                op: shift_of(number),
                w,
                at: e,
                count,
            }
        }
        Name::ShiftOne => {
            Insn::Shift {
                op: shift_of(number),
                w,
                at: e,
                count: Count::Imm(1),
            }
        }
        Name::ShiftCl => Insn::Shift {
            op: shift_of(number),
            w,
            at: e,
            count: Count::Cl,
        },
        Name::Widen => Insn::Convert(widen_of(w)),
        Name::Spread => Insn::Convert(spread_of(w)),
        Name::Movs => Insn::Movs {
            w,
            rep: p.fields.f3,
        },
        Name::Stos => Insn::Stos {
            w,
            rep: p.fields.f3,
        },
        Name::Cmov => {
            let cond = condition_of(op % 16);
            Insn::Cmov {
                cond,
                w,
                to: register_of(p.reg),
                from: e,
            }
        }
        Name::Setcc => Insn::Setcc {
            cond: condition_of(op % 16),
            to: e,
        },
        Name::Bit(op) => Insn::Bit {
            op,
            w,
            at: e,
            index: g_of(w, p),
        },
        Name::BitByNumber => {
            let index = Operand::Imm(i64::from(p.byte % bits(w)));
            Insn::Bit {
                op: bit_of(number),
                w,
                at: e,
                index,
            }
        }
        Name::Scan(op) => Insn::Scan {
            op,
            w,
            to: register_of(p.reg),
            from: e,
        },
        Name::Bswap => Insn::Bswap {
            w,
            r: register_of(o_code(p)),
        },
        Name::Jcc => Insn::Jcc {
            cond: condition_of(op % 16),
            to: at_distance(p.next, p.imm),
        },
        Name::Jmp => Insn::Jmp {
            to: at_distance(p.next, p.imm),
        },
        Name::Call => Insn::Call {
            to: at_distance(p.next, p.imm),
        },
        Name::JmpTo => Insn::JmpTo {
            to: e,
            notrack: p.fields.ds,
        },
        Name::CallTo => Insn::CallTo {
            to: e,
            notrack: p.fields.ds,
        },
        Name::Ret => Insn::Ret,
        Name::Leave => Insn::Leave,
        Name::Syscall => Insn::Syscall,
        Name::Plain(x) => Insn::Plain(x),
    }
}
