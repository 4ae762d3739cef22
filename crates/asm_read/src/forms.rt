//! Forms by their mnemonics. A mnemonic is looked for among those that begin with its first byte.

ghost use Rattle.std.specs.Prelude.{◌≡◌, ◌&&◌, find, slice_index};
ghost use Rattle.std.specs.Str.{bytes_eq};
ghost use Rattle.asm_print.specs.Forms.{form_kind, form_named, is_kind, kind_of};
ghost use Rattle.asm_print.specs.Words.{mnemonic};

use crate::pieces::after;
use asm_print::spelling::{Args, Form};
use asm_print::words::{ending, stem};
use rw_base::Width;
use x86_insn::{AluOp, BitOp, Cond, Convert, OneOp, Plain, ScanOp, ShiftOp};

const BEGINNING_WITH_A: [Form; 12] = [
    Form::Alu(AluOp::Add, Width::B),
    Form::Alu(AluOp::Add, Width::W),
    Form::Alu(AluOp::Add, Width::L),
    Form::Alu(AluOp::Add, Width::Q),
    Form::Alu(AluOp::Adc, Width::B),
    Form::Alu(AluOp::Adc, Width::W),
    Form::Alu(AluOp::Adc, Width::L),
    Form::Alu(AluOp::Adc, Width::Q),
    Form::Alu(AluOp::And, Width::B),
    Form::Alu(AluOp::And, Width::W),
    Form::Alu(AluOp::And, Width::L),
    Form::Alu(AluOp::And, Width::Q),
];

const BEGINNING_WITH_B: [Form; 25] = [
    Form::Bit(BitOp::Bt, Width::B),
    Form::Bit(BitOp::Bt, Width::W),
    Form::Bit(BitOp::Bt, Width::L),
    Form::Bit(BitOp::Bt, Width::Q),
    Form::Bit(BitOp::Bts, Width::B),
    Form::Bit(BitOp::Bts, Width::W),
    Form::Bit(BitOp::Bts, Width::L),
    Form::Bit(BitOp::Bts, Width::Q),
    Form::Bit(BitOp::Btr, Width::B),
    Form::Bit(BitOp::Btr, Width::W),
    Form::Bit(BitOp::Btr, Width::L),
    Form::Bit(BitOp::Btr, Width::Q),
    Form::Bit(BitOp::Btc, Width::B),
    Form::Bit(BitOp::Btc, Width::W),
    Form::Bit(BitOp::Btc, Width::L),
    Form::Bit(BitOp::Btc, Width::Q),
    Form::Scan(ScanOp::Bsf, Width::B),
    Form::Scan(ScanOp::Bsf, Width::W),
    Form::Scan(ScanOp::Bsf, Width::L),
    Form::Scan(ScanOp::Bsf, Width::Q),
    Form::Scan(ScanOp::Bsr, Width::B),
    Form::Scan(ScanOp::Bsr, Width::W),
    Form::Scan(ScanOp::Bsr, Width::L),
    Form::Scan(ScanOp::Bsr, Width::Q),
    Form::Bswap,
];

const BEGINNING_WITH_C: [Form; 28] = [
    Form::Alu(AluOp::Cmp, Width::B),
    Form::Alu(AluOp::Cmp, Width::W),
    Form::Alu(AluOp::Cmp, Width::L),
    Form::Alu(AluOp::Cmp, Width::Q),
    Form::Convert(Convert::Cbtw),
    Form::Convert(Convert::Cwtl),
    Form::Convert(Convert::Cltq),
    Form::Convert(Convert::Cwtd),
    Form::Convert(Convert::Cltd),
    Form::Convert(Convert::Cqto),
    Form::Cmov(Cond::O),
    Form::Cmov(Cond::No),
    Form::Cmov(Cond::B),
    Form::Cmov(Cond::Ae),
    Form::Cmov(Cond::E),
    Form::Cmov(Cond::Ne),
    Form::Cmov(Cond::Be),
    Form::Cmov(Cond::A),
    Form::Cmov(Cond::S),
    Form::Cmov(Cond::Ns),
    Form::Cmov(Cond::P),
    Form::Cmov(Cond::Np),
    Form::Cmov(Cond::L),
    Form::Cmov(Cond::Ge),
    Form::Cmov(Cond::Le),
    Form::Cmov(Cond::G),
    Form::Call,
    Form::CallTo(false),
];

const BEGINNING_WITH_D: [Form; 8] = [
    Form::One(OneOp::Dec, Width::B),
    Form::One(OneOp::Dec, Width::W),
    Form::One(OneOp::Dec, Width::L),
    Form::One(OneOp::Dec, Width::Q),
    Form::One(OneOp::Div, Width::B),
    Form::One(OneOp::Div, Width::W),
    Form::One(OneOp::Div, Width::L),
    Form::One(OneOp::Div, Width::Q),
];

const BEGINNING_WITH_E: [Form; 1] = [Form::Plain(Plain::Endbr64)];

const BEGINNING_WITH_H: [Form; 1] = [Form::Plain(Plain::Hlt)];

const BEGINNING_WITH_I: [Form; 21] = [
    Form::Imul2(Width::B),
    Form::Imul2(Width::W),
    Form::Imul2(Width::L),
    Form::Imul2(Width::Q),
    Form::Imul3(Width::B),
    Form::Imul3(Width::W),
    Form::Imul3(Width::L),
    Form::Imul3(Width::Q),
    Form::One(OneOp::Inc, Width::B),
    Form::One(OneOp::Inc, Width::W),
    Form::One(OneOp::Inc, Width::L),
    Form::One(OneOp::Inc, Width::Q),
    Form::One(OneOp::Imul, Width::B),
    Form::One(OneOp::Imul, Width::W),
    Form::One(OneOp::Imul, Width::L),
    Form::One(OneOp::Imul, Width::Q),
    Form::One(OneOp::Idiv, Width::B),
    Form::One(OneOp::Idiv, Width::W),
    Form::One(OneOp::Idiv, Width::L),
    Form::One(OneOp::Idiv, Width::Q),
    Form::Plain(Plain::Int3),
];

const BEGINNING_WITH_J: [Form; 18] = [
    Form::Jcc(Cond::O),
    Form::Jcc(Cond::No),
    Form::Jcc(Cond::B),
    Form::Jcc(Cond::Ae),
    Form::Jcc(Cond::E),
    Form::Jcc(Cond::Ne),
    Form::Jcc(Cond::Be),
    Form::Jcc(Cond::A),
    Form::Jcc(Cond::S),
    Form::Jcc(Cond::Ns),
    Form::Jcc(Cond::P),
    Form::Jcc(Cond::Np),
    Form::Jcc(Cond::L),
    Form::Jcc(Cond::Ge),
    Form::Jcc(Cond::Le),
    Form::Jcc(Cond::G),
    Form::Jmp,
    Form::JmpTo(false),
];

const BEGINNING_WITH_L: [Form; 5] = [
    Form::Lea(Width::B),
    Form::Lea(Width::W),
    Form::Lea(Width::L),
    Form::Lea(Width::Q),
    Form::Leave,
];

const BEGINNING_WITH_M: [Form; 45] = [
    Form::Mov(Width::B),
    Form::Mov(Width::W),
    Form::Mov(Width::L),
    Form::Mov(Width::Q),
    Form::MovAbs,
    Form::MovZx(Width::B, Width::B),
    Form::MovZx(Width::B, Width::W),
    Form::MovZx(Width::B, Width::L),
    Form::MovZx(Width::B, Width::Q),
    Form::MovZx(Width::W, Width::B),
    Form::MovZx(Width::W, Width::W),
    Form::MovZx(Width::W, Width::L),
    Form::MovZx(Width::W, Width::Q),
    Form::MovZx(Width::L, Width::B),
    Form::MovZx(Width::L, Width::W),
    Form::MovZx(Width::L, Width::L),
    Form::MovZx(Width::L, Width::Q),
    Form::MovZx(Width::Q, Width::B),
    Form::MovZx(Width::Q, Width::W),
    Form::MovZx(Width::Q, Width::L),
    Form::MovZx(Width::Q, Width::Q),
    Form::MovSx(Width::B, Width::B),
    Form::MovSx(Width::B, Width::W),
    Form::MovSx(Width::B, Width::L),
    Form::MovSx(Width::B, Width::Q),
    Form::MovSx(Width::W, Width::B),
    Form::MovSx(Width::W, Width::W),
    Form::MovSx(Width::W, Width::L),
    Form::MovSx(Width::W, Width::Q),
    Form::MovSx(Width::L, Width::B),
    Form::MovSx(Width::L, Width::W),
    Form::MovSx(Width::L, Width::L),
    Form::MovSx(Width::L, Width::Q),
    Form::MovSx(Width::Q, Width::B),
    Form::MovSx(Width::Q, Width::W),
    Form::MovSx(Width::Q, Width::L),
    Form::MovSx(Width::Q, Width::Q),
    Form::One(OneOp::Mul, Width::B),
    Form::One(OneOp::Mul, Width::W),
    Form::One(OneOp::Mul, Width::L),
    Form::One(OneOp::Mul, Width::Q),
    Form::Movs(Width::B, false),
    Form::Movs(Width::W, false),
    Form::Movs(Width::L, false),
    Form::Movs(Width::Q, false),
];

const BEGINNING_WITH_N: [Form; 11] = [
    Form::One(OneOp::Not, Width::B),
    Form::One(OneOp::Not, Width::W),
    Form::One(OneOp::Not, Width::L),
    Form::One(OneOp::Not, Width::Q),
    Form::One(OneOp::Neg, Width::B),
    Form::One(OneOp::Neg, Width::W),
    Form::One(OneOp::Neg, Width::L),
    Form::One(OneOp::Neg, Width::Q),
    Form::JmpTo(true),
    Form::CallTo(true),
    Form::Plain(Plain::Nop),
];

const BEGINNING_WITH_O: [Form; 4] = [
    Form::Alu(AluOp::Or, Width::B),
    Form::Alu(AluOp::Or, Width::W),
    Form::Alu(AluOp::Or, Width::L),
    Form::Alu(AluOp::Or, Width::Q),
];

const BEGINNING_WITH_P: [Form; 3] = [Form::Push, Form::Pop, Form::Plain(Plain::Pause)];

const BEGINNING_WITH_R: [Form; 17] = [
    Form::Shift(ShiftOp::Rol, Width::B),
    Form::Shift(ShiftOp::Rol, Width::W),
    Form::Shift(ShiftOp::Rol, Width::L),
    Form::Shift(ShiftOp::Rol, Width::Q),
    Form::Shift(ShiftOp::Ror, Width::B),
    Form::Shift(ShiftOp::Ror, Width::W),
    Form::Shift(ShiftOp::Ror, Width::L),
    Form::Shift(ShiftOp::Ror, Width::Q),
    Form::Movs(Width::B, true),
    Form::Movs(Width::W, true),
    Form::Movs(Width::L, true),
    Form::Movs(Width::Q, true),
    Form::Stos(Width::B, true),
    Form::Stos(Width::W, true),
    Form::Stos(Width::L, true),
    Form::Stos(Width::Q, true),
    Form::Ret,
];

const BEGINNING_WITH_S: [Form; 41] = [
    Form::Alu(AluOp::Sbb, Width::B),
    Form::Alu(AluOp::Sbb, Width::W),
    Form::Alu(AluOp::Sbb, Width::L),
    Form::Alu(AluOp::Sbb, Width::Q),
    Form::Alu(AluOp::Sub, Width::B),
    Form::Alu(AluOp::Sub, Width::W),
    Form::Alu(AluOp::Sub, Width::L),
    Form::Alu(AluOp::Sub, Width::Q),
    Form::Shift(ShiftOp::Shl, Width::B),
    Form::Shift(ShiftOp::Shl, Width::W),
    Form::Shift(ShiftOp::Shl, Width::L),
    Form::Shift(ShiftOp::Shl, Width::Q),
    Form::Shift(ShiftOp::Shr, Width::B),
    Form::Shift(ShiftOp::Shr, Width::W),
    Form::Shift(ShiftOp::Shr, Width::L),
    Form::Shift(ShiftOp::Shr, Width::Q),
    Form::Shift(ShiftOp::Sar, Width::B),
    Form::Shift(ShiftOp::Sar, Width::W),
    Form::Shift(ShiftOp::Sar, Width::L),
    Form::Shift(ShiftOp::Sar, Width::Q),
    Form::Stos(Width::B, false),
    Form::Stos(Width::W, false),
    Form::Stos(Width::L, false),
    Form::Stos(Width::Q, false),
    Form::Setcc(Cond::O),
    Form::Setcc(Cond::No),
    Form::Setcc(Cond::B),
    Form::Setcc(Cond::Ae),
    Form::Setcc(Cond::E),
    Form::Setcc(Cond::Ne),
    Form::Setcc(Cond::Be),
    Form::Setcc(Cond::A),
    Form::Setcc(Cond::S),
    Form::Setcc(Cond::Ns),
    Form::Setcc(Cond::P),
    Form::Setcc(Cond::Np),
    Form::Setcc(Cond::L),
    Form::Setcc(Cond::Ge),
    Form::Setcc(Cond::Le),
    Form::Setcc(Cond::G),
    Form::Syscall,
];

const BEGINNING_WITH_T: [Form; 8] = [
    Form::Test(Width::B),
    Form::Test(Width::W),
    Form::Test(Width::L),
    Form::Test(Width::Q),
    Form::Scan(ScanOp::Tzcnt, Width::B),
    Form::Scan(ScanOp::Tzcnt, Width::W),
    Form::Scan(ScanOp::Tzcnt, Width::L),
    Form::Scan(ScanOp::Tzcnt, Width::Q),
];

const BEGINNING_WITH_U: [Form; 1] = [Form::Plain(Plain::Ud2)];

const BEGINNING_WITH_X: [Form; 8] = [
    Form::Alu(AluOp::Xor, Width::B),
    Form::Alu(AluOp::Xor, Width::W),
    Form::Alu(AluOp::Xor, Width::L),
    Form::Alu(AluOp::Xor, Width::Q),
    Form::Xchg(Width::B),
    Form::Xchg(Width::W),
    Form::Xchg(Width::L),
    Form::Xchg(Width::Q),
];

/// The form of a mnemonic, for arguments of a kind.
pub fn form_of_mnemonic<R: Copy>(text: &[u8], args: &Args<R>) -> Option<Form>
    ensures { result ≡ form_named text.now (kind_of args.now) }
{
    match first_byte(text) {
        b'a' => form_in(&BEGINNING_WITH_A, text, args),
        b'b' => form_in(&BEGINNING_WITH_B, text, args),
        b'c' => form_in(&BEGINNING_WITH_C, text, args),
        b'd' => form_in(&BEGINNING_WITH_D, text, args),
        b'e' => form_in(&BEGINNING_WITH_E, text, args),
        b'h' => form_in(&BEGINNING_WITH_H, text, args),
        b'i' => form_in(&BEGINNING_WITH_I, text, args),
        b'j' => form_in(&BEGINNING_WITH_J, text, args),
        b'l' => form_in(&BEGINNING_WITH_L, text, args),
        b'm' => form_in(&BEGINNING_WITH_M, text, args),
        b'n' => form_in(&BEGINNING_WITH_N, text, args),
        b'o' => form_in(&BEGINNING_WITH_O, text, args),
        b'p' => form_in(&BEGINNING_WITH_P, text, args),
        b'r' => form_in(&BEGINNING_WITH_R, text, args),
        b's' => form_in(&BEGINNING_WITH_S, text, args),
        b't' => form_in(&BEGINNING_WITH_T, text, args),
        b'u' => form_in(&BEGINNING_WITH_U, text, args),
        b'x' => form_in(&BEGINNING_WITH_X, text, args),
        _ => None,
    }
}

/// The first byte, or 0 where there is none.
fn first_byte(text: &[u8]) -> u8
    ensures { result ≡ slice_index text.now 0 }
{
    match text {
        [first, ..] => *first,
        [] => 0,
    }
}

fn form_in<R: Copy>(table: &[Form], text: &[u8], args: &Args<R>) -> Option<Form>
    ensures { result ≡ find (λ form. bytes_eq text.now (mnemonic form) && is_kind (kind_of args.now) (form_kind form)) table.now }
{
    table
        .iter()
        .copied()
        .find(|form| is_named(*form, text, args))
}

fn is_named<R: Copy>(form: Form, text: &[u8], args: &Args<R>) -> bool
    ensures { result ≡ bytes_eq text.now (mnemonic form) && is_kind (kind_of args.now) (form_kind form) }
{
    is_spelled(form, text) && takes(form, args)
}

#[tactic(auto, using(crate::proofs::Separated::fronts))]
fn is_spelled(form: Form, text: &[u8]) -> bool
    ensures { result ≡ bytes_eq text.now (mnemonic form) }
{
    match after(text, stem(form)) {
        Some(rest) => rest == ending(form).as_bytes(),
        None => false,
    }
}

/// Whether the form has as many arguments, with a star or without.
fn takes<R: Copy>(form: Form, args: &Args<R>) -> bool
    ensures { result ≡ is_kind (kind_of args.now) (form_kind form) }
{
    match form {
        Form::Push
        | Form::Pop
        | Form::One(_, _)
        | Form::Setcc(_)
        | Form::Bswap
        | Form::Jcc(_)
        | Form::Jmp
        | Form::Call => matches!(*args, Args::One(_)),
        Form::Convert(_)
        | Form::Movs(_, _)
        | Form::Stos(_, _)
        | Form::Ret
        | Form::Leave
        | Form::Syscall
        | Form::Plain(_) => matches!(*args, Args::Zero),
        Form::JmpTo(_) | Form::CallTo(_) => matches!(*args, Args::Star(_)),
        Form::Imul3(_) => matches!(*args, Args::Three(_, _, _)),
        _ => matches!(*args, Args::Two(_, _)),
    }
}
