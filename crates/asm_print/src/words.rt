//! The words of the text: registers, conditions, operators.
ghost use Rattle.std.specs.Prelude.{◌≡◌, codes};
ghost use Rattle.asm_print.specs.Words.{low_name, high_name, reg_name, cond_name, alu_name, shift_name, one_name, bit_name, scan_name, convert_name, plain_name, suffix, stem, ending, by_width};

use crate::spelling::Form;
use rw_base::Width;
use x86_insn::{AluOp, BitOp, Cond, Convert, OneOp, Plain, Reg, Reg8, ScanOp, ShiftOp};

pub fn low_name(w: Width, r: Reg) -> &'static str
    ensures { result.now ≡ low_name w r }
{
    let names = match r {
        Reg::Rax => ["al", "ax", "eax", "rax"],
        Reg::Rcx => ["cl", "cx", "ecx", "rcx"],
        Reg::Rdx => ["dl", "dx", "edx", "rdx"],
        Reg::Rbx => ["bl", "bx", "ebx", "rbx"],
        Reg::Rsp => ["spl", "sp", "esp", "rsp"],
        Reg::Rbp => ["bpl", "bp", "ebp", "rbp"],
        Reg::Rsi => ["sil", "si", "esi", "rsi"],
        Reg::Rdi => ["dil", "di", "edi", "rdi"],
        Reg::R8 => ["r8b", "r8w", "r8d", "r8"],
        Reg::R9 => ["r9b", "r9w", "r9d", "r9"],
        Reg::R10 => ["r10b", "r10w", "r10d", "r10"],
        Reg::R11 => ["r11b", "r11w", "r11d", "r11"],
        Reg::R12 => ["r12b", "r12w", "r12d", "r12"],
        Reg::R13 => ["r13b", "r13w", "r13d", "r13"],
        Reg::R14 => ["r14b", "r14w", "r14d", "r14"],
        Reg::R15 => ["r15b", "r15w", "r15d", "r15"],
    };
    match w {
        Width::B => names[0],
        Width::W => names[1],
        Width::L => names[2],
        Width::Q => names[3],
    }
}

/// The second byte of one of the first four registers; no other has a name.
pub fn high_name(r: Reg) -> &'static str
    ensures { result.now ≡ high_name r }
{
    match r {
        Reg::Rax => "ah",
        Reg::Rcx => "ch",
        Reg::Rdx => "dh",
        Reg::Rbx => "bh",
        _ => "",
    }
}

pub fn reg_name(w: Width, r: Reg8) -> &'static str
    ensures { result.now ≡ reg_name w r }
{
    match r {
        Reg8::Low(r) => low_name(w, r),
        Reg8::High(r) => high_name(r),
    }
}

pub fn cond_name(c: Cond) -> &'static str
    ensures { result.now ≡ cond_name c }
{
    match c {
        Cond::O => "o",
        Cond::No => "no",
        Cond::B => "b",
        Cond::Ae => "ae",
        Cond::E => "e",
        Cond::Ne => "ne",
        Cond::Be => "be",
        Cond::A => "a",
        Cond::S => "s",
        Cond::Ns => "ns",
        Cond::P => "p",
        Cond::Np => "np",
        Cond::L => "l",
        Cond::Ge => "ge",
        Cond::Le => "le",
        Cond::G => "g",
    }
}

fn alu_name(op: AluOp) -> &'static str
    ensures { result.now ≡ alu_name op }
{
    match op {
        AluOp::Add => "add",
        AluOp::Or => "or",
        AluOp::Adc => "adc",
        AluOp::Sbb => "sbb",
        AluOp::And => "and",
        AluOp::Sub => "sub",
        AluOp::Xor => "xor",
        AluOp::Cmp => "cmp",
    }
}

fn shift_name(op: ShiftOp) -> &'static str
    ensures { result.now ≡ shift_name op }
{
    match op {
        ShiftOp::Rol => "rol",
        ShiftOp::Ror => "ror",
        ShiftOp::Shl => "shl",
        ShiftOp::Shr => "shr",
        ShiftOp::Sar => "sar",
    }
}

fn suffix(w: Width) -> &'static str
    ensures { result.now ≡ suffix w }
{
    match w {
        Width::B => "b",
        Width::W => "w",
        Width::L => "l",
        Width::Q => "q",
    }
}

fn one_name(op: OneOp) -> &'static str
    ensures { result.now ≡ one_name op }
{
    match op {
        OneOp::Inc => "inc",
        OneOp::Dec => "dec",
        OneOp::Not => "not",
        OneOp::Neg => "neg",
        OneOp::Mul => "mul",
        OneOp::Imul => "imul",
        OneOp::Div => "div",
        OneOp::Idiv => "idiv",
    }
}

fn bit_name(op: BitOp) -> &'static str
    ensures { result.now ≡ bit_name op }
{
    match op {
        BitOp::Bt => "bt",
        BitOp::Bts => "bts",
        BitOp::Btr => "btr",
        BitOp::Btc => "btc",
    }
}

fn scan_name(op: ScanOp) -> &'static str
    ensures { result.now ≡ scan_name op }
{
    match op {
        ScanOp::Bsf => "bsf",
        ScanOp::Bsr => "bsr",
        ScanOp::Tzcnt => "tzcnt",
    }
}

fn convert_name(kind: Convert) -> &'static str
    ensures { result.now ≡ convert_name kind }
{
    match kind {
        Convert::Cbtw => "cbtw",
        Convert::Cwtl => "cwtl",
        Convert::Cltq => "cltq",
        Convert::Cwtd => "cwtd",
        Convert::Cltd => "cltd",
        Convert::Cqto => "cqto",
    }
}

fn plain_name(kind: Plain) -> &'static str
    ensures { result.now ≡ plain_name kind }
{
    match kind {
        Plain::Nop => "nop",
        Plain::Pause => "pause",
        Plain::Endbr64 => "endbr64",
        Plain::Ud2 => "ud2",
        Plain::Int3 => "int3",
        Plain::Hlt => "hlt",
    }
}

/// The first part of a form's mnemonic.
pub fn stem(form: Form) -> &'static str
    ensures { result.now ≡ stem form }
{
    match form {
        Form::Alu(op, _) => alu_name(op),
        Form::Test(_) => "test",
        Form::Xchg(_) => "xchg",
        Form::Mov(_) => "mov",
        Form::MovAbs => "movabsq",
        Form::MovZx(from_w, _) => zero_extension(from_w),
        Form::MovSx(from_w, _) => sign_extension(from_w),
        Form::Lea(_) => "lea",
        Form::Push => "pushq",
        Form::Pop => "popq",
        Form::Imul2(_) | Form::Imul3(_) => "imul",
        Form::One(op, _) => one_name(op),
        Form::Shift(op, _) => shift_name(op),
        Form::Convert(kind) => convert_name(kind),
        Form::Movs(_, rep) => if rep { "rep movs" } else { "movs" },
        Form::Stos(_, rep) => if rep { "rep stos" } else { "stos" },
        Form::Cmov(_) => "cmov",
        Form::Setcc(_) => "set",
        Form::Bit(op, _) => bit_name(op),
        Form::Scan(op, _) => scan_name(op),
        Form::Bswap => "bswap",
        Form::Jcc(_) => "j",
        Form::Jmp => "jmp",
        Form::Call => "call",
        Form::JmpTo(notrack) => if notrack { "notrack jmp" } else { "jmp" },
        Form::CallTo(notrack) => if notrack { "notrack call" } else { "call" },
        Form::Ret => "ret",
        Form::Leave => "leave",
        Form::Syscall => "syscall",
        Form::Plain(kind) => plain_name(kind),
    }
}

fn zero_extension(from_w: Width) -> &'static str
    ensures { result.now ≡ by_width from_w (codes "movzb") (codes "movzw") (codes "movzl") (codes "movzq") }
{
    match from_w {
        Width::B => "movzb",
        Width::W => "movzw",
        Width::L => "movzl",
        Width::Q => "movzq",
    }
}

fn sign_extension(from_w: Width) -> &'static str
    ensures { result.now ≡ by_width from_w (codes "movsb") (codes "movsw") (codes "movsl") (codes "movsq") }
{
    match from_w {
        Width::B => "movsb",
        Width::W => "movsw",
        Width::L => "movsl",
        Width::Q => "movsq",
    }
}

/// The rest of it.
pub fn ending(form: Form) -> &'static str
    ensures { result.now ≡ ending form }
{
    match form {
        Form::Alu(_, w)
        | Form::Test(w)
        | Form::Xchg(w)
        | Form::Mov(w)
        | Form::MovZx(_, w)
        | Form::MovSx(_, w)
        | Form::Lea(w)
        | Form::Imul2(w)
        | Form::Imul3(w)
        | Form::One(_, w)
        | Form::Shift(_, w)
        | Form::Movs(w, _)
        | Form::Stos(w, _)
        | Form::Bit(_, w)
        | Form::Scan(_, w) => suffix(w),
        Form::Cmov(c) | Form::Setcc(c) | Form::Jcc(c) => cond_name(c),
        _ => "",
    }
}
