//! The parts of an instruction's spelling: a form, which its mnemonic shows, and its arguments.

ghost use Rattle.std.specs.Prelude.{◌≡◌, ⊤};
ghost use Rattle.x86_insn.specs.declared.kinds.Reg8.TheVariants.{Low};
ghost use Rattle.asm_print.specs.declared.spelling.Arg.TheVariants.{Reg as Register};
ghost use Rattle.asm_print.specs.Spelling.{arg_at, form_of, args_of, count_as_arg};

use rw_base::Width;
use std::alloc::AllocError;
use x86_insn::{
    AluOp, BitOp, Cond, Convert, Count, Insn, Mem, OneOp, Operand, Plain, Reg, Reg8, ScanOp,
    ShiftOp,
};

/// What the mnemonic of an instruction shows.
#[derive(Clone, Copy)]
pub enum Form {
    Alu(AluOp, Width),
    Test(Width),
    Xchg(Width),
    Mov(Width),
    MovAbs,
    MovZx(Width, Width),
    MovSx(Width, Width),
    Lea(Width),
    Push,
    Pop,
    Imul2(Width),
    Imul3(Width),
    One(OneOp, Width),
    Shift(ShiftOp, Width),
    Convert(Convert),
    Movs(Width, bool),
    Stos(Width, bool),
    Cmov(Cond),
    Setcc(Cond),
    Bit(BitOp, Width),
    Scan(ScanOp, Width),
    Bswap,
    Jcc(Cond),
    Jmp,
    Call,
    JmpTo(bool),
    CallTo(bool),
    Ret,
    Leave,
    Syscall,
    Plain(Plain),
}

/// An argument, with a reference of the kind `R`.
#[derive(Copy)]
pub enum Arg<R> {
    /// A register, and the width that its name shows.
    Reg(Width, Reg8),
    Imm(i64),
    Mem(Mem<R>),
    /// The target of a direct jump or call.
    To(R),
}

/// The arguments of an instruction, the source first.
#[derive(Copy)]
pub enum Args<R> {
    Zero,
    One(Arg<R>),
    /// The place of an indirect jump or call, with a star before it.
    Star(Arg<R>),
    Two(Arg<R>, Arg<R>),
    Three(Arg<R>, Arg<R>, Arg<R>),
}

impl<R: Copy> Clone for Arg<R> {
    ghost is_clone = { λ x y. y ≡ x };

    ghost is_infallible = { λ _. ⊤ };

    fn clone(&self) -> Result<Arg<R>, AllocError> {
        Ok(*self)
    }
}

impl<R: Copy> Clone for Args<R> {
    ghost is_clone = { λ x y. y ≡ x };

    ghost is_infallible = { λ _. ⊤ };

    fn clone(&self) -> Result<Args<R>, AllocError> {
        Ok(*self)
    }
}

fn arg_of<R: Copy>(w: Width, operand: Operand<R>) -> Arg<R>
    ensures { result ≡ arg_at w operand }
{
    match operand {
        Operand::Reg(r) => Arg::Reg(w, Reg8::Low(r)),
        Operand::Byte(b) => Arg::Reg(w, b),
        Operand::Mem(m) => Arg::Mem(m),
        Operand::Imm(n) => Arg::Imm(n),
    }
}

/// The form of an instruction.
pub fn form_for<R: Copy>(insn: Insn<R>) -> Form
    ensures { result ≡ form_of insn }
{
    match insn {
        Insn::Alu { op, w, .. } => Form::Alu(op, w),
        Insn::Test { w, .. } => Form::Test(w),
        Insn::Xchg { w, .. } => Form::Xchg(w),
        Insn::Mov { w, .. } => Form::Mov(w),
        Insn::MovAbs { .. } => Form::MovAbs,
        Insn::MovZx { from_w, w, .. } => Form::MovZx(from_w, w),
        Insn::MovSx { from_w, w, .. } => Form::MovSx(from_w, w),
        Insn::Lea { w, .. } => Form::Lea(w),
        Insn::Push { .. } => Form::Push,
        Insn::Pop { .. } => Form::Pop,
        Insn::Imul2 { w, .. } => Form::Imul2(w),
        Insn::Imul3 { w, .. } => Form::Imul3(w),
        Insn::One { op, w, .. } => Form::One(op, w),
        Insn::Shift { op, w, .. } => Form::Shift(op, w),
        Insn::Convert(c) => Form::Convert(c),
        Insn::Movs { w, rep } => Form::Movs(w, rep),
        Insn::Stos { w, rep } => Form::Stos(w, rep),
        Insn::Cmov { cond, .. } => Form::Cmov(cond),
        Insn::Setcc { cond, .. } => Form::Setcc(cond),
        Insn::Bit { op, w, .. } => Form::Bit(op, w),
        Insn::Scan { op, w, .. } => Form::Scan(op, w),
        Insn::Bswap { .. } => Form::Bswap,
        Insn::Jcc { cond, .. } => Form::Jcc(cond),
        Insn::Jmp { .. } => Form::Jmp,
        Insn::Call { .. } => Form::Call,
        Insn::JmpTo { notrack, .. } => Form::JmpTo(notrack),
        Insn::CallTo { notrack, .. } => Form::CallTo(notrack),
        Insn::Ret => Form::Ret,
        Insn::Leave => Form::Leave,
        Insn::Syscall => Form::Syscall,
        Insn::Plain(c) => Form::Plain(c),
    }
}

/// The arguments of an instruction.
pub fn args_for<R: Copy>(insn: Insn<R>) -> Args<R>
    ensures { result ≡ args_of insn }
{
    match insn {
        Insn::Alu { w, to, from, .. } | Insn::Mov { w, to, from } => {
            Args::Two(arg_of(w, from), arg_of(w, to))
        }
        Insn::Test { w, e, by } => Args::Two(arg_of(w, by), arg_of(w, e)),
        Insn::Xchg { w, e, g } => Args::Two(arg_of(w, g), arg_of(w, e)),
        Insn::MovAbs { to, v } => Args::Two(Arg::Imm(v), low_arg(Width::Q, to)),
        Insn::MovZx {
            from_w,
            w,
            to,
            from,
        }
        | Insn::MovSx {
            from_w,
            w,
            to,
            from,
        } => Args::Two(arg_of(from_w, from), low_arg(w, to)),
        Insn::Lea { w, to, at } => Args::Two(Arg::Mem(at), low_arg(w, to)),
        Insn::Push { from: operand } | Insn::Pop { to: operand } => {
            Args::One(arg_of(Width::Q, operand))
        }
        Insn::Imul2 { w, to, from }
        | Insn::Cmov { w, to, from, .. }
        | Insn::Scan { w, to, from, .. } => Args::Two(arg_of(w, from), low_arg(w, to)),
        Insn::Imul3 { w, to, from, by } => {
            Args::Three(Arg::Imm(by), arg_of(w, from), low_arg(w, to))
        }
        Insn::One { w, at, .. } => Args::One(arg_of(w, at)),
        Insn::Shift { w, at, count, .. } => Args::Two(count_arg(count), arg_of(w, at)),
        Insn::Setcc { to, .. } => Args::One(arg_of(Width::B, to)),
        Insn::Bit { w, at, index, .. } => Args::Two(arg_of(w, index), arg_of(w, at)),
        Insn::Bswap { w, r } => Args::One(low_arg(w, r)),
        Insn::Jcc { to, .. } | Insn::Jmp { to } | Insn::Call { to } => Args::One(Arg::To(to)),
        Insn::JmpTo { to, .. } | Insn::CallTo { to, .. } => Args::Star(arg_of(Width::Q, to)),
        Insn::Convert(_)
        | Insn::Movs { .. }
        | Insn::Stos { .. }
        | Insn::Ret
        | Insn::Leave
        | Insn::Syscall
        | Insn::Plain(_) => Args::Zero,
    }
}

/// The low bytes of a register, as many as the width has.
fn low_arg<R>(w: Width, r: Reg) -> Arg<R>
    ensures { result ≡ Register w (Low r) }
{
    Arg::Reg(w, Reg8::Low(r))
}

fn count_arg<R>(count: Count) -> Arg<R>
    ensures { result ≡ count_as_arg count }
{
    match count {
        Count::Cl => Arg::Reg(Width::B, Reg8::Low(Reg::Rcx)),
        Count::Imm(n) => Arg::Imm(i64::from(n)),
    }
}
