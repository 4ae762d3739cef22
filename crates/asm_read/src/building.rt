//! The instruction of a form and its arguments, the source first.

ghost use Rattle.std.specs.Prelude.{◌≡◌};
ghost use Rattle.asm_print.specs.Building.{built};
ghost use Rattle.asm_print.specs.declared.spelling.Form.TheVariants as forms;

use crate::shapes::{
    address_into, alone, into_named, into_register, long_into, one_at, product_into, register_of,
    shifted_at, star_at, target_of, two_at,
};
use asm_print::spelling::{Args, Form};
use rw_base::Width;
use x86_insn::{AluOp, BitOp, Cond, Insn, OneOp, ScanOp, ShiftOp};

fn alu<R: Copy>(op: AluOp, w: Width, args: Args<R>) -> Option<Insn<R>>
    ensures { result ≡ built (forms.Alu op w) args }
{
    let (from, to) = two_at(w, args)?;
    Some(Insn::Alu { op, w, to, from })
}

fn test<R: Copy>(w: Width, args: Args<R>) -> Option<Insn<R>>
    ensures { result ≡ built (forms.Test w) args }
{
    let (by, e) = two_at(w, args)?;
    Some(Insn::Test { w, e, by })
}

fn exchange<R: Copy>(w: Width, args: Args<R>) -> Option<Insn<R>>
    ensures { result ≡ built (forms.Xchg w) args }
{
    let (g, e) = two_at(w, args)?;
    Some(Insn::Xchg { w, e, g })
}

fn mov<R: Copy>(w: Width, args: Args<R>) -> Option<Insn<R>>
    ensures { result ≡ built (forms.Mov w) args }
{
    let (from, to) = two_at(w, args)?;
    Some(Insn::Mov { w, to, from })
}

fn mov_abs<R: Copy>(args: Args<R>) -> Option<Insn<R>>
    ensures { result ≡ built forms.MovAbs args }
{
    let (v, to) = long_into(args)?;
    Some(Insn::MovAbs { to, v })
}

fn mov_zx<R: Copy>(from_w: Width, w: Width, args: Args<R>) -> Option<Insn<R>>
    ensures { result ≡ built (forms.MovZx from_w w) args }
{
    let (from, to) = into_register(from_w, args)?;
    Some(Insn::MovZx {
        from_w,
        w,
        to,
        from,
    })
}

fn mov_sx<R: Copy>(from_w: Width, w: Width, args: Args<R>) -> Option<Insn<R>>
    ensures { result ≡ built (forms.MovSx from_w w) args }
{
    let (from, to) = into_register(from_w, args)?;
    Some(Insn::MovSx {
        from_w,
        w,
        to,
        from,
    })
}

fn lea<R: Copy>(w: Width, args: Args<R>) -> Option<Insn<R>>
    ensures { result ≡ built (forms.Lea w) args }
{
    let (at, to) = address_into(args)?;
    Some(Insn::Lea { w, to, at })
}

fn push<R: Copy>(args: Args<R>) -> Option<Insn<R>>
    ensures { result ≡ built forms.Push args }
{
    let from = one_at(Width::Q, args)?;
    Some(Insn::Push { from })
}

fn pop<R: Copy>(args: Args<R>) -> Option<Insn<R>>
    ensures { result ≡ built forms.Pop args }
{
    let to = one_at(Width::Q, args)?;
    Some(Insn::Pop { to })
}

fn imul2<R: Copy>(w: Width, args: Args<R>) -> Option<Insn<R>>
    ensures { result ≡ built (forms.Imul2 w) args }
{
    let (from, to) = into_register(w, args)?;
    Some(Insn::Imul2 { w, to, from })
}

fn imul3<R: Copy>(w: Width, args: Args<R>) -> Option<Insn<R>>
    ensures { result ≡ built (forms.Imul3 w) args }
{
    let (by, from, to) = product_into(w, args)?;
    Some(Insn::Imul3 { w, to, from, by })
}

fn one_operand<R: Copy>(op: OneOp, w: Width, args: Args<R>) -> Option<Insn<R>>
    ensures { result ≡ built (forms.One op w) args }
{
    let at = one_at(w, args)?;
    Some(Insn::One { op, w, at })
}

fn shift<R: Copy>(op: ShiftOp, w: Width, args: Args<R>) -> Option<Insn<R>>
    ensures { result ≡ built (forms.Shift op w) args }
{
    let (count, at) = shifted_at(w, args)?;
    Some(Insn::Shift { op, w, at, count })
}

fn cmov<R: Copy>(cond: Cond, args: Args<R>) -> Option<Insn<R>>
    ensures { result ≡ built (forms.Cmov cond) args }
{
    let (from, w, to) = into_named(args)?;
    Some(Insn::Cmov { cond, w, to, from })
}

fn setcc<R: Copy>(cond: Cond, args: Args<R>) -> Option<Insn<R>>
    ensures { result ≡ built (forms.Setcc cond) args }
{
    let to = one_at(Width::B, args)?;
    Some(Insn::Setcc { cond, to })
}

fn bit<R: Copy>(op: BitOp, w: Width, args: Args<R>) -> Option<Insn<R>>
    ensures { result ≡ built (forms.Bit op w) args }
{
    let (index, at) = two_at(w, args)?;
    Some(Insn::Bit { op, w, at, index })
}

fn scan<R: Copy>(op: ScanOp, w: Width, args: Args<R>) -> Option<Insn<R>>
    ensures { result ≡ built (forms.Scan op w) args }
{
    let (from, to) = into_register(w, args)?;
    Some(Insn::Scan { op, w, to, from })
}

fn bswap<R: Copy>(args: Args<R>) -> Option<Insn<R>>
    ensures { result ≡ built forms.Bswap args }
{
    let (w, r) = register_of(args)?;
    Some(Insn::Bswap { w, r })
}

fn jcc<R: Copy>(cond: Cond, args: Args<R>) -> Option<Insn<R>>
    ensures { result ≡ built (forms.Jcc cond) args }
{
    let to = target_of(args)?;
    Some(Insn::Jcc { cond, to })
}

fn jmp<R: Copy>(args: Args<R>) -> Option<Insn<R>>
    ensures { result ≡ built forms.Jmp args }
{
    let to = target_of(args)?;
    Some(Insn::Jmp { to })
}

fn call<R: Copy>(args: Args<R>) -> Option<Insn<R>>
    ensures { result ≡ built forms.Call args }
{
    let to = target_of(args)?;
    Some(Insn::Call { to })
}

fn jmp_to<R: Copy>(notrack: bool, args: Args<R>) -> Option<Insn<R>>
    ensures { result ≡ built (forms.JmpTo notrack) args }
{
    let to = star_at(args)?;
    Some(Insn::JmpTo { to, notrack })
}

fn call_to<R: Copy>(notrack: bool, args: Args<R>) -> Option<Insn<R>>
    ensures { result ≡ built (forms.CallTo notrack) args }
{
    let to = star_at(args)?;
    Some(Insn::CallTo { to, notrack })
}

/// The instruction of a form and its arguments.
pub fn built<R: Copy>(form: Form, args: Args<R>) -> Option<Insn<R>>
    ensures { result ≡ built form args }
{
    match form {
        Form::Alu(op, w) => alu(op, w, args),
        Form::Test(w) => test(w, args),
        Form::Xchg(w) => exchange(w, args),
        Form::Mov(w) => mov(w, args),
        Form::MovAbs => mov_abs(args),
        Form::MovZx(from_w, w) => mov_zx(from_w, w, args),
        Form::MovSx(from_w, w) => mov_sx(from_w, w, args),
        Form::Lea(w) => lea(w, args),
        Form::Push => push(args),
        Form::Pop => pop(args),
        Form::Imul2(w) => imul2(w, args),
        Form::Imul3(w) => imul3(w, args),
        Form::One(op, w) => one_operand(op, w, args),
        Form::Shift(op, w) => shift(op, w, args),
        Form::Convert(kind) => alone(args, Insn::Convert(kind)),
        Form::Movs(w, rep) => alone(args, Insn::Movs { w, rep }),
        Form::Stos(w, rep) => alone(args, Insn::Stos { w, rep }),
        Form::Cmov(cond) => cmov(cond, args),
        Form::Setcc(cond) => setcc(cond, args),
        Form::Bit(op, w) => bit(op, w, args),
        Form::Scan(op, w) => scan(op, w, args),
        Form::Bswap => bswap(args),
        Form::Jcc(cond) => jcc(cond, args),
        Form::Jmp => jmp(args),
        Form::Call => call(args),
        Form::JmpTo(notrack) => jmp_to(notrack, args),
        Form::CallTo(notrack) => call_to(notrack, args),
        Form::Ret => alone(args, Insn::Ret),
        Form::Leave => alone(args, Insn::Leave),
        Form::Syscall => alone(args, Insn::Syscall),
        Form::Plain(kind) => alone(args, Insn::Plain(kind)),
    }
}
