//! What the arguments of an instruction show: operands, registers, immediates and targets.

ghost use Rattle.std.specs.Prelude.{◌≡◌};
ghost use Rattle.asm_print.specs.Building.{low_at, operand_at, count_in, register_at, immediate_at, memory_at, target_at, one_of, star_of, two_of, three_of, one_at, star_at, two_at, into_register, into_named, long_into, address_into, product_into, shifted_at, target_of, register_of, alone};

use asm_print::spelling::{Arg, Args};
use rw_base::Width;
use x86_insn::{Count, Insn, Mem, Operand, Reg, Reg8};

/// The operand of a width that an argument shows.
fn operand<R: Copy>(w: Width, arg: Arg<R>) -> Option<Operand<R>>
    ensures { result ≡ operand_at w arg }
{
    match arg {
        Arg::Reg(_, Reg8::High(r)) => Some(Operand::Byte(Reg8::High(r))),
        Arg::Reg(_, Reg8::Low(r)) => Some(low(w, r)),
        Arg::Imm(n) => Some(Operand::Imm(n)),
        Arg::Mem(m) => Some(Operand::Mem(m)),
        Arg::To(_) => None,
    }
}

/// A register as an operand of a width.
fn low<R: Copy>(w: Width, r: Reg) -> Operand<R>
    ensures { result ≡ low_at w r }
{
    match w {
        Width::B => Operand::Byte(Reg8::Low(r)),
        _ => Operand::Reg(r),
    }
}

/// The count of a shift: any register is `%cl`.
fn count<R: Copy>(arg: Arg<R>) -> Option<Count>
    ensures { result ≡ count_in arg }
{
    match arg {
        Arg::Reg(_, _) => Some(Count::Cl),
        Arg::Imm(n) => {
            let n = u8::try_from(n).ok()?;
            Some(Count::Imm(n))
        }
        _ => None,
    }
}

/// The low bytes of a register, with the width that its name shows.
fn register_at<R: Copy>(arg: Arg<R>) -> Option<(Width, Reg)>
    ensures { result ≡ register_at arg }
{
    match arg {
        Arg::Reg(w, Reg8::Low(r)) => Some((w, r)),
        _ => None,
    }
}

fn immediate_at<R: Copy>(arg: Arg<R>) -> Option<i64>
    ensures { result ≡ immediate_at arg }
{
    match arg {
        Arg::Imm(n) => Some(n),
        _ => None,
    }
}

fn memory_at<R: Copy>(arg: Arg<R>) -> Option<Mem<R>>
    ensures { result ≡ memory_at arg }
{
    match arg {
        Arg::Mem(m) => Some(m),
        _ => None,
    }
}

fn target_at<R: Copy>(arg: Arg<R>) -> Option<R>
    ensures { result ≡ target_at arg }
{
    match arg {
        Arg::To(s) => Some(s),
        _ => None,
    }
}

/// The one argument.
fn one_of<R: Copy>(args: Args<R>) -> Option<Arg<R>>
    ensures { result ≡ one_of args }
{
    match args {
        Args::One(a) => Some(a),
        _ => None,
    }
}

/// The one argument behind a star.
fn star_of<R: Copy>(args: Args<R>) -> Option<Arg<R>>
    ensures { result ≡ star_of args }
{
    match args {
        Args::Star(a) => Some(a),
        _ => None,
    }
}

/// The source and the destination.
fn two_of<R: Copy>(args: Args<R>) -> Option<(Arg<R>, Arg<R>)>
    ensures { result ≡ two_of args }
{
    match args {
        Args::Two(a, b) => Some((a, b)),
        _ => None,
    }
}

fn three_of<R: Copy>(args: Args<R>) -> Option<(Arg<R>, Arg<R>, Arg<R>)>
    ensures { result ≡ three_of args }
{
    match args {
        Args::Three(a, b, c) => Some((a, b, c)),
        _ => None,
    }
}

/// An operand of a width.
pub fn one_at<R: Copy>(w: Width, args: Args<R>) -> Option<Operand<R>>
    ensures { result ≡ one_at w args }
{
    let arg = one_of(args)?;
    operand(w, arg)
}

/// A place of width Q behind a star.
pub fn star_at<R: Copy>(args: Args<R>) -> Option<Operand<R>>
    ensures { result ≡ star_at args }
{
    let arg = star_of(args)?;
    operand(Width::Q, arg)
}

/// A source and a destination of a width.
pub fn two_at<R: Copy>(w: Width, args: Args<R>) -> Option<(Operand<R>, Operand<R>)>
    ensures { result ≡ two_at w args }
{
    let (from, to) = two_of(args)?;
    let from = operand(w, from)?;
    let to = operand(w, to)?;
    Some((from, to))
}

/// A source of a width, and a register.
pub fn into_register<R: Copy>(w: Width, args: Args<R>) -> Option<(Operand<R>, Reg)>
    ensures { result ≡ into_register w args }
{
    let (from, to) = two_of(args)?;
    let from = operand(w, from)?;
    let to = register_at(to)?;
    Some((from, to.1))
}

/// A source of the width that the name of the register shows.
pub fn into_named<R: Copy>(args: Args<R>) -> Option<(Operand<R>, Width, Reg)>
    ensures { result ≡ into_named args }
{
    let (from, to) = two_of(args)?;
    let to = register_at(to)?;
    let from = operand(to.0, from)?;
    Some((from, to.0, to.1))
}

pub fn long_into<R: Copy>(args: Args<R>) -> Option<(i64, Reg)>
    ensures { result ≡ long_into args }
{
    let (v, to) = two_of(args)?;
    let v = immediate_at(v)?;
    let to = register_at(to)?;
    Some((v, to.1))
}

pub fn address_into<R: Copy>(args: Args<R>) -> Option<(Mem<R>, Reg)>
    ensures { result ≡ address_into args }
{
    let (at, to) = two_of(args)?;
    let at = memory_at(at)?;
    let to = register_at(to)?;
    Some((at, to.1))
}

/// An immediate, a source of a width, and a register.
pub fn product_into<R: Copy>(w: Width, args: Args<R>) -> Option<(i64, Operand<R>, Reg)>
    ensures { result ≡ product_into w args }
{
    let (by, from, to) = three_of(args)?;
    let by = immediate_at(by)?;
    let from = operand(w, from)?;
    let to = register_at(to)?;
    Some((by, from, to.1))
}

/// A count, and a place of a width.
pub fn shifted_at<R: Copy>(w: Width, args: Args<R>) -> Option<(Count, Operand<R>)>
    ensures { result ≡ shifted_at w args }
{
    let (by, at) = two_of(args)?;
    let count = count(by)?;
    let at = operand(w, at)?;
    Some((count, at))
}

pub fn target_of<R: Copy>(args: Args<R>) -> Option<R>
    ensures { result ≡ target_of args }
{
    let arg = one_of(args)?;
    target_at(arg)
}

/// A register alone.
pub fn register_of<R: Copy>(args: Args<R>) -> Option<(Width, Reg)>
    ensures { result ≡ register_of args }
{
    let arg = one_of(args)?;
    register_at(arg)
}

/// An instruction without arguments.
pub fn alone<R: Copy>(args: Args<R>, insn: Insn<R>) -> Option<Insn<R>>
    ensures { result ≡ alone args insn }
{
    match args {
        Args::Zero => Some(insn),
        _ => None,
    }
}
