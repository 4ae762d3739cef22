//! What instructions read and write, gathered from their small operations.

ghost use Rattle.std.specs.Prelude.{◌≡◌, [], ◌∷◌};
ghost use Rattle.x86_insn.specs.declared.kinds.Reg.TheVariants.{Rax, Rcx, R11};
ghost use Rattle.x86_meaning.specs.Sets.{set_of, flag_set};
ghost use Rattle.x86_meaning.specs.Registers.{byte_register, when_rep, reads_of, writes_whole_of, touches_of};
ghost use Rattle.x86_meaning.specs.Flags.{condition_flags as flags_of_condition, all_but_carry as all_but_cf, written_one, written_above_zero, flags_read_of, flags_written_of};
ghost use Rattle.x86_meaning.specs.Effects.{fetched as fetched_of, changed as changed_of, put_whole as put_whole_of, filled_part as filled_of, is_implied as implied_temp};
ghost use Rattle.x86_meaning.specs.Effects.{needed as needed_of, settled as settled_of, made_number as number_of, effects_at as effects_of_one};

use crate::meaning::push_operations;
use crate::operations::{Micro, Temp};
use crate::parts::T7;
use crate::sets::{Flag, FlagSet, RegSet};
use crate::sink::Sink;
use rw_base::Width;
use x86_insn::{AluOp, Cond, Insn, OneOp, Reg, Reg8, ShiftOp};

/// What an instruction reads and writes.
#[derive(Clone, Copy)]
pub struct Effects {
    /// The registers of its sources, its addresses and the destinations that it changes, and the implied ones.
    pub reads: RegSet,
    /// The registers of which it writes every bit, as far as an operand or the row names them.
    pub writes_whole: RegSet,
    /// The registers of which it may write some part.
    pub touches: RegSet,
    /// The flags of its condition, the borrow, and those that a shift by CL may keep.
    pub flags_read: FlagSet,
    /// The flags that it sets or leaves undefined in every case.
    pub flags_written: FlagSet,
}

impl Effects {
    ghost use Rattle.x86_meaning.specs.Effects.{no_effects, joined, effects_of};

    fn none() -> Effects
        ensures { result ≡ no_effects }
    {
        Effects {
            reads: RegSet::EMPTY,
            writes_whole: RegSet::EMPTY,
            touches: RegSet::EMPTY,
            flags_read: FlagSet::EMPTY,
            flags_written: FlagSet::EMPTY,
        }
    }

    #[inline(always)]
    fn join(self, other: Effects) -> Effects
        ensures { result ≡ joined self other }
    {
        Effects {
            reads: self.reads.union(other.reads),
            writes_whole: self.writes_whole.union(other.writes_whole),
            touches: self.touches.union(other.touches),
            flags_read: self.flags_read.union(other.flags_read),
            flags_written: self.flags_written.union(other.flags_written),
        }
    }

    /// What an instruction reads and writes.
    pub fn of<R: Copy>(insn: &Insn<R>) -> Effects
        ensures { result ≡ effects_of insn.now }
    {
        let mut gathered = Gathered {
            all: Effects::none(),
            number: None,
        };
        push_operations(&mut gathered, insn);
        gathered.all
    }
}

/// What the operations taken so far read and write, and the number that the last of them made, if it made one.
#[derive(Drop)]
struct Gathered {
    all: Effects,
    number: Option<u64>,
}

impl Sink for Gathered {
    ghost use Rattle.x86_meaning.specs.Effects.{joined};

    ghost with_one = { λ g m. record { all = joined g.all (effects_of_one g.number m); number = number_of m } };

    ghost count = { λ g. 0 };

    #[inline(always)]
    fn push(&mut self, op: Micro) {
        self.all = self.all.join(effects_at(self.number, &op));
        self.number = made_number(&op);
    }
}

#[inline(always)]
fn register(part: Reg8) -> RegSet
    ensures { result.0 ≡ set_of (byte_register part) }
{
    match part {
        Reg8::Low(r) => RegSet::only(r),
        Reg8::High(r) => RegSet::only(r),
    }
}

fn counter(rep: bool) -> RegSet
    ensures { result.0 ≡ set_of (when_rep rep) }
{
    if rep {
        RegSet::only(Reg::Rcx)
    } else {
        RegSet::EMPTY
    }
}

#[inline(always)]
fn fetched(op: &Micro) -> RegSet
    ensures { result.0 ≡ set_of (fetched_of op.now) }
{
    match *op {
        Micro::Get { from, .. } => register(from),
        Micro::Elements {
            moves: true,
            rep,
            ..
        } => counter(rep).with(Reg::Rsi).with(Reg::Rdi),
        Micro::Elements {
            moves: false,
            rep,
            ..
        } => counter(rep).with(Reg::Rax).with(Reg::Rdi),
        Micro::System => RegSet::only(Reg::Rax)
            .with(Reg::Rdi)
            .with(Reg::Rsi)
            .with(Reg::Rdx)
            .with(Reg::R10)
            .with(Reg::R8)
            .with(Reg::R9),
        _ => RegSet::EMPTY,
    }
}

fn left_by_system() -> RegSet
    ensures { result.0 ≡ set_of (Rax ∷ Rcx ∷ R11 ∷ []) }
{
    RegSet::only(Reg::Rax).with(Reg::Rcx).with(Reg::R11)
}

#[inline(always)]
fn changed(op: &Micro) -> RegSet
    ensures { result.0 ≡ set_of (changed_of op.now) }
{
    match *op {
        Micro::Put { to, .. } => register(to),
        Micro::Elements {
            moves: true,
            rep,
            ..
        } => counter(rep).with(Reg::Rsi).with(Reg::Rdi),
        Micro::Elements {
            moves: false,
            rep,
            ..
        } => counter(rep).with(Reg::Rdi),
        Micro::System => left_by_system(),
        _ => RegSet::EMPTY,
    }
}

fn filled_part(w: Width, to: Reg8) -> RegSet
    ensures { result.0 ≡ set_of (filled_of w to) }
{
    match w {
        Width::L | Width::Q => register(to),
        Width::B | Width::W => RegSet::EMPTY,
    }
}

fn is_implied(from: Temp) -> bool
    ensures { result ≡ implied_temp from }
{
    from.0 == T7.0
}

#[inline(always)]
fn put_whole(op: &Micro) -> RegSet
    ensures { result.0 ≡ set_of (put_whole_of op.now) }
{
    match *op {
        Micro::Put { from, .. } if is_implied(from) => RegSet::EMPTY,
        Micro::Put { w, to, .. } => filled_part(w, to),
        Micro::Elements { rep, .. } => counter(rep),
        Micro::System => left_by_system(),
        _ => RegSet::EMPTY,
    }
}

#[inline(always)]
fn made_number(op: &Micro) -> Option<u64>
    ensures { result ≡ number_of op.now }
{
    match *op {
        Micro::Num { v, .. } => Some(v),
        _ => None,
    }
}

fn condition_flags(cond: Cond) -> FlagSet
    ensures { result.0 ≡ flag_set (flags_of_condition cond) }
{
    let cf = FlagSet::only(Flag::Cf);
    let zf = FlagSet::only(Flag::Zf);
    let sf = FlagSet::only(Flag::Sf);
    let of = FlagSet::only(Flag::Of);
    match cond {
        Cond::O | Cond::No => of,
        Cond::B | Cond::Ae => cf,
        Cond::E | Cond::Ne => zf,
        Cond::Be | Cond::A => cf.union(zf),
        Cond::S | Cond::Ns => sf,
        Cond::P | Cond::Np => FlagSet::only(Flag::Pf),
        Cond::L | Cond::Ge => sf.union(of),
        Cond::Le | Cond::G => zf.union(sf).union(of),
    }
}

#[inline(always)]
fn needed(count: Option<u64>, op: &Micro) -> FlagSet
    ensures { result.0 ≡ flag_set (needed_of count op.now) }
{
    match *op {
        Micro::Alu {
            op: AluOp::Adc | AluOp::Sbb,
            ..
        } => FlagSet::only(Flag::Cf),
        Micro::Same { borrow: true, .. } => FlagSet::only(Flag::Cf),
        Micro::Shift { flags: true, .. } if count.is_none() => FlagSet::ALL,
        Micro::Choose { cond, .. } => condition_flags(cond),
        Micro::Go {
            cond: Some(cond),
            ..
        } => condition_flags(cond),
        _ => FlagSet::EMPTY,
    }
}

fn all_but_carry() -> FlagSet
    ensures { result.0 ≡ flag_set all_but_cf }
{
    FlagSet::only(Flag::Zf)
        .with(Flag::Sf)
        .with(Flag::Of)
        .with(Flag::Pf)
}

fn settled_by_one(op: OneOp) -> FlagSet
    ensures { result.0 ≡ flag_set (written_one op) }
{
    match op {
        OneOp::Inc | OneOp::Dec => all_but_carry(),
        OneOp::Not => FlagSet::EMPTY,
        _ => FlagSet::ALL,
    }
}

fn settled_by_shift(op: ShiftOp, count: u64) -> FlagSet
    ensures { result.0 ≡ flag_set (written_above_zero op count) }
{
    if count == 0 {
        return FlagSet::EMPTY;
    }
    match op {
        ShiftOp::Rol | ShiftOp::Ror => FlagSet::only(Flag::Cf).with(Flag::Of),
        _ => FlagSet::ALL,
    }
}

#[inline(always)]
fn settled(count: Option<u64>, op: &Micro) -> FlagSet
    ensures { result.0 ≡ flag_set (settled_of count op.now) }
{
    match *op {
        Micro::Alu { .. } | Micro::Mul { .. } | Micro::Div { .. } | Micro::Scan { .. } => {
            FlagSet::ALL
        }
        Micro::One { op, .. } => settled_by_one(op),
        Micro::Shift {
            op,
            flags: true,
            ..
        } => match count {
            Some(count) => settled_by_shift(op, count),
            None => FlagSet::EMPTY,
        },
        Micro::Bit { .. } => FlagSet::only(Flag::Cf)
            .with(Flag::Sf)
            .with(Flag::Of)
            .with(Flag::Pf),
        Micro::Same { borrow: true, .. } => all_but_carry(),
        Micro::Same { borrow: false, .. } => FlagSet::ALL,
        _ => FlagSet::EMPTY,
    }
}

#[inline(always)]
fn effects_at(count: Option<u64>, op: &Micro) -> Effects
    ensures { result ≡ effects_of_one count op.now }
{
    Effects {
        reads: fetched(op),
        writes_whole: put_whole(op),
        touches: changed(op),
        flags_read: needed(count, op),
        flags_written: settled(count, op),
    }
}

/// The registers that an instruction reads: those of its sources, its addresses and the destinations that it changes,
/// and the implied ones. A `cmov` reads its destination; `xor`, `sub` and `sbb` of a register with itself read none.
pub fn reads<R: Copy>(insn: &Insn<R>) -> RegSet
    ensures { result.0 ≡ set_of (reads_of insn.now) }
{
    Effects::of(insn).reads
}

/// The registers that an instruction writes whole: its destinations of 32 and 64 bits and the implied ones, but not
/// the stack pointer of `push`, `pop`, `call`, `ret` and `leave`, nor rbp of `leave`.
pub fn writes_whole<R: Copy>(insn: &Insn<R>) -> RegSet
    ensures { result.0 ≡ set_of (writes_whole_of insn.now) }
{
    Effects::of(insn).writes_whole
}

/// The registers of which an instruction may write some part.
pub fn touches<R: Copy>(insn: &Insn<R>) -> RegSet
    ensures { result.0 ≡ set_of (touches_of insn.now) }
{
    Effects::of(insn).touches
}

/// The flags that an instruction reads: those of its condition, CF for `adc` and `sbb`, and all for a shift by CL.
pub fn flags_read<R: Copy>(insn: &Insn<R>) -> FlagSet
    ensures { result.0 ≡ flag_set (flags_read_of insn.now) }
{
    Effects::of(insn).flags_read
}

/// The flags that an instruction sets or leaves undefined in every case: a shift by CL writes none.
pub fn flags_written<R: Copy>(insn: &Insn<R>) -> FlagSet
    ensures { result.0 ≡ flag_set (flags_written_of insn.now) }
{
    Effects::of(insn).flags_written
}
