//! The parts that the rows share, each pushed to a sink.
#![tactic(auto, using(crate::proofs::SinkLaws::after_all_append))]

ghost use Rattle.std.specs.Prelude.{◌≡◌, ◌≤◌, ◌+◌, [], ◌∷◌, Some, None};
ghost use Rattle.x86_meaning.specs.declared.operations.Micro.TheVariants.{Get, Put, Num, Sum, Mul};
ghost use Rattle.x86_insn.specs.declared.kinds.Reg8.TheVariants.{Low};
ghost use Rattle.x86_meaning.specs.Meaning.{t2, t3, base_of, base_temp, index_of, index_temp, number_of, address_of, value_of, place_of, write_of, push_of, pop_of, call_of};
ghost use Rattle.x86_meaning.specs.Sinks.{after_all};

use crate::operations::{Micro, Temp};
use crate::sink::Sink;
use rw_base::{Width, low};
use x86_insn::{Mem, Operand, Reg, Reg8};

// The value, and the other value.
pub(crate) const T0: Temp = Temp(0);

pub(crate) const T1: Temp = Temp(1);

// The result, and the second result.
pub(crate) const T2: Temp = Temp(2);

pub(crate) const T3: Temp = Temp(3);

// The address of the operand in memory, its base and its index.
pub(crate) const T4: Temp = Temp(4);

pub(crate) const T5: Temp = Temp(5);

pub(crate) const T6: Temp = Temp(6);

/// What an instruction of the stack gives to %rsp, and `leave` to %rbp.
pub(crate) const T7: Temp = Temp(7);

/// Gets the low part of a register.
#[inline(always)]
pub(crate) fn push_get<S: Sink>(sink: &mut S, to: Temp, w: Width, r: Reg)
    requires { S.count sink.old ≤ 15 }
    ensures operations { sink.new ≡ after_all S.with_one sink.old (Get to w (Low r) ∷ []) }
    ensures count { S.count sink.new ≤ S.count sink.old + 1 }
{
    let from = Reg8::Low(r);
    sink.push(Micro::Get { to, w, from });
}

/// The base of an address, and its word.
fn push_base<S: Sink>(sink: &mut S, base: Option<Reg>) -> Option<Temp>
    requires { S.count sink.old ≤ 15 }
    ensures operations { sink.new ≡ after_all S.with_one sink.old (base_of base) }
    ensures count { S.count sink.new ≤ S.count sink.old + 1 }
    ensures word { result ≡ base_temp base }
{
    match base {
        Some(r) => {
            push_get(sink, T5, Width::Q, r);
            Some(T5)
        }
        None => None,
    }
}

/// The index of an address, and its word with the scale.
fn push_index<S: Sink>(sink: &mut S, index: Option<(Reg, u8)>) -> Option<(Temp, u8)>
    requires { S.count sink.old ≤ 15 }
    ensures operations { sink.new ≡ after_all S.with_one sink.old (index_of index) }
    ensures count { S.count sink.new ≤ S.count sink.old + 1 }
    ensures word { result ≡ index_temp index }
{
    match index {
        Some((r, scale)) => {
            push_get(sink, T6, Width::Q, r);
            Some((T6, scale))
        }
        None => None,
    }
}

/// The address of an operand in memory, in `T4`.
pub(crate) fn push_address<R: Copy, S: Sink>(sink: &mut S, at: Mem<R>)
    requires { S.count sink.old ≤ 8 }
    ensures operations { sink.new ≡ after_all S.with_one sink.old (address_of at) }
    ensures count { S.count sink.new ≤ S.count sink.old + 3 }
{
    match at {
        Mem::At { base, index, disp } => {
            let base = push_base(sink, base);
            let index = push_index(sink, index);
            sink.push(Micro::Sum {
                to: T4,
                base,
                index,
                disp,
            });
        }
        Mem::Rel(_) => sink.push(Micro::Ref {
            to: T4,
            direct: false,
        }),
        Mem::Canary => sink.push(Micro::Canary { to: T4 }),
    }
}

/// Puts a word into the low part of a register.
#[inline(always)]
pub(crate) fn push_put<S: Sink>(sink: &mut S, w: Width, r: Reg, from: Temp)
    requires { S.count sink.old ≤ 15 }
    ensures operations { sink.new ≡ after_all S.with_one sink.old (Put w (Low r) from ∷ []) }
    ensures count { S.count sink.new ≤ S.count sink.old + 1 }
{
    let to = Reg8::Low(r);
    sink.push(Micro::Put { w, to, from });
}

/// A word and a constant.
pub(crate) fn push_plus<S: Sink>(sink: &mut S, to: Temp, base: Temp, disp: i32)
    requires { S.count sink.old ≤ 15 }
    ensures operations { sink.new ≡ after_all S.with_one sink.old (Sum to (Some base) None disp ∷ []) }
    ensures count { S.count sink.new ≤ S.count sink.old + 1 }
{
    sink.push(Micro::Sum {
        to,
        base: Some(base),
        index: None,
        disp,
    });
}

/// An immediate.
pub(crate) fn push_number<S: Sink>(sink: &mut S, to: Temp, w: Width, v: i64)
    requires { S.count sink.old ≤ 15 }
    ensures operations { sink.new ≡ after_all S.with_one sink.old (Num to w (number_of w v) ∷ []) }
    ensures count { S.count sink.new ≤ S.count sink.old + 1 }
{
    let v = low(v.cast_unsigned(), w);
    sink.push(Micro::Num { to, w, v });
}

/// The product of two words, its low half in `T2` and its high half in `T3`.
pub(crate) fn push_product<S: Sink>(sink: &mut S, signed: bool, w: Width, a: Temp, b: Temp)
    requires { S.count sink.old ≤ 15 }
    ensures operations { sink.new ≡ after_all S.with_one sink.old (Mul signed w t2 t3 a b ∷ []) }
    ensures count { S.count sink.new ≤ S.count sink.old + 1 }
{
    sink.push(Micro::Mul {
        signed,
        w,
        low: T2,
        high: T3,
        a,
        b,
    });
}

/// An operand's value.
#[inline(always)]
pub(crate) fn push_value<R: Copy, S: Sink>(sink: &mut S, to: Temp, w: Width, of: Operand<R>)
    requires { S.count sink.old ≤ 8 }
    ensures operations { sink.new ≡ after_all S.with_one sink.old (value_of to w of) }
    ensures count { S.count sink.new ≤ S.count sink.old + 4 }
{
    match of {
        Operand::Reg(r) => push_get(sink, to, w, r),
        Operand::Byte(from) => sink.push(Micro::Get { to, w, from }),
        Operand::Mem(at) => {
            push_address(sink, at);
            sink.push(Micro::Load { to, w, at: T4 });
        }
        Operand::Imm(v) => push_number(sink, to, w, v),
    }
}

/// The address of an operand in memory that is only written, in `T4`.
pub(crate) fn push_place<R: Copy, S: Sink>(sink: &mut S, of: Operand<R>)
    requires { S.count sink.old ≤ 8 }
    ensures operations { sink.new ≡ after_all S.with_one sink.old (place_of of) }
    ensures count { S.count sink.new ≤ S.count sink.old + 3 }
{
    if let Operand::Mem(at) = of {
        push_address(sink, at);
    }
}

/// A write to an operand, whose address is in `T4` if it is memory.
#[inline(always)]
pub(crate) fn push_write<R: Copy, S: Sink>(sink: &mut S, w: Width, to: Operand<R>, from: Temp)
    requires { S.count sink.old ≤ 15 }
    ensures operations { sink.new ≡ after_all S.with_one sink.old (write_of w to from) }
    ensures count { S.count sink.new ≤ S.count sink.old + 1 }
{
    match to {
        Operand::Reg(r) => push_put(sink, w, r, from),
        Operand::Byte(r) => sink.push(Micro::Put { w, to: r, from }),
        Operand::Mem(_) => sink.push(Micro::Store { w, at: T4, from }),
        Operand::Imm(_) => {}
    }
}

/// A word pushed on the stack.
pub(crate) fn push_push<S: Sink>(sink: &mut S, from: Temp)
    requires { S.count sink.old ≤ 12 }
    ensures operations { sink.new ≡ after_all S.with_one sink.old (push_of from) }
    ensures count { S.count sink.new ≤ S.count sink.old + 4 }
{
    push_get(sink, T1, Width::Q, Reg::Rsp);
    push_plus(sink, T7, T1, -8);
    sink.push(Micro::Store {
        w: Width::Q,
        at: T7,
        from,
    });
    push_put(sink, Width::Q, Reg::Rsp, T7);
}

/// A word popped from the stack.
pub(crate) fn push_pop<S: Sink>(sink: &mut S, to: Temp)
    requires { S.count sink.old ≤ 12 }
    ensures operations { sink.new ≡ after_all S.with_one sink.old (pop_of to) }
    ensures count { S.count sink.new ≤ S.count sink.old + 4 }
{
    push_get(sink, T1, Width::Q, Reg::Rsp);
    sink.push(Micro::Load {
        to,
        w: Width::Q,
        at: T1,
    });
    push_plus(sink, T7, T1, 8);
    push_put(sink, Width::Q, Reg::Rsp, T7);
}

/// A call of the word in `T0`.
pub(crate) fn push_call<S: Sink>(sink: &mut S)
    requires { S.count sink.old ≤ 10 }
    ensures { sink.new ≡ after_all S.with_one sink.old call_of }
{
    sink.push(Micro::Next { to: T3 });
    push_push(sink, T3);
    sink.push(Micro::Go { cond: None, to: T0 });
}
