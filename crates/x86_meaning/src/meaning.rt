//! The small operations of each row, and of an instruction.
#![tactic(auto, using(crate::proofs::SinkLaws::after_all_append))]

ghost use Rattle.std.specs.Prelude.{◌≡◌, ◌≤◌, [], ◌∷◌, true, length, if◌then◌else◌};
ghost use Rattle.x86_meaning.specs.declared.operations.Micro.TheVariants.{Ref};
ghost use Rattle.x86_meaning.specs.Sinks.{after_all};
ghost use Rattle.x86_meaning.specs.Meaning.{micro_of, plain_of, t0, t2, write_of, writes_result, bit_write};
ghost use Rattle.x86_meaning.specs.Meaning.{are_same as same_operands, same_reg, same_byte as same_bytes, with_itself as itself, alu_of, same_of, alu_or_same, test_of, exchange_of, bit_of};
ghost use Rattle.x86_meaning.specs.Meaning.{move_of, number_move_of, extend_of, lea_of, cmov_of, setcc_of, push_row as push_row_of, pop_row as pop_row_of, leave_row as leave_of};
ghost use Rattle.x86_meaning.specs.Meaning.{jump_of, call_of, jump_to_of, call_to_of, return_of};
ghost use Rattle.x86_meaning.specs.Meaning.{high_half as half, multiply_of, divide_of, change_of, one_of, imul2_of, imul3_of, count_of, shift_of, widened as widened_of, signs_of, convert_of, scan_of, swap_of};

use crate::operations::Micro;
use crate::parts::{
    T0, T1, T2, T3, T4, T7, push_address, push_call, push_get, push_number, push_place, push_plus,
    push_pop, push_product, push_push, push_put, push_value, push_write,
};
use crate::sink::{Operations, Sink};
use arrayvec::ArrayVec;
use rw_base::Width;
use x86_insn::{
    AluOp, BitOp, Cond, Convert, Count, Insn, Mem, OneOp, Operand, Plain, Reg, Reg8, ScanOp,
    ShiftOp,
};

/// Whether two registers are one.
fn same_register(a: Reg, b: Reg) -> bool
    ensures { result ≡ same_reg a b }
{
    a.code() == b.code()
}

/// Whether two registers of 8 bits are one.
fn same_byte(a: Reg8, b: Reg8) -> bool
    ensures { result ≡ same_bytes a b }
{
    match (a, b) {
        (Reg8::Low(a), Reg8::Low(b)) => same_register(a, b),
        (Reg8::High(a), Reg8::High(b)) => same_register(a, b),
        _ => false,
    }
}

/// Whether both operands are one register.
fn are_same<R: Copy>(a: Operand<R>, b: Operand<R>) -> bool
    ensures { result ≡ same_operands a b }
{
    match (a, b) {
        (Operand::Reg(a), Operand::Reg(b)) => same_register(a, b),
        (Operand::Byte(a), Operand::Byte(b)) => same_byte(a, b),
        _ => false,
    }
}

/// Of an operator that reads no register where both operands are the same: whether it takes the borrow CF, as `sbb` does.
fn with_itself(op: AluOp) -> Option<bool>
    ensures { result ≡ itself op }
{
    match op {
        AluOp::Xor | AluOp::Sub => Some(false),
        AluOp::Sbb => Some(true),
        _ => None,
    }
}

/// The write of the result, which `cmp` has not.
fn push_result<R: Copy, S: Sink>(sink: &mut S, op: AluOp, w: Width, to: Operand<R>)
    requires { S.count sink.old ≤ 15 }
    ensures { sink.new ≡ after_all S.with_one sink.old (if writes_result op then write_of w to t2 else []) }
{
    match op {
        AluOp::Cmp => {}
        _ => push_write(sink, w, to, T2),
    }
}

/// An operator of two operands, each of which is read.
fn plain_alu<R: Copy, S: Sink>(sink: &mut S, op: AluOp, w: Width, to: Operand<R>, from: Operand<R>)
    requires { S.count sink.old ≡ 0 }
    ensures { sink.new ≡ after_all S.with_one sink.old (alu_of op w to from) }
{
    push_value(sink, T1, w, from);
    push_value(sink, T0, w, to);
    sink.push(Micro::Alu {
        op,
        w,
        to: T2,
        a: T0,
        b: T1,
    });
    push_result(sink, op, w, to);
}

/// An operator of a register and itself: `xor`, `sub` or, with the borrow, `sbb`.
fn same<R: Copy, S: Sink>(sink: &mut S, borrow: bool, w: Width, to: Operand<R>)
    requires { S.count sink.old ≡ 0 }
    ensures { sink.new ≡ after_all S.with_one sink.old (same_of borrow w to) }
{
    sink.push(Micro::Same { borrow, w, to: T2 });
    push_write(sink, w, to, T2);
}

/// `add`, `or`, `adc`, `sbb`, `and`, `sub`, `xor`, `cmp`.
fn alu<R: Copy, S: Sink>(sink: &mut S, op: AluOp, w: Width, to: Operand<R>, from: Operand<R>)
    requires { S.count sink.old ≡ 0 }
    ensures { sink.new ≡ after_all S.with_one sink.old (alu_or_same (itself op) op w to from) }
{
    match with_itself(op) {
        Some(borrow) if are_same(to, from) => same(sink, borrow, w, to),
        _ => plain_alu(sink, op, w, to, from),
    }
}

/// `test`: an AND whose result is dropped.
fn test<R: Copy, S: Sink>(sink: &mut S, w: Width, e: Operand<R>, by: Operand<R>)
    requires { S.count sink.old ≡ 0 }
    ensures { sink.new ≡ after_all S.with_one sink.old (test_of w e by) }
{
    push_value(sink, T0, w, e);
    push_value(sink, T1, w, by);
    sink.push(Micro::Alu {
        op: AluOp::And,
        w,
        to: T2,
        a: T0,
        b: T1,
    });
}

/// `xchg`.
fn exchange<R: Copy, S: Sink>(sink: &mut S, w: Width, e: Operand<R>, g: Operand<R>)
    requires { S.count sink.old ≡ 0 }
    ensures { sink.new ≡ after_all S.with_one sink.old (exchange_of w e g) }
{
    push_value(sink, T0, w, e);
    push_value(sink, T1, w, g);
    push_write(sink, w, e, T1);
    push_write(sink, w, g, T0);
}

/// The write of the result, which `bt` has not.
fn push_bit<R: Copy, S: Sink>(sink: &mut S, op: BitOp, w: Width, at: Operand<R>)
    requires { S.count sink.old ≤ 15 }
    ensures { sink.new ≡ after_all S.with_one sink.old (bit_write op w at) }
{
    match op {
        BitOp::Bt => {}
        _ => push_write(sink, w, at, T2),
    }
}

/// `bt`, `bts`, `btr`, `btc`.
fn bit<R: Copy, S: Sink>(sink: &mut S, op: BitOp, w: Width, at: Operand<R>, index: Operand<R>)
    requires { S.count sink.old ≡ 0 }
    ensures { sink.new ≡ after_all S.with_one sink.old (bit_of op w at index) }
{
    push_value(sink, T0, w, at);
    push_value(sink, T1, w, index);
    sink.push(Micro::Bit {
        op,
        w,
        to: T2,
        a: T0,
        index: T1,
    });
    push_bit(sink, op, w, at);
}

/// `mov`.
fn mov<R: Copy, S: Sink>(sink: &mut S, w: Width, to: Operand<R>, from: Operand<R>)
    requires { S.count sink.old ≡ 0 }
    ensures { sink.new ≡ after_all S.with_one sink.old (move_of w to from) }
{
    push_value(sink, T0, w, from);
    push_place(sink, to);
    push_write(sink, w, to, T0);
}

/// `movabs`.
fn number_move<S: Sink>(sink: &mut S, to: Reg, v: i64)
    requires { S.count sink.old ≡ 0 }
    ensures { sink.new ≡ after_all S.with_one sink.old (number_move_of to v) }
{
    push_number(sink, T0, Width::Q, v);
    push_put(sink, Width::Q, to, T0);
}

/// `movzx`, and where `signed` is set `movsx` and `movsxd`.
fn extend<R: Copy, S: Sink>(
    sink: &mut S,
    signed: bool,
    from: Width,
    w: Width,
    to: Reg,
    of: Operand<R>,
)
    requires { S.count sink.old ≡ 0 }
    ensures { sink.new ≡ after_all S.with_one sink.old (extend_of signed from w to of) }
{
    push_value(sink, T0, from, of);
    sink.push(Micro::Extend {
        signed,
        from,
        w,
        to: T1,
        a: T0,
    });
    push_put(sink, w, to, T1);
}

/// `lea`.
fn lea<R: Copy, S: Sink>(sink: &mut S, w: Width, to: Reg, at: Mem<R>)
    requires { S.count sink.old ≡ 0 }
    ensures { sink.new ≡ after_all S.with_one sink.old (lea_of w to at) }
{
    push_address(sink, at);
    push_put(sink, w, to, T4);
}

/// `cmovcc`: the destination is written in either case, so that width L clears its upper half.
fn cmov<R: Copy, S: Sink>(sink: &mut S, cond: Cond, w: Width, to: Reg, from: Operand<R>)
    requires { S.count sink.old ≡ 0 }
    ensures { sink.new ≡ after_all S.with_one sink.old (cmov_of cond w to from) }
{
    push_value(sink, T0, w, from);
    push_get(sink, T1, w, to); // the value where the condition does not hold
    sink.push(Micro::Choose {
        cond,
        to: T2,
        yes: T0,
        no: T1,
    });
    push_put(sink, w, to, T2);
}

/// `setcc`.
fn setcc<R: Copy, S: Sink>(sink: &mut S, cond: Cond, to: Operand<R>)
    requires { S.count sink.old ≡ 0 }
    ensures { sink.new ≡ after_all S.with_one sink.old (setcc_of cond to) }
{
    let w = Width::B;
    sink.push(Micro::Num { to: T0, w, v: 1 });
    sink.push(Micro::Num { to: T1, w, v: 0 });
    sink.push(Micro::Choose {
        cond,
        to: T2,
        yes: T0,
        no: T1,
    });
    push_place(sink, to);
    push_write(sink, w, to, T2);
}

/// `push`: the value and the address of an operand are those before RSP is lowered.
fn push_row<R: Copy, S: Sink>(sink: &mut S, from: Operand<R>)
    requires { S.count sink.old ≡ 0 }
    ensures { sink.new ≡ after_all S.with_one sink.old (push_row_of from) }
{
    push_value(sink, T0, Width::Q, from);
    push_push(sink, T0);
}

/// `pop`: the address of a destination is that after RSP is raised.
fn pop_row<R: Copy, S: Sink>(sink: &mut S, to: Operand<R>)
    requires { S.count sink.old ≡ 0 }
    ensures { sink.new ≡ after_all S.with_one sink.old (pop_row_of to) }
{
    push_pop(sink, T0); // before the destination's address, which may have %rsp
    push_place(sink, to);
    push_write(sink, Width::Q, to, T0);
}

/// `leave`: RSP takes RBP's value, and RBP is popped.
fn leave<S: Sink>(sink: &mut S)
    requires { S.count sink.old ≡ 0 }
    ensures { sink.new ≡ after_all S.with_one sink.old leave_of }
{
    push_get(sink, T1, Width::Q, Reg::Rbp);
    sink.push(Micro::Load {
        to: T7,
        w: Width::Q,
        at: T1,
    });
    push_put(sink, Width::Q, Reg::Rbp, T7);
    push_plus(sink, T7, T1, 8);
    push_put(sink, Width::Q, Reg::Rsp, T7);
}

/// A direct jump, with its condition if it has one.
fn jump<S: Sink>(sink: &mut S, cond: Option<Cond>)
    requires { S.count sink.old ≡ 0 }
    ensures { sink.new ≡ after_all S.with_one sink.old (jump_of cond) }
{
    sink.push(Micro::Ref {
        to: T0,
        direct: true,
    });
    sink.push(Micro::Go { cond, to: T0 });
}

/// A direct call.
fn call<S: Sink>(sink: &mut S)
    requires { S.count sink.old ≡ 0 }
    ensures { sink.new ≡ after_all S.with_one sink.old (Ref t0 true ∷ call_of) }
{
    sink.push(Micro::Ref {
        to: T0,
        direct: true,
    });
    push_call(sink);
}

/// A jump to the address in an operand.
fn jump_to<R: Copy, S: Sink>(sink: &mut S, to: Operand<R>)
    requires { S.count sink.old ≡ 0 }
    ensures { sink.new ≡ after_all S.with_one sink.old (jump_to_of to) }
{
    push_value(sink, T0, Width::Q, to);
    sink.push(Micro::Go { cond: None, to: T0 });
}

/// A call of the address in an operand.
fn call_to<R: Copy, S: Sink>(sink: &mut S, to: Operand<R>)
    requires { S.count sink.old ≡ 0 }
    ensures { sink.new ≡ after_all S.with_one sink.old (call_to_of to) }
{
    push_value(sink, T0, Width::Q, to);
    push_call(sink);
}

/// `ret`.
fn ret<S: Sink>(sink: &mut S)
    requires { S.count sink.old ≡ 0 }
    ensures { sink.new ≡ after_all S.with_one sink.old return_of }
{
    push_pop(sink, T0);
    sink.push(Micro::Go { cond: None, to: T0 });
}

/// Where the upper half of a product or a dividend stands: AH for bytes, else RDX.
fn high_half(w: Width) -> Reg8
    ensures { result ≡ half w }
{
    match w {
        Width::B => Reg8::High(Reg::Rax),
        _ => Reg8::Low(Reg::Rdx),
    }
}

/// `mul`, and where `signed` is set `imul`, of one operand.
fn multiply<R: Copy, S: Sink>(sink: &mut S, signed: bool, w: Width, at: Operand<R>)
    requires { S.count sink.old ≡ 0 }
    ensures { sink.new ≡ after_all S.with_one sink.old (multiply_of signed w at) }
{
    push_value(sink, T0, w, at);
    push_get(sink, T1, w, Reg::Rax);
    push_product(sink, signed, w, T1, T0);
    push_put(sink, w, Reg::Rax, T2);
    sink.push(Micro::Put {
        w,
        to: high_half(w),
        from: T3,
    });
}

/// `div`, and where `signed` is set `idiv`.
fn divide<R: Copy, S: Sink>(sink: &mut S, signed: bool, w: Width, at: Operand<R>)
    requires { S.count sink.old ≡ 0 }
    ensures { sink.new ≡ after_all S.with_one sink.old (divide_of signed w at) }
{
    push_value(sink, T0, w, at);
    sink.push(Micro::Get {
        to: T1,
        w,
        from: high_half(w),
    });
    push_get(sink, T2, w, Reg::Rax);
    sink.push(Micro::Div {
        signed,
        w,
        quotient: T2,
        rest: T3,
        high: T1,
        low: T2,
        by: T0,
    });
    push_put(sink, w, Reg::Rax, T2);
    sink.push(Micro::Put {
        w,
        to: high_half(w),
        from: T3,
    });
}

/// `inc`, `dec`, `not`, `neg`.
fn change<R: Copy, S: Sink>(sink: &mut S, op: OneOp, w: Width, at: Operand<R>)
    requires { S.count sink.old ≡ 0 }
    ensures { sink.new ≡ after_all S.with_one sink.old (change_of op w at) }
{
    push_value(sink, T0, w, at);
    sink.push(Micro::One {
        op,
        w,
        to: T1,
        a: T0,
    });
    push_write(sink, w, at, T1);
}

/// An operation of one operand.
fn one<R: Copy, S: Sink>(sink: &mut S, op: OneOp, w: Width, at: Operand<R>)
    requires { S.count sink.old ≡ 0 }
    ensures { sink.new ≡ after_all S.with_one sink.old (one_of op w at) }
{
    match op {
        OneOp::Mul => multiply(sink, false, w, at),
        OneOp::Imul => multiply(sink, true, w, at),
        OneOp::Div => divide(sink, false, w, at),
        OneOp::Idiv => divide(sink, true, w, at),
        _ => change(sink, op, w, at),
    }
}

/// `imul` of two operands.
fn imul2<R: Copy, S: Sink>(sink: &mut S, w: Width, to: Reg, from: Operand<R>)
    requires { S.count sink.old ≡ 0 }
    ensures { sink.new ≡ after_all S.with_one sink.old (imul2_of w to from) }
{
    push_value(sink, T0, w, from);
    push_get(sink, T1, w, to);
    push_product(sink, true, w, T1, T0);
    push_put(sink, w, to, T2);
}

/// `imul` of three operands.
fn imul3<R: Copy, S: Sink>(sink: &mut S, w: Width, to: Reg, from: Operand<R>, by: i64)
    requires { S.count sink.old ≡ 0 }
    ensures { sink.new ≡ after_all S.with_one sink.old (imul3_of w to from by) }
{
    push_value(sink, T0, w, from);
    push_number(sink, T1, w, by);
    push_product(sink, true, w, T0, T1);
    push_put(sink, w, to, T2);
}

/// The count of a shift, which is a byte.
fn shift_count(count: Count) -> Micro
    ensures { result ≡ count_of count }
{
    match count {
        Count::Cl => Micro::Get {
            to: T1,
            w: Width::B,
            from: Reg8::Low(Reg::Rcx),
        },
        Count::Imm(c) => Micro::Num {
            to: T1,
            w: Width::B,
            v: u64::from(c),
        },
    }
}

/// A rotate or shift.
fn shift<R: Copy, S: Sink>(sink: &mut S, op: ShiftOp, w: Width, at: Operand<R>, count: Count)
    requires { S.count sink.old ≡ 0 }
    ensures { sink.new ≡ after_all S.with_one sink.old (shift_of op w at count) }
{
    push_value(sink, T0, w, at);
    sink.push(shift_count(count));
    sink.push(Micro::Shift {
        op,
        w,
        to: T2,
        a: T0,
        count: T1,
        flags: true,
    });
    push_write(sink, w, at, T2);
}

/// RAX extended from one width to the next.
fn widened<S: Sink>(sink: &mut S, from: Width, w: Width)
    requires { S.count sink.old ≡ 0 }
    ensures { sink.new ≡ after_all S.with_one sink.old (widened_of from w) }
{
    push_get(sink, T0, from, Reg::Rax);
    sink.push(Micro::Extend {
        signed: true,
        from,
        w,
        to: T1,
        a: T0,
    });
    push_put(sink, w, Reg::Rax, T1);
}

/// RDX filled with the sign of RAX, by a shift that keeps the flags.
fn signs<S: Sink>(sink: &mut S, w: Width, count: u64)
    requires { S.count sink.old ≡ 0 }
    ensures { sink.new ≡ after_all S.with_one sink.old (signs_of w count) }
{
    push_get(sink, T0, w, Reg::Rax);
    sink.push(Micro::Num {
        to: T1,
        w: Width::B,
        v: count,
    });
    sink.push(Micro::Shift {
        op: ShiftOp::Sar,
        w,
        to: T2,
        a: T0,
        count: T1,
        flags: false,
    });
    push_put(sink, w, Reg::Rdx, T2);
}

/// A sign extension of RAX.
fn convert<S: Sink>(sink: &mut S, kind: Convert)
    requires { S.count sink.old ≡ 0 }
    ensures { sink.new ≡ after_all S.with_one sink.old (convert_of kind) }
{
    match kind {
        Convert::Cbtw => widened(sink, Width::B, Width::W),
        Convert::Cwtl => widened(sink, Width::W, Width::L),
        Convert::Cltq => widened(sink, Width::L, Width::Q),
        Convert::Cwtd => signs(sink, Width::W, 15),
        Convert::Cltd => signs(sink, Width::L, 31),
        Convert::Cqto => signs(sink, Width::Q, 63),
    }
}

/// `bsf`, `bsr`, `tzcnt`.
fn scan<R: Copy, S: Sink>(sink: &mut S, op: ScanOp, w: Width, to: Reg, from: Operand<R>)
    requires { S.count sink.old ≡ 0 }
    ensures { sink.new ≡ after_all S.with_one sink.old (scan_of op w to from) }
{
    push_value(sink, T0, w, from);
    sink.push(Micro::Scan {
        op,
        w,
        to: T1,
        a: T0,
    });
    push_put(sink, w, to, T1);
}

/// `bswap`.
fn swap<S: Sink>(sink: &mut S, w: Width, r: Reg)
    requires { S.count sink.old ≡ 0 }
    ensures { sink.new ≡ after_all S.with_one sink.old (swap_of w r) }
{
    push_get(sink, T0, w, r);
    sink.push(Micro::Swap { w, to: T1, a: T0 });
    push_put(sink, w, r, T1);
}

/// One small operation.
fn only<S: Sink>(sink: &mut S, op: Micro)
    requires { S.count sink.old ≡ 0 }
    ensures { sink.new ≡ after_all S.with_one sink.old (op ∷ []) }
{
    sink.push(op);
}

/// An instruction without operands.
fn plain<S: Sink>(sink: &mut S, kind: Plain)
    requires { S.count sink.old ≡ 0 }
    ensures { sink.new ≡ after_all S.with_one sink.old (plain_of kind) }
{
    match kind {
        Plain::Ud2 | Plain::Int3 | Plain::Hlt => only(sink, Micro::Trap(kind)),
        Plain::Nop | Plain::Pause | Plain::Endbr64 => {}
    }
}

/// The small operations of an instruction, in the order in which they happen: the only meaning of the instruction set.
/// They don't depend on what its reference is.
pub fn micro<R: Copy>(insn: &Insn<R>) -> ArrayVec<Micro, 16>
    ensures items { result.items ≡ micro_of insn.now }
    ensures bound { length (micro_of insn.now) ≤ 16 }
{
    let mut list = Operations::new();
    push_operations(&mut list, insn);
    let _fits = list.as_slice(); // (for its clause `fits`)
    list
}

/// The rows: the small operations of an instruction, in the order in which they happen.
pub(crate) fn push_operations<R: Copy, S: Sink>(sink: &mut S, insn: &Insn<R>)
    requires { S.count sink.old ≡ 0 }
    ensures { sink.new ≡ after_all S.with_one sink.old (micro_of insn.now) }
{
    match *insn {
        Insn::Alu { op, w, to, from } => alu(sink, op, w, to, from),
        Insn::Test { w, e, by } => test(sink, w, e, by),
        Insn::Xchg { w, e, g } => exchange(sink, w, e, g),
        Insn::Mov { w, to, from } => mov(sink, w, to, from),
        Insn::MovAbs { to, v } => number_move(sink, to, v),
        Insn::MovZx {
            from_w,
            w,
            to,
            from,
        } => extend(sink, false, from_w, w, to, from),
        Insn::MovSx {
            from_w,
            w,
            to,
            from,
        } => extend(sink, true, from_w, w, to, from),
        Insn::Lea { w, to, at } => lea(sink, w, to, at),
        Insn::Push { from } => push_row(sink, from),
        Insn::Pop { to } => pop_row(sink, to),
        Insn::Imul2 { w, to, from } => imul2(sink, w, to, from),
        Insn::Imul3 { w, to, from, by } => imul3(sink, w, to, from, by),
        Insn::One { op, w, at } => one(sink, op, w, at),
        Insn::Shift { op, w, at, count } => shift(sink, op, w, at, count),
        Insn::Convert(kind) => convert(sink, kind),
        Insn::Movs { w, rep } => only(
            sink,
            Micro::Elements {
                moves: true,
                w,
                rep,
            },
        ),
        Insn::Stos { w, rep } => only(
            sink,
            Micro::Elements {
                moves: false,
                w,
                rep,
            },
        ),
        Insn::Cmov { cond, w, to, from } => cmov(sink, cond, w, to, from),
        Insn::Setcc { cond, to } => setcc(sink, cond, to),
        Insn::Bit { op, w, at, index } => bit(sink, op, w, at, index),
        Insn::Scan { op, w, to, from } => scan(sink, op, w, to, from),
        Insn::Bswap { w, r } => swap(sink, w, r),
        Insn::Jcc { cond, .. } => jump(sink, Some(cond)),
        Insn::Jmp { .. } => jump(sink, None),
        Insn::Call { .. } => call(sink),
        Insn::JmpTo { to, .. } => jump_to(sink, to),
        Insn::CallTo { to, .. } => call_to(sink, to),
        Insn::Ret => ret(sink),
        Insn::Leave => leave(sink),
        Insn::Syscall => only(sink, Micro::System),
        Insn::Plain(kind) => plain(sink, kind),
    }
}
