//! Steps that stop, end or ask. None of them but a return changes anything.

use crate::cases::{Case, FlagRow, NONE, check};
use crate::listing::{FINISH, IMPORT};
use rw_base::Width::{B, L, Q};
use rw_domain::Tri::{No as N, Unknown as U};
use rw_domain::{Cause, Place};
use rw_machine::Answer::{self, Asks, Ended, Stopped};
use rw_machine::{End, Event, Six, Trap};
use std::test::Fail;
use x86_insn::AluOp::Adc;
use x86_insn::Insn::{
    Alu, Call, Cmov, Jcc, Jmp, Mov, Movs, One, Plain as P, Push, Ret, Shift, Stos, Syscall,
};
use x86_insn::Mem::{Canary, Rel};
use x86_insn::OneOp::{Div, Idiv};
use x86_insn::Operand::{Imm, Mem, Reg as R};
use x86_insn::Plain::{Hlt, Int3, Ud2};
use x86_insn::Reg::{R8, R9, R10, Rax, Rcx, Rdi, Rdx, Rsi, Rsp};
use x86_insn::ShiftOp::Shl;
use x86_insn::{Cond, Count};

const SP: u64 = 0x10_0100;

const ONES: u64 = 0xffff_ffff_ffff_ffff;

const OUTSIDE: Answer<u64> = Stopped(Cause::AddressOutside);

const DIVIDE: Answer<u64> = Ended(End::Trapped(Trap::Divide));

/// The flags of 4, shifted there from 1.
const FOUR: FlagRow = (N, N, N, U, N);

macro_rules! ends {
    ($($name:literal [$($insn:expr),*] $before:expr => $answer:expr, $after:expr, $bytes:expr, $flags:expr;)*) => {
        [$(Case { name: $name, insns: &[$($insn),*], before: &$before, answer: $answer, after: &$after, bytes: &$bytes, flags: $flags }),*]
    };
}

#[rattlefmt::skip]
static STOPS: [Case; 15] = ends! {
    "jo behind shll by 2" [Shift { op: Shl, w: L, at: R(Rax), count: Count::Imm(2) }, Jcc { cond: Cond::O, to: 0 }]
        [(Rax, 1)] => Stopped(Cause::FlagUnknown), [(Rax, 4)], [], FOUR;
    "an unknown flag counts before an address" [Alu { op: Adc, w: L, to: Mem(Rel(0)), from: R(Rax) }]
        [] => Stopped(Cause::FlagUnknown), [], [], NONE;
    "also a later one" [Cmov { cond: Cond::G, w: L, to: Rax, from: Mem(Rel(0)) }]
        [(Rax, ONES)] => Stopped(Cause::FlagUnknown), [], [], NONE;
    "a load that passes the region's end" [Mov { w: L, to: R(Rax), from: Mem(Rel(0x103d)) }]
        [(Rax, 1)] => OUTSIDE, [], [], NONE;
    "a store before the region" [Mov { w: B, to: Mem(Rel(0xfff)), from: Imm(1) }]
        [] => OUTSIDE, [], [], NONE;
    "a store to the canary" [Mov { w: Q, to: Mem(Canary), from: Imm(1) }]
        [] => Stopped(Cause::NotWritable), [], [], NONE;
    "a store that passes the canary's end" [Mov { w: Q, to: Mem(Rel(0xe004)), from: Imm(1) }]
        [] => OUTSIDE, [], [], NONE;
    "an address counts before a trap" [One { op: Div, w: L, at: Mem(Rel(0)) }]
        [] => OUTSIDE, [], [], NONE;
    "an address counts before a target" [Call { to: 99 }]
        [] => OUTSIDE, [], [], NONE;
    "jmp to no point" [Jmp { to: 99 }]
        [] => Stopped(Cause::TargetNoPoint), [], [], NONE;
    "call to no point" [Call { to: 99 }]
        [(Rsp, SP)] => Stopped(Cause::TargetNoPoint), [], [], NONE;
    "an element is read before it is written" [Movs { w: B, rep: true }]
        [(Rsi, 0), (Rdi, 0xe000), (Rcx, 1)] => OUTSIDE, [], [], NONE;
    "a write comes before the next element" [Movs { w: B, rep: true }]
        [(Rsi, 0x103f), (Rdi, 0xe000), (Rcx, 2)] => Stopped(Cause::NotWritable), [], [], NONE;
    "rep stosb that passes the end writes nothing" [Stos { w: B, rep: true }]
        [(Rax, 1), (Rdi, 0x103e), (Rcx, 3)] => OUTSIDE, [], [], NONE;
    "rep stosb of more bytes than there are" [Stos { w: B, rep: true }]
        [(Rax, 1), (Rdi, 0x1000), (Rcx, ONES)] => OUTSIDE, [], [], NONE;
};

#[rattlefmt::skip]
static ENDS: [Case; 8] = ends! {
    "divl by 0" [One { op: Div, w: L, at: R(Rcx) }]
        [(Rax, 3)] => DIVIDE, [], [], NONE;
    "divl whose quotient doesn't fit" [One { op: Div, w: L, at: R(Rcx) }]
        [(Rcx, 1), (Rdx, 1)] => DIVIDE, [], [], NONE;
    "idivq of the least number by -1" [One { op: Idiv, w: Q, at: R(Rcx) }]
        [(Rax, 0x8000_0000_0000_0000), (Rcx, ONES), (Rdx, ONES)] => DIVIDE, [], [], NONE;
    "ud2" [P(Ud2)]
        [] => Ended(End::Trapped(Trap::Ud2)), [], [], NONE;
    "int3" [P(Int3)]
        [] => Ended(End::Trapped(Trap::Int3)), [], [], NONE;
    "hlt" [P(Hlt)]
        [] => Ended(End::Trapped(Trap::Hlt)), [], [], NONE;
    "ret from the program" [Push { from: Imm(FINISH as i64) }, Ret]
        [(Rax, 0x1ff), (Rsp, SP)] => Ended(End::Returned(0xff)), [], [(1, 249, 0xf0)], NONE;
    "jmp out of the program" [Jmp { to: FINISH }]
        [(Rax, 0x105)] => Ended(End::Returned(5)), [], [], NONE;
};

const SIX: Six<u64> = Six {
    w0: 1,
    w1: 0x1002,
    w2: 3,
    w3: 4,
    w4: 5,
    w5: 6,
};

#[rattlefmt::skip]
static EVENTS: [Case; 7] = ends! {
    "a system call has rdi, rsi, rdx, r10, r8 and r9" [Syscall]
        [(Rax, 39), (Rdi, 1), (Rsi, 0x1002), (Rdx, 3), (R10, 4), (R8, 5), (R9, 6)] => Asks(Event::System(39, SIX, None)), [], [], NONE;
    "write has the place of its bytes" [Syscall]
        [(Rax, 1), (Rdi, 1), (Rsi, 0x1002), (Rdx, 3), (R10, 4), (R8, 5), (R9, 6)]
        => Asks(Event::System(1, SIX, Some((Place { region: 0, offset: 2 }, 3)))), [], [], NONE;
    "write of no bytes looks at no place" [Syscall]
        [(Rax, 1), (Rdi, 2)] => Asks(Event::System(1, Six { w0: 2, w1: 0, w2: 0, w3: 0, w4: 0, w5: 0 }, None)), [], [], NONE;
    "write to another descriptor looks at no place" [Syscall]
        [(Rax, 1), (Rdi, 3), (Rdx, 7)] => Asks(Event::System(1, Six { w0: 3, w1: 0, w2: 7, w3: 0, w4: 0, w5: 0 }, None)), [], [], NONE;
    "write that passes the end" [Syscall]
        [(Rax, 1), (Rdi, 1), (Rsi, 0x103f), (Rdx, 2)] => OUTSIDE, [], [], NONE;
    "a call of a symbol has rdi, rsi, rdx, rcx, r8 and r9" [Call { to: IMPORT }]
        [(Rdi, 1), (Rsi, 0x1002), (Rdx, 3), (Rcx, 4), (R8, 5), (R9, 6), (Rsp, SP)] => Asks(Event::Import(7, SIX)), [], [], NONE;
    "a jump to a symbol asks too" [Jmp { to: IMPORT }]
        [(Rdi, 1), (Rsi, 0x1002), (Rdx, 3), (Rcx, 4), (R8, 5), (R9, 6)] => Asks(Event::Import(7, SIX)), [], [], NONE;
};

#[test]
fn a_step_that_stops_or_asks_changes_nothing(rt: HostRuntime) -> Result<(), Fail> {
    for case in STOPS.iter().chain(EVENTS.iter()) {
        check(&rt, rt.alloc(), case)?;
    }
    Ok(())
}

#[test]
fn runs_end_by_traps_and_returns(rt: HostRuntime) -> Result<(), Fail> {
    for case in ENDS.iter() {
        check(&rt, rt.alloc(), case)?;
    }
    Ok(())
}
