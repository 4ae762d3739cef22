//! The stack, jumps, calls and string steps.

use crate::cases::{BORROW, BORROWED, Case, NONE, check, moves};
use rw_base::Width::{B, L, Q, W};
use rw_machine::Answer;
use std::test::Fail;
use x86_insn::Insn::{
    Call, CallTo, Jcc, Jmp, JmpTo, Leave, Mov, Movs, Plain as P, Pop, Push, Ret, Stos,
};
use x86_insn::Mem::{At, Rel};
use x86_insn::Operand::{Imm, Mem, Reg as R};
use x86_insn::Plain::Nop;
use x86_insn::Reg::{Rax, Rbp, Rbx, Rcx, Rdi, Rdx, Rsi, Rsp};
use x86_insn::{Cond, Operand};

/// The middle of the stack, offset 256.
const SP: u64 = 0x10_0100;

const AT_SP: Operand<u64> = Mem(At {
    base: Some(Rsp),
    index: None,
    disp: 0,
});

#[rattlefmt::skip]
static STACK: [Case; 5] = moves! {
    "push of %rsp stores the old value" [Push { from: R(Rsp) }]
        [(Rsp, SP)] => [(Rsp, SP - 8)], [(1, 249, 1), (1, 250, 0x10)], NONE;
    "push of an immediate" [Push { from: Imm(-2) }]
        [(Rsp, SP)] => [(Rsp, SP - 8)],
        [(1, 248, 0xfe), (1, 249, 0xff), (1, 250, 0xff), (1, 251, 0xff), (1, 252, 0xff), (1, 253, 0xff), (1, 254, 0xff), (1, 255, 0xff)], NONE;
    "pop to memory at the raised %rsp" [Push { from: Imm(7) }, Pop { to: AT_SP }]
        [(Rsp, SP)] => [], [(1, 248, 7), (1, 256, 7)], NONE;
    "pop of %rsp" [Push { from: R(Rbx) }, Pop { to: R(Rsp) }]
        [(Rsp, SP), (Rbx, SP + 128)] => [(Rsp, SP + 128)], [(1, 248, 0x80), (1, 249, 1), (1, 250, 0x10)], NONE;
    "leave" [Mov { w: Q, to: Mem(Rel(SP)), from: Imm(9) }, Leave]
        [(Rbp, SP)] => [(Rsp, SP + 8), (Rbp, 9)], [(1, 256, 9)], NONE;
};

#[rattlefmt::skip]
static JUMPS: [Case; 8] = moves! {
    "jmp" [Jmp { to: 2 }, Mov { w: L, to: R(Rax), from: Imm(1) }, P(Nop)]
        [] => [], [], NONE;
    "jb that is taken" [BORROW, Jcc { cond: Cond::B, to: 3 }, Mov { w: L, to: R(Rax), from: Imm(1) }, P(Nop)]
        [] => [], [], BORROWED;
    "je that isn't taken" [BORROW, Jcc { cond: Cond::E, to: 0 }, Mov { w: L, to: R(Rax), from: Imm(1) }]
        [] => [(Rax, 1)], [], BORROWED;
    "jmp to a register's word" [JmpTo { to: R(Rcx), notrack: false }, Mov { w: L, to: R(Rax), from: Imm(1) }, P(Nop)]
        [(Rcx, 2)] => [], [], NONE;
    "jmp to a word of memory" [Mov { w: L, to: Mem(Rel(0x1000)), from: Imm(3) }, JmpTo { to: Mem(Rel(0x1000)), notrack: true }, Mov { w: L, to: R(Rax), from: Imm(1) }, P(Nop)]
        [] => [], [(0, 0, 3)], NONE;
    "call and ret" [BORROW, Call { to: 4 }, Mov { w: L, to: R(Rcx), from: Imm(1) }, Jmp { to: 5 }, Ret, P(Nop)]
        [(Rsp, SP)] => [(Rcx, 1)], [(1, 248, 2)], BORROWED;
    "call of a register's word" [CallTo { to: R(Rdx), notrack: false }, P(Nop)]
        [(Rsp, SP), (Rdx, 1)] => [(Rsp, SP - 8)], [(1, 248, 1)], NONE;
    "call of a word at the old %rsp" [Mov { w: Q, to: AT_SP, from: Imm(2) }, CallTo { to: AT_SP, notrack: false }, P(Nop)]
        [(Rsp, SP)] => [(Rsp, SP - 8)], [(1, 248, 2), (1, 256, 2)], NONE;
};

#[rattlefmt::skip]
static STRINGS: [Case; 7] = moves! {
    "movsq" [Mov { w: L, to: Mem(Rel(0x1000)), from: Imm(0x1122_3344) }, Movs { w: Q, rep: false }]
        [(Rsi, 0x1000), (Rdi, 0x1010), (Rcx, 9)] => [(Rsi, 0x1008), (Rdi, 0x1018)],
        [(0, 0, 0x44), (0, 1, 0x33), (0, 2, 0x22), (0, 3, 0x11), (0, 16, 0x44), (0, 17, 0x33), (0, 18, 0x22), (0, 19, 0x11)], NONE;
    "rep movsb onto itself goes upwards" [Mov { w: B, to: Mem(Rel(0x1000)), from: Imm(7) }, Movs { w: B, rep: true }]
        [(Rsi, 0x1000), (Rdi, 0x1001), (Rcx, 4)] => [(Rsi, 0x1004), (Rdi, 0x1005), (Rcx, 0)],
        [(0, 0, 7), (0, 1, 7), (0, 2, 7), (0, 3, 7), (0, 4, 7)], NONE;
    "rep movsw onto itself" [Mov { w: W, to: Mem(Rel(0x1000)), from: Imm(0x1234) }, Movs { w: W, rep: true }]
        [(Rsi, 0x1000), (Rdi, 0x1002), (Rcx, 2)] => [(Rsi, 0x1004), (Rdi, 0x1006), (Rcx, 0)],
        [(0, 0, 0x34), (0, 1, 0x12), (0, 2, 0x34), (0, 3, 0x12), (0, 4, 0x34), (0, 5, 0x12)], NONE;
    "stosb" [Stos { w: B, rep: false }]
        [(Rax, 0x125a), (Rdi, 0x1003), (Rcx, 9)] => [(Rdi, 0x1004)], [(0, 3, 0x5a)], NONE;
    "rep stosl" [Stos { w: L, rep: true }]
        [(Rax, 0x55_1122_3344), (Rdi, 0x1038), (Rcx, 2)] => [(Rdi, 0x1040), (Rcx, 0)],
        [(0, 56, 0x44), (0, 57, 0x33), (0, 58, 0x22), (0, 59, 0x11), (0, 60, 0x44), (0, 61, 0x33), (0, 62, 0x22), (0, 63, 0x11)], NONE;
    "rep stosb of no elements" [Stos { w: B, rep: true }]
        [(Rax, 0x5a), (Rdi, 5)] => [], [], NONE;
    "rep movsq of no elements" [BORROW, Movs { w: Q, rep: true }]
        [(Rsi, 5), (Rdi, 5)] => [], [], BORROWED;
};

#[test]
fn stack_and_jumps_lead_where_the_manual_says(rt: HostRuntime) -> Result<(), Fail> {
    for case in STACK.iter().chain(JUMPS.iter()) {
        check(&rt, rt.alloc(), case)?;
    }
    Ok(())
}

#[test]
fn string_steps_are_one_step_upwards(rt: HostRuntime) -> Result<(), Fail> {
    for case in STRINGS.iter() {
        check(&rt, rt.alloc(), case)?;
    }
    Ok(())
}
