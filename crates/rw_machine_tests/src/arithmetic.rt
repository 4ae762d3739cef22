//! Operators with their flags, shifts, bits, products and quotients.

use crate::cases::{BORROW, BORROWED, Case, NONE, check, moves};
use rw_base::Width::{B, L, Q, W};
use rw_domain::Tri::{No as N, Unknown as U, Yes as Y};
use rw_machine::Answer;
use std::test::Fail;
use x86_insn::AluOp::{Adc, Add, And, Or, Sbb, Sub, Xor};
use x86_insn::BitOp::{Bt, Btc, Btr, Bts};
use x86_insn::Count::{Cl, Imm as By};
use x86_insn::Insn::{Alu, Bit, Imul2, Imul3, Mov, One, Scan, Shift, Test};
use x86_insn::Mem::{At, Rel};
use x86_insn::OneOp::{Dec, Div, Idiv, Imul, Inc, Mul, Neg, Not};
use x86_insn::Operand::{Byte, Imm, Mem, Reg as R};
use x86_insn::Reg::{R8, R9, Rax, Rbx, Rcx, Rdi, Rdx, Rsi};
use x86_insn::Reg8::{High, Low};
use x86_insn::ScanOp::{Bsf, Bsr, Tzcnt};
use x86_insn::ShiftOp::{Rol, Ror, Sar, Shl, Shr};

const ONES: u64 = 0xffff_ffff_ffff_ffff;

#[rattlefmt::skip]
static SUMS: [Case; 16] = moves! {
    "addl" [Alu { op: Add, w: L, to: R(Rax), from: Imm(1) }]
        [(Rax, 0xffff_ffff)] => [(Rax, 0)], [], (Y, Y, N, N, Y);
    "adcb" [BORROW, Alu { op: Adc, w: B, to: Byte(High(Rax)), from: Imm(0) }]
        [(Rax, 0x7f11)] => [(Rax, 0x8011)], [], (N, N, Y, Y, N);
    "sbbl" [BORROW, Alu { op: Sbb, w: L, to: R(Rcx), from: R(Rdx) }]
        [(Rcx, 5), (Rdx, 5)] => [(Rcx, 0xffff_ffff)], [], (Y, N, Y, N, Y);
    "orw of memory" [Alu { op: Or, w: W, to: Mem(At { base: Some(Rbx), index: Some((Rsi, 2)), disp: 8 }), from: Imm(0x1234) }]
        [(Rbx, 0x1000), (Rsi, 4)] => [], [(0, 16, 0x34), (0, 17, 0x12)], (N, N, N, N, N);
    "andq" [Alu { op: And, w: Q, to: R(Rax), from: Imm(-16) }]
        [(Rax, 0x1234_5678_9abc_def5)] => [(Rax, 0x1234_5678_9abc_def0)], [], (N, N, N, N, Y);
    "subl" [Alu { op: Sub, w: L, to: R(Rcx), from: R(Rdx) }]
        [(Rcx, 0x8000_0000), (Rdx, 1)] => [(Rcx, 0x7fff_ffff)], [], (N, N, N, Y, Y);
    "xorl of a register with itself" [Alu { op: Xor, w: L, to: R(Rax), from: R(Rax) }]
        [(Rax, ONES)] => [(Rax, 0)], [], (N, Y, N, N, Y);
    "sbbq of a register with itself and a borrow" [BORROW, Alu { op: Sbb, w: Q, to: R(Rdx), from: R(Rdx) }]
        [(Rdx, 5)] => [(Rdx, ONES)], [], (Y, N, Y, N, Y);
    "sbbl of a register with itself and no borrow" [Test { w: B, e: Byte(Low(Rax)), by: Imm(1) }, Alu { op: Sbb, w: L, to: R(Rdx), from: R(Rdx) }]
        [(Rax, 1), (Rdx, 5)] => [(Rdx, 0)], [], (N, Y, N, N, Y);
    "cmpq" [BORROW]
        [] => [], [], BORROWED;
    "testb" [Test { w: B, e: Byte(Low(Rax)), by: Imm(-128) }]
        [(Rax, 0x80)] => [], [], (N, N, Y, N, N);
    "incb keeps CF" [BORROW, One { op: Inc, w: B, at: Byte(Low(Rsi)) }]
        [(Rsi, 0x1ff)] => [(Rsi, 0x100)], [], (Y, Y, N, N, Y);
    "decq keeps CF" [BORROW, One { op: Dec, w: Q, at: R(R8) }]
        [(R8, 0x8000_0000_0000_0000)] => [(R8, 0x7fff_ffff_ffff_ffff)], [], (Y, N, N, Y, Y);
    "notq keeps all flags" [BORROW, One { op: Not, w: Q, at: R(R9) }]
        [(R9, 1)] => [(R9, 0xffff_ffff_ffff_fffe)], [], BORROWED;
    "negl of memory" [Mov { w: L, to: Mem(Rel(0x1004)), from: Imm(1) }, One { op: Neg, w: L, at: Mem(Rel(0x1004)) }]
        [] => [], [(0, 4, 0xff), (0, 5, 0xff), (0, 6, 0xff), (0, 7, 0xff)], (Y, N, Y, N, Y);
    "negb of 0 doesn't borrow" [One { op: Neg, w: B, at: Byte(Low(Rax)) }]
        [(Rax, 0x100)] => [], [], (N, Y, N, N, Y);
};

#[rattlefmt::skip]
static PRODUCTS: [Case; 8] = moves! {
    "mulb" [One { op: Mul, w: B, at: Byte(Low(Rcx)) }]
        [(Rax, 0x80), (Rcx, 2)] => [(Rax, 0x100)], [], (Y, U, U, Y, U);
    "mull" [One { op: Mul, w: L, at: R(Rcx) }]
        [(Rax, 0xffff_ffff), (Rcx, 2), (Rdx, ONES)] => [(Rax, 0xffff_fffe), (Rdx, 1)], [], (Y, U, U, Y, U);
    "imulq" [One { op: Imul, w: Q, at: R(Rbx) }]
        [(Rax, ONES), (Rbx, 2)] => [(Rax, 0xffff_ffff_ffff_fffe), (Rdx, ONES)], [], (N, U, U, N, U);
    "imull of two operands" [Imul2 { w: L, to: Rcx, from: R(Rdx) }]
        [(Rcx, ONES), (Rdx, 5)] => [(Rcx, 0xffff_fffb)], [], (N, U, U, N, U);
    "imulw of three operands" [Imul3 { w: W, to: Rbx, from: R(Rax), by: 3 }]
        [(Rax, 0x4000), (Rbx, 0x1_0000)] => [(Rbx, 0x1_c000)], [], (Y, U, U, Y, U);
    "divl" [BORROW, One { op: Div, w: L, at: R(Rcx) }]
        [(Rax, 3), (Rcx, 2), (Rdx, 1)] => [(Rax, 0x8000_0001), (Rdx, 1)], [], NONE;
    "idivb rounds toward 0" [One { op: Idiv, w: B, at: Byte(Low(Rcx)) }]
        [(Rax, 0xfff9), (Rcx, 2)] => [(Rax, 0xfffd)], [], NONE;
    "idivq" [One { op: Idiv, w: Q, at: R(Rcx) }]
        [(Rax, 0xffff_ffff_ffff_fff9), (Rcx, 2), (Rdx, ONES)] => [(Rax, 0xffff_ffff_ffff_fffd), (Rdx, ONES)], [], NONE;
};

#[rattlefmt::skip]
static BITS: [Case; 16] = moves! {
    "shlq by CL modulo 64" [Shift { op: Shl, w: Q, at: R(Rax), count: Cl }]
        [(Rax, 0x8000_0000_0000_0001), (Rcx, 65)] => [(Rax, 2)], [], (Y, N, N, Y, N);
    "shll by 2 leaves OF undefined" [Shift { op: Shl, w: L, at: R(Rax), count: By(2) }]
        [(Rax, 0x4000_0001)] => [(Rax, 4)], [], (Y, N, N, U, N);
    "shrw by 1" [Shift { op: Shr, w: W, at: R(Rdx), count: By(1) }]
        [(Rdx, 0x1_8001)] => [(Rdx, 0x1_4000)], [], (Y, N, N, Y, Y);
    "sarl by 3" [Shift { op: Sar, w: L, at: R(Rdx), count: By(3) }]
        [(Rdx, 0xffff_fff8)] => [(Rdx, 0xffff_ffff)], [], (N, N, Y, U, Y);
    "roll by 1 keeps ZF, SF and PF" [BORROW, Shift { op: Rol, w: L, at: R(Rdx), count: By(1) }]
        [(Rdx, 0x8000_0000)] => [(Rdx, 1)], [], (Y, N, Y, Y, Y);
    "rorb by 4" [BORROW, Shift { op: Ror, w: B, at: Byte(Low(Rdx)), count: By(4) }]
        [(Rdx, 0x312)] => [(Rdx, 0x321)], [], (N, N, Y, U, Y);
    "shrl by 0 keeps the flags and clears the upper half" [BORROW, Shift { op: Shr, w: L, at: R(Rdx), count: By(0) }]
        [(Rdx, 0xf_0000_0005)] => [(Rdx, 5)], [], BORROWED;
    "btsl by a register modulo 32" [BORROW, Bit { op: Bts, w: L, at: R(Rbx), index: R(Rcx) }]
        [(Rcx, 33)] => [(Rbx, 2)], [], (N, N, U, U, U);
    "btq writes nothing" [BORROW, Bit { op: Bt, w: Q, at: R(Rax), index: Imm(5) }]
        [(Rax, 0x20)] => [], [], (Y, N, U, U, U);
    "btrl of memory" [Mov { w: L, to: Mem(Rel(0x1000)), from: Imm(3) }, Bit { op: Btr, w: L, at: Mem(Rel(0x1000)), index: Imm(1) }]
        [] => [], [(0, 0, 1)], (Y, U, U, U, U);
    "btcw" [Bit { op: Btc, w: W, at: R(Rdx), index: Imm(15) }]
        [(Rdx, 0x1_0001)] => [(Rdx, 0x1_8001)], [], (N, U, U, U, U);
    "bsfl" [Scan { op: Bsf, w: L, to: Rax, from: R(Rcx) }]
        [(Rax, ONES), (Rcx, 0x18)] => [(Rax, 3)], [], (U, N, U, U, U);
    "bsrq" [Scan { op: Bsr, w: Q, to: Rax, from: R(Rcx) }]
        [(Rcx, 0x18)] => [(Rax, 4)], [], (U, N, U, U, U);
    "bsfq of 0" [Scan { op: Bsf, w: Q, to: Rax, from: R(Rcx) }]
        [(Rax, 7)] => [(Rax, 0)], [], (U, Y, U, U, U);
    "tzcntq of 0" [Scan { op: Tzcnt, w: Q, to: Rax, from: R(Rdi) }]
        [] => [(Rax, 64)], [], (Y, N, U, U, U);
    "tzcntl of 1" [Scan { op: Tzcnt, w: L, to: Rax, from: R(Rdi) }]
        [(Rax, 7), (Rdi, 1)] => [(Rax, 0)], [], (N, Y, U, U, U);
};

#[test]
fn operators_set_their_results_and_flags(rt: HostRuntime) -> Result<(), Fail> {
    for case in SUMS.iter().chain(PRODUCTS.iter()).chain(BITS.iter()) {
        check(&rt, rt.alloc(), case)?;
    }
    Ok(())
}
