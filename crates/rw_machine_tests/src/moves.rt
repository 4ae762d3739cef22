//! Moves, conditions and conversions.

use crate::cases::{BORROW, BORROWED, Case, NONE, check, moves};
use rw_base::Width::{B, L, Q, W};
use rw_machine::Answer;
use std::test::Fail;
use x86_insn::Insn::{Bswap, Cmov, Convert, Lea, Mov, MovAbs, MovSx, MovZx, Setcc, Xchg};
use x86_insn::Mem::{At, Canary, Rel};
use x86_insn::Operand::{Byte, Imm, Mem, Reg as R};
use x86_insn::Reg::{R10, R11, Rax, Rbx, Rcx, Rdi, Rdx, Rsi};
use x86_insn::Reg8::{High, Low};
use x86_insn::{Cond, Convert as Kind, Insn, Plain};

const ONES: u64 = 0xffff_ffff_ffff_ffff;

#[rattlefmt::skip]
static CASES: [Case; 24] = moves! {
    "16 bits keep the rest" [Mov { w: W, to: R(Rcx), from: Imm(0x1234) }]
        [(Rcx, 0xaaaa_bbbb_cccc_dddd)] => [(Rcx, 0xaaaa_bbbb_cccc_1234)], [], NONE;
    "32 bits clear the upper half" [Mov { w: L, to: R(Rcx), from: R(Rdx) }]
        [(Rcx, ONES), (Rdx, 0x1_8000_0001)] => [(Rcx, 0x8000_0001)], [], NONE;
    "high bytes are bits 8 to 15" [Mov { w: B, to: Byte(High(Rcx)), from: Byte(Low(Rdx)) }]
        [(Rcx, 0xfffff), (Rdx, 0x125a)] => [(Rcx, 0xf5aff)], [], NONE;
    "store by base, index, scale and displacement" [Mov { w: L, to: Mem(At { base: Some(Rbx), index: Some((Rsi, 4)), disp: -4 }), from: Imm(-2) }]
        [(Rbx, 0x1000), (Rsi, 2)] => [], [(0, 4, 0xfe), (0, 5, 0xff), (0, 6, 0xff), (0, 7, 0xff)], NONE;
    "load what was stored" [Mov { w: W, to: Mem(Rel(0x1002)), from: Imm(0x1234) }, Mov { w: Q, to: R(Rax), from: Mem(Rel(0x1000)) }]
        [(Rax, 1)] => [(Rax, 0x1234_0000)], [(0, 2, 0x34), (0, 3, 0x12)], NONE;
    "movabs" [MovAbs { to: R10, v: 0x0123_4567_89ab_cdef }]
        [] => [(R10, 0x0123_4567_89ab_cdef)], [], NONE;
    "movzbl" [MovZx { from_w: B, w: L, to: Rax, from: Byte(High(Rcx)) }]
        [(Rax, ONES), (Rcx, 0x8012)] => [(Rax, 0x80)], [], NONE;
    "movswl" [MovSx { from_w: W, w: L, to: Rdx, from: R(Rcx) }]
        [(Rdx, ONES), (Rcx, 0x8000)] => [(Rdx, 0xffff_8000)], [], NONE;
    "movslq" [MovSx { from_w: L, w: Q, to: Rdi, from: R(Rcx) }]
        [(Rcx, 0x8000_0000)] => [(Rdi, 0xffff_ffff_8000_0000)], [], NONE;
    "leal" [Lea { w: L, to: Rdx, at: At { base: Some(Rbx), index: Some((Rsi, 8)), disp: -4 } }]
        [(Rbx, 0xffff_ffff_0000_0010), (Rsi, 2), (Rdx, ONES)] => [(Rdx, 0x1c)], [], NONE;
    "leaq of a reference" [Lea { w: Q, to: Rdx, at: Rel(0x1234) }]
        [] => [(Rdx, 0x1234)], [], NONE;
    "xchgl with memory" [Mov { w: L, to: Mem(Rel(0x1008)), from: Imm(5) }, Xchg { w: L, e: Mem(Rel(0x1008)), g: R(Rbx) }]
        [(Rbx, 0xff_0000_1122)] => [(Rbx, 5)], [(0, 8, 0x22), (0, 9, 0x11)], NONE;
    "xchgb of two parts of a register" [Xchg { w: B, e: Byte(Low(Rax)), g: Byte(High(Rax)) }]
        [(Rax, 0x51234)] => [(Rax, 0x53412)], [], NONE;
    "cmove that isn't taken clears the upper half" [BORROW, Cmov { cond: Cond::E, w: L, to: Rax, from: R(Rcx) }]
        [(Rax, 0xffff_ffff_0000_0001), (Rcx, 7)] => [(Rax, 1)], [], BORROWED;
    "cmovb that is taken" [BORROW, Cmov { cond: Cond::B, w: Q, to: Rax, from: R(Rcx) }]
        [(Rax, 1), (Rcx, ONES)] => [(Rax, ONES)], [], BORROWED;
    "setbe" [BORROW, Setcc { cond: Cond::Be, to: Byte(Low(Rdi)) }]
        [(Rdi, 0xff00)] => [(Rdi, 0xff01)], [], BORROWED;
    "sete of memory" [BORROW, Mov { w: W, to: Mem(Rel(0x1000)), from: Imm(-1) }, Setcc { cond: Cond::E, to: Mem(Rel(0x1000)) }]
        [] => [], [(0, 1, 0xff)], BORROWED;
    "bswapl" [Bswap { w: L, r: R11 }]
        [(R11, 0xff_1122_3344)] => [(R11, 0x4433_2211)], [], NONE;
    "bswapq" [Bswap { w: Q, r: Rax }]
        [(Rax, 0x0102_0304_0506_0708)] => [(Rax, 0x0807_0605_0403_0201)], [], NONE;
    "cbtw" [Convert(Kind::Cbtw)]
        [(Rax, 0x55_1180)] => [(Rax, 0x55_ff80)], [], NONE;
    "cltq" [Convert(Kind::Cltq)]
        [(Rax, 0x8000_0000)] => [(Rax, 0xffff_ffff_8000_0000)], [], NONE;
    "cwtd" [Convert(Kind::Cwtd)]
        [(Rax, 0x8000), (Rdx, 0x7_0000)] => [(Rdx, 0x7_ffff)], [], NONE;
    "cqto keeps the flags" [BORROW, Convert(Kind::Cqto)]
        [(Rax, 1), (Rdx, ONES)] => [(Rdx, 0)], [], BORROWED;
    "canary, nop, pause and endbr64" [Mov { w: Q, to: R(Rax), from: Mem(Canary) }, Insn::Plain(Plain::Nop), Insn::Plain(Plain::Pause), Insn::Plain(Plain::Endbr64)]
        [(Rax, 1)] => [(Rax, 0)], [], NONE;
};

#[test]
fn moves_keep_flags_and_what_they_do_not_name(rt: HostRuntime) -> Result<(), Fail> {
    for case in CASES.iter() {
        check(&rt, rt.alloc(), case)?;
    }
    Ok(())
}
