//! Which values of `x86_insn` are instructions, by examples from the opcode map, and the reference of each.

use rw_base::Width::{B, L, Q, W};
use x86_insn::Mem::{At, Canary, Rel};
use x86_insn::Operand::{Byte, Imm, Mem, Reg as R};
use x86_insn::Reg::{R8, R12, Rax, Rbx, Rcx, Rsi, Rsp};
use x86_insn::Reg8::{High, Low};
use x86_insn::{AluOp, BitOp, Cond, Count, Insn, ShiftOp};

static CASES: [(Insn<u64>, bool, Option<u64>); 28] = [
    // A high byte register, which no instruction with a REX byte has.
    (
        Insn::Mov {
            w: B,
            to: Byte(Low(Rbx)),
            from: Byte(High(Rax)),
        },
        true,
        None,
    ),
    (
        Insn::Mov {
            w: B,
            to: Byte(Low(R8)),
            from: Byte(High(Rax)),
        },
        false,
        None,
    ),
    (
        Insn::Mov {
            w: B,
            to: Byte(High(Rax)),
            from: Byte(Low(Rsi)),
        },
        false,
        None,
    ),
    (
        Insn::Setcc {
            cond: Cond::E,
            to: Byte(High(Rsi)),
        },
        false,
        None,
    ),
    (
        Insn::MovZx {
            from_w: B,
            w: L,
            to: Rax,
            from: Byte(High(Rax)),
        },
        true,
        None,
    ),
    (
        Insn::MovZx {
            from_w: B,
            w: Q,
            to: Rax,
            from: Byte(High(Rax)),
        },
        false,
        None,
    ),
    // Widths.
    (
        Insn::MovSx {
            from_w: L,
            w: Q,
            to: Rax,
            from: R(Rcx),
        },
        true,
        None,
    ),
    (
        Insn::MovZx {
            from_w: L,
            w: Q,
            to: Rax,
            from: R(Rcx),
        },
        false,
        None,
    ),
    (Insn::Bswap { w: W, r: Rax }, false, None),
    (
        Insn::Setcc {
            cond: Cond::E,
            to: R(Rax),
        },
        false,
        None,
    ),
    // Immediates, counts and numbers of bits.
    (
        Insn::Alu {
            op: AluOp::Add,
            w: L,
            to: R(Rax),
            from: Imm(-2147483648),
        },
        true,
        None,
    ),
    (
        Insn::Alu {
            op: AluOp::Add,
            w: L,
            to: R(Rax),
            from: Imm(4294967295),
        },
        false,
        None,
    ),
    (
        Insn::Test {
            w: B,
            e: Byte(Low(Rax)),
            by: Imm(128),
        },
        false,
        None,
    ),
    (Insn::Pop { to: Imm(0) }, false, None),
    (
        Insn::Shift {
            op: ShiftOp::Shl,
            w: Q,
            at: R(Rax),
            count: Count::Imm(63),
        },
        true,
        None,
    ),
    (
        Insn::Shift {
            op: ShiftOp::Shl,
            w: L,
            at: R(Rax),
            count: Count::Imm(32),
        },
        false,
        None,
    ),
    (
        Insn::Bit {
            op: BitOp::Bt,
            w: W,
            at: Mem(Canary),
            index: Imm(15),
        },
        true,
        None,
    ),
    (
        Insn::Bit {
            op: BitOp::Bt,
            w: W,
            at: R(Rax),
            index: Imm(16),
        },
        false,
        None,
    ),
    (
        Insn::Bit {
            op: BitOp::Bt,
            w: Q,
            at: Mem(Canary),
            index: R(Rax),
        },
        false,
        None,
    ),
    // Memory.
    (
        Insn::Lea {
            w: Q,
            to: Rax,
            at: At {
                base: None,
                index: Some((R12, 8)),
                disp: -1,
            },
        },
        true,
        None,
    ),
    (
        Insn::Lea {
            w: Q,
            to: Rax,
            at: At {
                base: None,
                index: Some((Rsp, 1)),
                disp: 0,
            },
        },
        false,
        None,
    ),
    (
        Insn::Lea {
            w: Q,
            to: Rax,
            at: At {
                base: None,
                index: Some((Rax, 3)),
                disp: 0,
            },
        },
        false,
        None,
    ),
    (
        Insn::Lea {
            w: Q,
            to: Rax,
            at: Canary,
        },
        false,
        None,
    ),
    (
        Insn::Xchg {
            w: Q,
            e: R(Rax),
            g: Mem(Canary),
        },
        false,
        None,
    ),
    // References.
    (
        Insn::Lea {
            w: Q,
            to: Rax,
            at: Rel(0x2010),
        },
        true,
        Some(0x2010),
    ),
    (
        Insn::Jcc {
            cond: Cond::E,
            to: 0x1010,
        },
        true,
        Some(0x1010),
    ),
    (
        Insn::Mov {
            w: Q,
            to: Mem(Rel(0x2000)),
            from: R(Rax),
        },
        true,
        Some(0x2000),
    ),
    (
        Insn::Mov {
            w: Q,
            to: Mem(Rel(0x2000)),
            from: Mem(Rel(0x2008)),
        },
        false,
        Some(0x2000),
    ),
];

#[test]
fn tells_instructions_and_references(rt: HostRuntime) {
    for (insn, is_one, reference) in CASES.iter() {
        assert_eq!(rt;
            (insn.well_formed(), insn.reference()),
            (*is_one, *reference),
            "{insn:?}"
        );
    }
}

#[test]
fn puts_a_symbol_for_an_address(rt: HostRuntime) {
    let lea = Insn::Lea {
        w: Q,
        to: Rax,
        at: Rel(0x2010u64),
    };
    let there = Insn::Lea {
        w: Q,
        to: Rax,
        at: Rel('a'),
    };
    let ret: Insn<u64> = Insn::Ret;
    assert_eq!(rt;
        (
            lea.with_ref('a'),
            lea.without_ref::<char>(),
            ret.without_ref::<char>()
        ),
        (there, None, Some(Insn::Ret))
    );
}
