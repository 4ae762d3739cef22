//! The list's length and the sets of an instruction of each kind, by the description of each in the manual.

use rw_base::Width::{B, L, Q, W};
use x86_insn::Mem::{At, Canary, Rel};
use x86_insn::Operand::{Byte, Imm, Mem, Reg as R};
use x86_insn::Reg::{R8, R9, R10, R11, Rax, Rbp, Rbx, Rcx, Rdi, Rdx, Rsi, Rsp};
use x86_insn::Reg8::{High, Low};
use x86_insn::{AluOp, BitOp, Cond, Convert, Count, Insn, OneOp, Plain, ScanOp, ShiftOp};
use x86_meaning::{
    Effects, Flag, FlagSet, RegSet, flags_read, flags_written, micro, reads, touches, writes_whole,
};

/// An instruction, the length of its list, the registers that it reads, writes whole and touches, and the flags that
/// it reads and writes. Registers go by rax 1, rcx 2, rdx 4, rbx 8 and so on, flags by CF 1, ZF 2, SF 4, OF 8, PF 16.
type Case = (Insn<u64>, usize, [u16; 3], [u8; 2]);

static CASES: [Case; 54] = [
    // Operators of two operands, with memory, with a byte register, and of a register with itself.
    (
        Insn::Alu {
            op: AluOp::Add,
            w: L,
            to: R(Rcx),
            from: Mem(At {
                base: Some(Rbx),
                index: Some((Rsi, 4)),
                disp: 8,
            }),
        },
        7,
        [0x4a, 0x2, 0x2],
        [0x0, 0x1f],
    ),
    (
        Insn::Alu {
            op: AluOp::Adc,
            w: B,
            to: Byte(Low(Rax)),
            from: Imm(-1),
        },
        4,
        [0x1, 0x0, 0x1],
        [0x1, 0x1f],
    ),
    (
        Insn::Alu {
            op: AluOp::Cmp,
            w: Q,
            to: R(Rdi),
            from: Imm(-1),
        },
        3,
        [0x80, 0x0, 0x0],
        [0x0, 0x1f],
    ),
    (
        Insn::Alu {
            op: AluOp::Xor,
            w: L,
            to: R(Rax),
            from: R(Rax),
        },
        2,
        [0x0, 0x1, 0x1],
        [0x0, 0x1f],
    ),
    (
        Insn::Alu {
            op: AluOp::Sbb,
            w: Q,
            to: R(Rdx),
            from: R(Rdx),
        },
        2,
        [0x0, 0x4, 0x4],
        [0x1, 0x1e],
    ),
    (
        Insn::Alu {
            op: AluOp::Sub,
            w: B,
            to: Byte(High(Rax)),
            from: Byte(Low(Rax)),
        },
        4,
        [0x1, 0x0, 0x1],
        [0x0, 0x1f],
    ),
    (
        Insn::Alu {
            op: AluOp::And,
            w: W,
            to: R(Rdx),
            from: R(Rdx),
        },
        4,
        [0x4, 0x0, 0x4],
        [0x0, 0x1f],
    ),
    (
        Insn::Test {
            w: W,
            e: R(Rsi),
            by: Imm(1),
        },
        3,
        [0x40, 0x0, 0x0],
        [0x0, 0x1f],
    ),
    (
        Insn::Xchg {
            w: Q,
            e: Mem(At {
                base: Some(Rsp),
                index: None,
                disp: 16,
            }),
            g: R(Rbx),
        },
        6,
        [0x18, 0x8, 0x8],
        [0x0, 0x0],
    ),
    // Moves.
    (
        Insn::Mov {
            w: W,
            to: R(Rdx),
            from: Imm(1),
        },
        2,
        [0x0, 0x0, 0x4],
        [0x0, 0x0],
    ),
    (
        Insn::Mov {
            w: L,
            to: Mem(Rel(0x2000)),
            from: R(R8),
        },
        3,
        [0x100, 0x0, 0x0],
        [0x0, 0x0],
    ),
    (
        Insn::MovAbs { to: R10, v: -1 },
        2,
        [0x0, 0x400, 0x400],
        [0x0, 0x0],
    ),
    (
        Insn::MovZx {
            from_w: B,
            w: L,
            to: Rax,
            from: Byte(High(Rcx)),
        },
        3,
        [0x2, 0x1, 0x1],
        [0x0, 0x0],
    ),
    (
        Insn::MovSx {
            from_w: L,
            w: Q,
            to: Rdi,
            from: Mem(Canary),
        },
        4,
        [0x0, 0x80, 0x80],
        [0x0, 0x0],
    ),
    (
        Insn::Lea {
            w: Q,
            to: Rsi,
            at: At {
                base: None,
                index: Some((Rdx, 8)),
                disp: -4,
            },
        },
        3,
        [0x4, 0x40, 0x40],
        [0x0, 0x0],
    ),
    // The stack: %rsp is touched alone, but where an operand names it.
    (
        Insn::Push { from: R(Rsp) },
        5,
        [0x10, 0x0, 0x10],
        [0x0, 0x0],
    ),
    (
        Insn::Pop {
            to: Mem(At {
                base: Some(Rsp),
                index: None,
                disp: 0,
            }),
        },
        7,
        [0x10, 0x0, 0x10],
        [0x0, 0x0],
    ),
    (Insn::Pop { to: R(Rsp) }, 5, [0x10, 0x10, 0x10], [0x0, 0x0]),
    (Insn::Pop { to: R(Rbp) }, 5, [0x10, 0x20, 0x30], [0x0, 0x0]),
    (Insn::Leave, 5, [0x20, 0x0, 0x30], [0x0, 0x0]),
    // Products, quotients and operators of one operand.
    (
        Insn::Imul2 {
            w: L,
            to: Rcx,
            from: R(Rdx),
        },
        4,
        [0x6, 0x2, 0x2],
        [0x0, 0x1f],
    ),
    (
        Insn::Imul3 {
            w: W,
            to: Rbx,
            from: R(Rax),
            by: 3,
        },
        4,
        [0x1, 0x0, 0x8],
        [0x0, 0x1f],
    ),
    (
        Insn::One {
            op: OneOp::Inc,
            w: B,
            at: Byte(Low(Rsi)),
        },
        3,
        [0x40, 0x0, 0x40],
        [0x0, 0x1e],
    ),
    (
        Insn::One {
            op: OneOp::Not,
            w: Q,
            at: R(R9),
        },
        3,
        [0x200, 0x200, 0x200],
        [0x0, 0x0],
    ),
    (
        Insn::One {
            op: OneOp::Neg,
            w: L,
            at: Mem(Rel(0x2000)),
        },
        4,
        [0x0, 0x0, 0x0],
        [0x0, 0x1f],
    ),
    (
        Insn::One {
            op: OneOp::Mul,
            w: B,
            at: Byte(Low(Rcx)),
        },
        5,
        [0x3, 0x0, 0x1],
        [0x0, 0x1f],
    ),
    (
        Insn::One {
            op: OneOp::Imul,
            w: Q,
            at: R(Rbx),
        },
        5,
        [0x9, 0x5, 0x5],
        [0x0, 0x1f],
    ),
    (
        Insn::One {
            op: OneOp::Div,
            w: L,
            at: R(Rcx),
        },
        6,
        [0x7, 0x5, 0x5],
        [0x0, 0x1f],
    ),
    (
        Insn::One {
            op: OneOp::Idiv,
            w: W,
            at: R(Rsi),
        },
        6,
        [0x45, 0x0, 0x5],
        [0x0, 0x1f],
    ),
    // Shifts by CL, by a count above 0 and by 0.
    (
        Insn::Shift {
            op: ShiftOp::Shl,
            w: Q,
            at: R(Rax),
            count: Count::Cl,
        },
        4,
        [0x3, 0x1, 0x1],
        [0x1f, 0x0],
    ),
    (
        Insn::Shift {
            op: ShiftOp::Sar,
            w: L,
            at: R(Rdx),
            count: Count::Imm(3),
        },
        4,
        [0x4, 0x4, 0x4],
        [0x0, 0x1f],
    ),
    (
        Insn::Shift {
            op: ShiftOp::Rol,
            w: L,
            at: R(Rdx),
            count: Count::Imm(1),
        },
        4,
        [0x4, 0x4, 0x4],
        [0x0, 0x9],
    ),
    (
        Insn::Shift {
            op: ShiftOp::Shr,
            w: L,
            at: R(Rdx),
            count: Count::Imm(0),
        },
        4,
        [0x4, 0x4, 0x4],
        [0x0, 0x0],
    ),
    // Conversions and string steps.
    (Insn::Convert(Convert::Cbtw), 3, [0x1, 0x0, 0x1], [0x0, 0x0]),
    (Insn::Convert(Convert::Cltq), 3, [0x1, 0x1, 0x1], [0x0, 0x0]),
    (Insn::Convert(Convert::Cwtd), 4, [0x1, 0x0, 0x4], [0x0, 0x0]),
    (Insn::Convert(Convert::Cqto), 4, [0x1, 0x4, 0x4], [0x0, 0x0]),
    (
        Insn::Movs { w: Q, rep: true },
        1,
        [0xc2, 0x2, 0xc2],
        [0x0, 0x0],
    ),
    (
        Insn::Stos { w: B, rep: false },
        1,
        [0x81, 0x0, 0x80],
        [0x0, 0x0],
    ),
    // Conditions, bits and scans.
    (
        Insn::Cmov {
            cond: Cond::Le,
            w: L,
            to: Rax,
            from: R(Rcx),
        },
        4,
        [0x3, 0x1, 0x1],
        [0xe, 0x0],
    ),
    (
        Insn::Setcc {
            cond: Cond::Be,
            to: Byte(Low(Rdi)),
        },
        4,
        [0x0, 0x0, 0x80],
        [0x3, 0x0],
    ),
    (
        Insn::Bit {
            op: BitOp::Bt,
            w: Q,
            at: R(Rax),
            index: Imm(5),
        },
        3,
        [0x1, 0x0, 0x0],
        [0x0, 0x1d],
    ),
    (
        Insn::Bit {
            op: BitOp::Bts,
            w: L,
            at: R(Rbx),
            index: R(Rcx),
        },
        4,
        [0xa, 0x8, 0x8],
        [0x0, 0x1d],
    ),
    (
        Insn::Scan {
            op: ScanOp::Tzcnt,
            w: Q,
            to: Rax,
            from: R(Rdi),
        },
        3,
        [0x80, 0x1, 0x1],
        [0x0, 0x1f],
    ),
    (
        Insn::Bswap { w: L, r: R11 },
        3,
        [0x800, 0x800, 0x800],
        [0x0, 0x0],
    ),
    // Jumps, calls and ends.
    (
        Insn::Jcc {
            cond: Cond::P,
            to: 0x1000,
        },
        2,
        [0x0, 0x0, 0x0],
        [0x10, 0x0],
    ),
    (Insn::Jmp { to: 0x1000 }, 2, [0x0, 0x0, 0x0], [0x0, 0x0]),
    (Insn::Call { to: 0x1000 }, 7, [0x10, 0x0, 0x10], [0x0, 0x0]),
    (
        Insn::JmpTo {
            to: R(Rax),
            notrack: true,
        },
        2,
        [0x1, 0x0, 0x0],
        [0x0, 0x0],
    ),
    (
        Insn::CallTo {
            to: Mem(At {
                base: Some(Rax),
                index: Some((Rbx, 8)),
                disp: 0,
            }),
            notrack: false,
        },
        10,
        [0x19, 0x0, 0x10],
        [0x0, 0x0],
    ),
    (Insn::Ret, 5, [0x10, 0x0, 0x10], [0x0, 0x0]),
    (Insn::Syscall, 1, [0x7c5, 0x803, 0x803], [0x0, 0x0]),
    (Insn::Plain(Plain::Endbr64), 0, [0x0, 0x0, 0x0], [0x0, 0x0]),
    (Insn::Plain(Plain::Ud2), 1, [0x0, 0x0, 0x0], [0x0, 0x0]),
];

#[test]
fn tells_what_each_kind_does(rt: HostRuntime) {
    for (insn, length, [read, whole, touched], [needed, settled]) in CASES.iter() {
        assert_eq!(rt;
            (
                micro(insn).len(),
                [reads(insn), writes_whole(insn), touches(insn)],
                [flags_read(insn), flags_written(insn)]
            ),
            (
                *length,
                [RegSet(*read), RegSet(*whole), RegSet(*touched)],
                [FlagSet(*needed), FlagSet(*settled)]
            ),
            "{insn:?}"
        );
    }
}

#[test]
fn has_members(rt: HostRuntime) {
    let effects = Effects::of(&Insn::<u64>::Syscall);
    assert_eq!(rt;
        (
            effects.touches.contains(R11),
            effects.touches.contains(Rbx),
            effects.flags_read.contains(Flag::Cf)
        ),
        (true, false, false)
    );
}
