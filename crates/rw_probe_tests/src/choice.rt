//! The order in which registers are chosen, and the instructions of each kind of probe.

use crate::cases::{Case, Named, Row, check};
use rw_base::Width::Q;
use rw_probe::Mode::Blocks;
use rw_probe::Probe::{Dead, Inc, Spill};
use std::test::Fail;
use x86_insn::Reg::{R8, R9, R10, R11, R12, R13, R14, R15, Rax, Rbp, Rbx, Rcx, Rdi, Rdx, Rsi, Rsp};
use x86_insn::{Insn, Mem, OneOp, Operand};

const WHOLE: &[Named] = &[Named(b"f", 0x1000, 14)];

/// Two registers are written before a system call, which reads every flag and every register: `movl $0` to each, `syscall` and,
/// where a register has a short name, `nop`.
#[rattlefmt::skip]
static CHOICES: [Case; 16] = [
    Case { what: "rcx, rax", text: b"\xb9\0\0\0\0\xb8\0\0\0\0\x0f\x05\x90\x90", functions: WHOLE, data: &[], filled: &[], mode: Blocks, rows: &[Row(0x1000, Dead(Rax))] },
    Case { what: "rdx, rcx", text: b"\xba\0\0\0\0\xb9\0\0\0\0\x0f\x05\x90\x90", functions: WHOLE, data: &[], filled: &[], mode: Blocks, rows: &[Row(0x1000, Dead(Rcx))] },
    Case { what: "rsi, rdx", text: b"\xbe\0\0\0\0\xba\0\0\0\0\x0f\x05\x90\x90", functions: WHOLE, data: &[], filled: &[], mode: Blocks, rows: &[Row(0x1000, Dead(Rdx))] },
    Case { what: "rdi, rsi", text: b"\xbf\0\0\0\0\xbe\0\0\0\0\x0f\x05\x90\x90", functions: WHOLE, data: &[], filled: &[], mode: Blocks, rows: &[Row(0x1000, Dead(Rsi))] },
    Case { what: "r8, rdi", text: b"\x41\xb8\0\0\0\0\xbf\0\0\0\0\x0f\x05\x90", functions: WHOLE, data: &[], filled: &[], mode: Blocks, rows: &[Row(0x1000, Dead(Rdi))] },
    Case { what: "r9, r8", text: b"\x41\xb9\0\0\0\0\x41\xb8\0\0\0\0\x0f\x05", functions: WHOLE, data: &[], filled: &[], mode: Blocks, rows: &[Row(0x1000, Dead(R8))] },
    Case { what: "r10, r9", text: b"\x41\xba\0\0\0\0\x41\xb9\0\0\0\0\x0f\x05", functions: WHOLE, data: &[], filled: &[], mode: Blocks, rows: &[Row(0x1000, Dead(R9))] },
    Case { what: "r11, r10", text: b"\x41\xbb\0\0\0\0\x41\xba\0\0\0\0\x0f\x05", functions: WHOLE, data: &[], filled: &[], mode: Blocks, rows: &[Row(0x1000, Dead(R10))] },
    Case { what: "rbx, r11", text: b"\xbb\0\0\0\0\x41\xbb\0\0\0\0\x0f\x05\x90", functions: WHOLE, data: &[], filled: &[], mode: Blocks, rows: &[Row(0x1000, Dead(R11))] },
    Case { what: "rbp, rbx", text: b"\xbd\0\0\0\0\xbb\0\0\0\0\x0f\x05\x90\x90", functions: WHOLE, data: &[], filled: &[], mode: Blocks, rows: &[Row(0x1000, Dead(Rbx))] },
    Case { what: "r12, rbp", text: b"\x41\xbc\0\0\0\0\xbd\0\0\0\0\x0f\x05\x90", functions: WHOLE, data: &[], filled: &[], mode: Blocks, rows: &[Row(0x1000, Dead(Rbp))] },
    Case { what: "r13, r12", text: b"\x41\xbd\0\0\0\0\x41\xbc\0\0\0\0\x0f\x05", functions: WHOLE, data: &[], filled: &[], mode: Blocks, rows: &[Row(0x1000, Dead(R12))] },
    Case { what: "r14, r13", text: b"\x41\xbe\0\0\0\0\x41\xbd\0\0\0\0\x0f\x05", functions: WHOLE, data: &[], filled: &[], mode: Blocks, rows: &[Row(0x1000, Dead(R13))] },
    Case { what: "r15, r14", text: b"\x41\xbf\0\0\0\0\x41\xbe\0\0\0\0\x0f\x05", functions: WHOLE, data: &[], filled: &[], mode: Blocks, rows: &[Row(0x1000, Dead(R14))] },
    Case { what: "rsp, r15", text: b"\xbc\0\0\0\0\x41\xbf\0\0\0\0\x0f\x05\x90", functions: WHOLE, data: &[], filled: &[], mode: Blocks, rows: &[Row(0x1000, Dead(R15))] },
    Case { what: "rsp", text: b"\xbc\0\0\0\0\x0f\x05\x90\x90\x90\x90\x90\x90\x90", functions: WHOLE, data: &[], filled: &[], mode: Blocks, rows: &[Row(0x1000, Spill)] },
];

#[test]
fn chooses_registers_in_order(rt: HostRuntime) -> Result<(), Fail> {
    for case in &CHOICES {
        check(&rt, rt.alloc(), case)?;
    }
    Ok(())
}

const COUNTER: Operand<u64> = Operand::Mem(Mem::Rel(8));

const RAX: Operand<u64> = Operand::Reg(Rax);

const RCX: Operand<u64> = Operand::Reg(Rcx);

#[rattlefmt::skip]
static INC: [Insn<u64>; 1] = [Insn::One { op: OneOp::Inc, w: Q, at: COUNTER }];

#[rattlefmt::skip]
static DEAD: [Insn<u64>; 3] = [
    Insn::Mov { w: Q, to: RCX, from: COUNTER },
    Insn::Lea { w: Q, to: Rcx, at: Mem::At { base: Some(Rcx), index: None, disp: 1 } },
    Insn::Mov { w: Q, to: COUNTER, from: RCX },
];

#[rattlefmt::skip]
static SPILL: [Insn<u64>; 7] = [
    Insn::Lea { w: Q, to: Rsp, at: Mem::At { base: Some(Rsp), index: None, disp: -128 } },
    Insn::Push { from: RAX },
    Insn::Mov { w: Q, to: RAX, from: COUNTER },
    Insn::Lea { w: Q, to: Rax, at: Mem::At { base: Some(Rax), index: None, disp: 1 } },
    Insn::Mov { w: Q, to: COUNTER, from: RAX },
    Insn::Pop { to: RAX },
    Insn::Lea { w: Q, to: Rsp, at: Mem::At { base: Some(Rsp), index: None, disp: 128 } },
];

#[test]
fn has_one_three_or_seven_instructions(rt: HostRuntime) -> Result<(), Fail> {
    let kinds = [
        (Inc, INC.as_slice()),
        (Dead(Rcx), DEAD.as_slice()),
        (Spill, SPILL.as_slice()),
    ];
    for (probe, insns) in &kinds {
        assert_eq!(rt; usize::from(probe.len()), insns.len());
        for k in 0..9u8 {
            let want = insns.get(usize::from(k)).copied();
            assert_eq!(rt; probe.insn(8u64, k), want, "{probe:?} {k}");
        }
    }
    Ok(())
}
