//! What instructions are to a dispatch.

ghost use Rattle.std.specs.Prelude.{◌≡◌};
ghost use Rattle.rw_tables.specs.Dispatch.{is_trap, ends_run, sum_by, sum_register, register_of, source_of, naming_at, naming_of, is_above, jumps_above, as_bound, bound_in, bound_by, bound_of};
ghost use Rattle.rw_tables.specs.Jumps.{jump_register};

use rw_base::Width;
use x86_insn::{AluOp, Cond, Insn, Mem, Operand, Plain, Reg};

fn is_trap(kind: Plain) -> bool
    ensures { result ≡ is_trap kind }
{
    matches!(kind, Plain::Ud2 | Plain::Int3 | Plain::Hlt)
}

/// Whether it ends the run of what is behind it: a jump of any kind, a return or a trap.
pub(crate) fn ends_run(insn: &Insn<u64>) -> bool
    ensures { result ≡ ends_run insn.now }
{
    match *insn {
        Insn::Jcc { .. } | Insn::Jmp { .. } | Insn::JmpTo { .. } | Insn::Ret => true,
        Insn::Plain(kind) => is_trap(kind),
        _ => false,
    }
}

fn sum_by(op: AluOp, w: Width, to: Operand<u64>) -> Option<Reg>
    ensures { result ≡ sum_by op w to }
{
    match (op, w, to) {
        (AluOp::Add, Width::Q, Operand::Reg(r)) => Some(r),
        _ => None,
    }
}

/// The register that a 64-bit add adds to.
pub(crate) fn sum_register(insn: &Insn<u64>) -> Option<Reg>
    ensures { result ≡ sum_register insn.now }
{
    match *insn {
        Insn::Alu { op, w, to, .. } => sum_by(op, w, to),
        _ => None,
    }
}

fn register_of(operand: Operand<u64>) -> Option<Reg>
    ensures { result ≡ register_of operand }
{
    match operand {
        Operand::Reg(r) => Some(r),
        _ => None,
    }
}

/// The register that an operation of two operands takes for its source.
pub(crate) fn source_of(insn: &Insn<u64>) -> Option<Reg>
    ensures { result ≡ source_of insn.now }
{
    match *insn {
        Insn::Alu { from, .. } => register_of(from),
        _ => None,
    }
}

/// The register that an indirect jump goes through.
pub(crate) fn jump_register(insn: &Insn<u64>) -> Option<Reg>
    ensures { result ≡ jump_register insn.now }
{
    match *insn {
        Insn::JmpTo { to, .. } => register_of(to),
        _ => None,
    }
}

fn naming_at(w: Width, to: Reg, at: Mem<u64>) -> Option<(Reg, u64)>
    ensures { result ≡ naming_at w to at }
{
    match (w, at) {
        (Width::Q, Mem::Rel(address)) => Some((to, address)),
        _ => None,
    }
}

/// The register that a 64-bit `lea` relative to `%rip` writes, and the address that it writes there.
pub(crate) fn naming_of(insn: &Insn<u64>) -> Option<(Reg, u64)>
    ensures { result ≡ naming_of insn.now }
{
    match *insn {
        Insn::Lea { w, to, at } => naming_at(w, to, at),
        _ => None,
    }
}

fn is_above(cond: Cond) -> bool
    ensures { result ≡ is_above cond }
{
    matches!(cond, Cond::A)
}

/// Whether it is a `ja`.
pub(crate) fn jumps_above(insn: &Insn<u64>) -> bool
    ensures { result ≡ jumps_above insn.now }
{
    match *insn {
        Insn::Jcc { cond, .. } => is_above(cond),
        _ => false,
    }
}

fn as_bound(v: i64) -> Option<u16>
    ensures { result ≡ as_bound v }
{
    if v >= 0 && v <= 65535 {
        Some(v as u16)
    } else {
        None
    }
}

fn bound_in(operand: Operand<u64>) -> Option<u16>
    ensures { result ≡ bound_in operand }
{
    match operand {
        Operand::Imm(v) => as_bound(v),
        _ => None,
    }
}

fn bound_by(op: AluOp, from: Operand<u64>) -> Option<u16>
    ensures { result ≡ bound_by op from }
{
    match op {
        AluOp::Cmp | AluOp::Sub => bound_in(from),
        _ => None,
    }
}

/// The number from 0 to 65,535 that a `cmp` or `sub` takes away.
pub(crate) fn bound_of(insn: &Insn<u64>) -> Option<u16>
    ensures { result ≡ bound_of insn.now }
{
    match *insn {
        Insn::Alu { op, from, .. } => bound_by(op, from),
        _ => None,
    }
}
