//! Probes and their instructions.

ghost use Rattle.std.specs.Prelude.{◌≡◌, slice_get};
ghost use Rattle.rw_probe.specs.Probes.{probe_insns, spill, step_count, sum_to, through};

use rw_base::Width;
use x86_insn::{Insn, Mem, OneOp, Operand, Reg};

/// What counts at a leader.
#[derive(Clone, Copy, PartialEq, Eq, Debug)]
pub enum Probe {
    /// One `incq` of the counter.
    Inc,
    /// A sum through a register that isn't live.
    Dead(Reg),
    /// A sum through `%rax`, which is saved below the red zone.
    Spill,
}

// leaq disp(%r), %r
fn add_to<R: Copy>(r: Reg, disp: i32) -> Insn<R>
    ensures { result ≡ sum_to r disp }
{
    Insn::Lea {
        w: Width::Q,
        to: r,
        at: Mem::At {
            base: Some(r),
            index: None,
            disp,
        },
    }
}

// The instruction with a number of a probe through a register.
fn through<R: Copy>(counter: R, r: Reg, k: u8) -> Option<Insn<R>>
    ensures { result ≡ slice_get (through counter r) k }
{
    let at = Operand::Mem(Mem::Rel(counter));
    let register = Operand::Reg(r);
    match k {
        0 => Some(Insn::Mov {
            w: Width::Q,
            to: register,
            from: at,
        }),
        1 => Some(add_to(r, 1)),
        2 => Some(Insn::Mov {
            w: Width::Q,
            to: at,
            from: register,
        }),
        _ => None,
    }
}

// The instruction with a number of a probe that saves %rax below the red zone.
fn spill<R: Copy>(counter: R, k: u8) -> Option<Insn<R>>
    ensures { result ≡ slice_get (spill counter) k }
{
    let rax = Operand::Reg(Reg::Rax);
    match k {
        0 => Some(add_to(Reg::Rsp, -128)),
        1 => Some(Insn::Push { from: rax }),
        2..=4 => through(counter, Reg::Rax, k - 2),
        5 => Some(Insn::Pop { to: rax }),
        6 => Some(add_to(Reg::Rsp, 128)),
        _ => None,
    }
}

impl Probe {
    /// How many instructions it has: 1, 3 or 7.
    pub fn len(self) -> u8
        ensures { result ≡ step_count self }
    {
        match self {
            Probe::Inc => 1,
            Probe::Dead(_) => 3,
            Probe::Spill => 7,
        }
    }

    /// The instruction with a number, counted from 0, where a reference leads to the eight bytes of the counter. `None`
    /// exactly where there is no such number.
    pub fn insn<R: Copy>(self, counter: R, k: u8) -> Option<Insn<R>>
        ensures { result ≡ slice_get (probe_insns counter self) k }
    {
        match self {
            Probe::Inc if k == 0 => Some(Insn::One {
                op: OneOp::Inc,
                w: Width::Q,
                at: Operand::Mem(Mem::Rel(counter)),
            }),
            Probe::Inc => None,
            Probe::Dead(r) => through(counter, r, k),
            Probe::Spill => spill(counter, k),
        }
    }
}
