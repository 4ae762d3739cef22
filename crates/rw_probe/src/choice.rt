//! The choice of the probe at a point.

ghost use Rattle.std.specs.Prelude.{List};
ghost use Rattle.rw_funcs.specs.Points.{Point};
ghost use Rattle.rw_live.specs.Lives.{IsLiveOf};
ghost use Rattle.rw_probe.specs.Choosing.{IsChosen, SomeFlagLives};
ghost use Rattle.rw_probe.specs.Probes.{IsProbe};

use crate::form::Probe;
use rw_live::Live;
use x86_insn::Reg;
use x86_meaning::Flag;

/// The flags that `incq` sets.
const FLAGS: [Flag; 4] = [Flag::Zf, Flag::Sf, Flag::Of, Flag::Pf];

/// The registers that a probe may go through, in the order of choice: those that a call may change come first (psABI, 3.2.1).
const REGISTERS: [Reg; 15] = [
    Reg::Rax,
    Reg::Rcx,
    Reg::Rdx,
    Reg::Rsi,
    Reg::Rdi,
    Reg::R8,
    Reg::R9,
    Reg::R10,
    Reg::R11,
    Reg::Rbx,
    Reg::Rbp,
    Reg::R12,
    Reg::R13,
    Reg::R14,
    Reg::R15,
];

// The first register that isn't live at an address, if there is one.
fn first_dead(live: &Live, c: u64) -> Option<Reg>
    ensures { (points : List Point) → IsLiveOf points live.now → IsChosen points c result }
{
    for r in REGISTERS {
        if !live.reg_live(c, r) {
            return Some(r);
        }
    }
    None
}

// Whether a flag that incq sets is live at an address.
fn some_flag_lives(live: &Live, c: u64) -> bool
    ensures { (points : List Point) → IsLiveOf points live.now → SomeFlagLives points c result }
{
    for flag in FLAGS {
        if live.flag_live(c, flag) {
            return true;
        }
    }
    false
}

/// The probe at a point of the function of `live`: one `incq` where neither ZF, SF, OF nor PF is live there; else through the
/// first register that isn't live of `%rax`, `%rcx`, `%rdx`, `%rsi`, `%rdi`, `%r8` to `%r11`, `%rbx`, `%rbp`, `%r12` to `%r15`; else
/// through `%rax`, which is saved on the stack. It takes no memory.
pub fn probe(live: &Live, c: u64) -> Probe
    ensures { (points : List Point) → IsLiveOf points live.now → IsProbe points c result }
{
    if !some_flag_lives(live, c) {
        return Probe::Inc;
    }
    match first_dead(live, c) {
        Some(r) => Probe::Dead(r),
        None => Probe::Spill,
    }
}
