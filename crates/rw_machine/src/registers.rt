ghost use Rattle.std.specs.Prelude.{◌≡◌, slice_get, slice_set, Some};
ghost use Rattle.x86_insn.specs.WellFormed.{code_of};

use x86_insn::Reg;

/// The sixteen registers of 64 bits.
#[derive(Clone, Copy, Debug, PartialEq, Eq)]
pub struct Registers<W> {
    pub rax: W,
    pub rcx: W,
    pub rdx: W,
    pub rbx: W,
    pub rsp: W,
    pub rbp: W,
    pub rsi: W,
    pub rdi: W,
    pub r8: W,
    pub r9: W,
    pub r10: W,
    pub r11: W,
    pub r12: W,
    pub r13: W,
    pub r14: W,
    pub r15: W,
}

impl<W: Copy> Registers<W> {
    ghost use Rattle.rw_machine.specs.Views.{registers_of};

    /// The word of a register.
    pub fn get(&self, r: Reg) -> W
        ensures { slice_get (registers_of self.now) (code_of r) ≡ Some result }
    {
        match r {
            Reg::Rax => self.rax,
            Reg::Rcx => self.rcx,
            Reg::Rdx => self.rdx,
            Reg::Rbx => self.rbx,
            Reg::Rsp => self.rsp,
            Reg::Rbp => self.rbp,
            Reg::Rsi => self.rsi,
            Reg::Rdi => self.rdi,
            Reg::R8 => self.r8,
            Reg::R9 => self.r9,
            Reg::R10 => self.r10,
            Reg::R11 => self.r11,
            Reg::R12 => self.r12,
            Reg::R13 => self.r13,
            Reg::R14 => self.r14,
            Reg::R15 => self.r15,
        }
    }

    /// Writes a register.
    pub fn set(&mut self, r: Reg, v: W)
        ensures { registers_of self.new ≡ slice_set (registers_of self.old) (code_of r) v }
    {
        match r {
            Reg::Rax => self.rax = v,
            Reg::Rcx => self.rcx = v,
            Reg::Rdx => self.rdx = v,
            Reg::Rbx => self.rbx = v,
            Reg::Rsp => self.rsp = v,
            Reg::Rbp => self.rbp = v,
            Reg::Rsi => self.rsi = v,
            Reg::Rdi => self.rdi = v,
            Reg::R8 => self.r8 = v,
            Reg::R9 => self.r9 = v,
            Reg::R10 => self.r10 = v,
            Reg::R11 => self.r11 = v,
            Reg::R12 => self.r12 = v,
            Reg::R13 => self.r13 = v,
            Reg::R14 => self.r14 = v,
            Reg::R15 => self.r15 = v,
        }
    }
}
