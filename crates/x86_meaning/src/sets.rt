//! Sets of registers and of flags.

ghost use Rattle.std.specs.Prelude.{◌≡◌, ℕ, ◌^◌, ◌==◌, bit_or};
ghost use Rattle.std.specs.Int.{bit_at};
ghost use Rattle.x86_insn.specs.WellFormed.{code_of};

use x86_insn::Reg;

/// A set of registers: bit n is the register of code n.
#[derive(Clone, Copy, PartialEq, Eq, Debug)]
pub struct RegSet(pub u16);

impl RegSet {
    /// The set of no register.
    pub const EMPTY: RegSet = RegSet(0);

    /// The set of one register.
    pub fn only(r: Reg) -> RegSet
        ensures { result.0 ≡ 2 ^ code_of r }
    {
        match r {
            Reg::Rax => RegSet(0x0001),
            Reg::Rcx => RegSet(0x0002),
            Reg::Rdx => RegSet(0x0004),
            Reg::Rbx => RegSet(0x0008),
            Reg::Rsp => RegSet(0x0010),
            Reg::Rbp => RegSet(0x0020),
            Reg::Rsi => RegSet(0x0040),
            Reg::Rdi => RegSet(0x0080),
            Reg::R8 => RegSet(0x0100),
            Reg::R9 => RegSet(0x0200),
            Reg::R10 => RegSet(0x0400),
            Reg::R11 => RegSet(0x0800),
            Reg::R12 => RegSet(0x1000),
            Reg::R13 => RegSet(0x2000),
            Reg::R14 => RegSet(0x4000),
            Reg::R15 => RegSet(0x8000),
        }
    }

    /// The registers of either set.
    pub fn union(self, other: RegSet) -> RegSet
        ensures { result.0 ≡ bit_or self.0 other.0 }
    {
        RegSet(self.0 | other.0)
    }

    /// The set with one register more.
    pub fn with(self, r: Reg) -> RegSet
        ensures { result.0 ≡ bit_or (2 ^ code_of r) self.0 }
    {
        RegSet::only(r).union(self)
    }

    /// Whether the set has the register.
    pub fn contains(self, r: Reg) -> bool
        ensures { result ≡ (bit_at self.0 (code_of r) == 1) }
    {
        (self.0 >> r.code()) & 1 == 1
    }
}

/// A status flag (Intel SDM volume 1, "EFLAGS Register"). AF and DF are not modelled.
#[derive(Clone, Copy)]
pub enum Flag {
    /// Carry, code 0.
    Cf,
    /// Zero, code 1.
    Zf,
    /// Sign, code 2.
    Sf,
    /// Overflow, code 3.
    Of,
    /// Parity, code 4.
    Pf,
}

impl Flag {
    ghost use Rattle.x86_meaning.specs.Sets.{flag_code};

    /// The flag's number, from 0 to 4.
    pub fn code(self) -> u8
        ensures { result ≡ flag_code self }
    {
        match self {
            Flag::Cf => 0,
            Flag::Zf => 1,
            Flag::Sf => 2,
            Flag::Of => 3,
            Flag::Pf => 4,
        }
    }
}

/// A set of flags: bit n is the flag of code n.
#[derive(Clone, Copy, PartialEq, Eq, Debug)]
pub struct FlagSet(pub u8);

impl FlagSet {
    ghost use Rattle.x86_meaning.specs.Sets.{flag_code};

    /// The set of no flag.
    pub const EMPTY: FlagSet = FlagSet(0);

    /// The set of all five flags.
    pub const ALL: FlagSet = FlagSet(0x1f);

    /// The set of one flag.
    pub fn only(flag: Flag) -> FlagSet
        ensures { result.0 ≡ 2 ^ flag_code flag }
    {
        match flag {
            Flag::Cf => FlagSet(0x01),
            Flag::Zf => FlagSet(0x02),
            Flag::Sf => FlagSet(0x04),
            Flag::Of => FlagSet(0x08),
            Flag::Pf => FlagSet(0x10),
        }
    }

    /// The flags of either set.
    pub fn union(self, other: FlagSet) -> FlagSet
        ensures { result.0 ≡ bit_or self.0 other.0 }
    {
        FlagSet(self.0 | other.0)
    }

    /// The set with one flag more.
    pub fn with(self, flag: Flag) -> FlagSet
        ensures { result.0 ≡ bit_or (2 ^ flag_code flag) self.0 }
    {
        FlagSet::only(flag).union(self)
    }

    /// Whether the set has the flag.
    pub fn contains(self, flag: Flag) -> bool
        ensures { result ≡ (bit_at self.0 (flag_code flag) == 1) }
    {
        (self.0 >> flag.code()) & 1 == 1
    }
}
