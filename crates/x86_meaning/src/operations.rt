//! Small operations over temporary words.

use rw_base::Width;
use x86_insn::{AluOp, BitOp, Cond, OneOp, Plain, Reg, Reg8, ScanOp, ShiftOp};

/// The number of a temporary word, below 8.
#[derive(Clone, Copy)]
pub struct Temp(pub u8);

/// A small operation, over at most eight temporary words. None holds a reference: an instruction has at most one.
#[derive(Clone, Copy, Default)]
pub enum Micro {
    /// Gets a part of a register: `Low(r)` is the low part of r at the width.
    Get {
        to: Temp,
        w: Width,
        from: Reg8,
    },
    /// Puts the lowest `w` of a word into a part of a register. Width L clears bits 63 to 32; B and W keep the rest.
    Put {
        w: Width,
        to: Reg8,
        from: Temp,
    },
    /// A constant of the width.
    Num {
        to: Temp,
        w: Width,
        v: u64,
    },
    /// The instruction's one reference; `direct` says that it is the target of a direct jump or call.
    Ref {
        to: Temp,
        direct: bool,
    },
    /// The address of the canary's word, which is %fs:40.
    Canary {
        to: Temp,
    },
    /// The word of the point after the instruction.
    Next {
        to: Temp,
    },
    /// The sum of an address: the base, the index times its scale, and the displacement. It has no flags.
    Sum {
        to: Temp,
        base: Option<Temp>,
        index: Option<(Temp, u8)>,
        disp: i32,
    },
    /// Loads a word from memory.
    Load {
        to: Temp,
        w: Width,
        at: Temp,
    },
    /// Stores the lowest `w` of a word to memory.
    Store {
        w: Width,
        at: Temp,
        from: Temp,
    },
    /// An operator of two words, `a` being the destination's, with its flags.
    Alu {
        op: AluOp,
        w: Width,
        to: Temp,
        a: Temp,
        b: Temp,
    },
    /// `inc`, `dec`, `not` or `neg`, with its flags.
    One {
        op: OneOp,
        w: Width,
        to: Temp,
        a: Temp,
    },
    /// A shift or rotate by a byte; it keeps all flags where `flags` is false.
    Shift {
        op: ShiftOp,
        w: Width,
        to: Temp,
        a: Temp,
        count: Temp,
        flags: bool,
    },
    /// The low and the high half of a product, with its flags.
    Mul {
        signed: bool,
        w: Width,
        low: Temp,
        high: Temp,
        a: Temp,
        b: Temp,
    },
    /// A quotient and its remainder; it traps where the divisor is 0 or the quotient does not fit.
    Div {
        signed: bool,
        w: Width,
        quotient: Temp,
        rest: Temp,
        high: Temp,
        low: Temp,
        by: Temp,
    },
    /// Extends a word of width `from` to the greater width `w`, by its sign or by zeros.
    Extend {
        signed: bool,
        from: Width,
        w: Width,
        to: Temp,
        a: Temp,
    },
    /// Reverses the order of the bytes.
    Swap {
        w: Width,
        to: Temp,
        a: Temp,
    },
    /// Tests a bit, and sets, clears or complements it, with its flags.
    Bit {
        op: BitOp,
        w: Width,
        to: Temp,
        a: Temp,
        index: Temp,
    },
    /// The index of the lowest or highest bit that is set, with its flags.
    Scan {
        op: ScanOp,
        w: Width,
        to: Temp,
        a: Temp,
    },
    /// A register with itself: 0, or with `borrow`, for `sbb`, 0 or all ones by CF; with its flags.
    Same {
        borrow: bool,
        w: Width,
        to: Temp,
    },
    /// One of two words, by a condition on flags.
    Choose {
        cond: Cond,
        to: Temp,
        yes: Temp,
        no: Temp,
    },
    /// Goes to a word, always or by a condition on flags.
    Go {
        cond: Option<Cond>,
        to: Temp,
    },
    /// A string step: `movs` where `moves`, else `stos`; `rep` repeats it rcx times.
    Elements {
        moves: bool,
        w: Width,
        rep: bool,
    },
    /// Ends the run by `ud2`, `int3` or `hlt`.
    Trap(Plain),
    /// A system call.
    #[default]
    System,
}
