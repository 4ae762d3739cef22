//! The words of the table of instructions.
//!
//! The letters are those of the opcode maps (Intel SDM vol. 2, appendix A.2): E an operand of ModRM, G its register,
//! I an immediate, b a byte, v the operand size.

use rw_base::Width;
use x86_bytes::{Fields, Rm};
use x86_insn::{BitOp, Plain, ScanOp};

/// The opcodes of a row: a byte, or 0x0F00 and the byte after 0x0F.
#[derive(Clone, Copy)]
pub enum Opcodes {
    /// From a first one to a last.
    Run(u16, u16),
    /// Those below 0x40 that leave this rest by 8: the operation is in the bits above.
    EveryEighth(u16),
}

/// The numbers in the three middle bits of the ModRM byte, written /0 to /7, that a row asks for.
#[derive(Clone, Copy)]
pub enum Numbers {
    /// Each of them.
    Any,
    /// From a first one to a last.
    Run(u8, u8),
    /// Those of the shifts and rotates: /0 ROL, /1 ROR, /4 SHL, /5 SHR, /7 SAR.
    Shifts,
}

/// What the ModRM byte names, if there is one.
///
/// Prefix 64 stands only where a row takes memory and the operand is the 32-bit displacement 40 without base and index.
#[derive(Clone, Copy)]
pub enum Place {
    /// There is no ModRM byte.
    NoModRm,
    /// A register or memory.
    Any,
    /// Memory without prefix 0x64.
    Address,
    /// A register.
    Register,
    /// The register of code 2: with number 7 the byte FA of ENDBR64.
    Fa,
    /// A register or memory without prefix 0x64, which is left out of the instruction.
    Ignored,
}

/// The widths of a row, by prefix 0x66 and REX.W (Intel SDM vol. 1, table 3-4).
#[derive(Clone, Copy)]
pub enum Size {
    /// B, without 0x66.
    B,
    /// Q with REX.W, W with one 0x66, else L; not both.
    V,
    /// Q with REX.W, else L, without 0x66.
    Lq,
    /// W with one 0x66, else L, without REX.W.
    Wl,
    /// Q, with REX.W and without 0x66.
    MustW,
    /// Q, without 0x66.
    Q,
    /// Q, without 0x66 and REX.
    Bare,
    /// Q, with any number of 0x66 and any REX.
    Unsized,
}

/// The prefixes that a row allows or asks for, besides 0x66 and 0x64, and its demands on REX.
#[derive(Clone, Copy)]
pub enum Marks {
    /// No prefix.
    Unmarked,
    /// 0xF3 may stand.
    Rep,
    /// 0xF3 must stand.
    MustRep,
    /// 0x3E may stand, which says `notrack`.
    Ds,
    /// REX.B must stand.
    RexB,
    /// REX must not stand.
    NoRex,
    /// 0x2E may stand once.
    Branch,
}

/// The immediate of a row.
#[derive(Clone, Copy)]
pub enum Imm {
    /// There is none.
    Absent,
    /// 1 byte.
    One,
    /// 1 byte at width B, 2 at W, else 4.
    Sized,
    /// 4 bytes.
    Four,
    /// 8 bytes.
    Eight,
}

/// The operands of a row, destination first: E the ModRM operand, G its register, A AL or rAX, O the register of the
/// opcode's low bits, I the immediate.
#[derive(Clone, Copy)]
pub enum Form {
    /// E and G. A row whose ModRM byte has a number in the place of G gives E alone, and ENDBR64 and the long NOP give
    /// neither.
    EG,
    /// G and E, and a third operand I where the row has an immediate.
    GE,
    /// A and I.
    AI,
    /// E and I.
    EI,
    /// O and I.
    OI,
    /// O and A, of which some rows have the first alone or none.
    OA,
    /// I alone.
    IA,
}

/// The kind of instruction that a row gives.
#[derive(Clone, Copy)]
pub enum Name {
    /// ADD, OR, ADC, SBB, AND, SUB, XOR or CMP by bits 3 to 5 of the opcode.
    AluByOpcode,
    /// The same by the number in ModRM.
    AluByNumber,
    /// TEST.
    Test,
    /// XCHG.
    Xchg,
    /// MOV.
    Mov,
    /// MOV of a 64-bit immediate.
    MovAbs,
    /// LEA.
    Lea,
    /// MOVZX from a width.
    MovZx(Width),
    /// MOVSX or MOVSXD from a width.
    MovSx(Width),
    /// PUSH.
    Push,
    /// POP.
    Pop,
    /// IMUL of two operands.
    Imul2,
    /// IMUL of three operands.
    Imul3,
    /// INC, DEC, NOT, NEG, MUL, IMUL, DIV or IDIV by the number in ModRM.
    One,
    /// A shift or rotate by an immediate.
    ShiftImm,
    /// A shift or rotate by 1.
    ShiftOne,
    /// A shift or rotate by CL.
    ShiftCl,
    /// CBW, CWDE or CDQE.
    Widen,
    /// CWD, CDQ or CQO.
    Spread,
    /// MOVS.
    Movs,
    /// STOS.
    Stos,
    /// CMOVcc.
    Cmov,
    /// SETcc.
    Setcc,
    /// BT, BTS, BTR or BTC by a register.
    Bit(BitOp),
    /// The same by an immediate, by the number in ModRM.
    BitByNumber,
    /// BSF, BSR or TZCNT.
    Scan(ScanOp),
    /// BSWAP.
    Bswap,
    /// Jcc.
    Jcc,
    /// JMP to a target.
    Jmp,
    /// CALL of a target.
    Call,
    /// JMP to where an operand says.
    JmpTo,
    /// CALL of where an operand says.
    CallTo,
    /// RET.
    Ret,
    /// LEAVE.
    Leave,
    /// SYSCALL.
    Syscall,
    /// An instruction without operands and without effects on registers.
    Plain(Plain),
}

/// A row of the table of instructions: what bytes it asks for, and what it gives for them.
#[derive(Clone, Copy)]
pub struct Row {
    /// The opcodes.
    pub opcodes: Opcodes,
    /// The numbers in ModRM.
    pub numbers: Numbers,
    /// The operand of ModRM.
    pub place: Place,
    /// The widths.
    pub size: Size,
    /// The prefixes.
    pub marks: Marks,
    /// The immediate.
    pub imm: Imm,
    /// The operands.
    pub form: Form,
    /// The kind of instruction.
    pub name: Name,
}

/// What the bytes of an instruction say, of which its row makes the instruction.
#[derive(Clone, Copy)]
pub struct Parts {
    /// Prefixes, REX and opcode.
    pub fields: Fields,
    /// The width.
    pub w: Width,
    /// The register of ModRM with REX.R, 0 to 15; 0 without a ModRM byte.
    pub reg: u8,
    /// The operand of ModRM; register 0 without a ModRM byte.
    pub rm: Rm,
    /// The immediate, sign-extended; 0 without one.
    pub imm: i64,
    /// The first byte of the immediate; 0 without one.
    pub byte: u8,
    /// The address of the next instruction.
    pub next: u64,
}
