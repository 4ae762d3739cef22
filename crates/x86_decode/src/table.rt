//! The table of instructions, and the first row of each opcode.

ghost use Rattle.std.specs.Prelude.{◌≡◌, drop};
ghost use Rattle.x86_decode.specs.Rows.{rows};
ghost use Rattle.x86_decode.specs.Index.{first_rows, rows_before};

use crate::row::{Form, Imm, Marks, Name, Numbers, Opcodes, Place, Row, Size};
use rw_base::Width;
use x86_insn::{BitOp, Plain, ScanOp};

/// A row: its opcodes; what it asks for, in the order of the fields of `Row`; what it gives.
macro_rules! row {
    (
        $opcodes:ident ($($opcode:expr),+);
        $numbers:ident $(($first:expr, $last:expr))?,
        $place:ident, $size:ident, $marks:ident, $imm:ident;
        $form:ident, $name:ident $(($kind:expr))?
    ) => {
        Row {
            opcodes: Opcodes::$opcodes($($opcode),+),
            numbers: Numbers::$numbers $(($first, $last))?,
            place: Place::$place,
            size: Size::$size,
            marks: Marks::$marks,
            imm: Imm::$imm,
            form: Form::$form,
            name: Name::$name $(($kind))?,
        }
    };
}

/// An array of numbers that stand one beside another.
macro_rules! index {
    ($($row:literal)*) => { [$($row),*] };
}

/// The rows in order of their opcodes.
static ROWS: [Row; 87] = [
    // opcodes 0x00 to 0x3F: ADD, OR, ADC, SBB, AND, SUB, XOR, CMP
    row!(EveryEighth(0); Any, Any, B, Unmarked, Absent; EG, AluByOpcode),
    row!(EveryEighth(1); Any, Any, V, Unmarked, Absent; EG, AluByOpcode),
    row!(EveryEighth(2); Any, Any, B, Unmarked, Absent; GE, AluByOpcode),
    row!(EveryEighth(3); Any, Any, V, Unmarked, Absent; GE, AluByOpcode),
    row!(EveryEighth(4); Any, NoModRm, B, Unmarked, One; AI, AluByOpcode),
    row!(EveryEighth(5); Any, NoModRm, V, Unmarked, Sized; AI, AluByOpcode),
    // opcodes 0x50 to 0x5F: PUSH and POP of a register
    row!(Run(0x50, 0x57); Any, NoModRm, Q, Unmarked, Absent; OA, Push),
    row!(Run(0x58, 0x5F); Any, NoModRm, Q, Unmarked, Absent; OA, Pop),
    // opcode 0x63: MOVSXD
    row!(Run(0x63, 0x63); Any, Any, MustW, Unmarked, Absent; GE, MovSx(Width::L)),
    // opcodes 0x68 to 0x6B: PUSH of an immediate, IMUL with an immediate
    row!(Run(0x68, 0x68); Any, NoModRm, Bare, Unmarked, Four; IA, Push),
    row!(Run(0x69, 0x69); Any, Any, V, Unmarked, Sized; GE, Imul3),
    row!(Run(0x6A, 0x6A); Any, NoModRm, Bare, Unmarked, One; IA, Push),
    row!(Run(0x6B, 0x6B); Any, Any, V, Unmarked, One; GE, Imul3),
    // opcodes 0x70 to 0x7F: Jcc
    row!(Run(0x70, 0x7F); Any, NoModRm, Bare, Unmarked, One; IA, Jcc),
    // opcodes 0x80 to 0x83: ADD, OR, ADC, SBB, AND, SUB, XOR, CMP with an immediate
    row!(Run(0x80, 0x80); Any, Any, B, Unmarked, One; EI, AluByNumber),
    row!(Run(0x81, 0x81); Any, Any, V, Unmarked, Sized; EI, AluByNumber),
    row!(Run(0x83, 0x83); Any, Any, V, Unmarked, One; EI, AluByNumber),
    // opcodes 0x84 to 0x8F: TEST, XCHG, MOV, LEA, POP
    row!(Run(0x84, 0x84); Any, Any, B, Unmarked, Absent; EG, Test),
    row!(Run(0x85, 0x85); Any, Any, V, Unmarked, Absent; EG, Test),
    row!(Run(0x86, 0x86); Any, Any, B, Unmarked, Absent; EG, Xchg),
    row!(Run(0x87, 0x87); Any, Any, V, Unmarked, Absent; EG, Xchg),
    row!(Run(0x88, 0x88); Any, Any, B, Unmarked, Absent; EG, Mov),
    row!(Run(0x89, 0x89); Any, Any, V, Unmarked, Absent; EG, Mov),
    row!(Run(0x8A, 0x8A); Any, Any, B, Unmarked, Absent; GE, Mov),
    row!(Run(0x8B, 0x8B); Any, Any, V, Unmarked, Absent; GE, Mov),
    row!(Run(0x8D, 0x8D); Any, Address, V, Unmarked, Absent; GE, Lea),
    row!(Run(0x8F, 0x8F); Run(0, 0), Any, Q, Unmarked, Absent; EG, Pop),
    // opcodes 0x90 to 0x99: XCHG with rAX, NOP, PAUSE, CBW and CWDE and CDQE, CWD and CDQ and CQO
    row!(Run(0x90, 0x90); Any, NoModRm, V, RexB, Absent; OA, Xchg),
    row!(Run(0x90, 0x90); Any, NoModRm, Unsized, NoRex, Absent; OA, Plain(Plain::Nop)),
    row!(Run(0x90, 0x90); Any, NoModRm, Bare, MustRep, Absent; OA, Plain(Plain::Pause)),
    row!(Run(0x91, 0x97); Any, NoModRm, V, Unmarked, Absent; OA, Xchg),
    row!(Run(0x98, 0x98); Any, NoModRm, V, Unmarked, Absent; OA, Widen),
    row!(Run(0x99, 0x99); Any, NoModRm, V, Unmarked, Absent; OA, Spread),
    // opcodes 0xA4 to 0xAB: MOVS, TEST with rAX, STOS
    row!(Run(0xA4, 0xA4); Any, NoModRm, B, Rep, Absent; OA, Movs),
    row!(Run(0xA5, 0xA5); Any, NoModRm, V, Rep, Absent; OA, Movs),
    row!(Run(0xA8, 0xA8); Any, NoModRm, B, Unmarked, One; AI, Test),
    row!(Run(0xA9, 0xA9); Any, NoModRm, V, Unmarked, Sized; AI, Test),
    row!(Run(0xAA, 0xAA); Any, NoModRm, B, Rep, Absent; OA, Stos),
    row!(Run(0xAB, 0xAB); Any, NoModRm, V, Rep, Absent; OA, Stos),
    // opcodes 0xB0 to 0xBF: MOV of an immediate to a register
    row!(Run(0xB0, 0xB7); Any, NoModRm, B, Unmarked, One; OI, Mov),
    row!(Run(0xB8, 0xBF); Any, NoModRm, Wl, Unmarked, Sized; OI, Mov),
    row!(Run(0xB8, 0xBF); Any, NoModRm, MustW, Unmarked, Eight; OI, MovAbs),
    // opcodes 0xC0 to 0xD3: shifts and rotates, RET, MOV of an immediate, LEAVE, INT3
    row!(Run(0xC0, 0xC0); Shifts, Any, B, Unmarked, One; EG, ShiftImm),
    row!(Run(0xC1, 0xC1); Shifts, Any, V, Unmarked, One; EG, ShiftImm),
    row!(Run(0xC3, 0xC3); Any, NoModRm, Bare, Rep, Absent; OA, Ret),
    row!(Run(0xC6, 0xC6); Run(0, 0), Any, B, Unmarked, One; EI, Mov),
    row!(Run(0xC7, 0xC7); Run(0, 0), Any, V, Unmarked, Sized; EI, Mov),
    row!(Run(0xC9, 0xC9); Any, NoModRm, Bare, Unmarked, Absent; OA, Leave),
    row!(Run(0xCC, 0xCC); Any, NoModRm, Bare, Unmarked, Absent; OA, Plain(Plain::Int3)),
    row!(Run(0xD0, 0xD0); Shifts, Any, B, Unmarked, Absent; EG, ShiftOne),
    row!(Run(0xD1, 0xD1); Shifts, Any, V, Unmarked, Absent; EG, ShiftOne),
    row!(Run(0xD2, 0xD2); Shifts, Any, B, Unmarked, Absent; EG, ShiftCl),
    row!(Run(0xD3, 0xD3); Shifts, Any, V, Unmarked, Absent; EG, ShiftCl),
    // opcodes 0xE8 to 0xEB: CALL, JMP
    row!(Run(0xE8, 0xE8); Any, NoModRm, Bare, Unmarked, Four; IA, Call),
    row!(Run(0xE9, 0xE9); Any, NoModRm, Bare, Unmarked, Four; IA, Jmp),
    row!(Run(0xEB, 0xEB); Any, NoModRm, Bare, Unmarked, One; IA, Jmp),
    // opcode 0xF4: HLT
    row!(Run(0xF4, 0xF4); Any, NoModRm, Bare, Unmarked, Absent; OA, Plain(Plain::Hlt)),
    // opcodes 0xF6, 0xF7: TEST, NOT, NEG, MUL, IMUL, DIV, IDIV
    row!(Run(0xF6, 0xF6); Run(0, 0), Any, B, Unmarked, One; EI, Test),
    row!(Run(0xF6, 0xF6); Run(2, 7), Any, B, Unmarked, Absent; EG, One),
    row!(Run(0xF7, 0xF7); Run(0, 0), Any, V, Unmarked, Sized; EI, Test),
    row!(Run(0xF7, 0xF7); Run(2, 7), Any, V, Unmarked, Absent; EG, One),
    // opcodes 0xFE, 0xFF: INC, DEC, CALL, JMP, PUSH
    row!(Run(0xFE, 0xFE); Run(0, 1), Any, B, Unmarked, Absent; EG, One),
    row!(Run(0xFF, 0xFF); Run(0, 1), Any, V, Unmarked, Absent; EG, One),
    row!(Run(0xFF, 0xFF); Run(2, 2), Any, Q, Ds, Absent; EG, CallTo),
    row!(Run(0xFF, 0xFF); Run(4, 4), Any, Q, Ds, Absent; EG, JmpTo),
    row!(Run(0xFF, 0xFF); Run(6, 6), Any, Q, Unmarked, Absent; EG, Push),
    // opcodes 0x0F05 to 0x0F1F: SYSCALL, UD2, ENDBR64, NOP
    row!(Run(0x0F05, 0x0F05); Any, NoModRm, Bare, Unmarked, Absent; OA, Syscall),
    row!(Run(0x0F0B, 0x0F0B); Any, NoModRm, Bare, Unmarked, Absent; OA, Plain(Plain::Ud2)),
    row!(Run(0x0F1E, 0x0F1E); Run(7, 7), Fa, Bare, MustRep, Absent; EG, Plain(Plain::Endbr64)),
    row!(Run(0x0F1F, 0x0F1F); Run(0, 0), Ignored, Unsized, Branch, Absent; EG, Plain(Plain::Nop)),
    // opcodes 0x0F40 to 0x0F4F: CMOVcc
    row!(Run(0x0F40, 0x0F4F); Any, Any, V, Unmarked, Absent; GE, Cmov),
    // opcodes 0x0F80 to 0x0F9F: Jcc, SETcc
    row!(Run(0x0F80, 0x0F8F); Any, NoModRm, Bare, Unmarked, Four; IA, Jcc),
    row!(Run(0x0F90, 0x0F9F); Run(0, 0), Any, B, Unmarked, Absent; EG, Setcc),
    // opcodes 0x0FA3 to 0x0FBF: BT, BTS, BTR, BTC, IMUL, MOVZX, BSF, TZCNT, BSR, MOVSX
    row!(Run(0x0FA3, 0x0FA3); Any, Register, V, Unmarked, Absent; EG, Bit(BitOp::Bt)),
    row!(Run(0x0FAB, 0x0FAB); Any, Register, V, Unmarked, Absent; EG, Bit(BitOp::Bts)),
    row!(Run(0x0FAF, 0x0FAF); Any, Any, V, Unmarked, Absent; GE, Imul2),
    row!(Run(0x0FB3, 0x0FB3); Any, Register, V, Unmarked, Absent; EG, Bit(BitOp::Btr)),
    row!(Run(0x0FB6, 0x0FB6); Any, Any, V, Unmarked, Absent; GE, MovZx(Width::B)),
    row!(Run(0x0FB7, 0x0FB7); Any, Any, Lq, Unmarked, Absent; GE, MovZx(Width::W)),
    row!(Run(0x0FBA, 0x0FBA); Run(4, 7), Any, V, Unmarked, One; EI, BitByNumber),
    row!(Run(0x0FBB, 0x0FBB); Any, Register, V, Unmarked, Absent; EG, Bit(BitOp::Btc)),
    row!(Run(0x0FBC, 0x0FBC); Any, Any, V, Unmarked, Absent; GE, Scan(ScanOp::Bsf)),
    row!(Run(0x0FBC, 0x0FBC); Any, Any, V, MustRep, Absent; GE, Scan(ScanOp::Tzcnt)),
    row!(Run(0x0FBD, 0x0FBD); Any, Any, V, Unmarked, Absent; GE, Scan(ScanOp::Bsr)),
    row!(Run(0x0FBE, 0x0FBE); Any, Any, V, Unmarked, Absent; GE, MovSx(Width::B)),
    row!(Run(0x0FBF, 0x0FBF); Any, Any, Lq, Unmarked, Absent; GE, MovSx(Width::W)),
    // opcodes 0x0FC8 to 0x0FCF: BSWAP
    row!(Run(0x0FC8, 0x0FCF); Any, NoModRm, Lq, Unmarked, Absent; OA, Bswap),
];

/// For each opcode of one byte, how many rows stand before its first one.
static ONE_BYTE: [u8; 256] = index! {
    0 1 2 3 4 5 87 87 0 1 2 3 4 5 87 87
    0 1 2 3 4 5 87 87 0 1 2 3 4 5 87 87
    0 1 2 3 4 5 87 87 0 1 2 3 4 5 87 87
    0 1 2 3 4 5 87 87 0 1 2 3 4 5 87 87
    87 87 87 87 87 87 87 87 87 87 87 87 87 87 87 87
    6 6 6 6 6 6 6 6 7 7 7 7 7 7 7 7
    87 87 87 8 87 87 87 87 9 10 11 12 87 87 87 87
    13 13 13 13 13 13 13 13 13 13 13 13 13 13 13 13
    14 15 87 16 17 18 19 20 21 22 23 24 87 25 87 26
    27 30 30 30 30 30 30 30 31 32 87 87 87 87 87 87
    87 87 87 87 33 34 87 87 35 36 37 38 87 87 87 87
    39 39 39 39 39 39 39 39 40 40 40 40 40 40 40 40
    42 43 87 44 87 87 45 46 87 47 87 87 48 87 87 87
    49 50 51 52 87 87 87 87 87 87 87 87 87 87 87 87
    87 87 87 87 87 87 87 87 53 54 87 55 87 87 87 87
    87 87 87 87 56 87 57 59 87 87 87 87 87 87 61 62
};

/// For each opcode of 0x0F and a second byte, how many rows stand before its first one.
static TWO_BYTES: [u8; 256] = index! {
    87 87 87 87 87 66 87 87 87 87 87 67 87 87 87 87
    87 87 87 87 87 87 87 87 87 87 87 87 87 87 68 69
    87 87 87 87 87 87 87 87 87 87 87 87 87 87 87 87
    87 87 87 87 87 87 87 87 87 87 87 87 87 87 87 87
    70 70 70 70 70 70 70 70 70 70 70 70 70 70 70 70
    87 87 87 87 87 87 87 87 87 87 87 87 87 87 87 87
    87 87 87 87 87 87 87 87 87 87 87 87 87 87 87 87
    87 87 87 87 87 87 87 87 87 87 87 87 87 87 87 87
    71 71 71 71 71 71 71 71 71 71 71 71 71 71 71 71
    72 72 72 72 72 72 72 72 72 72 72 72 72 72 72 72
    87 87 87 73 87 87 87 87 87 87 87 74 87 87 87 75
    87 87 87 76 87 87 77 78 87 87 79 80 81 83 84 85
    87 87 87 87 87 87 87 87 86 86 86 86 86 86 86 86
    87 87 87 87 87 87 87 87 87 87 87 87 87 87 87 87
    87 87 87 87 87 87 87 87 87 87 87 87 87 87 87 87
    87 87 87 87 87 87 87 87 87 87 87 87 87 87 87 87
};

fn rows() -> &'static [Row]
    ensures { result.now ≡ rows }
{
    &ROWS
}

#[tactic(auto, unfolding(crate::specs::Index::rows_before, crate::specs::Index::first_rows))]
fn one_byte() -> &'static [u8; 256]
    ensures { result.now ≡ first_rows 0 256 }
{
    &ONE_BYTE
}

#[tactic(auto, unfolding(crate::specs::Index::rows_before, crate::specs::Index::first_rows))]
fn two_bytes() -> &'static [u8; 256]
    ensures { result.now ≡ first_rows 0x0F00 256 }
{
    &TWO_BYTES
}

/// How many rows stand before the first one of an opcode.
fn rows_before(opcode: u16) -> usize
    ensures { result ≡ rows_before opcode }
{
    if opcode < 0x100 {
        usize::from(one_byte()[usize::from(opcode)])
    } else if 0x0F00 <= opcode && opcode < 0x1000 {
        usize::from(two_bytes()[usize::from(opcode - 0x0F00)])
    } else {
        rows().len()
    }
}

/// The rows from the first one of an opcode on.
#[tactic(auto, using(crate::proofs::IndexLaws::rows_before_le))]
pub(crate) fn rows_from(opcode: u16) -> &'static [Row]
    ensures { result.now ≡ drop (rows_before opcode) rows }
{
    &rows()[rows_before(opcode)..]
}
