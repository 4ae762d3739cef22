//! Worked bytes of each form of the parts that `x86_bytes` reads, and near misses.

use x86_bytes::{Fields, RawMem, Rm, fields, modrm};

static HEADS: [(&[u8], Option<Fields>); 20] = [
    // Prefixes stand in any order; 0x66 and 0x2E any number of times, the others once.
    (
        &[0x01],
        Some(Fields {
            count66: 0,
            count2e: 0,
            f2: false,
            f3: false,
            ds: false,
            fs: false,
            rex: None,
            opcode: 0x1,
            at: 1,
        }),
    ),
    (&[], None),
    (
        &[0x64, 0x66, 0xF3, 0x3E, 0x2E, 0xF2, 0x90],
        Some(Fields {
            count66: 1,
            count2e: 1,
            f2: true,
            f3: true,
            ds: true,
            fs: true,
            rex: None,
            opcode: 0x90,
            at: 7,
        }),
    ),
    (
        &[0xF2, 0x2E, 0x3E, 0xF3, 0x66, 0x64, 0x90],
        Some(Fields {
            count66: 1,
            count2e: 1,
            f2: true,
            f3: true,
            ds: true,
            fs: true,
            rex: None,
            opcode: 0x90,
            at: 7,
        }),
    ),
    (
        &[0x66, 0x2E, 0x66, 0x2E, 0x66, 0x90],
        Some(Fields {
            count66: 3,
            count2e: 2,
            f2: false,
            f3: false,
            ds: false,
            fs: false,
            rex: None,
            opcode: 0x90,
            at: 6,
        }),
    ),
    (&[0xF2, 0x66, 0xF2, 0x90], None),
    (&[0xF3, 0x66, 0xF3, 0x90], None),
    (&[0x3E, 0x66, 0x3E, 0x90], None),
    (&[0x64, 0x66, 0x64, 0x90], None),
    // 0x26 is no prefix.
    (
        &[0x26, 0x01],
        Some(Fields {
            count66: 0,
            count2e: 0,
            f2: false,
            f3: false,
            ds: false,
            fs: false,
            rex: None,
            opcode: 0x26,
            at: 1,
        }),
    ),
    // A REX byte stands directly before the opcode.
    (
        &[0x66, 0x48, 0x01],
        Some(Fields {
            count66: 1,
            count2e: 0,
            f2: false,
            f3: false,
            ds: false,
            fs: false,
            rex: Some(0x48),
            opcode: 0x1,
            at: 3,
        }),
    ),
    (
        &[0x48, 0x66, 0x01],
        Some(Fields {
            count66: 0,
            count2e: 0,
            f2: false,
            f3: false,
            ds: false,
            fs: false,
            rex: Some(0x48),
            opcode: 0x66,
            at: 2,
        }),
    ),
    (
        &[0x4F, 0x40, 0x01],
        Some(Fields {
            count66: 0,
            count2e: 0,
            f2: false,
            f3: false,
            ds: false,
            fs: false,
            rex: Some(0x4F),
            opcode: 0x40,
            at: 2,
        }),
    ),
    (&[0x48], None),
    // An opcode that begins with 0x0F has two bytes.
    (
        &[0x0F, 0x05],
        Some(Fields {
            count66: 0,
            count2e: 0,
            f2: false,
            f3: false,
            ds: false,
            fs: false,
            rex: None,
            opcode: 0xF05,
            at: 2,
        }),
    ),
    (&[0x0F], None),
    // The opcode ends with the fifteenth byte at the latest.
    (
        &[
            0x66, 0x66, 0x66, 0x66, 0x66, 0x66, 0x66, 0x66, 0x66, 0x66, 0x66, 0x66, 0x66, 0x66,
            0x90,
        ],
        Some(Fields {
            count66: 14,
            count2e: 0,
            f2: false,
            f3: false,
            ds: false,
            fs: false,
            rex: None,
            opcode: 0x90,
            at: 15,
        }),
    ),
    (
        &[
            0x66, 0x66, 0x66, 0x66, 0x66, 0x66, 0x66, 0x66, 0x66, 0x66, 0x66, 0x66, 0x66, 0x66,
            0x66, 0x90,
        ],
        None,
    ),
    (
        &[
            0x66, 0x66, 0x66, 0x66, 0x66, 0x66, 0x66, 0x66, 0x66, 0x66, 0x66, 0x66, 0x66, 0x0F,
            0x1F,
        ],
        Some(Fields {
            count66: 13,
            count2e: 0,
            f2: false,
            f3: false,
            ds: false,
            fs: false,
            rex: None,
            opcode: 0xF1F,
            at: 15,
        }),
    ),
    (
        &[
            0x66, 0x66, 0x66, 0x66, 0x66, 0x66, 0x66, 0x66, 0x66, 0x66, 0x66, 0x66, 0x66, 0x66,
            0x0F, 0x1F,
        ],
        None,
    ),
];

static OPERANDS: [(&[u8], u8, Option<(u8, Rm, u8)>); 23] = [
    // Mod 11 is a register, which REX.B extends; REX.R extends the other.
    (&[0xC1], 0x00, Some((0, Rm::Reg(1), 1))),
    (&[0xD1], 0x45, Some((10, Rm::Reg(9), 1))),
    (&[], 0x00, None),
    // Mod 00 has no displacement, 01 one of 8 bits, 10 one of 32.
    (
        &[0x07],
        0x41,
        Some((
            0,
            Rm::Mem(RawMem {
                base: Some(15),
                index: None,
                disp: 0,
                rip: false,
                canary: false,
            }),
            1,
        )),
    ),
    (
        &[0x45, 0x80],
        0x00,
        Some((
            0,
            Rm::Mem(RawMem {
                base: Some(5),
                index: None,
                disp: -128,
                rip: false,
                canary: false,
            }),
            2,
        )),
    ),
    (&[0x45], 0x00, None),
    (
        &[0x85, 0x00, 0xFF, 0xFF, 0xFF],
        0x00,
        Some((
            0,
            Rm::Mem(RawMem {
                base: Some(5),
                index: None,
                disp: -256,
                rip: false,
                canary: false,
            }),
            5,
        )),
    ),
    (&[0x85, 0x00, 0xFF, 0xFF], 0x00, None),
    // Mod 00 and rm 101 count from the next instruction, with REX.B too.
    (
        &[0x3D, 0xF8, 0xFF, 0xFF, 0xFF],
        0x41,
        Some((
            7,
            Rm::Mem(RawMem {
                base: None,
                index: None,
                disp: -8,
                rip: true,
                canary: false,
            }),
            5,
        )),
    ),
    (&[0x3D, 0xF8, 0xFF, 0xFF], 0x00, None),
    // A SIB byte follows rm 100, with REX.B too.
    (
        &[0x04, 0x88],
        0x00,
        Some((
            0,
            Rm::Mem(RawMem {
                base: Some(0),
                index: Some((1, 4)),
                disp: 0,
                rip: false,
                canary: false,
            }),
            2,
        )),
    ),
    (
        &[0x04, 0x88],
        0x43,
        Some((
            0,
            Rm::Mem(RawMem {
                base: Some(8),
                index: Some((9, 4)),
                disp: 0,
                rip: false,
                canary: false,
            }),
            2,
        )),
    ),
    (&[0x04], 0x00, None),
    // Index 100 is none without REX.X, and R12 with it.
    (
        &[0x04, 0x24],
        0x00,
        Some((
            0,
            Rm::Mem(RawMem {
                base: Some(4),
                index: None,
                disp: 0,
                rip: false,
                canary: false,
            }),
            2,
        )),
    ),
    (
        &[0x04, 0x64],
        0x42,
        Some((
            0,
            Rm::Mem(RawMem {
                base: Some(4),
                index: Some((12, 2)),
                disp: 0,
                rip: false,
                canary: false,
            }),
            2,
        )),
    ),
    // Base 101 with mod 00 is none, with REX.B too.
    (
        &[0x04, 0xC5, 0x08, 0x00, 0x00, 0x00],
        0x41,
        Some((
            0,
            Rm::Mem(RawMem {
                base: None,
                index: Some((0, 8)),
                disp: 8,
                rip: false,
                canary: false,
            }),
            6,
        )),
    ),
    (&[0x04, 0xC5, 0x08, 0x00, 0x00], 0x00, None),
    (
        &[0x44, 0xC5, 0x08],
        0x00,
        Some((
            0,
            Rm::Mem(RawMem {
                base: Some(5),
                index: Some((0, 8)),
                disp: 8,
                rip: false,
                canary: false,
            }),
            3,
        )),
    ),
    // The form that prefix 0x64 asks for.
    (
        &[0x04, 0x25, 0x28, 0x00, 0x00, 0x00],
        0x4D,
        Some((
            8,
            Rm::Mem(RawMem {
                base: None,
                index: None,
                disp: 40,
                rip: false,
                canary: true,
            }),
            6,
        )),
    ),
    (
        &[0x04, 0x25, 0x28, 0x00, 0x00, 0x00],
        0x42,
        Some((
            0,
            Rm::Mem(RawMem {
                base: None,
                index: Some((12, 1)),
                disp: 40,
                rip: false,
                canary: false,
            }),
            6,
        )),
    ),
    (
        &[0x04, 0x65, 0x28, 0x00, 0x00, 0x00],
        0x00,
        Some((
            0,
            Rm::Mem(RawMem {
                base: None,
                index: None,
                disp: 40,
                rip: false,
                canary: false,
            }),
            6,
        )),
    ),
    (
        &[0x04, 0x25, 0x29, 0x00, 0x00, 0x00],
        0x00,
        Some((
            0,
            Rm::Mem(RawMem {
                base: None,
                index: None,
                disp: 41,
                rip: false,
                canary: false,
            }),
            6,
        )),
    ),
    (
        &[0x44, 0x25, 0x28],
        0x00,
        Some((
            0,
            Rm::Mem(RawMem {
                base: Some(5),
                index: None,
                disp: 40,
                rip: false,
                canary: false,
            }),
            3,
        )),
    ),
];

#[test]
fn reads_prefixes_rex_and_opcode(rt: HostRuntime) {
    for (bytes, want) in HEADS.iter() {
        assert_eq!(rt; fields(bytes), *want, "{bytes:?}");
    }
}

#[test]
fn reads_each_form_of_operand(rt: HostRuntime) {
    for (bytes, rex, want) in OPERANDS.iter() {
        assert_eq!(rt; modrm(bytes, 0, *rex), *want, "{bytes:?}");
    }
}
