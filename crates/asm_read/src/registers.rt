//! Registers by their names. A name is looked for among those that end in its last byte.

ghost use Rattle.std.specs.Prelude.{◌≡◌, ◌-◌, find, length, slice_index};
ghost use Rattle.std.specs.Str.{bytes_eq};
ghost use Rattle.asm_print.specs.Forms.{reg_named};
ghost use Rattle.asm_print.specs.Words.{reg_name};

use asm_print::words::reg_name;
use rw_base::Width;
use x86_insn::{Reg, Reg8};

const ENDING_IN_L: [(Width, Reg8); 8] = [
    (Width::B, Reg8::Low(Reg::Rax)),
    (Width::B, Reg8::Low(Reg::Rcx)),
    (Width::B, Reg8::Low(Reg::Rdx)),
    (Width::B, Reg8::Low(Reg::Rbx)),
    (Width::B, Reg8::Low(Reg::Rsp)),
    (Width::B, Reg8::Low(Reg::Rbp)),
    (Width::B, Reg8::Low(Reg::Rsi)),
    (Width::B, Reg8::Low(Reg::Rdi)),
];

const ENDING_IN_X: [(Width, Reg8); 12] = [
    (Width::W, Reg8::Low(Reg::Rax)),
    (Width::L, Reg8::Low(Reg::Rax)),
    (Width::Q, Reg8::Low(Reg::Rax)),
    (Width::W, Reg8::Low(Reg::Rcx)),
    (Width::L, Reg8::Low(Reg::Rcx)),
    (Width::Q, Reg8::Low(Reg::Rcx)),
    (Width::W, Reg8::Low(Reg::Rdx)),
    (Width::L, Reg8::Low(Reg::Rdx)),
    (Width::Q, Reg8::Low(Reg::Rdx)),
    (Width::W, Reg8::Low(Reg::Rbx)),
    (Width::L, Reg8::Low(Reg::Rbx)),
    (Width::Q, Reg8::Low(Reg::Rbx)),
];

const ENDING_IN_P: [(Width, Reg8); 6] = [
    (Width::W, Reg8::Low(Reg::Rsp)),
    (Width::L, Reg8::Low(Reg::Rsp)),
    (Width::Q, Reg8::Low(Reg::Rsp)),
    (Width::W, Reg8::Low(Reg::Rbp)),
    (Width::L, Reg8::Low(Reg::Rbp)),
    (Width::Q, Reg8::Low(Reg::Rbp)),
];

const ENDING_IN_I: [(Width, Reg8); 6] = [
    (Width::W, Reg8::Low(Reg::Rsi)),
    (Width::L, Reg8::Low(Reg::Rsi)),
    (Width::Q, Reg8::Low(Reg::Rsi)),
    (Width::W, Reg8::Low(Reg::Rdi)),
    (Width::L, Reg8::Low(Reg::Rdi)),
    (Width::Q, Reg8::Low(Reg::Rdi)),
];

const ENDING_IN_B: [(Width, Reg8); 8] = [
    (Width::B, Reg8::Low(Reg::R8)),
    (Width::B, Reg8::Low(Reg::R9)),
    (Width::B, Reg8::Low(Reg::R10)),
    (Width::B, Reg8::Low(Reg::R11)),
    (Width::B, Reg8::Low(Reg::R12)),
    (Width::B, Reg8::Low(Reg::R13)),
    (Width::B, Reg8::Low(Reg::R14)),
    (Width::B, Reg8::Low(Reg::R15)),
];

const ENDING_IN_W: [(Width, Reg8); 8] = [
    (Width::W, Reg8::Low(Reg::R8)),
    (Width::W, Reg8::Low(Reg::R9)),
    (Width::W, Reg8::Low(Reg::R10)),
    (Width::W, Reg8::Low(Reg::R11)),
    (Width::W, Reg8::Low(Reg::R12)),
    (Width::W, Reg8::Low(Reg::R13)),
    (Width::W, Reg8::Low(Reg::R14)),
    (Width::W, Reg8::Low(Reg::R15)),
];

const ENDING_IN_D: [(Width, Reg8); 8] = [
    (Width::L, Reg8::Low(Reg::R8)),
    (Width::L, Reg8::Low(Reg::R9)),
    (Width::L, Reg8::Low(Reg::R10)),
    (Width::L, Reg8::Low(Reg::R11)),
    (Width::L, Reg8::Low(Reg::R12)),
    (Width::L, Reg8::Low(Reg::R13)),
    (Width::L, Reg8::Low(Reg::R14)),
    (Width::L, Reg8::Low(Reg::R15)),
];

const NUMBERED: [(Width, Reg8); 8] = [
    (Width::Q, Reg8::Low(Reg::R8)),
    (Width::Q, Reg8::Low(Reg::R9)),
    (Width::Q, Reg8::Low(Reg::R10)),
    (Width::Q, Reg8::Low(Reg::R11)),
    (Width::Q, Reg8::Low(Reg::R12)),
    (Width::Q, Reg8::Low(Reg::R13)),
    (Width::Q, Reg8::Low(Reg::R14)),
    (Width::Q, Reg8::Low(Reg::R15)),
];

const ENDING_IN_H: [(Width, Reg8); 4] = [
    (Width::B, Reg8::High(Reg::Rax)),
    (Width::B, Reg8::High(Reg::Rcx)),
    (Width::B, Reg8::High(Reg::Rdx)),
    (Width::B, Reg8::High(Reg::Rbx)),
];

/// The register of a name, with the width that the name shows.
pub fn register(text: &[u8]) -> Option<(Width, Reg8)>
    ensures { result ≡ reg_named text.now }
{
    match last_byte(text) {
        b'l' => register_in(&ENDING_IN_L, text),
        b'x' => register_in(&ENDING_IN_X, text),
        b'p' => register_in(&ENDING_IN_P, text),
        b'i' => register_in(&ENDING_IN_I, text),
        b'b' => register_in(&ENDING_IN_B, text),
        b'w' => register_in(&ENDING_IN_W, text),
        b'd' => register_in(&ENDING_IN_D, text),
        b'0'..=b'9' => register_in(&NUMBERED, text),
        b'h' => register_in(&ENDING_IN_H, text),
        _ => None,
    }
}

/// The last byte, or 0 where there is none.
fn last_byte(text: &[u8]) -> u8
    ensures { result ≡ slice_index text.now (length text.now - 1) }
{
    match text {
        [.., last] => *last,
        [] => 0,
    }
}

fn register_in(table: &[(Width, Reg8)], text: &[u8]) -> Option<(Width, Reg8)>
    ensures { result ≡ find (λ x. bytes_eq text.now (reg_name x.0 x.1)) table.now }
{
    table
        .iter()
        .copied()
        .find(|x| text == reg_name(x.0, x.1).as_bytes())
}
