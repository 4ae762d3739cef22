//! The arguments of an instruction, by their texts. Names in them are parts of the text.

ghost use Rattle.std.specs.Prelude.{◌≡◌, codes};
ghost use Rattle.x86_insn.specs.References.{map_mem};
ghost use Rattle.asm_items.specs.Named.{map_sym};
ghost use Rattle.asm_print.specs.Arguments.{offset_in, section_sym_in, code_sym_in, counter_at, named_sym_in, sym_in, disp_in, quad_in, base_in, place_in, mem_in, plain_in, reg_arg_in, imm_in, arg_in};
ghost use Rattle.asm_print.specs.Spelling.{map_arg};
ghost use Rattle.asm_read.specs.Found.{Finds};

use crate::pieces::{after, number, signed, split_at_byte};
use crate::registers::register;
use asm_items::Sym;
use asm_print::spelling::Arg;
use x86_insn::{Mem, Reg, Reg8};

/// A front, and the offset behind a plus.
#[tactic(auto, unfolding(asm_print::specs::Arguments::offset_in))]
fn offset(text: &[u8]) -> Option<(&[u8], u64)>
    ensures { Finds (λ x. (x.0.now, x.1)) result (offset_in text.now) }
{
    match split_at_byte(text, b'+') {
        None => Some((text, 0)),
        Some((front, back)) => {
            let n = number(10, back)?;
            Some((front, n))
        }
    }
}

/// The symbol of a data section, behind `.Ls`.
fn section_symbol(text: &[u8]) -> Option<Sym<&[u8]>>
    ensures { Finds (map_sym (λ name. name.now)) result (section_sym_in text.now) }
{
    let (front, offset) = offset(text)?;
    let n = number(10, front)?;
    let n = u32::try_from(n).ok()?;
    Some(Sym::Section(n, offset))
}

fn code_symbol(text: &[u8]) -> Option<Sym<&[u8]>>
    ensures { Finds (map_sym (λ name. name.now)) result (code_sym_in text.now) }
{
    let a = number(16, text)?;
    Some(Sym::Code(a))
}

fn counter<'a>(offset: u64) -> Option<Sym<&'a [u8]>>
    ensures { Finds (map_sym (λ name. name.now)) result (counter_at offset) }
{
    let k = u32::try_from(offset / 8).ok()?;
    Some(Sym::Counter(k))
}

/// A counter by its offset, or any other name.
fn named_symbol(text: &[u8]) -> Option<Sym<&[u8]>>
    ensures { Finds (map_sym (λ name. name.now)) result (named_sym_in text.now) }
{
    let (name, offset) = offset(text)?;
    if name == "__retro_counts".as_bytes() {
        return counter(offset);
    }
    Some(Sym::Named(name, offset))
}

/// A symbol.
#[tactic(auto, unfolding(asm_print::specs::Arguments::sym_in))]
pub fn symbol(text: &[u8]) -> Option<Sym<&[u8]>>
    ensures { Finds (map_sym (λ name. name.now)) result (sym_in text.now) }
{
    if let Some(rest) = after(text, ".Ls") {
        return section_symbol(rest);
    }
    if let Some(rest) = after(text, ".L") {
        return code_symbol(rest);
    }
    named_symbol(text)
}

/// A displacement of 32 bits.
#[tactic(auto, unfolding(asm_print::specs::Arguments::disp_in))]
fn displacement(text: &[u8]) -> Option<i32>
    ensures { result ≡ disp_in text.now }
{
    let n = signed(text)?;
    i32::try_from(n).ok()
}

/// A register of an address, with its percent sign.
#[tactic(auto, unfolding(asm_print::specs::Arguments::quad_in))]
fn address_register(text: &[u8]) -> Option<Reg>
    ensures { result ≡ quad_in text.now }
{
    let name = after(text, "%")?;
    let found = register(name)?;
    match found.1 {
        Reg8::Low(r) => Some(r),
        Reg8::High(_) => None,
    }
}

fn base(text: &[u8]) -> Option<Option<Reg>>
    ensures { result ≡ base_in text.now }
{
    if text.is_empty() {
        return Some(None);
    }
    let r = address_register(text)?;
    Some(Some(r))
}

/// What stands in the parentheses of an address.
#[tactic(auto, unfolding(asm_print::specs::Arguments::place_in))]
fn place(text: &[u8]) -> Option<(Option<Reg>, Option<(Reg, u8)>)>
    ensures { result ≡ place_in text.now }
{
    match split_at_byte(text, b',') {
        None => {
            let r = address_register(text)?;
            Some((Some(r), None))
        }
        Some((front, back)) => {
            let base = base(front)?;
            let (middle, last) = split_at_byte(back, b',')?;
            let r = address_register(middle)?;
            let scale = number(10, last)?;
            let scale = u8::try_from(scale).ok()?;
            Some((base, Some((r, scale))))
        }
    }
}

/// Memory, by what stands before the first parenthesis and behind it.
#[tactic(auto, unfolding(asm_print::specs::Arguments::mem_in))]
fn memory<'a>(front: &'a [u8], back: &[u8]) -> Option<Mem<Sym<&'a [u8]>>>
    ensures { Finds (map_mem (map_sym (λ name. name.now))) result (mem_in front.now back.now) }
{
    if back == "%rip)".as_bytes() {
        let symbol = symbol(front)?;
        return Some(Mem::Rel(symbol));
    }
    let (inner, _) = split_at_byte(back, b')')?;
    let (base, index) = place(inner)?;
    let disp = displacement(front)?;
    Some(Mem::At { base, index, disp })
}

/// An argument without a mark and without parentheses.
fn plain(text: &[u8]) -> Option<Arg<Sym<&[u8]>>>
    ensures { Finds (map_arg (map_sym (λ name. name.now))) result (plain_in text.now) }
{
    if let [b'-' | b'0'..=b'9', ..] = text {
        let disp = displacement(text)?;
        return Some(Arg::Mem(Mem::At {
            base: None,
            index: None,
            disp,
        }));
    }
    let to = symbol(text)?;
    Some(Arg::To(to))
}

/// What follows a percent sign.
fn register_argument<'a>(text: &[u8]) -> Option<Arg<Sym<&'a [u8]>>>
    ensures { Finds (map_arg (map_sym (λ name. name.now))) result (reg_arg_in text.now) }
{
    if text == "fs:40".as_bytes() {
        return Some(Arg::Mem(Mem::Canary));
    }
    let (w, r) = register(text)?;
    Some(Arg::Reg(w, r))
}

/// What follows a dollar sign.
fn immediate<'a>(text: &[u8]) -> Option<Arg<Sym<&'a [u8]>>>
    ensures { Finds (map_arg (map_sym (λ name. name.now))) result (imm_in text.now) }
{
    let n = signed(text)?;
    Some(Arg::Imm(n))
}

/// An argument: an immediate, a register, memory or a target.
#[tactic(auto, unfolding(asm_print::specs::Arguments::arg_in))]
pub fn argument(text: &[u8]) -> Option<Arg<Sym<&[u8]>>>
    ensures { Finds (map_arg (map_sym (λ name. name.now))) result (arg_in text.now) }
{
    if let Some(n) = after(text, "$") {
        return immediate(n);
    }
    if let Some(r) = after(text, "%") {
        return register_argument(r);
    }
    match split_at_byte(text, b'(') {
        None => plain(text),
        Some((front, back)) => {
            let mem = memory(front, back)?;
            Some(Arg::Mem(mem))
        }
    }
}
