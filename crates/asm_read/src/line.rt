//! The item that a line shows, leniently: not each text that is read is the line of what is read.

ghost use Rattle.std.specs.Prelude.{◌≡◌, ◌∷◌};
ghost use Rattle.asm_items.specs.Named.{map_names};
ghost use Rattle.asm_print.specs.Reading.{copy_in, comment_in, align_in, zero_in, quad_item_in, func_kind_in, without_space, byte_in, bytes_in, long_in, section_kind_in, data_section_in, section_in, directive, directive_in, defined, defined_in, item_in};
ghost use Rattle.asm_read.specs.Found.{Finds};
ghost use Rattle.asm_read.specs.Words.{data_in};

use crate::arguments::symbol;
use crate::instruction::instruction;
use crate::pieces::{after, first_piece, number, split_at_byte};
use arrayvec::ArrayVec;
use asm_items::{Item, Label};

/// What follows `# copy `: a name and a size.
fn copy(text: &[u8]) -> Option<Item<&[u8]>>
    ensures { Finds (map_names (λ name. name.now)) result (copy_in text.now) }
{
    let (name, size) = split_at_byte(text, b' ')?;
    let size = number(10, size)?;
    Some(Item::Copy(name, size))
}

/// What follows `# `.
#[tactic(auto, unfolding(asm_print::specs::Reading::comment_in))]
fn comment(text: &[u8]) -> Option<Item<&[u8]>>
    ensures { Finds (map_names (λ name. name.now)) result (comment_in text.now) }
{
    if let Some(rest) = after(text, "copy ") {
        return copy(rest);
    }
    let name = after(text, "function ")?;
    Some(Item::Comment(name))
}

fn align<'a>(text: &[u8]) -> Option<Item<&'a [u8]>>
    ensures { Finds (map_names (λ name. name.now)) result (align_in text.now) }
{
    let k = number(10, text)?;
    let k = u8::try_from(k).ok()?;
    Some(Item::Align(k))
}

fn zero<'a>(text: &[u8]) -> Option<Item<&'a [u8]>>
    ensures { Finds (map_names (λ name. name.now)) result (zero_in text.now) }
{
    let n = number(10, text)?;
    Some(Item::Zero(n))
}

fn quad(text: &[u8]) -> Option<Item<&[u8]>>
    ensures { Finds (map_names (λ name. name.now)) result (quad_item_in text.now) }
{
    let to = symbol(text)?;
    Some(Item::Quad(to))
}

fn func_kind(text: &[u8]) -> Option<Item<&[u8]>>
    ensures { Finds (map_names (λ name. name.now)) result (func_kind_in text.now) }
{
    let (name, _) = split_at_byte(text, b',')?;
    Some(Item::FuncKind(name))
}

/// A space before a number is left out.
fn without_space(text: &[u8]) -> &[u8]
    ensures { result.now ≡ without_space text.now }
{
    after(text, " ").unwrap_or(text)
}

/// A byte of data.
fn byte(text: &[u8]) -> Option<u8>
    ensures { result ≡ byte_in text.now }
{
    let n = number(10, without_space(text))?;
    u8::try_from(n).ok()
}

/// The bytes that commas separate, as many as an item has room for.
fn numbers(text: &[u8]) -> Option<ArrayVec<u8, 16>>
    ensures { Finds (λ bytes. bytes.items) result (data_in text.now) }
{
    let mut bytes = ArrayVec::new();
    let mut rest = text;
    for _taken in 0..16u8 {
        let (piece, next) = first_piece(rest, b',');
        let byte = byte(piece)?;
        bytes.push(byte);
        match next {
            None => return Some(bytes),
            Some(next) => rest = next,
        }
    }
    None
}

fn data<'a>(text: &[u8]) -> Option<Item<&'a [u8]>>
    ensures { Finds (map_names (λ name. name.now)) result (bytes_in text.now) }
{
    let bytes = numbers(text)?;
    Some(Item::Bytes(bytes))
}

/// The distance of a code label from the label of a jump table.
fn distance<'a>(text: &[u8]) -> Option<Item<&'a [u8]>>
    ensures { Finds (map_names (λ name. name.now)) result (long_in text.now) }
{
    let behind = after(text, ".L")?;
    let (code, table) = split_at_byte(behind, b'-')?;
    let table = after(table, ".Lt")?;
    let code = number(16, code)?;
    let table = number(16, table)?;
    Some(Item::LongDiff(code, table))
}

/// Whether a section is writable, and whether it has no bytes in the file, by what follows its number and a comma.
#[tactic(auto, unfolding(asm_print::specs::Reading::section_kind_in, asm_print::specs::Text::section_text))]
fn section_kind(text: &[u8]) -> Option<(bool, bool)>
    ensures { result ≡ section_kind_in (44 ∷ text.now) }
{
    if text == "\"a\",@progbits".as_bytes() {
        return Some((false, false));
    }
    if text == "\"a\",@nobits".as_bytes() {
        return Some((false, true));
    }
    if text == "\"aw\",@progbits".as_bytes() {
        return Some((true, false));
    }
    if text == "\"aw\",@nobits".as_bytes() {
        return Some((true, true));
    }
    None
}

/// What follows `.section .retro.s`.
fn data_section<'a>(text: &[u8]) -> Option<Item<&'a [u8]>>
    ensures { Finds (map_names (λ name. name.now)) result (data_section_in text.now) }
{
    let (digits, kind) = split_at_byte(text, b',')?;
    let n = number(10, digits)?;
    let n = u32::try_from(n).ok()?;
    let (writable, nobits) = section_kind(kind)?;
    Some(Item::SectionHead(n, writable, nobits))
}

/// What follows `.section `.
#[tactic(auto, unfolding(asm_print::specs::Reading::section_in))]
fn section<'a>(text: &[u8]) -> Option<Item<&'a [u8]>>
    ensures { Finds (map_names (λ name. name.now)) result (section_in text.now) }
{
    if let Some(rest) = after(text, ".retro.s") {
        return data_section(rest);
    }
    if text == ".retro.counts,\"aw\",@nobits".as_bytes() {
        return Some(Item::CountsHead);
    }
    if text == ".note.GNU-stack,\"\",@progbits".as_bytes() {
        return Some(Item::Tail);
    }
    None
}

/// A directive by its word and what follows it.
fn by_directive<'a>(word: &[u8], text: &'a [u8]) -> Option<Item<&'a [u8]>>
    ensures { Finds (map_names (λ name. name.now)) result (directive word.now text.now) }
{
    if word == "weak".as_bytes() {
        return Some(Item::Weak(text));
    }
    if word == "globl".as_bytes() {
        return Some(Item::Globl(text));
    }
    if word == "p2align".as_bytes() {
        return align(text);
    }
    if word == "type".as_bytes() {
        return func_kind(text);
    }
    if word == "section".as_bytes() {
        return section(text);
    }
    if word == "byte".as_bytes() {
        return data(text);
    }
    if word == "quad".as_bytes() {
        return quad(text);
    }
    if word == "long".as_bytes() {
        return distance(text);
    }
    if word == "zero".as_bytes() {
        return zero(text);
    }
    None
}

/// What follows a tab and a dot.
#[tactic(auto, unfolding(asm_print::specs::Reading::directive_in))]
fn directive(text: &[u8]) -> Option<Item<&[u8]>>
    ensures { Finds (map_names (λ name. name.now)) result (directive_in text.now) }
{
    match split_at_byte(text, b' ') {
        Some((word, rest)) => by_directive(word, rest),
        None => {
            if text == "text".as_bytes() {
                return Some(Item::TextHead);
            }
            None
        }
    }
}

/// A label or a name.
#[tactic(auto, unfolding(asm_print::specs::Reading::defined))]
fn defined(text: &[u8]) -> Option<Item<&[u8]>>
    ensures { Finds (map_names (λ name. name.now)) result (defined text.now) }
{
    if let Some(a) = after(text, ".Lp") {
        let a = number(16, a)?;
        return Some(Item::Label(Label::Past(a)));
    }
    if let Some(n) = after(text, ".Ls") {
        let n = number(10, n)?;
        let n = u32::try_from(n).ok()?;
        return Some(Item::Label(Label::Section(n)));
    }
    if let Some(a) = after(text, ".Lt") {
        let a = number(16, a)?;
        return Some(Item::Label(Label::Table(a)));
    }
    if let Some(a) = after(text, ".L") {
        let a = number(16, a)?;
        return Some(Item::Label(Label::Code(a)));
    }
    Some(Item::Name(text))
}

/// What stands before a colon.
#[tactic(auto, unfolding(asm_print::specs::Reading::defined_in))]
fn definition(text: &[u8]) -> Option<Item<&[u8]>>
    ensures { Finds (map_names (λ name. name.now)) result (defined_in text.now) }
{
    let (name, _) = split_at_byte(text, b':')?;
    defined(name)
}

/// The item that a line shows, without its line feed.
#[tactic(auto, unfolding(asm_print::specs::Reading::item_in))]
pub fn item(text: &[u8]) -> Option<Item<&[u8]>>
    ensures { Finds (map_names (λ name. name.now)) result (item_in text.now) }
{
    if let Some(rest) = after(text, "# ") {
        return comment(rest);
    }
    if let Some(rest) = after(text, "\t.") {
        return directive(rest);
    }
    if let Some(rest) = after(text, "\t") {
        let insn = instruction(rest)?;
        return Some(Item::Ins(insn));
    }
    definition(text)
}
