//! Which of the items that are read are items of a text.

ghost use Rattle.std.specs.Prelude.{◌≡◌, ◌&&◌, true, length, nat_le};
ghost use Rattle.std.specs.List.{list_all};
ghost use Rattle.asm_items.specs.declared.item.Item.TheVariants.{Ins};
ghost use Rattle.asm_items.specs.Formed.{is_byte, is_label, is_sym, is_item};
ghost use Rattle.asm_items.specs.Named.{map_names, map_sym};
ghost use Rattle.x86_insn.specs.Fields.{fits_fields};
ghost use Rattle.x86_insn.specs.References.{map_references};
ghost use Rattle.asm_read.specs.Found.{Finds};
ghost use Rattle.asm_read.specs.Shown.{candidate};

use crate::line::item;
use asm_items::{Item, Label, Sym};
use rw_base::name::{is_good_name, is_import_name, is_own_name};
use x86_insn::Insn;

fn is_symbol(symbol: Sym<&[u8]>) -> bool
    ensures { result ≡ is_sym (map_sym (λ name. name.now) symbol.entry) }
{
    match symbol {
        Sym::Code(_) | Sym::Section(_, _) | Sym::Counter(_) => true,
        Sym::Named(name, _) => is_import_name(name),
    }
}

/// Each label is one of a text: the types of its fields bound its numbers. The match shows the prover the fields.
fn is_label(label: Label) -> bool
    ensures { result ≡ is_label label }
{
    match label {
        Label::Code(_) | Label::Past(_) | Label::Section(_) | Label::Table(_) => true,
    }
}

/// Always true, since the types of an instruction's fields bound its numbers; it is called for what it ensures.
fn has_widths(insn: Insn<Sym<&[u8]>>) -> bool
    ensures { result ≡ fits_fields insn.entry }
{
    true
}

fn is_instruction(insn: Insn<Sym<&[u8]>>) -> bool
    ensures { result ≡ is_item (Ins (map_references (map_sym (λ name. name.now)) insn.entry)) }
{
    if !insn.well_formed() {
        return false;
    }
    if !has_widths(insn) {
        return false;
    }
    match insn.reference() {
        Some(symbol) => is_symbol(symbol),
        None => true,
    }
}

/// 1 to 16 bytes of data.
fn is_data(bytes: &[u8]) -> bool
    ensures { result ≡ nat_le 1 (length bytes.now) && nat_le (length bytes.now) 16 && list_all is_byte bytes.now }
{
    bytes.len() >= 1 && bytes.len() <= 16
}

/// An item of a text.
pub fn is_item(item: &Item<&[u8]>) -> bool
    ensures { result ≡ is_item (map_names (λ name. name.now) item.now) }
{
    match item {
        Item::Copy(name, size) => is_import_name(*name) && *size >= 1,
        Item::Comment(name) => is_good_name(*name),
        Item::Weak(name) => is_import_name(*name),
        Item::Globl(name) | Item::FuncKind(name) | Item::Name(name) => is_own_name(*name),
        Item::Align(k) => *k <= 16,
        Item::Label(label) => is_label(*label),
        Item::Ins(insn) => is_instruction(*insn),
        Item::SectionHead(n, _, _) => {
            // The read shows the prover that the number has 32 bits.
            let _n = *n;
            true
        }
        Item::Bytes(bytes) => is_data(bytes.as_slice()),
        Item::Quad(symbol) => is_symbol(*symbol),
        Item::LongDiff(code, table) => {
            // The reads show the prover that both addresses have 64 bits.
            let _places = (*code, *table);
            true
        }
        Item::Zero(n) => *n >= 1,
        Item::TextHead | Item::CountsHead | Item::Tail => true,
    }
}

/// The item of a text that a line shows, leniently, without its line feed.
pub fn candidate(text: &[u8]) -> Option<Item<&[u8]>>
    ensures { Finds (map_names (λ name. name.now)) result (candidate text.now) }
{
    let item = item(text)?;
    if !is_item(&item) {
        return None;
    }
    Some(item)
}
