//! Items with numbers for their names.

ghost use Rattle.std.specs.Prelude.{◌≡◌, ◌<◌, IfOk, Some, length, option_map, true};
ghost use Rattle.x86_insn.specs.References.{map_references, reference_of};
ghost use Rattle.x86_insn.specs.WellFormed.{is_instruction};
ghost use Rattle.asm_items.specs.declared.item.Item.TheVariants.{Ins, Quad};
ghost use Rattle.asm_items.specs.Formed.{is_item};
ghost use Rattle.asm_items.specs.Named.{map_names, map_sym};
ghost use Rattle.asm_items.specs.Names.{with_name};
ghost use Rattle.asm_read.specs.Numbered.{number_of, numbered, name_in_sym, name_in, with_shown};

use asm_items::{Item, NameId, Names, Sym};
use std::alloc::{AllocError, Global};
use x86_insn::Insn;

fn name_number(alloc: Global, names: &mut Names, name: &[u8]) -> Result<NameId, AllocError>
    requires { length names.old < 4294967295 }
    ensures number { IfOk result (λ id. id ≡ number_of names.new name.now) }
    ensures names { IfOk result (λ id. names.new ≡ with_name names.old name.now) }
{
    names.add(alloc, name)
}

fn numbered_symbol(
    alloc: Global,
    names: &mut Names,
    symbol: Sym<&[u8]>,
) -> Result<Sym<NameId>, AllocError>
    requires { length names.old < 4294967295 }
    ensures symbol { IfOk result (λ s. s ≡ map_sym (number_of names.new) (map_sym (λ name. name.now) symbol.entry)) }
    ensures names { IfOk result (λ s. names.new ≡ with_shown names.old (name_in_sym (map_sym (λ name. name.now) symbol.entry))) }
{
    match symbol {
        Sym::Code(a) => Ok(Sym::Code(a)),
        Sym::Section(n, offset) => Ok(Sym::Section(n, offset)),
        Sym::Named(name, offset) => {
            let id = name_number(alloc, names, name)?;
            Ok(Sym::Named(id, offset))
        }
        Sym::Counter(k) => Ok(Sym::Counter(k)),
    }
}

fn numbered_insn(
    alloc: Global,
    names: &mut Names,
    insn: &Insn<Sym<&[u8]>>,
) -> Result<Insn<Sym<NameId>>, AllocError>
    requires room { length names.old < 4294967295 }
    requires formed { is_item (Ins (map_references (map_sym (λ name. name.now)) insn.now)) ≡ true }
    ensures insn { IfOk result (λ i. Ins i ≡ numbered names.new (Ins (map_references (map_sym (λ name. name.now)) insn.now))) }
    ensures names { IfOk result (λ i. names.new ≡ with_shown names.old (name_in (Ins (map_references (map_sym (λ name. name.now)) insn.now)))) }
{
    match insn.reference() {
        Some(symbol) => {
            let symbol = numbered_symbol(alloc, names, symbol)?;
            Ok(insn.with_ref(symbol))
        }
        None => Ok(insn.without_ref().unwrap()),
    }
}

/// The item with the number of its name, which is added where it is new.
pub fn numbered_item(
    alloc: Global,
    names: &mut Names,
    item: Item<&[u8]>,
) -> Result<Item<NameId>, AllocError>
    requires room { length names.old < 4294967295 }
    requires formed { is_item (map_names (λ name. name.now) item) ≡ true }
    ensures item { IfOk result (λ x. x ≡ numbered names.new (map_names (λ name. name.now) item.entry)) }
    ensures names { IfOk result (λ x. names.new ≡ with_shown names.old (name_in (map_names (λ name. name.now) item.entry))) }
{
    match item {
        Item::Copy(name, size) => Ok(Item::Copy(name_number(alloc, names, name)?, size)),
        Item::Comment(name) => Ok(Item::Comment(name_number(alloc, names, name)?)),
        Item::Weak(name) => Ok(Item::Weak(name_number(alloc, names, name)?)),
        Item::Globl(name) => Ok(Item::Globl(name_number(alloc, names, name)?)),
        Item::TextHead => Ok(Item::TextHead),
        Item::Align(k) => Ok(Item::Align(k)),
        Item::FuncKind(name) => Ok(Item::FuncKind(name_number(alloc, names, name)?)),
        Item::Name(name) => Ok(Item::Name(name_number(alloc, names, name)?)),
        Item::Label(label) => Ok(Item::Label(label)),
        Item::Ins(insn) => Ok(Item::Ins(numbered_insn(alloc, names, &insn)?)),
        Item::SectionHead(n, writable, nobits) => Ok(Item::SectionHead(n, writable, nobits)),
        Item::Bytes(bytes) => Ok(Item::Bytes(bytes)),
        Item::Quad(symbol) => Ok(Item::Quad(numbered_symbol(alloc, names, symbol)?)),
        Item::LongDiff(code, table) => Ok(Item::LongDiff(code, table)),
        Item::Zero(n) => Ok(Item::Zero(n)),
        Item::CountsHead => Ok(Item::CountsHead),
        Item::Tail => Ok(Item::Tail),
    }
}
