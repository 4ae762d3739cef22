//! Items with the numbers of their names.

ghost use Rattle.std.specs.Prelude.{◌≡◌, ℕ, List, true};
ghost use Rattle.std.specs.List.{AllByRecursion};
ghost use Rattle.x86_insn.specs.WellFormed.{is_instruction};
ghost use Rattle.asm_items.specs.Named.{map_sym, name_of, named};
ghost use Rattle.asm_items.specs.declared.item.Item.TheVariants.{Ins};
ghost use Rattle.rw_elf.specs.Name.{name_bytes};
ghost use Rattle.rw_out.specs.Items.{start_name, with_symbols};
ghost use Rattle.rw_out.specs.Plan.{has, item_names};
ghost use Rattle.rw_out.specs.Positions.{HasLine, IsFormed, counter_insn, shown};
ghost use Rattle.asm_items.specs.Lines.{names_in};
ghost use Rattle.rw_out.specs.Uses.{names_used};

use crate::naming::{counters_name, name_bytes, start_name};
use crate::position::FileItem;
use crate::probes::Counting;
use crate::symbols::{atom_symbol, insn_symbol};
use asm_items::{Item, NameId, Names, Sym};
use rw_data::Picture;
use rw_elf::NameAt;
use x86_insn::Insn;

// The number of a name; one that the list doesn't have gets the number 0.
fn number_of(names: &Names, name: &[u8]) -> NameId
    requires { has names.now name.now }
    ensures { name_of names.now result ≡ name.now }
{
    match names.find(name) {
        Some(number) => number,
        None => NameId(0),
    }
}

pub(crate) fn number_at(picture: &Picture, names: &Names, name: NameAt) -> NameId
    requires { has names.now (name_bytes picture.now name) }
    ensures { name_of names.now result ≡ name_bytes picture.now name }
{
    number_of(names, name_bytes(picture, name))
}

fn number_of_start(picture: &Picture, names: &Names) -> NameId
    requires { has names.now (start_name picture.now) }
    ensures { name_of names.now result ≡ start_name picture.now }
{
    number_of(names, start_name(picture))
}

fn numbered_symbol(picture: &Picture, names: &Names, symbol: Sym<NameAt>) -> Sym
    requires { AllByRecursion (has names.now) (names_in (map_sym (name_bytes picture.now) symbol)) }
    ensures { map_sym (name_of names.now) result ≡ map_sym (name_bytes picture.now) symbol }
{
    match symbol {
        Sym::Code(address) => Sym::Code(address),
        Sym::Section(number, offset) => Sym::Section(number, offset),
        Sym::Named(name, offset) => Sym::Named(number_at(picture, names, name), offset),
        Sym::Counter(number) => Sym::Counter(number),
    }
}

fn numbered_insn(picture: &Picture, names: &Names, insn: &Insn<u64>) -> Insn<Sym>
    requires formed { is_instruction insn.now ≡ true }
    requires known { AllByRecursion (has names.now) (names_used (Ins (with_symbols picture.now insn.now))) }
    ensures { named names.now (Ins result) ≡ Ins (with_symbols picture.now insn.now) }
{
    match insn_symbol(picture, insn) {
        Some(symbol) => insn.with_ref(numbered_symbol(picture, names, symbol)),
        None => insn.without_ref().unwrap(),
    }
}

// A line of a probe, which has no names.
fn numbered_line(line: Counting) -> Item
    requires { HasLine line }
    ensures { (names : List (List ℕ)) → named names result ≡ Ins (counter_insn line) }
{
    Item::Ins(line.insn())
}

/// The item with the numbers of its names.
pub(crate) fn numbered(picture: &Picture, names: &Names, item: FileItem) -> Item
    requires formed { IsFormed item }
    requires known { AllByRecursion (has names.now) (item_names (shown picture.now item)) }
    ensures { named names.now result ≡ shown picture.now item }
{
    match item {
        FileItem::Comment(name) => Item::Comment(number_at(picture, names, name)),
        FileItem::Globl => Item::Globl(number_of_start(picture, names)),
        FileItem::FuncKind => Item::FuncKind(number_of_start(picture, names)),
        FileItem::Name => Item::Name(number_of_start(picture, names)),
        FileItem::TextHead => Item::TextHead,
        FileItem::Align(exponent) => Item::Align(exponent),
        FileItem::Label(label) => Item::Label(label),
        FileItem::Insn(insn) => Item::Ins(numbered_insn(picture, names, &insn)),
        FileItem::Counting(line) => numbered_line(line),
        FileItem::SectionHead(number, writable, nobits) => {
            Item::SectionHead(number, writable, nobits)
        }
        FileItem::Bytes(bytes) => Item::Bytes(bytes),
        FileItem::Quad(atom) => {
            Item::Quad(numbered_symbol(picture, names, atom_symbol(picture, atom)))
        }
        FileItem::LongDiff(point, base) => Item::LongDiff(point, base),
        FileItem::Zero(count) => Item::Zero(count),
        FileItem::CountersHead => Item::CountsHead,
        FileItem::CountersGlobl => Item::Globl(number_of(names, counters_name())),
        FileItem::CountersName => Item::Name(number_of(names, counters_name())),
        FileItem::Tail => Item::Tail,
    }
}
