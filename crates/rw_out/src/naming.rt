//! The names of the text of a file.

ghost use Rattle.std.specs.Prelude.{◌≡◌, ◌≤◌, ◌&&◌, ℕ, List, [], IfOk, IsTrue, flat_map, length, option_map, true};
ghost use Rattle.std.specs.List.{fold, list_all, list_any};
ghost use Rattle.std.specs.Option.{option_copied};
ghost use Rattle.std.specs.Str.{bytes_eq};
ghost use Rattle.asm_items.specs.Names.{with_name};
ghost use Rattle.rw_reloc.specs.Targets.{is_undefined};
ghost use Rattle.asm_items.specs.Named.{map_sym};
ghost use Rattle.x86_insn.specs.WellFormed.{is_instruction};
ghost use Rattle.rw_elf.specs.Name.{name_bytes};
ghost use Rattle.rw_data.specs.FirstFault.{first_fault};
ghost use Rattle.rw_out.specs.Items as items;
ghost use Rattle.rw_out.specs.Items.{atom_symbol, copy_items, counters_name, is_weak, items_with, weak_items, main_items, start_name, with_symbols};
ghost use Rattle.rw_out.specs.Naming.{imports_nothing, is_address};
ghost use Rattle.rw_out.specs.Plan.{by_appearance, item_names, listed, names_of};
ghost use Rattle.rw_out.specs.Positions.{AreWeakAmong, IsAt, IsFormed, IsPast, IsWeak, is_weak_among, points_on, rest, shown};
ghost use Rattle.asm_items.specs.Lines.{names_in, used_names};
ghost use Rattle.rw_out.specs.Uses.{names_used};
ghost use Rattle.asm_items.specs.declared.item.Item.TheVariants.{Ins};
ghost use Rattle.rw_out.specs.Kept.{probes_in};

use crate::position::{FileItem, Position};
use crate::probes::Probes;
use crate::steps::{insn_at, next_item, span_of};
use crate::symbols::{atom_symbol, insn_symbol, target_place};
use asm_items::{NameId, Names, Sym};
use rw_data::Picture;
use rw_elf::abi::{SHN_UNDEF, STB_WEAK};
use rw_elf::{NameAt, Symbol};
use rw_reloc::{Slot, Target};
use std::alloc::{AllocError, Global};
use x86_insn::Insn;

/// The bytes of a name, as far as the file has them.
pub(crate) fn name_bytes(picture: &Picture, name: NameAt) -> &[u8]
    ensures { result.now ≡ name_bytes picture.now name }
{
    let file = picture.elf().file();
    let size = file.len() as u64;
    if name.at >= size {
        return &[];
    }
    let end = (name.at + u64::from(name.len)).min(size);
    &file[name.at as usize..end as usize]
}

/// The name of the place at which the program starts.
pub(crate) fn start_name(picture: &Picture) -> &'static [u8]
    ensures { result.now ≡ start_name picture.now }
{
    if picture.funcs().hosted() {
        b"main"
    } else {
        b"_start"
    }
}

/// The name of the counters.
pub(crate) fn counters_name() -> &'static [u8]
    ensures { result.now ≡ counters_name }
{
    b"__retro_counts"
}

// The name that a symbol has, if it has one.
fn symbol_name(symbol: Sym<NameAt>) -> Option<NameAt>
    ensures { (file : List ℕ) → names_in (map_sym (name_bytes file) symbol) ≡ listed (option_map (name_bytes file) result) }
{
    match symbol {
        Sym::Named(name, _) => Some(name),
        _ => None,
    }
}

// The name that an instruction uses in its symbol, if it does.
fn insn_name(picture: &Picture, insn: &Insn<u64>) -> Option<NameAt>
    requires { is_instruction insn.now ≡ true }
    ensures { names_used (Ins (with_symbols picture.now insn.now)) ≡ listed (option_map (name_bytes picture.now) result) }
{
    symbol_name(insn_symbol(picture, insn)?)
}

/// The name that a line uses in a symbol, if it does.
#[tactic(auto, using(crate::proofs::ProbeLines::counter_names))]
fn name_used(picture: &Picture, item: &FileItem) -> Option<NameAt>
    requires { IsFormed item.now }
    ensures { names_used (shown picture.now item.now) ≡ listed (option_map (name_bytes picture.now) result) }
{
    match item {
        FileItem::Insn(insn) => insn_name(picture, insn),
        FileItem::Counting(_) => None,
        FileItem::Quad(atom) => symbol_name(atom_symbol(picture, *atom)),
        _ => None,
    }
}

/// The name of an item, if it has one.
fn name_in<'a>(picture: &'a Picture, item: &FileItem) -> Option<&'a [u8]>
    requires { IsFormed item.now }
    ensures { item_names (shown picture.now item.now) ≡ listed (option_copied result) }
{
    match item {
        FileItem::Comment(name) => Some(name_bytes(picture, *name)),
        FileItem::Globl | FileItem::FuncKind | FileItem::Name => Some(start_name(picture)),
        FileItem::CountersGlobl | FileItem::CountersName => Some(counters_name()),
        _ => Some(name_bytes(picture, name_used(picture, item)?)),
    }
}

// The most names that a list may have.
const MOST: usize = 0xffff_fffe;

// Puts a name into a list; a list of too many names is too large for memory.
fn add(alloc: Global, names: &mut Names, name: &[u8]) -> Result<(), AllocError>
    ensures { IfOk result (λ _. names.new ≡ with_name names.old name.now) }
{
    if names.len() >= MOST {
        return Err(AllocError);
    }
    names.add(alloc, name)?;
    Ok(())
}

// Puts a name into a list, if there is one.
fn add_some(alloc: Global, names: &mut Names, name: Option<&[u8]>) -> Result<(), AllocError>
    ensures { IfOk result (λ _. names.new ≡ fold with_name names.old (listed (option_copied name.entry))) }
{
    match name {
        Some(name) => add(alloc, names, name),
        None => Ok(()),
    }
}

// Whether it is the address of a place in the file.
fn is_address(target: Target) -> bool
    ensures { result ≡ is_address target }
{
    matches!(target, Target::To(_))
}

// Whether each slot has the address of a place in the file.
fn are_addresses(slots: &[Slot]) -> bool
    ensures { result ≡ list_all (λ s. is_address s.target) slots.now }
{
    slots.iter().all(|slot| is_address(slot.target))
}

// Whether no symbol is copied and each slot has the address of a place in the file. Then no instruction uses a name.
fn imports_nothing(picture: &Picture) -> bool
    ensures { result ≡ imports_nothing picture.now }
{
    let copied = picture.relocs().copies().len();
    copied == 0 && are_addresses(picture.relocs().slots())
}

/// The names of the functions and of the data.
#[derive(Drop)]
pub(crate) struct Found {
    /// All, by first appearance.
    pub(crate) all: Names,
    /// Those that lines use in their symbols.
    pub(crate) used: Names,
}

// The bytes of a name, if there is one.
fn some_bytes(picture: &Picture, name: Option<NameAt>) -> Option<&[u8]>
    ensures { option_copied result ≡ option_map (name_bytes picture.now) name }
{
    match name {
        Some(name) => Some(name_bytes(picture, name)),
        None => None,
    }
}

impl Found {
    fn add(&mut self, alloc: Global, picture: &Picture, item: &FileItem) -> Result<(), AllocError>
        requires { IsFormed item.now }
        ensures all { IfOk result (λ _. self.new.all ≡ fold with_name self.old.all (item_names (shown picture.now item.now))) }
        ensures used { IfOk result (λ _. self.new.used ≡ fold with_name self.old.used (names_used (shown picture.now item.now))) }
    {
        add_some(alloc, &mut self.all, name_in(picture, item))?;
        let used = name_used(picture, item);
        add_some(alloc, &mut self.used, some_bytes(picture, used))
    }

    // Adds the name that an instruction uses, if it does.
    fn add_insn(
        &mut self,
        alloc: Global,
        picture: &Picture,
        insn: &Insn<u64>,
    ) -> Result<(), AllocError>
        requires { is_instruction insn.now ≡ true }
        ensures all { IfOk result (λ _. self.new.all ≡ fold with_name self.old.all (names_used (Ins (with_symbols picture.now insn.now)))) }
        ensures used { IfOk result (λ _. self.new.used ≡ fold with_name self.old.used (names_used (Ins (with_symbols picture.now insn.now)))) }
    {
        let name = some_bytes(picture, insn_name(picture, insn));
        add_some(alloc, &mut self.all, name)?;
        add_some(alloc, &mut self.used, name)
    }

    // Adds the names that the instructions of a function use, from a point on, and answers where the function ends.
    fn add_points(
        &mut self,
        alloc: Global,
        picture: &Picture,
        k: usize,
        from: u64,
    ) -> Result<u64, AllocError>
        requires { IsPast picture.now k from }
        ensures past { IfOk result (λ end. IsPast picture.now k end) }
        ensures all { IfOk result (λ end. (probes : items.Probes) → fold with_name self.new.all (flat_map item_names (points_on picture.now probes k end)) ≡ fold with_name self.old.all (flat_map item_names (points_on picture.now probes k from))) }
        ensures used { IfOk result (λ end. (probes : items.Probes) → fold with_name self.new.used (used_names (points_on picture.now probes k end)) ≡ fold with_name self.old.used (used_names (points_on picture.now probes k from))) }
        ensures fewer { IfOk result (λ end. (probes : items.Probes) → length (points_on picture.now probes k end) ≤ length (points_on picture.now probes k from)) }
    {
        let end = span_of(picture, k).end;
        let mut at = from;
        while at < end {
            let (insn, next) = insn_at(picture, k, at);
            self.add_insn(alloc, picture, &insn)?;
            at = next;
        }
        Ok(at)
    }

    // Goes past the points of a function from one on, at once where no instruction uses a name.
    fn past_points(
        &mut self,
        alloc: Global,
        picture: &Picture,
        nameless: bool,
        k: usize,
        from: u64,
    ) -> Result<Position, AllocError>
        requires past { IsPast picture.now k from }
        requires nameless { nameless ≡ true → imports_nothing picture.now ≡ true }
        ensures at { IfOk result (λ next. IsAt picture.now next) }
        ensures all { IfOk result (λ next. (probes : items.Probes) → fold with_name self.new.all (flat_map item_names (rest picture.now probes next)) ≡ fold with_name self.old.all (flat_map item_names (points_on picture.now probes k from))) }
        ensures used { IfOk result (λ next. (probes : items.Probes) → fold with_name self.new.used (used_names (rest picture.now probes next)) ≡ fold with_name self.old.used (used_names (points_on picture.now probes k from))) }
        ensures fewer { IfOk result (λ next. (probes : items.Probes) → length (rest picture.now probes next) ≤ length (points_on picture.now probes k from)) }
    {
        if nameless {
            return Ok(Position::Closing(k));
        }
        let end = self.add_points(alloc, picture, k, from)?;
        Ok(Position::Label(k, end))
    }

    // The same at any place: only points are gone past.
    fn go_past(
        &mut self,
        alloc: Global,
        picture: &Picture,
        nameless: bool,
        position: Position,
    ) -> Result<Position, AllocError>
        requires at { IsAt picture.now position }
        requires nameless { nameless ≡ true → imports_nothing picture.now ≡ true }
        ensures at { IfOk result (λ next. IsAt picture.now next) }
        ensures all { IfOk result (λ next. (probes : items.Probes) → fold with_name self.new.all (flat_map item_names (rest picture.now probes next)) ≡ fold with_name self.old.all (flat_map item_names (rest picture.now probes position))) }
        ensures used { IfOk result (λ next. (probes : items.Probes) → fold with_name self.new.used (used_names (rest picture.now probes next)) ≡ fold with_name self.old.used (used_names (rest picture.now probes position))) }
        ensures fewer { IfOk result (λ next. (probes : items.Probes) → length (rest picture.now probes next) ≤ length (rest picture.now probes position)) }
    {
        match position {
            Position::Label(k, from) => self.past_points(alloc, picture, nameless, k, from),
            other => Ok(other),
        }
    }
}

/// Looks for the names of the functions and of the data. Probes use no names, so the walk leaves them out; the points of a
/// function are gone through apart, since only their instructions may use any.
pub(crate) fn find_names(
    alloc: Global,
    picture: &Picture,
    probes: &Probes,
) -> Result<Found, AllocError>
    ensures all { IfOk result (λ found. found.all ≡ names_of (main_items picture.now (probes_in probes.now))) }
    ensures used { IfOk result (λ found. found.used ≡ by_appearance (used_names (main_items picture.now (probes_in probes.now)))) }
{
    let mut found = Found {
        all: Names::new(alloc),
        used: Names::new(alloc),
    };
    let bare = probes.counters_alone();
    let nameless = imports_nothing(picture);
    let mut probe = 0;
    let mut position = Position::Function(0);
    while let Some((item, next)) = next_item(picture, &bare, &mut probe, position) {
        found.add(alloc, picture, &item)?;
        position = found.go_past(alloc, picture, nameless, next)?;
    }
    Ok(found)
}

// Whether a list has a name.
fn has(names: &Names, name: &[u8]) -> bool
    ensures { result ≡ list_any (bytes_eq name.now) names.now }
{
    match names.find(name) {
        Some(_) => true,
        None => false,
    }
}

// Whether a dynamic symbol is undefined and weak.
fn is_undefined_weak(symbol: &Symbol) -> bool
    ensures { result ≡ (is_undefined symbol.now && is_weak symbol.now) }
{
    symbol.section == SHN_UNDEF && symbol.bind == STB_WEAK
}

fn is_weak_among(picture: &Picture, used: &Names, symbol: &Symbol) -> bool
    ensures { result ≡ is_weak_among picture.now used.now symbol.now }
{
    is_undefined_weak(symbol) && has(used, name_bytes(picture, symbol.name))
}

/// The names of the undefined weak symbols that some line uses, by the number of the symbol.
pub(crate) fn weak_names(
    alloc: Global,
    picture: &Picture,
    used: &Names,
) -> Result<Vec<NameAt>, AllocError>
    ensures { IfOk result (λ weak. AreWeakAmong picture.now used.now weak.items) }
{
    picture
        .elf()
        .dynamic_symbols()
        .iter()
        .filter(|symbol| is_weak_among(picture, used, symbol))
        .map(|symbol| symbol.name)
        .collect(alloc)
}

// Puts the names of the copied symbols into a list.
fn add_copies(alloc: Global, picture: &Picture, names: &mut Names) -> Result<(), AllocError>
    ensures { IfOk result (λ _. names.new ≡ fold with_name names.old (flat_map item_names (copy_items picture.now))) }
{
    for copy in picture.relocs().copies() {
        let name = target_place(picture, copy.target);
        add(alloc, names, name_bytes(picture, name))?;
    }
    Ok(())
}

// Puts the names of the weak symbols into a list.
fn add_weak(
    alloc: Global,
    picture: &Picture,
    weak: &[NameAt],
    names: &mut Names,
) -> Result<(), AllocError>
    ensures { IfOk result (λ _. (probes : items.Probes) → IsWeak picture.now probes weak.now → names.new ≡ fold with_name names.old (flat_map item_names (weak_items picture.now probes))) }
{
    for name in weak {
        add(alloc, names, name_bytes(picture, *name))?;
    }
    Ok(())
}

// Puts the names of a list into another.
fn add_all(alloc: Global, found: &Names, names: &mut Names) -> Result<(), AllocError>
    ensures { IfOk result (λ _. names.new ≡ fold with_name names.old found.now) }
{
    for number in 0..found.len() {
        let Ok(id) = u32::try_from(number) else {
            return Err(AllocError);
        };
        add(alloc, names, found.get(NameId(id)))?;
    }
    Ok(())
}

/// The names of all items by first appearance, where those of the functions and of the data are found.
pub(crate) fn all_names(
    alloc: Global,
    picture: &Picture,
    weak: &[NameAt],
    found: &Names,
) -> Result<Names, AllocError>
    ensures { IfOk result (λ names. (probes : items.Probes) → IsWeak picture.now probes weak.now → found.now ≡ names_of (main_items picture.now probes) → names ≡ names_of (items_with picture.now probes)) }
{
    let mut names = Names::new(alloc);
    add_copies(alloc, picture, &mut names)?;
    add_weak(alloc, picture, weak, &mut names)?;
    add_all(alloc, found, &mut names)?;
    Ok(names)
}
