//! What a layout tells.

ghost use Rattle.std.specs.Prelude.{◌≡◌, ◌+◌, ◌<◌, ◌≤◌, ◌∷◌, ℕ, List, Some, length, slice_get};
ghost use Rattle.asm_items.specs.declared.item.NameId.{NameId};
ghost use Rattle.asm_items.specs.declared.item.Sym.TheVariants.{Named};
ghost use Rattle.asm_items.specs.Layout as place;
ghost use Rattle.asm_items.specs.Lines.{Items, counters_number};
ghost use Rattle.asm_items.specs.Named.{named};
ghost use Rattle.rw_layout.specs.Places.{IsLaidBy};
ghost use Rattle.rw_layout.specs.Program.{shown};

use asm_items::{Item, Sym};
use rw_layout::{Layout, Program};

// The address of the name of a symbol, if it has one.
fn name_address_of(layout: &Layout, symbol: Sym) -> Option<u64>
    requires { (id : NameId) (o : ℕ) → symbol ≡ Named id o → (a : ℕ) × (slice_get layout.now.names id.0 ≡ Some (Some a)) }
{
    match symbol {
        Sym::Named(id, _) => Some(layout.name_address(id)),
        _ => None,
    }
}

/// What a layout tells of a line: of a label, an instruction, a copy or a word of a name.
pub fn address_of(program: &Program, layout: &Layout, line: usize) -> Option<u64>
    requires laid { (at : place.Layout) × IsLaidBy (shown program.now) program.now.names at layout.now }
    requires within { line < length program.now.items }
{
    match &program.text().items[line] {
        Item::Label(label) => Some(layout.address(*label)),
        Item::Ins(_) => Some(layout.ins_address(line as u32)),
        Item::Copy(id, _) => Some(layout.name_address(*id)),
        Item::Quad(symbol) => name_address_of(layout, *symbol),
        _ => None,
    }
}

/// How many regions a line begins: a section or a copy, or none.
fn regions_of(item: &Item) -> u32
    ensures count { (names : List (List ℕ)) (rest : Items) → counters_number (named names item.now ∷ rest) ≡ result + counters_number rest }
    ensures few { result ≤ 1 }
{
    match item {
        Item::SectionHead(_, _, _) => 1,
        Item::Copy(_, _) => 1,
        _ => 0,
    }
}

/// How many sections and copies a program has, which is the number of the counters' region.
pub fn regions_before_counters(program: &Program) -> u32
    ensures { result ≡ counters_number (shown program.now) }
{
    let items = &program.text().items;
    let mut count = 0;
    for i in (0..items.len()).rev() {
        count += regions_of(&items[i]);
    }
    count
}
