//! The units of a text: its functions, its sections and its counters.

ghost use Rattle.std.specs.Prelude.{◌≡◌, ◌+◌, ◌<◌, ◌≤◌, ◌^◌, ℕ, List, true, IfOk, IfSome, map, reverse};
ghost use Rattle.asm_items.specs.Lines.{begins_section};
ghost use Rattle.asm_items.specs.Formed.{is_item};
ghost use Rattle.asm_items.specs.Named.{named};
ghost use Rattle.rw_layout.specs.Program.{IsText, seen, shown};
ghost use Rattle.rw_layout.specs.Rule.{units_of};
ghost use Rattle.rw_layout.specs.Rule as rule;
ghost use Rattle.rw_layout.specs.Units.{extent_of};
ghost use Rattle.rw_layout.specs.Units as units;

use crate::sizes::line_size;
use asm_items::Item;
use asm_read::Text;
use std::alloc::{AllocError, Global};

/// The bytes that an instruction takes.
pub(crate) const INSN_SIZE: u64 = 8;

/// The least alignment of what is placed, in bytes.
pub(crate) const LEAST_ALIGN: u64 = 16;

/// The size of what is placed, and its alignment, in bytes.
#[derive(Clone, Copy)]
pub(crate) struct Room {
    pub(crate) size: u64,
    pub(crate) align: u64,
}

/// The bytes that a line takes.
pub(crate) fn placed_size(item: &Item) -> u64
    ensures { (names : List (List ℕ)) → result ≡ rule.placed_size (named names item.now) }
{
    match item {
        Item::Ins(_) => INSN_SIZE,
        _ => line_size(item),
    }
}

/// Whether a line begins a unit, or ends the last.
pub(crate) fn begins_unit(item: &Item) -> bool
    ensures { (names : List (List ℕ)) → result ≡ begins_section (named names item.now) }
{
    match item {
        Item::TextHead | Item::SectionHead(_, _, _) | Item::CountsHead | Item::Tail => true,
        _ => false,
    }
}

fn align_with(item: &Item, align: u64) -> u64
    requires { (names : List (List ℕ)) × (is_item (named names item.now) ≡ true) }
    ensures { (names : List (List ℕ)) → result ≡ units.align_with (named names item.now) align }
{
    match item {
        Item::Align(k) => 1 << *k,
        _ => align,
    }
}

// The room of the lines up to the next unit, with one more before them.
fn with_line(item: &Item, room: &Room) -> Room
    requires formed { (names : List (List ℕ)) × (is_item (named names item.now) ≡ true) }
    requires fits { (names : List (List ℕ)) × (rule.placed_size (named names item.now) + room.now.size < 2 ^ 64) }
    ensures { (names : List (List ℕ)) → result ≡ units.room_with (named names item.now) room.now }
{
    if begins_unit(item) {
        Room { size: 0, align: 1 }
    } else {
        Room {
            size: placed_size(item) + room.size,
            align: align_with(item, room.align),
        }
    }
}

// The unit that a line begins, by the room of the lines behind it.
fn unit_begun(item: &Item, room: &Room) -> Option<Room>
    ensures { (names : List (List ℕ)) → result ≡ units.unit_begun (named names item.now) room.now }
{
    match item {
        Item::TextHead => Some(Room {
            size: room.size,
            align: LEAST_ALIGN,
        }),
        Item::SectionHead(_, _, _) | Item::CountsHead => Some(Room {
            size: room.size,
            align: LEAST_ALIGN.max(room.align),
        }),
        _ => None,
    }
}

/// The units of a text, the last first.
pub(crate) fn units_back(alloc: Global, text: &Text) -> Result<Vec<Room>, AllocError>
    requires formed { IsText (seen text.now) }
    requires fits { rule.placed_size_of (shown (seen text.now)) < 2 ^ 62 }
    ensures { IfOk result (λ units. map extent_of units.items ≡ reverse (units_of (shown (seen text.now)))) }
{
    let mut units = Vec::new(alloc);
    let mut room = Room { size: 0, align: 1 };
    for i in (0..text.items.len()).rev() {
        let item = &text.items[i];
        if let Some(unit) = unit_begun(item, &room) {
            units.push(unit)?;
        }
        room = with_line(item, &room);
    }
    Ok(units)
}

/// How many functions and sections a text has.
#[derive(Clone, Copy)]
pub(crate) struct Counts {
    pub(crate) functions: usize,
    pub(crate) sections: usize,
}

fn counted(item: &Item, counts: &Counts) -> Counts
    requires { (counts.now.functions < 2 ^ 32) × (counts.now.sections < 2 ^ 32) }
    ensures { (names : List (List ℕ)) → result ≡ units.counts_with (named names item.now) counts.now }
{
    match item {
        Item::TextHead => Counts {
            functions: 1 + counts.functions,
            sections: counts.sections,
        },
        Item::SectionHead(_, _, _) => Counts {
            functions: counts.functions,
            sections: 1 + counts.sections,
        },
        _ => *counts,
    }
}

/// How many functions and sections a text has.
pub(crate) fn count_units(text: &Text) -> Counts
    requires { IsText (seen text.now) }
    ensures { result ≡ units.counts_of (shown (seen text.now)) }
{
    let mut counts = Counts {
        functions: 0,
        sections: 0,
    };
    for i in (0..text.items.len()).rev() {
        counts = counted(&text.items[i], &counts);
    }
    counts
}
