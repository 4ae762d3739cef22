//! Distances in a program that is laid out.

ghost use Rattle.std.specs.Prelude.{◌≡◌, ◌+◌, ◌<◌, ◌≤◌, ◌^◌, ℕ, List, None, IfErr, IfOk, IfSome, length};
ghost use Rattle.asm_items.specs.Lines.{copies_number};
ghost use Rattle.rw_layout.specs.OutOfReach.{RefusesLayout};
ghost use Rattle.rw_layout.specs.Places.{IsLaidBy};
ghost use Rattle.rw_layout.specs.Reach.{IsFar};
ghost use Rattle.rw_layout.specs.Rule.{functions_number, layout_of};
ghost use Rattle.rw_layout.specs.Looked.{IsFarLine, IsFirstFar};
ghost use Rattle.rw_layout.specs.Looked as looked;
ghost use Rattle.rw_layout.specs.Program.{shown};
ghost use Rattle.rw_layout.specs.Checks.{Nowhere};
ghost use Rattle.rw_layout.specs.Reach as reach;

use crate::laying::{Layout, Order};
use crate::program::Program;
use crate::units::INSN_SIZE;
use asm_items::{Item, Label, Sym};
use asm_read::Text;
use std::alloc::Global;

/// Why a program isn't laid out.
#[derive(Clone, Copy, Debug, PartialEq, Eq)]
pub enum LayoutError {
    /// A distance is outside 32 bits with a sign: of this symbol, and this distance in bytes. Of the target of a jump table
    /// the symbol is its code label.
    OutOfReach(Sym, i64),
    /// Want of memory.
    Memory,
}

fn at_offset(address: Option<u64>, offset: u64) -> Option<u64>
    ensures { result ≡ looked.at_offset address offset }
{
    match address {
        Some(address) => Some(address.wrapping_add(offset)),
        None => None,
    }
}

fn between(to: Option<u64>, from: Option<u64>) -> Option<u64>
    ensures { result ≡ looked.between to from }
{
    match to {
        Some(to) => match from {
            Some(from) => Some(to.wrapping_sub(from)),
            None => None,
        },
        None => None,
    }
}

fn with_symbol(symbol: Sym, distance: Option<u64>) -> Option<(Sym, u64)>
    ensures { result ≡ looked.with_symbol symbol distance }
{
    match distance {
        Some(distance) => Some((symbol, distance)),
        None => None,
    }
}

// The address of a symbol, when the counters have this number.
fn symbol_address(layout: &Layout, counters: usize, symbol: Sym) -> Option<u64>
    ensures { result ≡ looked.symbol_in layout.now counters symbol }
{
    match symbol {
        Sym::Code(a) => at_offset(layout.find(Label::Code(a)), 0),
        Sym::Section(n, offset) => at_offset(layout.find(Label::Section(n)), offset),
        Sym::Named(id, offset) => at_offset(layout.find_name(id), offset),
        Sym::Counter(k) => at_offset(layout.find_region(counters), 8 * u64::from(k)),
    }
}

// The distance of a line, with its symbol.
fn distance_of(layout: &Layout, counters: usize, line: usize, item: &Item) -> Option<(Sym, u64)>
    ensures { result ≡ looked.distance_in layout.now counters line item.now }
{
    match item {
        Item::Ins(insn) => match insn.reference() {
            Some(symbol) => {
                let behind = at_offset(layout.find_line(line), INSN_SIZE);
                let to = symbol_address(layout, counters, symbol);
                with_symbol(symbol, between(to, behind))
            }
            None => None,
        },
        Item::LongDiff(code, table) => {
            let to = layout.find(Label::Code(*code));
            let from = layout.find(Label::Table(*table));
            with_symbol(Sym::Code(*code), between(to, from))
        }
        _ => None,
    }
}

// Whether a distance fits 32 bits with its sign.
fn is_in_reach(distance: u64) -> bool
    ensures { result ≡ reach.is_in_reach distance }
{
    distance < 1 << 31 || 0xffff_ffff_8000_0000 <= distance
}

/// The first distance out of reach, with its symbol.
pub(crate) fn first_far(text: &Text, layout: &Layout, counters: usize) -> Option<(Sym, i64)>
    ensures found { IfSome result (λ far. IsFirstFar layout.now counters text.now.items.items far.0 far.1) }
    ensures none { result ≡ None → Nowhere (IsFarLine layout.now counters text.now.items.items) }
{
    for i in 0..text.items.len() {
        if let Some((symbol, distance)) = distance_of(layout, counters, i, &text.items[i]) {
            if !is_in_reach(distance) {
                return Some((symbol, distance.cast_signed()));
            }
        }
    }
    None
}

/// The layout of a program by the rule, with a gap of at most 2^20 bytes behind each unit. The program has fewer than 2^24
/// functions and sections together ([`Program::units`]).
///
/// # Errors
///
/// `OutOfReach` comes exactly where a distance is outside 32 bits with a sign, and tells the first in the order of the text: that of
/// the reference of an instruction from the address behind it, or of a target of a jump table from the table. Only want of memory
/// may come besides. The time is near-linear in the number of lines.
pub fn layout(
    alloc: Global,
    program: &Program,
    order: Order,
    gap: u32,
) -> Result<Layout, LayoutError>
    requires few { functions_number (shown program.now) + copies_number (shown program.now) < 2 ^ 24 }
    requires close { gap ≤ 2 ^ 20 }
    ensures laid { IfOk result (λ laid. (sizes : List ℕ) → IsLaidBy (shown program.now) program.now.names (layout_of (shown program.now) order gap sizes) laid) }
    ensures reach { IfOk result (λ laid. (sizes : List ℕ) → Nowhere (IsFar (shown program.now) (layout_of (shown program.now) order gap sizes))) }
    ensures refused { IfErr result (λ error. (sizes : List ℕ) → RefusesLayout program.now.names (shown program.now) (layout_of (shown program.now) order gap sizes) error) }
{
    let Ok(layout) = Layout::of(alloc, program, order, u64::from(gap)) else {
        return Err(LayoutError::Memory);
    };
    let counters = layout.regions() - 1;
    match first_far(program.text(), &layout, counters) {
        Some((symbol, distance)) => Err(LayoutError::OutOfReach(symbol, distance)),
        None => Ok(layout),
    }
}
