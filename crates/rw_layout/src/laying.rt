//! Where the lines of a program lie in memory.

ghost use Rattle.std.specs.Prelude.{◌≡◌, ◌+◌, ◌<◌, ◌≤◌, ◌^◌, ◌∷◌, ◌++◌, [], ℕ, List, IfOk, IsSome, Some, drop, length, map, slice_get, slice_index_or, take};
ghost use Rattle.asm_items.specs.Lines.{copies_number, copies_of, counters_number};
ghost use Rattle.rw_layout.specs.Checks.{IsProgram};
ghost use Rattle.rw_layout.specs.Keys.{AreKeyed, Ascend};
ghost use Rattle.rw_layout.specs.Places.{IsLaidBy, Laid, address_in, item_in};
ghost use Rattle.rw_layout.specs.Looked.{join};
ghost use Rattle.rw_layout.specs.Program.{IsText, seen, shown};
ghost use Rattle.rw_layout.specs.Rule.{functions_number, layout_of, region_bases};
ghost use Rattle.rw_layout.specs.Rule as rule;

use crate::bases::{Bases, place};
use crate::copies::copy_rooms;
use crate::definitions::label_key;
use crate::insns::{insn_at, insns_by_address};
use crate::keyed::{KeyedLine, line_of};
use crate::names::name_addresses;
use crate::places::line_addresses;
use crate::program::Program;
use crate::units::{LEAST_ALIGN, count_units, units_back};
use asm_items::{Label, NameId};
use asm_read::Text;
use std::alloc::{AllocError, Global};
use std::marker::Model;

/// Where the first unit lies, and the empty region of the counters of a program without them.
const FIRST_ADDRESS: u64 = 65_536;

/// In which order the functions, the sections and the counters of a program lie.
#[derive(Clone, Copy, PartialEq, Eq, Debug)]
pub enum Order {
    /// As they stand in the text.
    Forward,
    /// The last first.
    Reverse,
}

// The bases of the units, in the order of the text.
fn unit_bases(alloc: Global, text: &Text, order: Order, gap: u64) -> Result<Bases, AllocError>
    requires formed { IsText (seen text.now) }
    requires program { IsProgram (shown (seen text.now)) }
    requires few { functions_number (shown (seen text.now)) + copies_number (shown (seen text.now)) < 2 ^ 24 }
    requires close { gap ≤ 2 ^ 20 }
    ensures list { IfOk result (λ bases. bases.list.items ≡ rule.unit_bases (shown (seen text.now)) order gap) }
    ensures end { IfOk result (λ bases. bases.end ≡ rule.behind_units (shown (seen text.now)) order gap) }
{
    let mut units = units_back(alloc, text)?;
    match order {
        Order::Forward => {
            units.reverse();
            place(alloc, &units, gap, FIRST_ADDRESS)
        }
        Order::Reverse => {
            let mut bases = place(alloc, &units, gap, FIRST_ADDRESS)?;
            bases.list.reverse();
            Ok(bases)
        }
    }
}

// The bases of the sections, the copies and the counters.
fn region_list(
    alloc: Global,
    text: &Text,
    units: &[u64],
    copies: &[u64],
) -> Result<Vec<u64>, AllocError>
    requires formed { IsText (seen text.now) }
    requires units { functions_number (shown (seen text.now)) + copies_number (shown (seen text.now)) ≤ length units.now }
    ensures { IfOk result (λ list. list.items ≡ take (copies_number (shown (seen text.now))) (drop (functions_number (shown (seen text.now))) units.now) ++ copies.now
        ++ slice_index_or units.now (functions_number (shown (seen text.now)) + copies_number (shown (seen text.now))) 65536 ∷ []) }
{
    let counts = count_units(text);
    let end = counts.functions + counts.sections;
    let mut list = Vec::from_slice(alloc, &units[counts.functions..end])?;
    list.extend_from_slice(copies)?;
    let counters = match units.get(end) {
        Some(base) => *base,
        None => FIRST_ADDRESS,
    };
    list.push(counters)?;
    Ok(list)
}

/// Where the lines of a program lie. Contracts see the line of each label, the lines of the instructions, and lists of addresses.
#[derive(Drop)]
pub struct Layout {
    lines: Vec<KeyedLine>,
    addresses: Vec<u64>,
    insns: Vec<u32>,
    regions: Vec<u64>,
    names: Vec<Option<u64>>,
}

impl Model for Layout {
    ghost use Rattle.std.specs.Prelude.{slice_index};
    ghost use Rattle.std.specs.List.Sorted.{IsNonDecreasingBy};
    ghost use Rattle.rw_layout.specs.Keys.{Ascend};
    ghost use Rattle.rw_layout.specs.Places.{Laid};

    ghost Value = { Laid };

    ghost view = { λ l. record { lines = l.lines.items; addresses = l.addresses.items; insns = l.insns.items; regions = l.regions.items; names = l.names.items } };

    ghost invariant = { λ l. Ascend l.lines.items × IsNonDecreasingBy (λ q. slice_index l.addresses.items q) l.insns.items };
}

// The layout of a text that is a program, of which these are the lines of labels and copies by ascending key.
fn laid_out(
    alloc: Global,
    text: &Text,
    lines: Vec<KeyedLine>,
    order: Order,
    gap: u64,
) -> Result<Layout, AllocError>
    requires formed { IsText (seen text.now) }
    requires program { IsProgram (shown (seen text.now)) }
    requires ascend { Ascend lines.items }
    requires keyed { AreKeyed lines.items text.now.items.items (length text.now.items.items) }
    requires few { functions_number (shown (seen text.now)) + copies_number (shown (seen text.now)) < 2 ^ 24 }
    requires close { gap ≤ 2 ^ 20 }
    ensures { IfOk result (λ laid. (sizes : List ℕ) → IsLaidBy (shown (seen text.now)) text.now.names (layout_of (shown (seen text.now)) order gap sizes) laid) }
{
    let units = unit_bases(alloc, text, order, gap)?;
    let copies = place(alloc, &copy_rooms(alloc, text)?, 0, units.end)?;
    let first_name = copies.end.next_multiple_of(LEAST_ALIGN);
    let names = name_addresses(alloc, text, &copies.list, first_name)?;
    let addresses = line_addresses(alloc, text, &units.list)?;
    let insns = insns_by_address(alloc, text, &addresses)?;
    let regions = region_list(alloc, text, &units.list, &copies.list)?;
    Ok(Layout {
        lines,
        addresses,
        insns,
        regions,
        names,
    })
}

impl Layout {
    /// The layout of a program by the rule, with a gap of at most 2^20 bytes behind each unit; whether its distances are in
    /// reach isn't asked. The program has fewer than 2^24 functions and sections together ([`Program::units`]).
    ///
    /// Only want of memory is an error. The time is near-linear in the number of lines.
    pub fn of(
        alloc: Global,
        program: &Program,
        order: Order,
        gap: u64,
    ) -> Result<Layout, AllocError>
        requires few { functions_number (shown program.now) + copies_number (shown program.now) < 2 ^ 24 }
        requires close { gap ≤ 2 ^ 20 }
        ensures { IfOk result (λ laid. (sizes : List ℕ) → IsLaidBy (shown program.now) program.now.names (layout_of (shown program.now) order gap sizes) laid) }
    {
        let lines = program.lines(alloc)?;
        laid_out(alloc, program.text(), lines, order, gap)
    }

    pub(crate) fn find(&self, label: Label) -> Option<u64>
        ensures { result ≡ address_in self.now label }
    {
        match line_of(&self.lines, label_key(label)) {
            Some(line) => self.find_line(line as usize),
            None => None,
        }
    }

    pub(crate) fn find_line(&self, line: usize) -> Option<u64>
        ensures { result ≡ slice_get self.now.addresses line }
    {
        match self.addresses.get(line) {
            Some(address) => Some(*address),
            None => None,
        }
    }

    pub(crate) fn find_region(&self, region: usize) -> Option<u64>
        ensures { result ≡ slice_get self.now.regions region }
    {
        match self.regions.get(region) {
            Some(base) => Some(*base),
            None => None,
        }
    }

    pub(crate) fn regions(&self) -> usize
        ensures { result ≡ length self.now.regions }
    {
        self.regions.len()
    }

    pub(crate) fn find_name(&self, id: NameId) -> Option<u64>
        ensures { result ≡ join (slice_get self.now.names id.0) }
    {
        match self.names.get(id.0 as usize) {
            Some(address) => *address,
            None => None,
        }
    }

    /// The address of a label that the program defines.
    pub fn address(&self, label: Label) -> u64
        requires { IsSome (address_in self.now label) }
        ensures { Some result ≡ address_in self.now label }
    {
        self.find(label).unwrap_or(0)
    }

    /// The base of a region: a section by its number, the copies behind the sections, and the counters behind those.
    pub fn base(&self, region: u32) -> u64
        requires { region < length self.now.regions }
        ensures { Some result ≡ slice_get self.now.regions region }
    {
        self.regions[region as usize]
    }

    /// The address of a name that a line uses or copies.
    pub fn name_address(&self, id: NameId) -> u64
        requires { (a : ℕ) × (slice_get self.now.names id.0 ≡ Some (Some a)) }
        ensures { slice_get self.now.names id.0 ≡ Some (Some result) }
    {
        match self.names[id.0 as usize] {
            Some(address) => address,
            None => 0,
        }
    }

    /// The address of an instruction, by the number of its line.
    pub fn ins_address(&self, item: u32) -> u64
        requires { item < length self.now.addresses }
        ensures { Some result ≡ slice_get self.now.addresses item }
    {
        self.addresses[item as usize]
    }

    /// The number, counted from 0, of the line of the instruction at an address; `None` exactly where no instruction begins
    /// there. The time is logarithmic in the number of instructions.
    pub fn item_at(&self, address: u64) -> Option<u32>
        ensures { result ≡ item_in self.now address }
    {
        insn_at(&self.insns, &self.addresses, address)
    }
}
