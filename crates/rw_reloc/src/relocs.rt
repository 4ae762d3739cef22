//! The relocations of a file, and what is found by address.

ghost use Rattle.std.specs.Prelude.{◌≡◌, ◌<◌, ◌≤◌, ℕ, IfOk, None, Some, filter, slice_get};
ghost use Rattle.std.specs.List.{AllPairs};
ghost use Rattle.std.specs.List.Sorted.{IsNonDecreasingBy};
ghost use Rattle.rw_base.specs.Answers.{Judges};
ghost use Rattle.rw_base.specs.Rules.{first};
ghost use Rattle.rw_elf.specs.Tables.{elf_rules};
ghost use Rattle.rw_reloc.specs.Entries.{entries};
ghost use Rattle.rw_reloc.specs.Relocations.{relocation_rules};
ghost use Rattle.rw_reloc.specs.Slots.{EndsBefore, copies_of, copy_around, is_copy_slot, slot_around, slot_at, slot_of, slots_of};
ghost use Rattle.rw_reloc.specs.declared.slot.Slot.{Slot as SlotFields};

use crate::check::{check_entries, check_tables};
use crate::entries::ordered_entries;
use crate::entry::Entry;
use crate::kept::is_kept_at;
use crate::names::Foreign;
use crate::slot::Slot;
use crate::target::target_of;
use rw_base::Refusal;
use rw_base::places::Places;
use rw_elf::Elf;
use rw_elf::ranges::number_around;
use std::alloc::{AllocError, Global};
use std::marker::Model;
use std::snapshot::Snapshot;

/// The slots of a file in which neither the phases of the tables nor the phase relocations have a fault. A contract
/// sees it as the list of the file's bytes, which it doesn't keep.
#[derive(Drop)]
pub struct Relocs {
    file: Snapshot<Elf>,
    slots: Vec<Slot>,
    copies: Vec<Slot>,
}

impl Model for Relocs {
    ghost use Rattle.std.specs.Prelude.{List, ℕ};
    ghost use Rattle.rw_reloc.specs.Relocations.{AreSlotsOf};

    ghost Value = { List ℕ };

    ghost view = { λ r. r.file.value };

    ghost invariant = { λ r. AreSlotsOf r.file.value r.slots.items r.copies.items };
}

/// The slot that an entry fills.
#[tactic(auto, unfolding(crate::specs::Slots::slot_of))]
fn slot_of(elf: &Elf, entry: &Entry) -> Slot
    ensures { result ≡ slot_of elf.now entry.now }
{
    Slot {
        address: entry.offset,
        kind: entry.kind,
        target: target_of(elf, entry),
        kept: is_kept_at(elf, entry.offset),
    }
}

/// The slots that the entries fill, in their order.
#[tactic(auto, unfolding(crate::specs::Slots::slots_of))]
fn read_slots(alloc: Global, elf: &Elf, list: &[Entry]) -> Result<Vec<Slot>, AllocError>
    requires { list.now ≡ entries elf.now }
    ensures { IfOk result (λ slots. slots.items ≡ slots_of elf.now) }
{
    list.iter().map(|entry| slot_of(elf, entry)).collect(alloc)
}

/// The slots to which a symbol is copied.
#[tactic(auto, unfolding(crate::specs::Slots::copies_of))]
fn copies_of(alloc: Global, slots: &[Slot]) -> Result<Vec<Slot>, AllocError>
    ensures { IfOk result (λ copies. copies.items ≡ filter is_copy_slot slots.now) }
{
    slots
        .iter()
        .copied()
        .filter(|slot| slot.is_copy())
        .collect(alloc)
}

/// The slot that an address belongs to, among slots that don't overlap.
#[tactic(auto, unfolding(crate::specs::Slots::slot_around))]
fn around(list: &[Slot], address: u64) -> Option<Slot>
    requires { AllPairs EndsBefore list.now }
    ensures { result ≡ slot_around list.now address }
{
    let number = number_around(list, address)?;
    Some(list[number])
}

/// How many of the slots, which ascend, begin below an address.
fn count_before(list: &[Slot], address: u64) -> usize
    requires { IsNonDecreasingBy (λ s. s.address) list.now }
    ensures before { (k : ℕ) (s : SlotFields) → k < result → slice_get list.now k ≡ Some s → s.address < address }
    ensures after { (k : ℕ) (s : SlotFields) → result ≤ k → slice_get list.now k ≡ Some s → address ≤ s.address }
{
    list.partition_point(|slot| slot.address < address)
}

/// The slot that starts at an address, among slots that ascend.
fn find(list: &[Slot], address: u64) -> Option<Slot>
    requires { AllPairs EndsBefore list.now }
    ensures { result ≡ slot_at list.now address }
{
    let next = count_before(list, address);
    if next >= list.len() {
        return None;
    }
    let slot = list[next];
    if slot.address == address {
        Some(slot)
    } else {
        None
    }
}

impl Relocs {
    /// Reads the relocations of a file.
    ///
    /// # Errors
    ///
    /// The first fault of the phase relocations, exactly where there is one: `UnknownReloc`, `BadHeader`,
    /// `BadString` or `BadRelocPlace`. Or `Memory`, where there is not enough memory.
    #[tactic(auto, unfolding(crate::specs::Relocations::relocation_rules))]
    pub fn read(alloc: Global, elf: &Elf) -> Result<Relocs, Refusal>
        ensures judged { Judges result (first (relocation_rules elf.now)) }
        ensures file { IfOk result (λ relocs. relocs ≡ elf.now) }
    {
        check_tables(elf)?;
        let entries = ordered_entries(alloc, elf)?;
        let foreign = Places::<Foreign>::of(alloc, elf.file())?;
        check_entries(elf, &foreign, &entries)?;
        drop(foreign);
        let slots = read_slots(alloc, elf, &entries)?;
        let copies = copies_of(alloc, &slots)?;
        Ok(Relocs {
            file: Snapshot::of(elf),
            slots,
            copies,
        })
    }

    /// All slots, by ascending address. None overlaps another.
    pub fn slots(&self) -> &[Slot]
        ensures list { result.now ≡ slots_of self.now }
        ensures apart { AllPairs EndsBefore result.now }
        ensures clean { first (relocation_rules self.now) ≡ None }
        ensures clean_file { first (elf_rules self.now) ≡ None }
    {
        &self.slots
    }

    /// The slot that starts at an address; `None` exactly where none does. The time is logarithmic in the
    /// number of slots.
    pub fn slot_at(&self, address: u64) -> Option<Slot>
        ensures { result ≡ slot_at (slots_of self.now) address }
    {
        find(&self.slots, address)
    }

    /// The slot that an address belongs to; `None` exactly where it belongs to none. The time is logarithmic in
    /// the number of slots.
    pub fn slot_around(&self, address: u64) -> Option<Slot>
        ensures { result ≡ slot_around (slots_of self.now) address }
    {
        around(&self.slots, address)
    }

    /// The slots to which a symbol is copied, by ascending address.
    pub fn copies(&self) -> &[Slot]
        ensures list { result.now ≡ copies_of self.now }
        ensures apart { AllPairs EndsBefore result.now }
    {
        &self.copies
    }

    /// The number of the copy that an address belongs to, its place in [`Relocs::copies`]; `None` exactly where it
    /// belongs to none. The time is logarithmic in the number of copies.
    #[tactic(auto, unfolding(crate::specs::Slots::copy_around))]
    pub fn copy_around(&self, address: u64) -> Option<usize>
        ensures { result ≡ copy_around self.now address }
    {
        number_around(&self.copies, address)
    }
}
