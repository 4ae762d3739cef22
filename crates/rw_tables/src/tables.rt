//! The jump tables of a file, and their words by address.

ghost use Rattle.std.specs.Prelude.{◌≡◌, ◌-◌, None, IfOk, OnOk};
ghost use Rattle.std.specs.List.{AllPairs, dedup};
ghost use Rattle.rw_base.specs.Answers.{Judges};
ghost use Rattle.rw_base.specs.Order.{ordered};
ghost use Rattle.rw_base.specs.Rules.{first};
ghost use Rattle.rw_tables.specs.Tables.{EndsBefore, comes_before, entry_at, lacking, same_base, table_rules, tables_of};

use crate::check::checked_tables;
use crate::entries::entries_of;
use crate::jump::jumps_of;
use crate::table::Table;
use rw_base::Refusal;
use rw_elf::Elf;
use rw_funcs::Functions;
use rw_reloc::Relocs;
use std::alloc::{AllocError, Global};
use std::collections::BTreeMap;
use std::marker::Model;
use std::snapshot::Snapshot;

/// The jump tables of a file in which the phase tables has no fault. A contract sees them as the list of the file's bytes,
/// which they don't keep.
#[derive(Drop)]
pub struct Tables {
    file: Snapshot<Elf>,
    list: Vec<Table>,
    entries: BTreeMap<u64, (u64, u64)>,
}

impl Model for Tables {
    ghost use Rattle.std.specs.Prelude.{List, ℕ};
    ghost use Rattle.rw_tables.specs.Entries.{AreTablesOf};

    ghost Value = { List ℕ };

    ghost view = { λ t. t.file.value };

    ghost invariant = { λ t. AreTablesOf t.file.value t.list.items t.entries };
}

fn lacking(table: &Table) -> u64
    ensures { result ≡ lacking table.now }
{
    65536u64.saturating_sub(table.count)
}

fn sort_by_base(list: &mut Vec<Table>) -> Result<(), AllocError>
    ensures { OnOk result (list.new.items ≡ ordered comes_before list.old.items) }
{
    list.sort_by_key(|table| (table.base, lacking(table)))?;
    Ok(())
}

fn keep_first_of_base(list: &mut Vec<Table>)
    ensures { list.new.items ≡ dedup same_base list.old.items }
{
    list.dedup_by_key(|table| table.base);
}

impl Tables {
    /// Finds the jump tables of a file.
    ///
    /// # Errors
    ///
    /// The fault of the first indirect jump on a register that a 64-bit add wrote last in its run, where it isn't a dispatch
    /// (`UnknownTable`) or its table isn't good (`BadTable`). Or `Memory`, where there is not enough memory.
    ///
    /// `_relocs` isn't looked at: tables are searched once the file's relocations are read.
    #[tactic(auto, unfolding(crate::specs::Tables::tables_of))]
    pub fn find(
        alloc: Global,
        elf: &Elf,
        _relocs: &Relocs,
        functions: &Functions,
    ) -> Result<Tables, Refusal>
        requires relocs { _relocs.now ≡ elf.now }
        requires functions { functions.now ≡ elf.now }
        ensures judged { Judges result (first (table_rules elf.now)) }
        ensures file { IfOk result (λ tables. tables ≡ elf.now) }
    {
        let jumps = jumps_of(alloc, functions)?;
        let mut list = checked_tables(alloc, elf, functions, &jumps)?;
        sort_by_base(&mut list)?;
        keep_first_of_base(&mut list);
        let entries = entries_of(alloc, elf, &list)?;
        Ok(Tables {
            file: Snapshot::of(elf),
            list,
            entries,
        })
    }

    /// The tables, by ascending base; each base has one, and none overlaps another.
    pub fn list(&self) -> &[Table]
        ensures list { result.now ≡ tables_of self.now }
        ensures apart { AllPairs EndsBefore result.now }
        ensures clean { first (table_rules self.now) ≡ None }
    {
        &self.list
    }

    /// The point to which the word of a table leads that starts at an address, and the base of this table; `None` exactly where
    /// no word of a table starts there. The time is logarithmic in the number of words.
    pub fn entry_at(&self, address: u64) -> Option<(u64, u64)>
        ensures { result ≡ entry_at self.now address }
    {
        self.entries.get(&address).copied()
    }
}
