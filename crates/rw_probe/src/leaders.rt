//! The leaders of a file, and their numbers.

ghost use Rattle.std.specs.Prelude.{◌≡◌, ◌==◌, IfOk, IfSome, OnOk, option_map, position};
ghost use Rattle.std.specs.List.Sorted.{IsStrictlyIncreasing};
ghost use Rattle.rw_probe.specs.Collecting.{AddsWhere};
ghost use Rattle.rw_probe.specs.Leaders.{is_leader, is_start, leaders_of};

use crate::blocks::push_blocks;
use rw_elf::Elf;
use rw_funcs::Functions;
use rw_reloc::Relocs;
use rw_tables::Tables;
use std::alloc::{AllocError, Global};
use std::marker::Model;

/// Which points are leaders.
#[derive(Clone, Copy, PartialEq, Eq, Debug)]
pub enum Mode {
    /// None.
    Nothing,
    /// The starts of functions.
    Starts,
    /// The starts of basic blocks: of functions; what a direct jump or call, a word of a jump table, a kept slot or an address
    /// relative to `%rip` refers to; and what comes directly after a jump, a call or a return of
    /// the same function.
    Blocks,
}

/// The leaders of a file. A contract sees them as the list of their addresses.
#[derive(Drop)]
pub struct Leaders {
    list: Vec<u64>,
}

impl Model for Leaders {
    ghost use Rattle.std.specs.Prelude.{List, ℕ};
    ghost use Rattle.rw_probe.specs.Collecting.{AreNumbered};

    ghost Value = { List ℕ };

    ghost view = { λ l. l.list.items };

    ghost invariant = { λ l. AreNumbered l.list.items };
}

fn push_starts(list: &mut Vec<u64>, functions: &Functions) -> Result<(), AllocError>
    ensures { OnOk result (AddsWhere (is_start functions.now) list.old.items list.new.items) }
{
    for function in functions.list() {
        list.push(function.span.start)?;
    }
    Ok(())
}

fn push_leaders(
    list: &mut Vec<u64>,
    elf: &Elf,
    relocs: &Relocs,
    functions: &Functions,
    tables: &Tables,
    mode: Mode,
) -> Result<(), AllocError>
    requires relocs { relocs.now ≡ elf.now }
    requires functions { functions.now ≡ elf.now }
    requires tables { tables.now ≡ elf.now }
    ensures { OnOk result (AddsWhere (is_leader elf.now mode) list.old.items list.new.items) }
{
    match mode {
        Mode::Nothing => Ok(()),
        Mode::Starts => push_starts(list, functions),
        Mode::Blocks => {
            push_starts(list, functions)?;
            push_blocks(list, elf, relocs, functions, tables)
        }
    }
}

impl Leaders {
    /// The leaders of a file. The time is near-linear in the length of its code and the numbers of its slots and of the words
    /// of its tables. The memory is 8 bytes for each start, reference, slot and word that leads to a point.
    pub fn of(
        alloc: Global,
        elf: &Elf,
        relocs: &Relocs,
        functions: &Functions,
        tables: &Tables,
        mode: Mode,
    ) -> Result<Leaders, AllocError>
        requires relocs { relocs.now ≡ elf.now }
        requires functions { functions.now ≡ elf.now }
        requires tables { tables.now ≡ elf.now }
        ensures { IfOk result (λ leaders. leaders ≡ leaders_of elf.now mode) }
    {
        // (for their clauses `clean`: the file has no fault in these phases)
        let _functions = functions.list();
        let _tables = tables.list();
        let mut list = Vec::new(alloc);
        push_leaders(&mut list, elf, relocs, functions, tables, mode)?;
        list.sort_unstable();
        list.dedup();
        Ok(Leaders { list })
    }

    /// The addresses of the leaders, ascending.
    pub fn list(&self) -> &[u64]
        ensures list { result.now ≡ self.now }
        ensures ascend { IsStrictlyIncreasing result.now }
    {
        &self.list
    }

    /// The number of the leader at an address, counted from 0 by ascending address; `None` exactly where no leader is there.
    /// The time is logarithmic in the number of leaders.
    pub fn number_of(&self, c: u64) -> Option<u32>
        ensures { result ≡ position (λ leader. leader == c) self.now }
    {
        match self.list.binary_search(&c) {
            Ok(number) => Some(number as u32),
            Err(_) => None,
        }
    }
}
