//! The rule of the phase tables.

ghost use Rattle.std.specs.Prelude.{◌≡◌, ◌≤◌, ◌^◌, ◌++◌, List, [], All, IfOk, OnOk};
ghost use Rattle.std.specs.List.{cons_option};
ghost use Rattle.std.specs.Result.{result_err};
ghost use Rattle.rw_base.specs.Answers.{Judges};
ghost use Rattle.rw_base.specs.Rules.{first};
ghost use Rattle.rw_tables.specs.declared.table.Table.{Table as TableFields};
ghost use Rattle.rw_tables.specs.Jumps.{jumps_of};
ghost use Rattle.rw_tables.specs.Known.{Adds, AreApart, AreLed, Knows};
ghost use Rattle.rw_tables.specs.Tables.{end_of, table_fault, table_rules, tables_in};

use crate::jump::Jump;
use crate::known::add;
use crate::table::{Table, is_good};
use rw_base::{Fault, Refusal};
use rw_elf::Elf;
use rw_funcs::Functions;
use std::alloc::{AllocError, Global};
use std::collections::BTreeMap;

// Checks the table of a jump beside those that are known.
fn check_table(
    elf: &Elf,
    functions: &Functions,
    known: &BTreeMap<u64, u64>,
    jump: &Jump,
) -> Result<(), Fault>
    requires file { functions.now ≡ elf.now }
    requires led { AreLed elf.now known.now }
    ensures { (earlier : List TableFields) → Knows earlier known.now → result_err result ≡ table_fault elf.now earlier jump.now.place jump.now.table }
{
    match jump.table {
        None => Err(Fault::UnknownTable(jump.place)),
        Some(table) if !is_good(elf, functions, known, &table) => {
            Err(Fault::BadTable(jump.place))
        }
        _ => Ok(()),
    }
}

fn push_some(
    tables: &mut Vec<Table>,
    known: &mut BTreeMap<u64, u64>,
    table: Option<Table>,
) -> Result<(), AllocError>
    ensures tables { OnOk result (tables.new.items ≡ tables.old.items ++ cons_option table []) }
    ensures known { OnOk result (Adds known.old known.new table) }
{
    if let Some(table) = table {
        tables.push(table)?;
        add(known, &table)?;
    }
    Ok(())
}

/// The tables of jumps, one of each, where each jump has a good one.
///
/// # Errors
///
/// The fault of the first jump that hasn't: `UnknownTable` where it is no dispatch, else `BadTable`.
pub(crate) fn checked_tables(
    alloc: Global,
    elf: &Elf,
    functions: &Functions,
    jumps: &[Jump],
) -> Result<Vec<Table>, Refusal>
    requires file { functions.now ≡ elf.now }
    requires jumps { jumps.now ≡ jumps_of elf.now }
    ensures judged { Judges result (first (table_rules elf.now)) }
    ensures tables { IfOk result (λ tables. tables.items ≡ tables_in jumps.now) }
    ensures apart { IfOk result (λ tables. AreApart tables.items) }
    ensures low { IfOk result (λ tables. All (λ t. end_of t ≤ 2 ^ 47) tables.items) }
{
    // (for its clause `clean`: the file has no fault in these tables)
    let _file = elf.file();
    let mut tables = Vec::new(alloc);
    let mut known = BTreeMap::new(alloc);
    for jump in jumps {
        check_table(elf, functions, &known, jump)?;
        push_some(&mut tables, &mut known, jump.table)?;
    }
    Ok(tables)
}
