//! The points at which blocks begin that no function's start is.

ghost use Rattle.std.specs.Prelude.{◌≡◌, ◌+◌, ◌≤◌, ◌^◌, ◌==◌, ◌||◌, ◌&&◌, nat_lt, OnOk, length, option_and_then};
ghost use Rattle.rw_funcs.specs.Points.{points};
ghost use Rattle.rw_tables.specs.Tables.{end_of};
ghost use Rattle.x86_insn.specs.References.{reference_of};
ghost use Rattle.rw_probe.specs.Collecting.{AddsWhere, begins_by};
ghost use Rattle.rw_probe.specs.Leaders.{ends_block, held_by, is_behind, is_code, is_held, is_in, is_in_table, is_named, named_at};

use rw_elf::Elf;
use rw_funcs::Functions;
use rw_refs::{ref_at, target_at};
use rw_reloc::{Relocs, Slot, Target};
use rw_tables::{Table, Tables};
use rw_words::Atom;
use std::alloc::AllocError;
use x86_decode::decode_one;
use x86_insn::Insn;

// Whether a block ends with the instruction.
fn ends_block(insn: &Insn<u64>) -> bool
    ensures { result ≡ ends_block insn.now }
{
    matches!(
        insn,
        Insn::Jcc { .. }
            | Insn::Jmp { .. }
            | Insn::JmpTo { .. }
            | Insn::Call { .. }
            | Insn::CallTo { .. }
            | Insn::Ret
    )
}

// What an instruction names: the target of a direct jump or call, or an address relative to %rip.
fn named_by(elf: &Elf, relocs: &Relocs, functions: &Functions, insn: &Insn<u64>) -> Option<Atom>
    requires relocs { relocs.now ≡ elf.now }
    requires functions { functions.now ≡ elf.now }
    ensures { result ≡ option_and_then (named_at elf.now insn.now) (reference_of insn.now) }
{
    let named = insn.reference()?;
    match insn {
        Insn::Jcc { .. } | Insn::Jmp { .. } | Insn::Call { .. } => {
            target_at(elf, relocs, functions, named)
        }
        _ => ref_at(elf, relocs, functions, named),
    }
}

// Adds the point that an atom is the code of, if it is one.
fn push_code(list: &mut Vec<u64>, atom: Option<Atom>) -> Result<(), AllocError>
    ensures { OnOk result (AddsWhere (λ c. is_code c atom) list.old.items list.new.items) }
{
    if let Some(Atom::Code(c)) = atom {
        list.push(c)?;
    }
    Ok(())
}

// Adds an address behind a point, where it is below the end of the function.
fn push_below(list: &mut Vec<u64>, next: u64, end: u64, ends: bool) -> Result<(), AllocError>
    ensures { OnOk result (AddsWhere (λ c. (ends && next == c) && nat_lt c end) list.old.items list.new.items) }
{
    if ends && next < end {
        list.push(next)?;
    }
    Ok(())
}

// Adds what begins by the points of some code, the first of which is at an address.
fn push_points(
    list: &mut Vec<u64>,
    elf: &Elf,
    relocs: &Relocs,
    functions: &Functions,
    code: &[u8],
    start: u64,
) -> Result<(), AllocError>
    requires relocs { relocs.now ≡ elf.now }
    requires functions { functions.now ≡ elf.now }
    requires fits { start + length code.now ≤ 2 ^ 47 }
    ensures { OnOk result (AddsWhere (begins_by elf.now (start + length code.now) (points (length code.now) start code.now)) list.old.items list.new.items) }
{
    let mut at = 0;
    while let Some((insn, len)) = decode_one(&code[at..], start + at as u64) {
        push_code(list, named_by(elf, relocs, functions, &insn))?;
        at += usize::from(len);
        push_below(
            list,
            start + at as u64,
            start + code.len() as u64,
            ends_block(&insn),
        )?;
    }
    Ok(())
}

// Adds what begins by the points of all functions.
fn push_functions(
    list: &mut Vec<u64>,
    elf: &Elf,
    relocs: &Relocs,
    functions: &Functions,
) -> Result<(), AllocError>
    requires relocs { relocs.now ≡ elf.now }
    requires functions { functions.now ≡ elf.now }
    ensures { OnOk result (AddsWhere (λ c. is_named elf.now c || is_behind elf.now c) list.old.items list.new.items) }
{
    for function in functions.list() {
        let code = functions.code_of(function);
        push_points(list, elf, relocs, functions, code, function.span.start)?;
    }
    Ok(())
}

// What a kept slot refers to.
fn held_by(elf: &Elf, relocs: &Relocs, functions: &Functions, slot: &Slot) -> Option<Atom>
    requires relocs { relocs.now ≡ elf.now }
    requires functions { functions.now ≡ elf.now }
    ensures { result ≡ held_by elf.now slot.now }
{
    match slot.target {
        Target::To(address) if slot.kept => ref_at(elf, relocs, functions, address),
        _ => None,
    }
}

fn push_slots(
    list: &mut Vec<u64>,
    elf: &Elf,
    relocs: &Relocs,
    functions: &Functions,
) -> Result<(), AllocError>
    requires relocs { relocs.now ≡ elf.now }
    requires functions { functions.now ≡ elf.now }
    ensures { OnOk result (AddsWhere (is_held elf.now) list.old.items list.new.items) }
{
    for slot in relocs.slots() {
        push_code(list, held_by(elf, relocs, functions, slot))?;
    }
    Ok(())
}

// Adds where the words of a table lead.
fn push_words(list: &mut Vec<u64>, tables: &Tables, table: &Table) -> Result<(), AllocError>
    requires { end_of table.now ≤ 2 ^ 47 }
    ensures { OnOk result (AddsWhere (λ c. is_in tables.now c table.now) list.old.items list.new.items) }
{
    for k in 0..table.count {
        if let Some((target, _)) = tables.entry_at(table.base + 4 * k) {
            list.push(target)?;
        }
    }
    Ok(())
}

fn push_tables(list: &mut Vec<u64>, elf: &Elf, tables: &Tables) -> Result<(), AllocError>
    requires { tables.now ≡ elf.now }
    ensures { OnOk result (AddsWhere (is_in_table elf.now) list.old.items list.new.items) }
{
    // (for its clause `clean`: the file has no fault in these tables)
    let _file = elf.file();
    for table in tables.list() {
        push_words(list, tables, table)?;
    }
    Ok(())
}

/// Adds the points at which blocks begin that no function's start is.
pub(crate) fn push_blocks(
    list: &mut Vec<u64>,
    elf: &Elf,
    relocs: &Relocs,
    functions: &Functions,
    tables: &Tables,
) -> Result<(), AllocError>
    requires relocs { relocs.now ≡ elf.now }
    requires functions { functions.now ≡ elf.now }
    requires tables { tables.now ≡ elf.now }
    ensures { OnOk result (AddsWhere (λ c. (is_named elf.now c || is_behind elf.now c) || (is_held elf.now c || is_in_table elf.now c)) list.old.items list.new.items) }
{
    push_functions(list, elf, relocs, functions)?;
    push_slots(list, elf, relocs, functions)?;
    push_tables(list, elf, tables)
}
