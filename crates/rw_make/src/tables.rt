//! Symbol tables, their string tables, and relocation tables.

ghost use Rattle.std.specs.Prelude.{◌≡◌, ◌≤◌, ◌<◌, ◌+◌, ◌*◌, ◌%◌, ◌++◌, ◌^◌, OnOk, IfOk, length};
ghost use Rattle.rw_make.specs.Tables.{symbol_entry, symbol_table, symbol_names, rela_entry, rela_table as table_of};

use crate::bytes::{put_half, put_name, put_word, put_xword};
use crate::parts::{PartRela, PartSymbol};
use std::alloc::{AllocError, Global};

/// The entries of a symbol table, and its string table.
#[derive(Drop)]
pub(crate) struct SymbolTable {
    pub(crate) entries: Vec<u8>,
    pub(crate) names: Vec<u8>,
}

/// Adds a symbol whose name stands at this place of the string table.
#[tactic(auto, unfolding(crate::specs::Tables::symbol_entry))]
fn put_symbol(out: &mut Vec<u8>, name: u64, symbol: &PartSymbol) -> Result<(), AllocError>
    ensures { OnOk result (out.new.items ≡ out.old.items ++ symbol_entry name symbol.now) }
{
    put_word(out, name)?;
    out.push(symbol.bind % 16 * 16 + symbol.sort % 16)?;
    out.push(0)?;
    put_half(out, u64::from(symbol.section))?;
    put_xword(out, symbol.value)?;
    put_xword(out, symbol.size)?;
    Ok(())
}

/// The tables of these symbols.
pub(crate) fn symbol_tables(
    alloc: Global,
    symbols: &[PartSymbol],
) -> Result<SymbolTable, AllocError>
    ensures entries { IfOk result (λ tables. tables.entries.items ≡ symbol_table symbols.now) }
    ensures names { IfOk result (λ tables. tables.names.items ≡ symbol_names symbols.now) }
{
    let mut entries = vec![in alloc; 0; 24]?;
    let mut names = vec![in alloc; 0]?;
    for symbol in symbols {
        put_symbol(&mut entries, names.len() as u64, symbol)?;
        put_name(&mut names, &symbol.name)?;
    }
    Ok(SymbolTable { entries, names })
}

/// Adds an entry of a relocation table.
#[tactic(auto, unfolding(crate::specs::Tables::rela_entry))]
fn put_rela(out: &mut Vec<u8>, rela: &PartRela) -> Result<(), AllocError>
    ensures { OnOk result (out.new.items ≡ out.old.items ++ rela_entry rela.now) }
{
    put_xword(out, rela.offset)?;
    put_xword(out, u64::from(rela.sym) * (1 << 32) + u64::from(rela.kind))?;
    put_xword(out, rela.addend)?;
    Ok(())
}

/// The table of these relocation entries.
#[tactic(auto, unfolding(crate::specs::Tables::rela_table))]
pub(crate) fn rela_table(alloc: Global, relas: &[PartRela]) -> Result<Vec<u8>, AllocError>
    ensures { IfOk result (λ table. table.items ≡ table_of relas.now) }
{
    let mut table = Vec::new(alloc);
    for rela in relas {
        put_rela(&mut table, rela)?;
    }
    Ok(table)
}
