//! A file in which no phase finds a fault.

ghost use Rattle.std.specs.Prelude.{◌≡◌, None, IfOk};
ghost use Rattle.rw_base.specs.Answers.{Judges};
ghost use Rattle.rw_data.specs.FirstFault.{first_fault};

use rw_base::Refusal;
use rw_elf::Elf;
use rw_funcs::Functions;
use rw_refs::{check_code, check_slots};
use rw_reloc::Relocs;
use rw_tables::Tables;
use std::alloc::Global;
use std::marker::Model;

/// A file that has no fault, with its tables, relocations, functions and jump tables. A contract sees it as the list of the
/// file's bytes.
#[derive(Drop)]
pub struct Picture {
    elf: Elf,
    relocs: Relocs,
    functions: Functions,
    tables: Tables,
}

impl Model for Picture {
    ghost use Rattle.std.specs.Prelude.{List, ℕ};
    ghost use Rattle.rw_data.specs.Picture.{IsPictureOf};

    ghost Value = { List ℕ };

    ghost view = { λ p. p.elf };

    ghost invariant = { λ p. IsPictureOf p.elf p.relocs p.functions p.tables };
}

impl Picture {
    /// Reads a file, of at most 16 MiB: all phases in their order, each over the results of those before it. The time is near to
    /// linear in the length of the file and the number of words that its relocation tables name.
    ///
    /// # Errors
    ///
    /// The first fault of the file, exactly where there is one: of the phases size, header, sections, symbols, relocations,
    /// functions, instructions, tables, code references and data targets, in this order. Or `Memory`, where there is not enough
    /// memory.
    #[tactic(auto, using(rw_base::proofs::First::first_append))]
    pub fn of(alloc: Global, bytes: Vec<u8>) -> Result<Picture, Refusal>
        ensures judged { Judges result (first_fault bytes.items) }
        ensures file { IfOk result (λ picture. picture ≡ bytes.items) }
    {
        let elf = Elf::read(alloc, bytes)?;
        let relocs = Relocs::read(alloc, &elf)?;
        let functions = Functions::find(alloc, &elf, &relocs)?;
        let tables = Tables::find(alloc, &elf, &relocs, &functions)?;
        check_code(&elf, &relocs, &functions)?;
        check_slots(&elf, &relocs, &functions)?;
        Ok(Picture {
            elf,
            relocs,
            functions,
            tables,
        })
    }

    /// The file's header, sections and symbols. The file has no fault.
    pub fn elf(&self) -> &Elf
        ensures file { result.now ≡ self.now }
        ensures clean { first_fault self.now ≡ None }
    {
        &self.elf
    }

    /// The file's slots.
    pub fn relocs(&self) -> &Relocs
        ensures file { result.now ≡ self.now }
        ensures clean { first_fault self.now ≡ None }
    {
        &self.relocs
    }

    /// The file's functions and their points.
    pub fn funcs(&self) -> &Functions
        ensures file { result.now ≡ self.now }
        ensures clean { first_fault self.now ≡ None }
    {
        &self.functions
    }

    /// The file's jump tables.
    pub fn tables(&self) -> &Tables
        ensures file { result.now ≡ self.now }
        ensures clean { first_fault self.now ≡ None }
    {
        &self.tables
    }
}
