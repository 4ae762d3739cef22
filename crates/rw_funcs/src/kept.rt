//! The functions of a file, and where it starts.

ghost use Rattle.std.specs.Prelude.{◌≡◌, All, IfOk};
ghost use Rattle.rw_elf.specs.Tables.{IsNameIn};
ghost use Rattle.rw_funcs.specs.Functions.{by_range, entry_of, function_symbols, is_hosted, kept_functions};

use crate::hosted::{is_hosted, leave_out, main_start, startup_of};
use crate::symbols::{functions_by_range, keep_first_of_range};
use rw_elf::{Elf, Symbol};
use std::alloc::{AllocError, Global};

/// The functions of a file.
#[derive(Drop)]
pub(crate) struct Kept {
    /// Their symbols, by start and then end.
    pub(crate) list: Vec<Symbol>,
    /// Whether a C library starts the file.
    pub(crate) hosted: bool,
    /// The address at which it starts.
    pub(crate) entry: u64,
}

#[tactic(auto, unfolding(crate::specs::Functions::entry_of))]
fn entry_of(elf: &Elf, hosted: bool, list: &[Symbol]) -> u64
    requires hosted { hosted ≡ is_hosted elf.now }
    requires list { list.now ≡ by_range (function_symbols elf.now) }
    requires names { All (λ s. IsNameIn elf.now s.name) list.now }
    ensures { result ≡ entry_of elf.now }
{
    if hosted {
        main_start(elf, list)
    } else {
        elf.entry()
    }
}

/// The functions of a file, whatever rules they break.
#[tactic(auto, unfolding(crate::specs::Functions::kept_functions, crate::specs::Functions::ranges, crate::specs::Functions::startup_functions))]
pub(crate) fn kept_functions(alloc: Global, elf: &Elf) -> Result<Kept, AllocError>
    ensures list { IfOk result (λ kept. kept.list.items ≡ kept_functions elf.now) }
    ensures hosted { IfOk result (λ kept. kept.hosted ≡ is_hosted elf.now) }
    ensures entry { IfOk result (λ kept. kept.entry ≡ entry_of elf.now) }
    ensures names { IfOk result (λ kept. All (λ f. IsNameIn elf.now f.name) kept.list.items) }
{
    let mut list = functions_by_range(alloc, elf)?;
    let hosted = is_hosted(elf);
    let entry = entry_of(elf, hosted, &list);
    let startup = startup_of(alloc, elf, &list)?;
    keep_first_of_range(&mut list);
    leave_out(&mut list, hosted, &startup);
    Ok(Kept {
        list,
        hosted,
        entry,
    })
}
