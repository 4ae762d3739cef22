//! Files that a C library starts, and the code that such a file has around main.

ghost use Rattle.std.specs.Prelude.{◌≡◌, ◌&&◌, All, IfOk, filter, find, not};
ghost use Rattle.std.specs.List.{list_any};
ghost use Rattle.std.specs.List.Sorted.{IsSortedBy, IsNonDecreasingBy};
ghost use Rattle.rw_elf.specs.Symbols.{symbols, dynamic_symbols};
ghost use Rattle.rw_elf.specs.Tables.{IsNameIn};
ghost use Rattle.rw_funcs.specs.Functions.{by_range, comes_before, function_symbols, is_function, is_hosted, is_main, is_startup, main_start, same_range, starts_at, starts_main, startup_symbols};

use crate::symbols::{considered_by_range, end_of, is_function};
use rw_elf::abi::SHN_UNDEF;
use rw_elf::{Elf, Symbol};
use std::alloc::{AllocError, Global};

fn is_main(elf: &Elf, symbol: &Symbol) -> bool
    requires { IsNameIn elf.now symbol.now.name }
    ensures { result ≡ is_main elf.now symbol.now }
{
    elf.name_of(symbol.name) == b"main".as_slice()
}

fn starts_main(elf: &Elf, symbol: &Symbol) -> bool
    requires { IsNameIn elf.now symbol.now.name }
    ensures { result ≡ starts_main elf.now symbol.now }
{
    symbol.section == SHN_UNDEF && elf.name_of(symbol.name) == b"__libc_start_main".as_slice()
}

fn any_main(elf: &Elf) -> bool
    ensures { result ≡ list_any (λ s. is_function elf.now s && is_main elf.now s) (symbols elf.now) }
{
    elf.symbols()
        .iter()
        .any(|symbol| is_function(elf, symbol) && is_main(elf, symbol))
}

fn any_starts_main(elf: &Elf) -> bool
    ensures { result ≡ list_any (starts_main elf.now) (dynamic_symbols elf.now) }
{
    elf.dynamic_symbols()
        .iter()
        .any(|symbol| starts_main(elf, symbol))
}

/// Whether a C library starts the file: it has a function named `main`, and imports `__libc_start_main`. The time is
/// linear in the number of symbols.
#[tactic(auto, using(crate::proofs::Ranges::any_function), unfolding(crate::specs::Functions::is_hosted))]
pub fn is_hosted(elf: &Elf) -> bool
    ensures { result ≡ is_hosted elf.now }
{
    any_main(elf) && any_starts_main(elf)
}

fn first_main(elf: &Elf, list: &[Symbol]) -> Option<Symbol>
    requires { All (λ s. IsNameIn elf.now s.name) list.now }
    ensures { result ≡ find (is_main elf.now) list.now }
{
    list.iter().copied().find(|symbol| is_main(elf, symbol))
}

/// Where `main` starts, in a file with these functions by range.
#[tactic(auto, unfolding(crate::specs::Functions::main_start))]
pub(crate) fn main_start(elf: &Elf, list: &[Symbol]) -> u64
    requires list { list.now ≡ by_range (function_symbols elf.now) }
    requires names { All (λ s. IsNameIn elf.now s.name) list.now }
    ensures { result ≡ main_start elf.now }
{
    match first_main(elf, list) {
        Some(symbol) => symbol.value,
        None => 0,
    }
}

fn is_startup(elf: &Elf, symbol: &Symbol) -> bool
    requires { IsNameIn elf.now symbol.now.name }
    ensures { result ≡ is_startup elf.now symbol.now }
{
    let name = elf.name_of(symbol.name);
    name == b"_start".as_slice()
        || name == b"_init".as_slice()
        || name == b"_fini".as_slice()
        || name == b"_dl_relocate_static_pie".as_slice()
        || name == b"deregister_tm_clones".as_slice()
        || name == b"register_tm_clones".as_slice()
        || name == b"__do_global_dtors_aux".as_slice()
        || name == b"frame_dummy".as_slice()
        || name == b"__libc_csu_init".as_slice()
        || name == b"__libc_csu_fini".as_slice()
}

/// Those of some symbols that have the name of startup code.
pub(crate) fn startup_of(
    alloc: Global,
    elf: &Elf,
    list: &[Symbol],
) -> Result<Vec<Symbol>, AllocError>
    requires { All (λ s. IsNameIn elf.now s.name) list.now }
    ensures { IfOk result (λ startup. startup.items ≡ filter (is_startup elf.now) list.now) }
{
    list.iter()
        .copied()
        .filter(|symbol| is_startup(elf, symbol))
        .collect(alloc)
}

/// The considered symbols with the name of startup code, by range.
#[tactic(auto, unfolding(crate::specs::Functions::startup_symbols))]
pub(crate) fn startup_symbols(alloc: Global, elf: &Elf) -> Result<Vec<Symbol>, AllocError>
    ensures { IfOk result (λ startup. startup.items ≡ startup_symbols elf.now) }
{
    let list = considered_by_range(alloc, elf)?;
    startup_of(alloc, elf, &list)
}

fn comes_before(f: &Symbol, g: &Symbol) -> bool
    ensures { result ≡ comes_before f.now g.now }
{
    f.value < g.value || (f.value == g.value && end_of(f) < end_of(g))
}

fn same_range(f: &Symbol, g: &Symbol) -> bool
    ensures { result ≡ same_range f.now g.now }
{
    f.value == g.value && f.size == g.size
}

/// Whether one of some symbols, which are in order, has the range of a function. The time is logarithmic.
pub(crate) fn has_range(list: &[Symbol], function: &Symbol) -> bool
    requires { IsSortedBy comes_before list.now }
    ensures { result ≡ list_any (same_range function.now) list.now }
{
    let next = list.partition_point(|symbol| comes_before(symbol, function));
    next < list.len() && same_range(function, &list[next])
}

fn starts_at(address: u64, symbol: &Symbol) -> bool
    ensures { result ≡ starts_at address symbol.now }
{
    symbol.value == address
}

/// Whether one of some symbols, which are in order, starts at an address. The time is logarithmic.
pub(crate) fn has_start(list: &[Symbol], address: u64) -> bool
    requires { IsNonDecreasingBy (λ f. f.value) list.now }
    ensures { result ≡ list_any (starts_at address) list.now }
{
    let next = list.partition_point(|symbol| symbol.value < address);
    next < list.len() && starts_at(address, &list[next])
}

/// Leaves out, where a C library starts the file, the functions whose range one of the symbols of startup code has.
pub(crate) fn leave_out(list: &mut Vec<Symbol>, hosted: bool, startup: &[Symbol])
    requires { IsSortedBy comes_before startup.now }
    ensures { list.new.items ≡ filter (λ f. not (hosted && list_any (same_range f) startup.now)) list.old.items }
{
    list.retain(|function| !(hosted && has_range(startup, function)));
}
