//! The rules of the phase functions.

ghost use Rattle.std.specs.Prelude.{◌≡◌, ◌+◌, ◌≤◌, ◌^◌, not};
ghost use Rattle.std.specs.List.{list_any};
ghost use Rattle.std.specs.List.Sorted.{IsNonDecreasingBy};
ghost use Rattle.std.specs.Result.{result_err};
ghost use Rattle.rw_base.specs.declared.fault.Fault.TheVariants.{NoEntry};
ghost use Rattle.rw_base.specs.Rules.{first, first_of, each_of, once, when};
ghost use Rattle.rw_funcs.specs.Functions.{kept_functions, is_inside, is_inside_its_section, crosses, crossing_functions, starts_at, entry_of, missing_entry, is_hosted, startup_symbols, is_array, words_of, is_startup_target, is_startup_word, word_fault, constructors, function_rules};

use crate::hosted::has_start;
use crate::kept::Kept;
use crate::symbols::end_of;
use rw_base::Fault;
use rw_elf::abi::{SHT_FINI_ARRAY, SHT_INIT_ARRAY, SHT_PREINIT_ARRAY};
use rw_elf::{Elf, Section, Symbol};
use rw_reloc::{Relocs, Target};

fn is_inside(function: &Symbol, section: &Section) -> bool
    ensures { result ≡ is_inside function.now section.now }
{
    let most = u128::from(section.addr) + u128::from(section.size);
    section.addr <= function.value && end_of(function) <= most
}

fn is_inside_its_section(elf: &Elf, function: &Symbol) -> bool
    ensures { result ≡ is_inside_its_section elf.now function.now }
{
    match elf.sections().get(usize::from(function.section)) {
        Some(section) => is_inside(function, section),
        None => false,
    }
}

// Whether each function lies in its section, behind the one before it.
fn check_crossing(elf: &Elf, list: &[Symbol]) -> Result<(), Fault>
    ensures { result_err result ≡ first_of (each_of list.now (crosses elf.now list.now)) }
{
    for (place, function) in list.iter().enumerate() {
        if !is_inside_its_section(elf, function) {
            return Err(Fault::Crosses(function.value));
        }
        if place > 0 && u128::from(function.value) < end_of(&list[place - 1]) {
            return Err(Fault::Crosses(function.value));
        }
    }
    Ok(())
}

fn any_starts_at(list: &[Symbol], address: u64) -> bool
    ensures { result ≡ list_any (starts_at address) list.now }
{
    list.iter().any(|function| function.value == address)
}

fn check_entry(entry: u64, list: &[Symbol]) -> Result<(), Fault>
    ensures { result_err result ≡ first_of (once (when (not (list_any (starts_at entry) list.now)) NoEntry)) }
{
    if any_starts_at(list, entry) {
        Ok(())
    } else {
        Err(Fault::NoEntry)
    }
}

fn is_array(section: &Section) -> bool
    ensures { result ≡ is_array section.now }
{
    matches!(
        section.kind,
        SHT_INIT_ARRAY | SHT_FINI_ARRAY | SHT_PREINIT_ARRAY
    )
}

fn is_startup_target(startup: &[Symbol], target: &Target) -> bool
    requires { IsNonDecreasingBy (λ f. f.value) startup.now }
    ensures { result ≡ is_startup_target startup.now target.now }
{
    match target {
        Target::To(address) => has_start(startup, *address),
        _ => false,
    }
}

#[tactic(auto, using(crate::proofs::Ranges::startup_ascends), unfolding(crate::specs::Functions::is_startup_word))]
fn is_startup_word(relocs: &Relocs, startup: &[Symbol], address: u64) -> bool
    requires { startup.now ≡ startup_symbols relocs.now }
    ensures { result ≡ is_startup_word relocs.now address }
{
    match relocs.slot_at(address) {
        Some(slot) => is_startup_target(startup, &slot.target),
        None => false,
    }
}

fn check_word(relocs: &Relocs, hosted: bool, startup: &[Symbol], address: u64) -> Result<(), Fault>
    requires hosted { hosted ≡ is_hosted relocs.now }
    requires startup { startup.now ≡ startup_symbols relocs.now }
    ensures { result_err result ≡ word_fault relocs.now 0 address }
{
    if hosted && is_startup_word(relocs, startup, address) {
        Ok(())
    } else {
        Err(Fault::Constructors(address))
    }
}

fn check_array(
    relocs: &Relocs,
    hosted: bool,
    startup: &[Symbol],
    section: &Section,
) -> Result<(), Fault>
    requires hosted { hosted ≡ is_hosted relocs.now }
    requires startup { startup.now ≡ startup_symbols relocs.now }
    requires place { section.now.addr + section.now.size ≤ 2 ^ 47 }
    ensures { result_err result ≡ first_of (each_of (words_of section.now) (word_fault relocs.now)) }
{
    if !is_array(section) {
        return Ok(());
    }
    for k in 0..section.size / 8 {
        check_word(relocs, hosted, startup, section.addr + 8 * k)?;
    }
    Ok(())
}

// Whether each word of an array leads to startup code. In a file without a fault in its relocations only slots are looked
// at before the first that doesn't.
fn check_constructors(
    elf: &Elf,
    relocs: &Relocs,
    hosted: bool,
    startup: &[Symbol],
) -> Result<(), Fault>
    requires same { relocs.now ≡ elf.now }
    requires hosted { hosted ≡ is_hosted elf.now }
    requires startup { startup.now ≡ startup_symbols elf.now }
    ensures { result_err result ≡ first_of (constructors elf.now) }
{
    // (for its clause `clean`: the file has no fault in these tables)
    let _file = elf.file();
    for section in elf.placed() {
        check_array(relocs, hosted, startup, section)?;
    }
    Ok(())
}

/// The phase functions of a file with these functions and these symbols of startup code.
#[tactic(auto, unfolding(crate::specs::Functions::function_rules, crate::specs::Functions::crossing_functions, crate::specs::Functions::missing_entry))]
pub(crate) fn check_functions(
    elf: &Elf,
    relocs: &Relocs,
    kept: &Kept,
    startup: &[Symbol],
) -> Result<(), Fault>
    requires same { relocs.now ≡ elf.now }
    requires list { kept.now.list.items ≡ kept_functions elf.now }
    requires hosted { kept.now.hosted ≡ is_hosted elf.now }
    requires entry { kept.now.entry ≡ entry_of elf.now }
    requires startup { startup.now ≡ startup_symbols elf.now }
    ensures { result_err result ≡ first (function_rules elf.now) }
{
    check_crossing(elf, &kept.list)?;
    check_entry(kept.entry, &kept.list)?;
    check_constructors(elf, relocs, kept.hosted, startup)
}
