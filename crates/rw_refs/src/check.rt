//! The rules on what code and data refer to.

ghost use Rattle.std.specs.Prelude.{◌≡◌, ◌+◌, ◌≤◌, ◌^◌, length, option_and_then};
ghost use Rattle.std.specs.Result.{result_err};
ghost use Rattle.rw_base.specs.Rules.{first, first_of};
ghost use Rattle.x86_insn.specs.References.{reference_of};
ghost use Rattle.rw_funcs.specs.Points.{points};
ghost use Rattle.rw_refs.specs.CodeReferences.{code_rules, faults_in, is_direct, naming_fault};
ghost use Rattle.rw_refs.specs.DataTargets.{slot_rules, target_fault};

use crate::references::{ref_at, target_at};
use rw_base::Fault;
use rw_elf::Elf;
use rw_funcs::Functions;
use rw_reloc::{Relocs, Slot, Target};
use x86_decode::decode_one;
use x86_insn::Insn;

fn is_direct(insn: &Insn<u64>) -> bool
    ensures { result ≡ is_direct insn.now }
{
    matches!(
        insn,
        Insn::Jcc { .. } | Insn::Jmp { .. } | Insn::Call { .. }
    )
}

// What an instruction at an address breaks that names another address.
fn check_named(
    elf: &Elf,
    relocs: &Relocs,
    functions: &Functions,
    address: u64,
    insn: &Insn<u64>,
    named: u64,
) -> Result<(), Fault>
    requires relocs { relocs.now ≡ elf.now }
    requires functions { functions.now ≡ elf.now }
    ensures { result_err result ≡ naming_fault elf.now address insn.now named }
{
    if is_direct(insn) {
        match target_at(elf, relocs, functions, named) {
            Some(_) => Ok(()),
            None => Err(Fault::BadTarget(address)),
        }
    } else {
        match ref_at(elf, relocs, functions, named) {
            Some(_) => Ok(()),
            None => Err(Fault::BadReference(address)),
        }
    }
}

fn check_point(
    elf: &Elf,
    relocs: &Relocs,
    functions: &Functions,
    address: u64,
    insn: &Insn<u64>,
) -> Result<(), Fault>
    requires relocs { relocs.now ≡ elf.now }
    requires functions { functions.now ≡ elf.now }
    ensures { result_err result ≡ option_and_then (naming_fault elf.now address insn.now) (reference_of insn.now) }
{
    match insn.reference() {
        Some(named) => check_named(elf, relocs, functions, address, insn, named),
        None => Ok(()),
    }
}

// The points of some code, the first of which is at an address.
fn check_points(
    elf: &Elf,
    relocs: &Relocs,
    functions: &Functions,
    code: &[u8],
    start: u64,
) -> Result<(), Fault>
    requires relocs { relocs.now ≡ elf.now }
    requires functions { functions.now ≡ elf.now }
    requires fits { start + length code.now ≤ 2 ^ 47 }
    ensures { result_err result ≡ first_of (faults_in elf.now (points (length code.now) start code.now)) }
{
    let mut at = 0;
    while let Some((insn, len)) = decode_one(&code[at..], start + at as u64) {
        check_point(elf, relocs, functions, start + at as u64, &insn)?;
        at += usize::from(len);
    }
    Ok(())
}

/// The phase code references: whether each target of a direct jump or call is an instruction or a stub, and each address that
/// an instruction names relative to `%rip` has a reference. It takes no memory, and time near to linear in the code.
///
/// # Errors
///
/// The fault of the first point where it isn't so: `BadTarget` of a jump or call, else `BadReference`.
pub fn check_code(elf: &Elf, relocs: &Relocs, functions: &Functions) -> Result<(), Fault>
    requires relocs { relocs.now ≡ elf.now }
    requires functions { functions.now ≡ elf.now }
    ensures { result_err result ≡ first (code_rules elf.now) }
{
    for function in functions.list() {
        let code = functions.code_of(function);
        check_points(elf, relocs, functions, code, function.span.start)?;
    }
    Ok(())
}

fn check_slot(elf: &Elf, relocs: &Relocs, functions: &Functions, slot: &Slot) -> Result<(), Fault>
    requires relocs { relocs.now ≡ elf.now }
    requires functions { functions.now ≡ elf.now }
    ensures { result_err result ≡ target_fault elf.now slot.now slot.now.target }
{
    match slot.target {
        Target::To(named) if slot.kept && ref_at(elf, relocs, functions, named).is_none() => {
            Err(Fault::BadRelocTarget(slot.address))
        }
        _ => Ok(()),
    }
}

/// The phase data targets: whether each address that a relocation puts into a kept section has a reference. It takes no memory,
/// and time near to linear in the number of slots.
///
/// # Errors
///
/// `BadRelocTarget` of the first slot, by ascending address, where it has none.
#[tactic(auto, unfolding(crate::specs::DataTargets::slot_rules))]
pub fn check_slots(elf: &Elf, relocs: &Relocs, functions: &Functions) -> Result<(), Fault>
    requires relocs { relocs.now ≡ elf.now }
    requires functions { functions.now ≡ elf.now }
    ensures { result_err result ≡ first (slot_rules elf.now) }
{
    for slot in relocs.slots() {
        check_slot(elf, relocs, functions, slot)?;
    }
    Ok(())
}
