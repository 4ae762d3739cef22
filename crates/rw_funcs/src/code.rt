//! The code sections of a file, with their bytes and marks.

ghost use Rattle.std.specs.Prelude.{◌≡◌, ◌+◌, ◌<◌, ◌≤◌, ◌^◌, ◌++◌, [], None, List, All, Contains, IfOk, OnOk, length, position, option_map};
ghost use Rattle.std.specs.List.Sorted.{IsNonDecreasingBy};
ghost use Rattle.std.specs.Result.{result_err};
ghost use Rattle.rw_base.specs.declared.fault.Fault.TheVariants.{BadInstruction};
ghost use Rattle.rw_base.specs.Rules.{first};
ghost use Rattle.rw_elf.specs.Tables.{elf_rules};
ghost use Rattle.rw_funcs.specs.Functions.{kept_functions, function_rules};
ghost use Rattle.rw_funcs.specs.Points.{Point, points, points_of, first_bad, bad_address, file_points, point_rules};
ghost use Rattle.rw_funcs.specs.Found.{AreApart, HasFactsFrom, HasMarks, HasMarksFrom, lies_in, HasSectionsOf};

use crate::insn_facts::{InsnFacts, NO_FACTS, facts_of};
use crate::symbols::function_code;
use rw_base::Fault;
use rw_elf::ranges::{Ranged, number_around};
use rw_elf::{Elf, Section, Symbol};
use std::alloc::{AllocError, Global};
use x86_decode::decode_one;

/// A section with code.
#[derive(Drop)]
pub(crate) struct CodeSection {
    /// Its header.
    pub(crate) section: Section,
    /// Its bytes.
    pub(crate) bytes: Vec<u8>,
    /// For each of its bytes a mark: the length of the instruction that starts there, else 0.
    pub(crate) marks: Vec<u8>,
    /// For each of its bytes the facts of the instruction that starts there.
    pub(crate) facts: Vec<InsnFacts>,
}

/// The code sections of a file, in which nothing is marked yet.
pub(crate) fn code_sections(alloc: Global, elf: &Elf) -> Result<Vec<CodeSection>, AllocError>
    ensures sections { IfOk result (λ code. HasSectionsOf elf.now code.items) }
    ensures none { IfOk result (λ code. All (HasMarks []) code.items) }
{
    let mut code = Vec::new(alloc);
    for section in elf.code() {
        let bytes = Vec::from_slice(alloc, elf.section_bytes(section))?;
        let marks = vec![in alloc; 0; section.size as usize]?;
        let facts = vec![in alloc; NO_FACTS; section.size as usize]?;
        code.push(CodeSection {
            section: *section,
            bytes,
            marks,
            facts,
        })?;
    }
    Ok(code)
}

impl Ranged for CodeSection {
    ghost use Rattle.std.specs.Prelude.{◌+◌};

    ghost start_of = { λ c. c.section.addr };

    ghost end_of = { λ c. c.section.addr + c.section.size };

    fn start(&self) -> u64 {
        self.section.addr
    }

    fn passes(&self, address: u64) -> bool {
        address - self.section.addr < self.section.size
    }
}

/// The place of the code section that an address belongs to. The time is logarithmic.
pub(crate) fn place_of(code: &[CodeSection], address: u64) -> Option<usize>
    requires { AreApart code.now }
    ensures { result ≡ position (lies_in address) code.now }
{
    number_around(code, address)
}

// Marks the first byte of each instruction of some code, as long as there is one, and notes its facts.
fn mark_points(
    marks: &mut [u8],
    facts: &mut [InsnFacts],
    code: &[u8],
    start: u64,
) -> Result<(), Fault>
    requires size { length marks.old ≡ length code.now }
    requires facts_size { length facts.old ≡ length code.now }
    requires place { start + length code.now ≤ 2 ^ 47 }
    ensures fault { result_err result ≡ option_map BadInstruction (first_bad (length code.now) start code.now) }
    ensures marked { OnOk result (HasMarksFrom marks.old marks.new start (points (length code.now) start code.now)) }
    ensures noted { OnOk result (HasFactsFrom facts.old facts.new start (points (length code.now) start code.now)) }
{
    let mut at = 0;
    while at < code.len() {
        let address = start + at as u64;
        let Some((insn, len)) = decode_one(&code[at..], address) else {
            return Err(Fault::BadInstruction(address));
        };
        marks[at] = len;
        facts[at] = facts_of(&insn);
        at += usize::from(len);
    }
    Ok(())
}

// Marks the instructions of some code of a section.
fn mark_part(part: &mut CodeSection, code: &[u8], start: u64) -> Result<(), Fault>
    ghost before: { List Point }
    requires marked { HasMarks before part.old }
    requires behind { All (λ p. p.place < start) before }
    requires low { part.old.section.addr ≤ start }
    requires high { start + length code.now ≤ part.old.section.addr + part.old.section.size }
    requires place { start + length code.now ≤ 2 ^ 47 }
    ensures fault { result_err result ≡ option_map BadInstruction (first_bad (length code.now) start code.now) }
    ensures marked { OnOk result (HasMarks (before ++ points (length code.now) start code.now) part.new) }
    ensures section { part.new.section ≡ part.old.section }
    ensures bytes { part.new.bytes.items ≡ part.old.bytes.items }
{
    let at = (start - part.section.addr) as usize;
    let end = at + code.len();
    mark_points(
        &mut part.marks[at..end],
        &mut part.facts[at..end],
        code,
        start,
    )
}

// Marks the instructions of a function.
fn mark_function(code: &mut [CodeSection], elf: &Elf, function: &Symbol) -> Result<(), Fault>
    ghost before: { List Point }
    requires sections { HasSectionsOf elf.now code.old }
    requires marked { All (HasMarks before) code.old }
    requires behind { All (λ p. p.place < function.now.value) before }
    requires clean { first (elf_rules elf.now) ≡ None }
    requires functions { first (function_rules elf.now) ≡ None }
    requires kept { Contains (kept_functions elf.now) function.now }
    ensures fault { result_err result ≡ option_map BadInstruction (bad_address elf.now function.now) }
    ensures marked { OnOk result (All (HasMarks (before ++ points_of elf.now function.now)) code.new) }
    ensures sections { HasSectionsOf elf.now code.new }
{
    match place_of(code, function.value) {
        Some(place) => mark_part(
            &mut code[place],
            function_code(elf, function),
            function.value,
        ),
        None => Ok(()),
    }
}

/// The phase instructions of a file with these functions, whose points are marked in the code.
pub(crate) fn mark_functions(
    code: &mut [CodeSection],
    elf: &Elf,
    list: &[Symbol],
) -> Result<(), Fault>
    requires sections { HasSectionsOf elf.now code.old }
    requires none { All (HasMarks []) code.old }
    requires list { list.now ≡ kept_functions elf.now }
    requires clean { first (elf_rules elf.now) ≡ None }
    requires functions { first (function_rules elf.now) ≡ None }
    ensures fault { result_err result ≡ first (point_rules elf.now) }
    ensures marked { OnOk result (All (HasMarks (file_points elf.now)) code.new) }
    ensures sections { HasSectionsOf elf.now code.new }
{
    for function in list {
        mark_function(code, elf, function)?;
    }
    Ok(())
}
