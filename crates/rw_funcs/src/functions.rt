ghost use Rattle.std.specs.Prelude.{◌≡◌, ◌-◌, ◌<◌, None, All, Contains, IfNone, IfOk, IfSome, length, slice_get};
ghost use Rattle.rw_base.specs.Answers.{Judges};
ghost use Rattle.rw_base.specs.Rules.{first};
ghost use Rattle.rw_elf.specs.Tables.{IsNameIn, code_sections, elf_rules};
ghost use Rattle.rw_funcs.specs.Found.{HasMarks, HasSectionsOf, IsCodeAt, IsCodeOf, IsOutside, found_rules, marks_of};
ghost use Rattle.rw_funcs.specs.Functions.{entry_of, function_of, function_rules, functions_of, is_hosted, kept_functions, section_or};
ghost use Rattle.rw_funcs.specs.Notes.{facts_from, length_or, marks_from};
ghost use Rattle.rw_funcs.specs.Points.{file_points, insn_at, is_point, point_at, point_rules};

use crate::check::check_functions;
use crate::code::{CodeSection, code_sections, mark_functions, place_of};
use crate::function::{Function, functions_of, place_in};
use crate::hosted::startup_symbols;
use crate::insn_facts::InsnFacts;
use crate::kept::{Kept, kept_functions};
use crate::symbols::{front, rest};
use rw_base::Refusal;
use rw_elf::{Elf, Symbol};
use rw_reloc::Relocs;
use std::alloc::Global;
use std::marker::Model;
use std::snapshot::Snapshot;
use x86_decode::decode_one;
use x86_insn::Insn;

/// The functions of a file and their points, the addresses at which their instructions start. None of the phases up
/// to instructions has a fault in the file. A contract sees it as the list of the file's bytes, of which it keeps those
/// of the code sections.
#[derive(Drop)]
pub struct Functions {
    file: Snapshot<Elf>,
    code: Vec<CodeSection>,
    list: Vec<Function>,
    hosted: bool,
    entry: u64,
}

impl Model for Functions {
    ghost use Rattle.std.specs.Prelude.{List, ℕ};
    ghost use Rattle.rw_funcs.specs.Found.{AreFunctionsOf};

    ghost Value = { List ℕ };

    ghost view = { λ f. f.file.value };

    ghost invariant = { λ f. AreFunctionsOf f.file.value f.code.items f.list.items f.hosted f.entry };
}

// The functions of a file, by the rules of the phase functions.
fn checked_functions(alloc: Global, elf: &Elf, relocs: &Relocs) -> Result<Kept, Refusal>
    requires { relocs.now ≡ elf.now }
    ensures judged { Judges result (first (function_rules elf.now)) }
    ensures list { IfOk result (λ kept. kept.list.items ≡ kept_functions elf.now) }
    ensures hosted { IfOk result (λ kept. kept.hosted ≡ is_hosted elf.now) }
    ensures entry { IfOk result (λ kept. kept.entry ≡ entry_of elf.now) }
    ensures names { IfOk result (λ kept. All (λ f. IsNameIn elf.now f.name) kept.list.items) }
{
    let kept = kept_functions(alloc, elf)?;
    let startup = startup_symbols(alloc, elf)?;
    check_functions(elf, relocs, &kept, &startup)?;
    Ok(kept)
}

// The code sections of a file with these functions, with their points.
fn marked_code(alloc: Global, elf: &Elf, list: &[Symbol]) -> Result<Vec<CodeSection>, Refusal>
    requires list { list.now ≡ kept_functions elf.now }
    requires clean { first (elf_rules elf.now) ≡ None }
    requires functions { first (function_rules elf.now) ≡ None }
    ensures judged { Judges result (first (point_rules elf.now)) }
    ensures marked { IfOk result (λ code. All (HasMarks (file_points elf.now)) code.items) }
    ensures sections { IfOk result (λ code. HasSectionsOf elf.now code.items) }
{
    let mut code = code_sections(alloc, elf)?;
    mark_functions(&mut code, elf, list)?;
    Ok(code)
}

impl Functions {
    /// Finds the functions of a file with these relocations, and decodes each.
    ///
    /// # Errors
    ///
    /// The first fault of the phases functions and instructions, exactly where there is one: `Crosses`, `NoEntry`,
    /// `Constructors` or `BadInstruction`. Or `Memory`, where there is not enough memory.
    #[tactic(auto, using(rw_base::proofs::First::first_append))]
    pub fn find(alloc: Global, elf: &Elf, relocs: &Relocs) -> Result<Functions, Refusal>
        requires { relocs.now ≡ elf.now }
        ensures judged { Judges result (first (found_rules elf.now)) }
        ensures file { IfOk result (λ functions. functions ≡ elf.now) }
    {
        // (for its clause `clean`: the file has no fault in these tables)
        let _file = elf.file();
        let kept = checked_functions(alloc, elf, relocs)?;
        let code = marked_code(alloc, elf, &kept.list)?;
        let list = functions_of(alloc, &kept.list)?;
        Ok(Functions {
            file: Snapshot::of(elf),
            code,
            list,
            hosted: kept.hosted,
            entry: kept.entry,
        })
    }

    /// The functions by ascending address. Each lies in a code section, and none overlaps another. Each name lies in the
    /// file.
    pub fn list(&self) -> &[Function]
        ensures list { result.now ≡ functions_of self.now }
        ensures names { All (λ f. IsNameIn self.now f.name) result.now }
        ensures clean { first (found_rules self.now) ≡ None }
        ensures clean_file { first (elf_rules self.now) ≡ None }
    {
        &self.list
    }

    /// Whether a C library starts the file. Its startup code is then in no function.
    pub fn hosted(&self) -> bool
        ensures { result ≡ is_hosted self.now }
    {
        self.hosted
    }

    /// The address at which the program starts, which is the start of a function: that of `main` where a C library starts
    /// the file, else `e_entry`.
    pub fn entry(&self) -> u64
        ensures { result ≡ entry_of self.now }
    {
        self.entry
    }

    // The code section that an address belongs to.
    fn section_around(&self, address: u64) -> Option<&CodeSection>
        ensures some { IfSome result (λ c. IsCodeAt self.now address c.now) }
        ensures none { IfNone result (point_at (file_points self.now) address ≡ None) }
        ensures outside { IfNone result (IsOutside self.now address) }
        ensures lengths { All (λ p. 0 < p.len) (file_points self.now) }
        ensures clean { first (function_rules self.now) ≡ None }
        ensures clean_file { first (elf_rules self.now) ≡ None }
    {
        match place_of(&self.code, address) {
            Some(place) => Some(&self.code[place]),
            None => None,
        }
    }

    // The length of the instruction that starts at an address, else 0.
    fn length_at(&self, address: u64) -> u8
        ensures length { result ≡ length_or 0 (file_points self.now) address }
        ensures lengths { All (λ p. 0 < p.len) (file_points self.now) }
    {
        match self.section_around(address) {
            Some(part) => part.marks[(address - part.section.addr) as usize],
            None => 0,
        }
    }

    /// Whether an instruction starts at an address. The time is logarithmic in the number of code sections.
    pub fn is_point(&self, address: u64) -> bool
        ensures { result ≡ is_point (file_points self.now) address }
    {
        self.length_at(address) != 0
    }

    /// The instruction that starts at an address, and its length in bytes, 1 to 15. `None` exactly where the address is
    /// no point. The time is logarithmic in the number of code sections.
    pub fn insn_at(&self, address: u64) -> Option<(Insn<u64>, u8)>
        ensures { result ≡ insn_at (file_points self.now) address }
    {
        let part = self.section_around(address)?;
        let at = address - part.section.addr;
        if part.marks[at as usize] == 0 {
            return None;
        }
        decode_one(rest(&part.bytes, at), address)
    }

    /// The marks of the code section with a number, in the order of [`Elf::code`]: for each byte of the section the
    /// length of the instruction that starts there, else 0.
    pub fn marks(&self, s: u32) -> &[u8]
        requires { s < length (code_sections self.now) }
        ensures { result.now ≡ marks_of (file_points self.now) (section_or (slice_get (code_sections self.now) s)) }
    {
        &self.code[s as usize].marks
    }

    /// The number, in the list, of the function whose range has an address. The time is logarithmic in the number of
    /// functions.
    pub fn function_of(&self, address: u64) -> Option<u32>
        ensures { result ≡ function_of self.now address }
    {
        place_in(&self.list, address)
    }

    /// The bytes of a function in the list.
    pub fn code_of(&self, function: &Function) -> &[u8]
        requires { Contains (functions_of self.now) function.now }
        ensures { IsCodeOf self.now function.now result.now }
    {
        match self.section_around(function.span.start) {
            Some(part) => front(
                rest(&part.bytes, function.span.start - part.section.addr),
                function.span.end - function.span.start,
            ),
            None => &[],
        }
    }

    /// The marks of the bytes of a function in the list. No instruction has the length 0.
    pub fn marks_of(&self, function: &Function) -> &[u8]
        requires { Contains (functions_of self.now) function.now }
        ensures lengths { All (λ p. 0 < p.len) (file_points self.now) }
        ensures marks { result.now ≡ marks_from (file_points self.now) function.now.span.start (function.now.span.end - function.now.span.start) }
    {
        match self.section_around(function.span.start) {
            Some(part) => {
                let at = (function.span.start - part.section.addr) as usize;
                let end = (function.span.end - part.section.addr) as usize;
                &part.marks[at..end]
            }
            None => &[],
        }
    }

    /// The facts of the instructions that start at the bytes of a function in the list.
    pub fn facts_of(&self, function: &Function) -> &[InsnFacts]
        requires { Contains (functions_of self.now) function.now }
        ensures { result.now ≡ facts_from (file_points self.now) function.now.span.start (function.now.span.end - function.now.span.start) }
    {
        match self.section_around(function.span.start) {
            Some(part) => {
                let at = (function.span.start - part.section.addr) as usize;
                let end = (function.span.end - part.section.addr) as usize;
                &part.facts[at..end]
            }
            None => &[],
        }
    }
}
