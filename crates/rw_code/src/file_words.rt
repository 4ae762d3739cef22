//! The code of the symbolic machine of a file.

ghost use Rattle.std.specs.Prelude.{◌≡◌, ◌<◌, All, None, find};
ghost use Rattle.rw_base.specs.Rules.{first};
ghost use Rattle.rw_elf.specs.Tables.{elf_rules};
ghost use Rattle.rw_funcs.specs.Found.{found_rules};
ghost use Rattle.rw_funcs.specs.Functions.{functions_of, has_address};
ghost use Rattle.rw_funcs.specs.Points.{file_points, point_at};
ghost use Rattle.rw_machine.specs.Program.{GivesInstructions};
ghost use Rattle.rw_code.specs.File.{atom_goal, behind, code_goal, import_goal, kind_goal, point_after, reference_word, symbolic};
ghost use Rattle.rw_code.specs.Imports.{is_copied};

use crate::imports::is_copied;
use crate::point::FilePoint;
use rw_base::Width;
use rw_domain::{Cause, Symbols};
use rw_elf::Elf;
use rw_funcs::Functions;
use rw_machine::{Code, Goal};
use rw_refs::{ref_at, target_at};
use rw_reloc::Relocs;
use rw_words::{Atom, Kind, Word};
use x86_insn::Insn;

/// The code of the symbolic machine of a file: what stands at its points, what the addresses that its instructions name
/// stand for, and where a word leads as a target.
///
/// As a [`Code`] it is the program `symbolic` of the file (`specs/File`). A reference is an address of the file. An instruction
/// stands at each point of a function; behind the last one comes the place past the function, which has no instruction, even if
/// another function starts there. A word leads to a point where it is the code of one, to an imported symbol that isn't copied
/// into the file, or out of the run; any number, any pointer, the code of an address that is no point, and what is copied, lead
/// nowhere (`TargetNoPoint`), and of any other word it isn't known where it leads (`TargetUnknown`). No call takes memory. The time of a call is logarithmic in the
/// numbers of sections, functions and slots; that of `target` is linear in the number of copies where the word is an import.
#[derive(Clone, Copy)]
pub struct FileWords<'a> {
    /// The tables of the file.
    pub elf: &'a Elf,
    /// Its slots.
    pub relocs: &'a Relocs,
    /// Its functions and their points.
    pub funcs: &'a Functions,
    ghost same_relocs: { relocs.now ≡ elf.now },
    ghost same_funcs: { funcs.now ≡ elf.now },
    ghost clean_file: { first (elf_rules elf.now) ≡ None },
    ghost clean: { first (found_rules elf.now) ≡ None },
    ghost instructions: { GivesInstructions (symbolic elf.now) },
}

// The items of a slice of bytes are below 256.
fn are_bytes(bytes: &[u8])
    ensures { All (λ b. b < 256) bytes.now }
{}

// The word of what an address stands for.
fn reference_word(stands: Option<Atom>) -> Word
    ensures { result ≡ reference_word stands }
{
    match stands {
        Some(atom) => Word::atom(atom),
        None => Word::undef(Width::Q),
    }
}

impl<'a> FileWords<'a> {
    /// The code of a file, by what was found in it.
    pub fn new(elf: &'a Elf, relocs: &'a Relocs, funcs: &'a Functions) -> FileWords<'a>
        requires relocs { relocs.now ≡ elf.now }
        requires funcs { funcs.now ≡ elf.now }
        ensures { result.elf.now ≡ elf.now }
    {
        are_bytes(elf.file());
        // (for its clause `clean`: the file has no fault in these phases)
        let _list = funcs.list();
        FileWords { elf, relocs, funcs }
    }

    // The point behind an instruction at an address, which ends at an address.
    fn behind(&self, address: u64, end: u64) -> FilePoint
        ensures { result ≡ behind end (find (has_address address) (functions_of self.now.elf.now)) }
    {
        match self.funcs.function_of(address) {
            Some(number) => {
                let span = self.funcs.list()[number as usize].span;
                if end == span.end {
                    FilePoint::Past(span.start)
                } else {
                    FilePoint::At(end)
                }
            }
            None => FilePoint::At(end),
        }
    }

    // The point behind the instruction at an address, or the address itself where none is there.
    fn point_after(&self, address: u64) -> FilePoint
        ensures { result ≡ point_after (functions_of self.now.elf.now) address (point_at (file_points self.now.elf.now) address) }
    {
        match self.funcs.insn_at(address) {
            Some((_, length)) => self.behind(address, address + u64::from(length)),
            None => FilePoint::At(address),
        }
    }

    // Where the code at an address leads.
    fn code_goal(&self, address: u64) -> Result<Goal<FilePoint>, Cause>
        ensures { result ≡ code_goal (file_points self.now.elf.now) address }
    {
        if self.funcs.is_point(address) {
            Ok(Goal::At(FilePoint::At(address)))
        } else {
            Err(Cause::TargetNoPoint)
        }
    }

    // Where an imported symbol leads.
    fn import_goal(&self, number: u32) -> Result<Goal<FilePoint>, Cause>
        ensures { result ≡ import_goal (is_copied self.now.elf.now) number }
    {
        if is_copied(self.elf, self.relocs, number) {
            Err(Cause::TargetNoPoint)
        } else {
            Ok(Goal::Import(number))
        }
    }

    // Where an atom leads.
    fn atom_goal(&self, atom: Atom) -> Result<Goal<FilePoint>, Cause>
        ensures { result ≡ atom_goal (file_points self.now.elf.now) (is_copied self.now.elf.now) atom }
    {
        match atom {
            Atom::Ptr(..) => Err(Cause::TargetNoPoint),
            Atom::Code(address) => self.code_goal(address),
            Atom::Import(number) => self.import_goal(number),
            Atom::End => Ok(Goal::Finish),
            Atom::Past(_) | Atom::Diff(..) => Err(Cause::TargetUnknown),
        }
    }

    // Where a word of a kind leads.
    fn kind_goal(&self, kind: Kind) -> Result<Goal<FilePoint>, Cause>
        ensures { result ≡ kind_goal (file_points self.now.elf.now) (is_copied self.now.elf.now) kind }
    {
        match kind {
            Kind::Number(_) => Err(Cause::TargetNoPoint),
            Kind::Whole(atom) => self.atom_goal(atom),
            Kind::Mixed => Err(Cause::TargetUnknown),
        }
    }
}

impl Code<Symbols> for FileWords<'_> {
    type Ref = u64;

    type Point = FilePoint;

    ghost use Rattle.rw_code.specs.File.{symbolic};
    ghost use Rattle.rw_code.specs.Wide.{words-wide};

    ghost program = { λ c. symbolic c.elf.now };

    fn insn(&self, p: FilePoint) -> Option<Insn<u64>> {
        match p {
            FilePoint::At(address) => Some(self.funcs.insn_at(address)?.0),
            FilePoint::Past(_) => None,
        }
    }

    fn next(&self, p: FilePoint) -> FilePoint {
        match p {
            FilePoint::At(address) => self.point_after(address),
            FilePoint::Past(start) => FilePoint::Past(start),
        }
    }

    fn resolve(&self, r: u64, direct: bool) -> Word {
        reference_word(if direct {
            target_at(self.elf, self.relocs, self.funcs, r)
        } else {
            ref_at(self.elf, self.relocs, self.funcs, r)
        })
    }

    fn target(&self, w: &Word) -> Result<Goal<FilePoint>, Cause> {
        self.kind_goal(w.kind())
    }

    fn address_of(&self, p: FilePoint) -> Word {
        Word::atom(match p {
            FilePoint::At(address) => Atom::Code(address),
            FilePoint::Past(start) => Atom::Past(start),
        })
    }

    ghost gives_instructions = { λ c. c.instructions };

    ghost gives_words = { λ c. words-wide c.elf.now };
}
