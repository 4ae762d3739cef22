//! A code that is a list of instructions.

ghost use Rattle.std.specs.Prelude.{◌≡◌, length};
ghost use Rattle.rw_machine_tests.specs.Listed.{insn_at, point_after, number_goal, code_goal, atom_goal, kind_goal};

use rw_domain::{Cause, Numbers, Symbols};
use rw_machine::{Code, Goal};
use rw_words::{Atom, Kind, Word};
use x86_insn::Insn;

/// The number that ends a run as a target.
pub const FINISH: u64 = 0xf000;

/// The number of an imported symbol as a target.
pub const IMPORT: u64 = 0xf010;

/// A list of instructions. Points are places in it, and the word of a point is its number, or its atom over words.
#[derive(Clone, Copy)]
pub struct Listing {
    pub insns: &'static [Insn<u64>],
}

fn insn(insns: &[Insn<u64>], p: u64) -> Option<Insn<u64>>
    ensures { result ≡ insn_at insns.now p }
{
    match insns.get(p as usize) {
        Some(insn) if insn.well_formed() => Some(*insn),
        _ => None,
    }
}

fn next(p: u64) -> u64
    ensures { result ≡ point_after p }
{
    p.wrapping_add(1)
}

fn goal_of_number(size: usize, n: u64) -> Result<Goal<u64>, Cause>
    ensures { result ≡ number_goal size n }
{
    if n < size as u64 {
        Ok(Goal::At(n))
    } else if n == FINISH {
        Ok(Goal::Finish)
    } else if n == IMPORT {
        Ok(Goal::Import(7))
    } else {
        Err(Cause::TargetNoPoint)
    }
}

fn goal_of_code(size: usize, p: u64) -> Result<Goal<u64>, Cause>
    ensures { result ≡ code_goal size p }
{
    if p < size as u64 {
        Ok(Goal::At(p))
    } else {
        Err(Cause::TargetNoPoint)
    }
}

fn goal_of_atom(size: usize, a: Atom) -> Result<Goal<u64>, Cause>
    ensures { result ≡ atom_goal size a }
{
    match a {
        Atom::Ptr(..) => Err(Cause::TargetNoPoint),
        Atom::Code(p) => goal_of_code(size, p),
        Atom::Import(k) => Ok(Goal::Import(k)),
        Atom::End => Ok(Goal::Finish),
        Atom::Past(_) | Atom::Diff(..) => Err(Cause::TargetUnknown),
    }
}

fn goal_of_kind(size: usize, k: Kind) -> Result<Goal<u64>, Cause>
    ensures { result ≡ kind_goal size k }
{
    match k {
        Kind::Number(_) => Err(Cause::TargetNoPoint),
        Kind::Whole(a) => goal_of_atom(size, a),
        Kind::Mixed => Err(Cause::TargetUnknown),
    }
}

impl Code<Numbers> for Listing {
    type Ref = u64;

    type Point = u64;

    ghost use Rattle.rw_machine_tests.specs.Listed.{numbers_listed, numbers-given, numbers-wide};

    ghost program = { λ l. numbers_listed l.insns.now };

    fn insn(&self, p: u64) -> Option<Insn<u64>> {
        insn(self.insns, p)
    }

    fn next(&self, p: u64) -> u64 {
        next(p)
    }

    fn resolve(&self, r: u64, _direct: bool) -> u64 {
        r
    }

    fn target(&self, w: &u64) -> Result<Goal<u64>, Cause> {
        goal_of_number(self.insns.len(), *w)
    }

    fn address_of(&self, p: u64) -> u64 {
        p
    }

    ghost gives_instructions = { λ l. numbers-given l.insns.now };

    ghost gives_words = { λ l. numbers-wide l.insns.now };
}

impl Code<Symbols> for Listing {
    type Ref = u64;

    type Point = u64;

    ghost use Rattle.rw_machine_tests.specs.Listed.{words_listed, words-given, words-wide};

    ghost program = { λ l. words_listed l.insns.now };

    fn insn(&self, p: u64) -> Option<Insn<u64>> {
        insn(self.insns, p)
    }

    fn next(&self, p: u64) -> u64 {
        next(p)
    }

    fn resolve(&self, r: u64, direct: bool) -> Word {
        Word::atom(if direct {
            Atom::Code(r)
        } else {
            Atom::Ptr(0, r)
        })
    }

    fn target(&self, w: &Word) -> Result<Goal<u64>, Cause> {
        goal_of_kind(self.insns.len(), w.kind())
    }

    fn address_of(&self, p: u64) -> Word {
        Word::atom(Atom::Code(p))
    }

    ghost gives_instructions = { λ l. words-given l.insns.now };

    ghost gives_words = { λ l. words-wide l.insns.now };
}
