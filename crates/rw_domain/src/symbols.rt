//! The domain of words, whose regions lie nowhere yet.

ghost use Rattle.std.specs.Prelude.{◌≡◌, ◌-◌, ◌≤◌, ◌<◌, ◌^◌, None, vec_len};
ghost use Rattle.rw_domain.specs.Symbols.{word_sum};

use crate::cause::Cause;
use crate::domain::Domain;
use crate::eight::Eight;
use crate::flags::Flags;
use crate::holes::Holes;
use crate::place::{Access, Hole, Place, Region};
use crate::places::{is_in_stack, place_of_kind};
use crate::word_alu::alu_of_words;
use crate::word_operators::{
    bit_of_words, div_of_words, extend_word, mul_of_words, one_of_word, scan_word, shift_of_words,
    swap_word,
};
use crate::word_sum::sum_of_words;
use rw_base::Width;
use rw_words::{Atom, Cell, Word};
use std::alloc::{AllocError, Global};
use x86_insn::{AluOp, BitOp, OneOp, ScanOp, ShiftOp};

/// Words of cells as words, and cells as bytes, with regions that lie nowhere yet.
#[derive(Drop)]
pub struct Symbols {
    regions: Vec<Region>,
    holes: Holes,
    canary: u32,
    ghost countable: { vec_len regions < 2 ^ 32 - 1 },
}

impl Symbols {
    ghost use Rattle.rw_domain.specs.SymbolData.{placed_symbols};

    /// The domain of some regions, with ranges that don't belong to them. The last region is the one with the canary.
    pub fn new(regions: Vec<Region>, holes: Vec<Hole>) -> Symbols
        requires some { 3 ≤ vec_len regions }
        requires few { vec_len regions < 2 ^ 32 - 1 }
        ensures { placed_symbols result ≡ record {
          regions = regions.items;
          bases = None;
          holes = holes.items;
          canary = vec_len regions - 1;
        } }
    {
        let canary = (regions.len() - 1) as u32;
        Symbols {
            regions,
            holes: Holes::new(holes),
            canary,
        }
    }
}

impl Domain for Symbols {
    type Word = Word;

    type Byte = Cell;

    ghost use Rattle.rw_domain.specs.SymbolData.{placed_symbols};
    ghost use Rattle.rw_domain.specs.Symbols.{symbols_over};
    ghost use Rattle.std.proofs.Common.{refl};
    ghost use Rattle.rw_domain.specs.Inside.{symbols-inside};

    ghost placed = { placed_symbols };

    ghost over = { symbols_over };

    fn num(&self, w: Width, v: u64) -> Word {
        Word::num(w, v)
    }

    fn undef(&self, w: Width) -> Word {
        Word::undef(w)
    }

    fn number(&self, w: Width, a: Word) -> Option<u64> {
        a.low(w).number()
    }

    fn split(&self, a: Word, i: u8) -> Cell {
        a.cell(i)
    }

    fn join(&self, w: Width, bytes: &Eight<Cell>) -> Word {
        Word::of(
            w,
            &[
                bytes.b0, bytes.b1, bytes.b2, bytes.b3, bytes.b4, bytes.b5, bytes.b6, bytes.b7,
            ],
        )
    }

    fn alu(
        &self,
        op: AluOp,
        w: Width,
        a: Word,
        b: Word,
        before: Flags,
    ) -> Result<(Word, Flags), Cause> {
        alu_of_words(&self.regions, &self.holes, op, w, a, b, before)
    }

    fn one(&self, op: OneOp, w: Width, a: Word, before: Flags) -> (Word, Flags) {
        one_of_word(op, w, a, before)
    }

    fn shift(
        &self,
        op: ShiftOp,
        w: Width,
        a: Word,
        count: Word,
        before: Flags,
    ) -> Result<(Word, Flags), Cause> {
        shift_of_words(op, w, a, count, before)
    }

    fn mul(&self, signed: bool, w: Width, a: Word, b: Word) -> (Word, Word, Flags) {
        mul_of_words(signed, w, a, b)
    }

    fn div(
        &self,
        signed: bool,
        w: Width,
        high: Word,
        low: Word,
        by: Word,
    ) -> Result<Option<(Word, Word)>, Cause> {
        div_of_words(signed, w, high, low, by)
    }

    fn extend(&self, signed: bool, from: Width, a: Word, to: Width) -> Word {
        extend_word(signed, from, a, to)
    }

    fn swap(&self, w: Width, a: Word) -> Word {
        swap_word(w, a)
    }

    fn bit(&self, op: BitOp, w: Width, a: Word, index: Word, before: Flags) -> (Word, Flags) {
        bit_of_words(op, w, a, index, before)
    }

    fn scan(&self, op: ScanOp, w: Width, a: Word) -> (Word, Flags) {
        scan_word(op, w, a)
    }

    fn sum(&self, base: Option<Word>, index: Option<(Word, u8)>, disp: i32) -> Word
        ensures { result ≡ word_sum base index disp }
    {
        sum_of_words(base, index, disp)
    }

    fn canary(&self) -> Word {
        Word::atom(Atom::Ptr(self.canary, 0))
    }

    fn place(&self, at: &Word, len: u64, access: Access) -> Result<Place, Cause> {
        place_of_kind(&self.regions, &self.holes, at.kind(), len, access)
    }

    fn stack(&self) -> u32 {
        self.canary.saturating_sub(2)
    }

    fn stack_fits(&self, sp: &Word) -> bool {
        is_in_stack(&self.regions, self.canary, sp.kind())
    }

    fn regions(&self) -> &[Region] {
        &self.regions
    }

    fn forgets(&self) -> bool {
        true
    }

    fn add(&mut self, _alloc: Global, region: Region, _base: u64) -> Result<(), AllocError> {
        self.regions.push(region)?;
        Ok(())
    }

    ghost places_inside = { λ d. symbols-inside (placed_symbols d) };

    ghost regions_placed = { λ d. refl };

    ghost one_undefined = { λ p q. refl };
}
