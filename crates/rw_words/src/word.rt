//! Words: rows of cells.

ghost use Rattle.std.specs.Prelude.{◌≡◌, ◌≤◌, ◌+◌, ◌<◌, ◌^◌, take, length, slice_index_or, IfSome};
ghost use Rattle.rw_base.specs.Width.{byte_count};
ghost use Rattle.rw_words.specs.declared.atom.Cell.TheVariants.{Undef};
ghost use Rattle.rw_words.specs.Words.{number_cells, atom_cells, undefined_cells, number_in, whole_of, lowest_of, are_parts};
ghost use Rattle.rw_words.specs.Kinds.{kind_of};

use crate::atom::{Atom, Cell};
use crate::kind::Kind;
use rw_base::Width;
use std::marker::Model;

/// A row of 1, 2, 4 or 8 cells, the lowest byte first. In contracts it is the list of these cells.
#[derive(Clone, Copy)]
pub struct Word {
    width: Width,
    cells: [Cell; 8],
}

impl Model for Word {
    ghost use Rattle.std.specs.Prelude.{List};
    ghost use Rattle.rw_words.specs.declared.atom.Cell.{Cell};

    ghost Value = { List Cell };

    ghost use Rattle.rw_words.specs.Inside.{cells_in, IsPadded, padded_cells, padded_ok};

    ghost view = { cells_in };

    ghost invariant = { IsPadded };

    ghost inverse = { padded_cells };

    ghost inverse_ok = { padded_ok };
}

impl Word {
    /// The word of the lowest cells of a row, as many as the width has bytes.
    pub fn of(w: Width, row: &[Cell; 8]) -> Word
        ensures { result ≡ take (byte_count w) row.now }
    {
        let u = Cell::Undef;
        let cells = match w {
            Width::B => [row[0], u, u, u, u, u, u, u],
            Width::W => [row[0], row[1], u, u, u, u, u, u],
            Width::L => [row[0], row[1], row[2], row[3], u, u, u, u],
            Width::Q => *row,
        };
        Word { width: w, cells }
    }

    /// The word of the low bytes of a number.
    pub fn num(w: Width, v: u64) -> Word
        ensures { result ≡ number_cells w v }
    {
        Word::of(w, &v.to_le_bytes().map(Cell::Num))
    }

    /// The eight cells of an atom.
    pub fn atom(a: Atom) -> Word
        ensures { result ≡ atom_cells a }
    {
        Word::of(
            Width::Q,
            &[
                Cell::Part(a, 0),
                Cell::Part(a, 1),
                Cell::Part(a, 2),
                Cell::Part(a, 3),
                Cell::Part(a, 4),
                Cell::Part(a, 5),
                Cell::Part(a, 6),
                Cell::Part(a, 7),
            ],
        )
    }

    /// The word of a width of which nothing is known.
    pub fn undef(w: Width) -> Word
        ensures { result ≡ undefined_cells w }
    {
        Word::of(w, &[Cell::Undef; 8])
    }

    /// The atom whose parts 0 to 7 the word is, in this order; `None` for any other word.
    pub fn whole(&self) -> Option<Atom>
        ensures value { result ≡ whole_of self.now }
    {
        match self.cells() {
            [Cell::Part(a, 0), rest @ ..] if rest.len() == 7 && follow(*a, 1, rest) => Some(*a),
            _ => None,
        }
    }

    /// The atom whose lowest parts the word is, from part 0 on; `None` for any other word.
    pub fn lowest(&self) -> Option<Atom>
        ensures { result ≡ lowest_of self.now }
    {
        match self.cells() {
            [Cell::Part(a, 0), rest @ ..] if follow(*a, 1, rest) => Some(*a),
            _ => None,
        }
    }

    /// What the word is as a whole.
    pub fn kind(&self) -> Kind
        ensures { result ≡ kind_of self.now }
    {
        match (self.number(), self.whole()) {
            (Some(n), _) => Kind::Number(n),
            (None, Some(a)) => Kind::Whole(a),
            (None, None) => Kind::Mixed,
        }
    }

    /// The lowest cells, as many as the width has bytes, or all where there are fewer.
    pub fn low(&self, w: Width) -> Word
        ensures { result ≡ take (byte_count w) self.now }
    {
        if w.bytes() < self.width.bytes() {
            Word::of(w, &self.cells)
        } else {
            *self
        }
    }

    /// The number of a word whose cells are all numbers; `None` for any other word.
    pub fn number(&self) -> Option<u64>
        ensures value { result ≡ number_in self.now }
    {
        number_from(self.cells())
    }

    /// The cells, the lowest byte first: 1, 2, 4 or 8 of them.
    pub fn cells(&self) -> &[Cell]
        ensures cells { result.now ≡ self.now }
        ensures at_most { length result.now ≤ 8 }
    {
        &self.cells[..self.width.bytes() as usize]
    }

    /// The cell of a byte, counted from the lowest; past the end of the word nothing is known.
    pub fn cell(&self, i: u8) -> Cell
        ensures { result ≡ slice_index_or self.now i Undef }
    {
        match self.cells().get(i as usize) {
            Some(cell) => *cell,
            None => Cell::Undef,
        }
    }
}

/// The number of some cells.
fn number_from(cells: &[Cell]) -> Option<u64>
    requires { length cells.now ≤ 8 }
    ensures value { result ≡ number_in cells.now }
    ensures bound { IfSome result (λ n. n < 256 ^ length cells.now) }
{
    match cells {
        [] => Some(0),
        [Cell::Num(b), rest @ ..] => {
            let higher = number_from(rest)?;
            Some(*b as u64 + 256 * higher)
        }
        _ => None,
    }
}

/// The cells are the parts of an atom from part i on.
fn follow(a: Atom, i: u8, cells: &[Cell]) -> bool
    requires { i + length cells.now ≤ 8 }
    ensures { result ≡ are_parts a i cells.now }
{
    match cells {
        [] => true,
        [Cell::Part(b, j), rest @ ..] => *b == a && *j == i && follow(a, i + 1, rest),
        _ => false,
    }
}
