//! A piece of a section's contents.

ghost use Rattle.std.specs.Prelude.{◌≡◌, ◌<◌, ◌^◌};
ghost use Rattle.rw_data.specs.Pieces.{end_of_piece, start_of};

use rw_base::Span;
use rw_tables::Table;
use rw_words::Atom;

/// A piece of the contents of a kept section, by its addresses in the file.
#[derive(Clone, Copy, Debug, PartialEq, Eq)]
pub enum Piece {
    /// Bytes as they stand in the file; in a section of type `SHT_NOBITS` they are 0.
    Bytes(Span),
    /// The 8 bytes from an address on, which hold the address of an atom.
    Quad(u64, Atom),
    /// A jump table, each word of which is the distance of a point from the table's base, in 4 bytes.
    Table(Table),
}

impl Piece {
    /// The address of its first byte.
    pub fn start(&self) -> u64
        ensures { result ≡ start_of self.now }
    {
        match self {
            Piece::Bytes(span) => span.start,
            Piece::Quad(address, _) => *address,
            Piece::Table(table) => table.base,
        }
    }

    /// The address behind its last byte, which has to be below 2^64.
    pub fn end(&self) -> u64
        requires { end_of_piece self.now < 2 ^ 64 }
        ensures { result ≡ end_of_piece self.now }
    {
        match self {
            Piece::Bytes(span) => span.end,
            Piece::Quad(address, _) => *address + 8,
            Piece::Table(table) => table.base + 4 * table.count,
        }
    }
}
