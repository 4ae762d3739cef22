//! Atoms and cells, of which words are made.

/// A value whose number depends on where things lie.
#[derive(Clone, Copy, Debug, PartialEq, Eq)]
pub enum Atom {
    /// The place at an offset, in bytes and modulo 2^64, from the start of the region with this number.
    Ptr(u32, u64),
    /// The instruction at an address of the file.
    Code(u64),
    /// The place behind the function that starts at an address of the file.
    Past(u64),
    /// An imported symbol, by its number in the dynamic symbol table.
    Import(u32),
    /// Where a return from the program goes.
    End,
    /// The distance of the instruction at an address of the file (first) from the place at an offset (last) of a region
    /// (second).
    Diff(u64, u32, u64),
}

/// A byte of a word.
#[derive(Clone, Copy, Debug, PartialEq, Eq)]
pub enum Cell {
    /// A number.
    Num(u8),
    /// A byte of the address of an atom, from 0, the lowest, to 7.
    Part(Atom, u8),
    /// Any byte: nothing is known of it.
    Undef,
}
