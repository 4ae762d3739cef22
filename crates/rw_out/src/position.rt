//! The items of functions and data before their names have numbers, and the places between them.

use crate::probes::Counting;
use arrayvec::ArrayVec;
use asm_items::Label;
use rw_base::Span;
use rw_elf::NameAt;
use rw_tables::Table;
use rw_words::Atom;
use x86_insn::Insn;

/// An item of a file, before its names have numbers: names are places in the file, an instruction refers to an address, and
/// a word of data stands for an atom.
#[derive(Drop)]
pub(crate) enum FileItem {
    /// A function begins.
    Comment(NameAt),
    /// The name of the place at which the program starts is global.
    Globl,
    /// It is that of a function.
    FuncKind,
    /// It is defined here.
    Name,
    /// The code section begins or goes on.
    TextHead,
    /// Alignment to 2 to the power of this number.
    Align(u8),
    /// A label.
    Label(Label),
    /// An instruction.
    Insn(Insn<u64>),
    /// A line of a probe.
    Counting(Counting),
    /// A data section begins: its number, whether it is writable, and whether it has no bytes in the file.
    SectionHead(u32, bool, bool),
    /// Bytes of data.
    Bytes(ArrayVec<u8, 16>),
    /// A word of data that holds the address of an atom.
    Quad(Atom),
    /// The distance of a point from the base of a jump table.
    LongDiff(u64, u64),
    /// This number of zero bytes.
    Zero(u64),
    /// The section of the counters begins.
    CountersHead,
    /// The name of the counters is global.
    CountersGlobl,
    /// It is defined here.
    CountersName,
    /// The text ends.
    Tail,
}

/// A place in the list of a file's items, before one of them or at its end. Functions, kept sections and the rest are
/// counted from 0; addresses are those of the file.
#[derive(Clone, Copy)]
pub(crate) enum Position {
    /// Before the function of this number.
    Function(usize),
    /// In the opening of a function, before the head of its section.
    TextHead(usize),
    /// In the opening of a function, before its alignment.
    CodeAlignment(usize),
    /// In the opening of the function that is entered, before each of its three lines.
    Globl(usize),
    FuncKind(usize),
    Name(usize),
    /// In a function, before the label of an address: of a point, or of the function's end.
    Label(usize, u64),
    /// In a function, before an instruction, behind which the label of an address comes.
    Insn(usize, Insn<u64>, u64),
    /// The same, before a line of the probe that stands before the instruction.
    Counting(usize, Counting, Insn<u64>, u64),
    /// In a function, before an instruction and the probe behind it, behind which the label of an address comes.
    Leading(usize, Insn<u64>, Counting, u64),
    /// The same, before a line of the probe.
    Following(usize, Counting, u64),
    /// Before the last line of a function.
    Closing(usize),
    /// Before the kept section of this number.
    Section(usize),
    /// In the opening of a kept section, before its alignment.
    Alignment(usize),
    /// In the opening of a kept section, before its label.
    SectionLabel(usize),
    /// Before the zeros of a kept section.
    Zeros(usize),
    /// In the contents of a kept section, before the piece at an address.
    Piece(usize, u64),
    /// In a run of bytes of a kept section, before its line of this number.
    Line(usize, Span, u64),
    /// In a jump table of a kept section, before its word of this number.
    Word(usize, Table, u64),
    /// In the section of the counters, before each of its lines but the first.
    CountersGlobl,
    CountersAlignment,
    CountersName,
    CountersZeros,
    /// Before the last line.
    Tail,
    /// At the end.
    End,
}
