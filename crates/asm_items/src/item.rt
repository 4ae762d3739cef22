//! Items, symbols and labels over a kind of names.

use arrayvec::ArrayVec;
use x86_insn::Insn;

/// The number of a name in a list of names, counted from 0.
#[derive(Clone, Copy, PartialEq, Eq, Debug)]
pub struct NameId(pub u32);

/// A symbol of the text. Its names are of the kind `N`: numbers in a list of names, or in contracts their bytes.
#[derive(Clone, Copy, PartialEq, Eq, Debug)]
pub enum Sym<N = NameId> {
    /// The code label of an address.
    Code(u64),
    /// The label of a data section by its number, and an offset in bytes from it.
    Section(u32, u64),
    /// A name, and an offset in bytes from it.
    Named(N, u64),
    /// The 8-byte counter of this number.
    Counter(u32),
}

/// A label that the text defines.
#[derive(Clone, Copy, PartialEq, Eq, Debug)]
pub enum Label {
    /// The instruction at this address.
    Code(u64),
    /// The place past the function that starts at this address.
    Past(u64),
    /// The data section of this number.
    Section(u32),
    /// The jump table at this address.
    Table(u64),
}

/// One line of the text. Its names are of the kind `N`: numbers in a list of names, or in contracts their bytes.
#[derive(Drop)]
pub enum Item<N: Drop = NameId> {
    /// A comment: the file has a copy of a symbol, of this size in bytes.
    Copy(N, u64),
    /// A comment: a function begins.
    Comment(N),
    /// A weak symbol.
    Weak(N),
    /// A global symbol.
    Globl(N),
    /// The code section begins or goes on.
    TextHead,
    /// Alignment to 2 to the power of this number.
    Align(u8),
    /// The name is that of a function.
    FuncKind(N),
    /// A name is defined here.
    Name(N),
    /// A label is defined here.
    Label(Label),
    /// An instruction.
    Ins(Insn<Sym<N>>),
    /// The data section of this number begins: whether it is writable, and whether it has no bytes in the
    /// file.
    SectionHead(u32, bool, bool),
    /// 1 to 16 bytes of data.
    Bytes(ArrayVec<u8, 16>),
    /// The address of a symbol, in 8 bytes.
    Quad(Sym<N>),
    /// The distance of a code label from the label of a jump table, in 4 bytes.
    LongDiff(u64, u64),
    /// This number of zero bytes.
    Zero(u64),
    /// The section of the counters begins.
    CountsHead,
    /// The text ends.
    Tail,
}
