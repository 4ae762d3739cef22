//! Causes to stop.

/// Why a step stops. Where several causes stand together, the order of the machine's step decides.
#[derive(Clone, Copy, Debug, PartialEq, Eq)]
pub enum Cause {
    /// An address is neither a place nor a number.
    AddressUnknown,
    /// An access isn't inside a region, or touches one of its holes.
    AddressOutside,
    /// A write to a region that isn't writable.
    NotWritable,
    /// The target of a jump, call or return isn't known.
    TargetUnknown,
    /// The target of a jump, call or return is known, and no instruction.
    TargetNoPoint,
    /// A flag that an instruction needs isn't known.
    FlagUnknown,
    /// A byte that must be read isn't a number.
    ByteUnknown,
    /// A count, a divisor, a dividend or another word that must be a number isn't one.
    NumberUnknown,
    /// The stack pointer doesn't point into the stack, or has too little room below it.
    StackLow,
    /// A call of an imported symbol, by its number in the dynamic symbol table, that has no answer.
    Import(u32),
}
