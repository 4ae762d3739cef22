//! Flags, each of which may be unknown.

/// A flag.
#[derive(Clone, Copy, Debug, PartialEq, Eq)]
pub enum Tri {
    /// It is 1.
    Yes,
    /// It is 0.
    No,
    /// It is undefined, or nothing is known of it.
    Unknown,
}

/// The five flags that are modelled, of RFLAGS in the Intel Software Developer's Manual, volume 1, section 3.4.3.
#[derive(Clone, Copy, Debug, PartialEq, Eq)]
pub struct Flags {
    /// Carry: the last bit that was carried, borrowed or shifted out.
    pub cf: Tri,
    /// Zero: the result is 0.
    pub zf: Tri,
    /// Sign: the highest bit of the result.
    pub sf: Tri,
    /// Overflow: the signed result doesn't fit.
    pub of: Tri,
    /// Parity: the lowest byte of the result has an even number of ones.
    pub pf: Tri,
}

impl Flags {
    /// The flags of which nothing is known.
    pub const UNKNOWN: Flags = Flags {
        cf: Tri::Unknown,
        zf: Tri::Unknown,
        sf: Tri::Unknown,
        of: Tri::Unknown,
        pf: Tri::Unknown,
    };
}
