//! Regions of memory, their places and their holes.

/// What an access does.
#[derive(Clone, Copy, Debug, PartialEq, Eq)]
pub enum Access {
    /// It reads bytes.
    Read,
    /// It writes bytes, which needs a writable region.
    Write,
}

/// A byte of memory.
#[derive(Clone, Copy, Debug, PartialEq, Eq)]
pub struct Place {
    /// The number of its region.
    pub region: u32,
    /// Its distance from the region's start, in bytes.
    pub offset: u64,
}

/// A piece of memory of its own.
#[derive(Clone, Copy, Debug, PartialEq, Eq)]
pub struct Region {
    /// In bytes.
    pub size: u64,
    /// In bytes: a power of two, or 0, which counts as 1.
    pub align: u64,
    /// It may be written.
    pub writable: bool,
    /// Its bytes start as 0; else nothing is known of them at the start.
    pub zero: bool,
}

/// A range of offsets inside a region that doesn't belong to it: an access that touches one of its bytes isn't inside
/// the region.
#[derive(Clone, Copy, Debug, PartialEq, Eq)]
pub struct Hole {
    /// The number of the region.
    pub region: u32,
    /// The first offset.
    pub start: u64,
    /// The offset behind the last.
    pub end: u64,
}
