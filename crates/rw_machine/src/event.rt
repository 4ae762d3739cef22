use crate::ending::End;
use rw_domain::{Cause, Place, Region};

/// The six words of a system call or of a call.
#[derive(Clone, Copy, Debug, PartialEq, Eq)]
pub struct Six<W> {
    pub w0: W,
    pub w1: W,
    pub w2: W,
    pub w3: W,
    pub w4: W,
    pub w5: W,
}

/// What a machine asks of its surroundings.
#[derive(Clone, Copy, Debug, PartialEq, Eq)]
pub enum Event<W> {
    /// A system call by its number, with rdi, rsi, rdx, r10, r8 and r9. A write to descriptor 1 or 2 names the range of
    /// its bytes by place and length, where the length isn't 0; each of these bytes is a number.
    System(u64, Six<W>, Option<(Place, u64)>),
    /// A call of an imported symbol, by its number, with rdi, rsi, rdx, rcx, r8 and r9.
    Import(u32, Six<W>),
}

/// What a step came to.
#[derive(Clone, Copy, Debug, PartialEq, Eq)]
pub enum Answer<W> {
    /// The step is made, and the next one follows.
    Moved,
    /// The step asks, and is made by a reply.
    Asks(Event<W>),
    /// The run has ended.
    Ended(End),
    /// The step can't be made.
    Stopped(Cause),
}

/// What a machine that asks is answered.
#[derive(Debug, Drop)]
pub struct Reply<W, B> {
    /// The result, of width Q, which goes to rax.
    pub result: W,
    /// The words of the registers that are lost: rcx and r11 after a system call; rcx, rdx, rsi, rdi and r8 to r11
    /// after a call.
    pub scratch: Vec<W>,
    /// Bytes that are written, each range inside a region.
    pub writes: Vec<(Place, Vec<B>)>,
    /// A region that is added, with its base; over words the base doesn't matter.
    pub fresh: Option<(Region, u64)>,
    /// The end of the run, if it ends here.
    pub end: Option<End>,
}
