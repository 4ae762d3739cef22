/// An exception that ends a run: `ud2`, `int3`, `hlt` (privileged), or a division whose divisor is 0 or whose
/// quotient doesn't fit.
#[derive(Clone, Copy, Debug, PartialEq, Eq)]
pub enum Trap {
    Ud2,
    Int3,
    Hlt,
    Divide,
}

/// How a run ends: by a return from the program, by exit, by an abort, or by a trap.
#[derive(Clone, Copy, Debug, PartialEq, Eq)]
pub enum End {
    Returned(u8),
    Exited(u8),
    Aborted,
    Trapped(Trap),
}
