/// What a call is a call of.
#[derive(Clone, Copy, Debug, PartialEq, Eq)]
pub enum Callee {
    /// Of the system: it loses rcx and r11.
    System,
    /// Of an imported function: it loses rcx, rdx, rsi, rdi and r8 to r11.
    Import,
}
