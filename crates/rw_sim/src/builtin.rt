ghost use Rattle.std.specs.Prelude.{◌≡◌};
ghost use Rattle.rw_sim.specs.Builtins.{named};

/// A function of the C library that has an answer here.
#[derive(Clone, Copy, Debug, PartialEq, Eq)]
pub enum Builtin {
    Puts,
    Putchar,
    Write,
    Read,
    Exit,
    /// `abort` and `__stack_chk_fail`.
    Abort,
    Malloc,
    Calloc,
    Free,
    /// `memcpy` and `memmove`: both take the bytes as they were at the start.
    Memcpy,
    Memset,
    Strlen,
}

impl Builtin {
    /// The function of a name, if it has an answer.
    #[tactic(auto, unfolding(crate::specs::Builtins::named))]
    pub fn named(name: &[u8]) -> Option<Builtin>
        ensures { result ≡ named name.now }
    {
        if name == b"puts".as_slice() {
            Some(Builtin::Puts)
        } else if name == b"putchar".as_slice() {
            Some(Builtin::Putchar)
        } else if name == b"write".as_slice() {
            Some(Builtin::Write)
        } else if name == b"read".as_slice() {
            Some(Builtin::Read)
        } else if name == b"exit".as_slice() {
            Some(Builtin::Exit)
        } else if name == b"abort".as_slice() || name == b"__stack_chk_fail".as_slice() {
            Some(Builtin::Abort)
        } else if name == b"malloc".as_slice() {
            Some(Builtin::Malloc)
        } else if name == b"calloc".as_slice() {
            Some(Builtin::Calloc)
        } else if name == b"free".as_slice() {
            Some(Builtin::Free)
        } else if name == b"memcpy".as_slice() || name == b"memmove".as_slice() {
            Some(Builtin::Memcpy)
        } else if name == b"memset".as_slice() {
            Some(Builtin::Memset)
        } else if name == b"strlen".as_slice() {
            Some(Builtin::Strlen)
        } else {
            None
        }
    }
}
