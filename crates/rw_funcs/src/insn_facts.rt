ghost use Rattle.std.specs.Prelude.{◌≡◌};
ghost use Rattle.rw_funcs.specs.Notes.{ends_block, facts_of};

use x86_insn::Insn;

/// What is known of the instruction that starts at a byte, without decoding it again. Both are false where none starts.
#[derive(Clone, Copy, Debug, PartialEq, Eq)]
pub struct InsnFacts {
    /// Whether it has a direct target or an operand relative to `%rip`.
    pub refers: bool,
    /// Whether it is a jump, a call or a return.
    pub ends_block: bool,
}

/// The facts of a byte at which no instruction starts.
pub(crate) const NO_FACTS: InsnFacts = InsnFacts {
    refers: false,
    ends_block: false,
};

fn ends_block(insn: &Insn<u64>) -> bool
    ensures { result ≡ ends_block insn.now }
{
    matches!(
        insn,
        Insn::Jcc { .. }
            | Insn::Jmp { .. }
            | Insn::JmpTo { .. }
            | Insn::Call { .. }
            | Insn::CallTo { .. }
            | Insn::Ret
    )
}

/// The facts of an instruction.
pub(crate) fn facts_of(insn: &Insn<u64>) -> InsnFacts
    ensures { result ≡ facts_of insn.now }
{
    InsnFacts {
        refers: insn.reference().is_some(),
        ends_block: ends_block(insn),
    }
}
