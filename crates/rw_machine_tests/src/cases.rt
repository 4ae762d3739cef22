//! What a row of a table says, and the machine that runs it.

ghost use Rattle.std.specs.Prelude.{◌≡◌, IfOk, vec_len};

use crate::listing::Listing;
use rw_base::Width;
use rw_domain::{Numbers, Place, Region, Tri};
use rw_machine::{Answer, State, step};
use std::alloc::{AllocError, Global};
use std::process::Abort;
use std::test::Fail;
use x86_insn::Operand::{Imm, Reg as R};
use x86_insn::{AluOp, Insn, Reg};

/// CF, ZF, SF, OF and PF.
pub type FlagRow = (Tri, Tri, Tri, Tri, Tri);

/// What is run, what it leaves, and how the last step ends. All other registers stay as they were, other registers
/// before and other bytes are 0, and no flag is known before.
pub struct Case {
    pub name: &'static str,
    pub insns: &'static [Insn<u64>],
    pub before: &'static [(Reg, u64)],
    pub answer: Answer<u64>,
    pub after: &'static [(Reg, u64)],
    pub bytes: &'static [(u32, u64, u8)],
    pub flags: FlagRow,
}

/// Nothing is known.
pub const NONE: FlagRow = (
    Tri::Unknown,
    Tri::Unknown,
    Tri::Unknown,
    Tri::Unknown,
    Tri::Unknown,
);

/// 0 less 1, which borrows; it sets all flags by %r15, which no row sets.
pub const BORROW: Insn<u64> = Insn::Alu {
    op: AluOp::Cmp,
    w: Width::Q,
    to: R(Reg::R15),
    from: Imm(1),
};

/// The flags of a borrow: the difference is -1.
pub const BORROWED: FlagRow = (Tri::Yes, Tri::No, Tri::Yes, Tri::No, Tri::Yes);

/// A row that ends with a step to the next instruction or beyond the last.
macro_rules! moves {
    ($($name:literal [$($insn:expr),*] $before:expr => $after:expr, $bytes:expr, $flags:expr;)*) => {
        [$(Case { name: $name, insns: &[$($insn),*], before: &$before, answer: Answer::Moved, after: &$after, bytes: &$bytes, flags: $flags }),*]
    };
}

pub(crate) use moves;

/// The data, the stack, the arguments and the canary.
static REGIONS: [Region; 4] = [
    Region {
        size: 64,
        align: 16,
        writable: true,
        zero: true,
    },
    Region {
        size: 512,
        align: 4096,
        writable: true,
        zero: false,
    },
    Region {
        size: 32,
        align: 16,
        writable: true,
        zero: true,
    },
    Region {
        size: 8,
        align: 8,
        writable: false,
        zero: true,
    },
];

/// The regions of a machine.
pub fn regions(alloc: Global) -> Result<Vec<Region>, AllocError>
    ensures { IfOk result (λ v. vec_len v ≡ 4) }
{
    let regions = vec![in alloc; REGIONS[0], REGIONS[1], REGIONS[2], REGIONS[3]]?;
    Ok(regions)
}

/// A machine over numbers.
pub fn machine(alloc: Global) -> Result<State<Numbers, u64>, AllocError> {
    let bases = vec![in alloc; 0x1000, 0x10_0000, 0x20_0000, 0xe000]?;
    let domain = Numbers::new(regions(alloc)?, bases, Vec::new(alloc));
    State::new(alloc, domain, 0)
}

/// Steps until one doesn't move or the last instruction is left.
fn run(
    alloc: Global,
    code: &Listing,
    state: &mut State<Numbers, u64>,
) -> Result<Answer<u64>, AllocError> {
    let mut answer = Answer::Moved;
    for _ in code.insns {
        if answer == Answer::Moved && state.point() < code.insns.len() as u64 {
            answer = step(alloc, code, state)?;
        }
    }
    Ok(answer)
}

/// The value of a register, where a list names it.
fn register_in(list: &[(Reg, u64)], r: Reg) -> Option<u64> {
    for (named, v) in list {
        if *named == r {
            return Some(*v);
        }
    }
    None
}

/// The byte at a place, 0 where a list doesn't name it.
fn byte_in(list: &[(u32, u64, u8)], at: Place) -> u8 {
    for (region, offset, b) in list {
        if *region == at.region && *offset == at.offset {
            return *b;
        }
    }
    0
}

fn are_registers(rt: &impl Abort, case: &Case, state: &State<Numbers, u64>) {
    for r in Reg::ALL {
        let before = register_in(case.before, r).unwrap_or(0);
        let after = register_in(case.after, r).unwrap_or(before);
        assert_eq!(rt; state.reg(r), after, "{}: {r:?}", case.name);
    }
}

fn are_bytes(rt: &impl Abort, case: &Case, state: &State<Numbers, u64>) {
    for (number, region) in REGIONS.iter().enumerate() {
        for offset in 0..region.size {
            let at = Place {
                region: number as u32,
                offset,
            };
            let want = byte_in(case.bytes, at);
            assert_eq!(rt; state.byte(at), Some(want), "{}: {at:?}", case.name);
        }
    }
}

/// Asserts what a row says. A step that doesn't move is that of the last instruction.
pub fn check(rt: &impl Abort, alloc: Global, case: &Case) -> Result<(), Fail> {
    let code = Listing { insns: case.insns };
    let mut state = machine(alloc)?;
    for (r, v) in case.before {
        state.set_reg(*r, *v);
    }
    let answer = run(alloc, &code, &mut state)?;
    let flags = state.flags();
    let count = case.insns.len() as u64;
    let point = if case.answer == Answer::Moved {
        count
    } else {
        count.saturating_sub(1)
    };
    assert_eq!(rt;
        (answer, state.point()),
        (case.answer, point),
        "{}",
        case.name
    );
    assert_eq!(rt;
        (flags.cf, flags.zf, flags.sf, flags.of, flags.pf),
        case.flags,
        "{}",
        case.name
    );
    are_registers(rt, case, &state);
    are_bytes(rt, case, &state);
    Ok(())
}
