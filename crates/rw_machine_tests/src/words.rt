//! Steps over words, by the table of what holds of pointers.

ghost use Rattle.rw_machine.specs.Replying.{FitsFresh, AreInside};
ghost use Rattle.rw_machine.specs.State.{reply_value};

use crate::cases::{BORROW, BORROWED, FlagRow, NONE, regions};
use crate::listing::Listing;
use rw_base::Width::{B, L, Q};
use rw_domain::{Cause, Domain, Place, Symbols, Tri};
use rw_machine::{Answer, Code, End as Ending, Reply, State, reply, step};
use rw_words::Atom::{Code as Point, End, Import, Past, Ptr};
use rw_words::Kind::{self, Mixed, Number, Whole};
use rw_words::{Cell, Word};
use std::alloc::{AllocError, Global};
use std::process::Abort;
use std::test::Fail;
use x86_insn::Insn::{
    self, Call, Jmp, JmpTo, Lea, Mov, One, Plain as P, Pop, Push, Ret, Stos, Syscall,
};
use x86_insn::Mem::{At, Canary, Rel};
use x86_insn::OneOp::Div;
use x86_insn::Operand::{Imm, Mem, Reg as R};
use x86_insn::Plain::{Nop, Ud2};
use x86_insn::Reg::{self, R15, Rax, Rbx, Rcx, Rdi, Rdx, Rsi, Rsp};

/// What is run, the cause by which the last step stops, if it does, words that are left, and flags. Other words before
/// are undefined.
struct Case {
    name: &'static str,
    insns: &'static [Insn<u64>],
    before: &'static [(Reg, Kind)],
    stop: Option<Cause>,
    after: &'static [(Reg, Kind)],
    flags: FlagRow,
}

macro_rules! rows {
    ($($name:literal [$($insn:expr),*] $before:expr => $stop:expr, $after:expr, $flags:expr;)*) => {
        [$(Case { name: $name, insns: &[$($insn),*], before: &$before, stop: $stop, after: &$after, flags: $flags }),*]
    };
}

/// The middle of the stack: two pushes may be made, and not a third.
const SP: Kind = Whole(Ptr(1, 272));

#[rattlefmt::skip]
static CASES: [Case; 23] = rows! {
    "divl by 3 may trap where edx is undefined" [One { op: Div, w: L, at: R(Rcx) }]
        [(Rax, Number(6)), (Rcx, Number(3)), (Rsp, SP)] => Some(Cause::NumberUnknown), [(Rax, Number(6)), (Rdx, Mixed)], NONE;
    "ret forgets the flags" [Push { from: R(Rcx) }, BORROW, Ret, P(Nop)]
        [(Rcx, Whole(Point(3))), (R15, Number(0)), (Rsp, SP)] => None, [(Rsp, SP)], NONE;
    "an indirect jump forgets the flags" [BORROW, JmpTo { to: R(Rcx), notrack: false }, P(Nop)]
        [(Rcx, Whole(Point(2))), (R15, Number(0)), (Rsp, SP)] => None, [], NONE;
    "a direct jump keeps the flags" [BORROW, Jmp { to: 2 }, P(Nop)]
        [(R15, Number(0)), (Rsp, SP)] => None, [], BORROWED;
    "a call forgets the flags and stores the next point" [BORROW, Call { to: 2 }, Pop { to: R(Rax) }]
        [(R15, Number(0)), (Rsp, SP)] => None, [(Rax, Whole(Point(2))), (Rsp, SP)], NONE;
    "a push to offset 256" [Push { from: R(Rcx) }]
        [(Rsp, Whole(Ptr(1, 264)))] => None, [(Rsp, Whole(Ptr(1, 256)))], NONE;
    "a push below offset 256" [Push { from: R(Rcx) }]
        [(Rsp, Whole(Ptr(1, 263)))] => Some(Cause::StackLow), [(Rsp, Whole(Ptr(1, 263)))], NONE;
    "the stack counts after a target" [Jmp { to: 9 }]
        [] => Some(Cause::TargetNoPoint), [], NONE;
    "the stack counts for a trap too" [P(Ud2)]
        [] => Some(Cause::StackLow), [], NONE;
    "a store beyond a region" [Mov { w: Q, to: Mem(Rel(57)), from: Imm(1) }]
        [(Rsp, SP)] => Some(Cause::AddressOutside), [], NONE;
    "a store at a number" [Mov { w: B, to: Mem(At { base: Some(Rbx), index: None, disp: 0 }), from: Imm(1) }]
        [(Rbx, Number(0x1000)), (Rsp, SP)] => Some(Cause::AddressOutside), [], NONE;
    "a store at a point" [Mov { w: B, to: Mem(At { base: Some(Rbx), index: None, disp: 0 }), from: Imm(1) }]
        [(Rbx, Whole(Point(0))), (Rsp, SP)] => Some(Cause::AddressUnknown), [], NONE;
    "a store at an undefined word" [Mov { w: B, to: Mem(At { base: Some(Rbx), index: None, disp: 0 }), from: Imm(1) }]
        [(Rsp, SP)] => Some(Cause::AddressUnknown), [], NONE;
    "a store to the canary" [Mov { w: Q, to: Mem(Canary), from: Imm(1) }]
        [(Rsp, SP)] => Some(Cause::NotWritable), [], NONE;
    "a pointer that is stored is loaded whole" [Mov { w: Q, to: Mem(Rel(8)), from: R(Rsp) }, Mov { w: Q, to: R(Rax), from: Mem(Rel(8)) }]
        [(Rsp, SP)] => None, [(Rax, SP)], NONE;
    "a jump to a pointer" [JmpTo { to: R(Rsp), notrack: false }]
        [(Rsp, SP)] => Some(Cause::TargetNoPoint), [], NONE;
    "a jump to an undefined word" [JmpTo { to: R(Rcx), notrack: false }]
        [(Rsp, SP)] => Some(Cause::TargetUnknown), [], NONE;
    "a jump past a function" [JmpTo { to: R(Rcx), notrack: false }]
        [(Rcx, Whole(Past(0))), (Rsp, SP)] => Some(Cause::TargetUnknown), [], NONE;
    "the end needs the number in rax" [JmpTo { to: R(Rcx), notrack: false }]
        [(Rcx, Whole(End)), (Rsp, SP)] => Some(Cause::NumberUnknown), [], NONE;
    "a count comes before an address" [Stos { w: B, rep: true }]
        [(Rsp, SP)] => Some(Cause::NumberUnknown), [], NONE;
    "write of bytes that aren't numbers" [Syscall]
        [(Rax, Number(1)), (Rdi, Number(1)), (Rsi, SP), (Rdx, Number(1)), (Rsp, SP)] => Some(Cause::ByteUnknown), [], NONE;
    "the red zone is kept" [Push { from: Imm(5) }, Lea { w: Q, to: Rsp, at: At { base: Some(Rsp), index: None, disp: 128 } }, Mov { w: Q, to: R(Rax), from: Mem(At { base: Some(Rsp), index: None, disp: -128 }) }]
        [(Rsp, SP)] => None, [(Rax, Number(5))], NONE;
    "a cell below the red zone is forgotten" [Push { from: Imm(5) }, Lea { w: Q, to: Rsp, at: At { base: Some(Rsp), index: None, disp: 129 } }, Mov { w: Q, to: R(Rax), from: Mem(At { base: Some(Rsp), index: None, disp: -129 }) }]
        [(Rsp, SP)] => None, [(Rax, Mixed)], NONE;
};

fn word(kind: Kind) -> Word {
    match kind {
        Number(n) => Word::num(Q, n),
        Whole(a) => Word::atom(a),
        Mixed => Word::undef(Q),
    }
}

/// A machine over words.
pub fn symbols(alloc: Global) -> Result<State<Symbols, u64>, AllocError> {
    State::new(alloc, Symbols::new(regions(alloc)?, Vec::new(alloc)), 0)
}

/// One step, and why it stops, if it does.
fn stopped<D: Domain, C: Code<D>>(
    alloc: Global,
    code: &C,
    state: &mut State<D, C::Point>,
) -> Result<Option<Cause>, AllocError> {
    match step(alloc, code, state)? {
        Answer::Stopped(cause) => Ok(Some(cause)),
        _ => Ok(None),
    }
}

/// Steps until one stops or the last instruction is left.
fn run(
    alloc: Global,
    code: &Listing,
    state: &mut State<Symbols, u64>,
) -> Result<Option<Cause>, AllocError> {
    let mut stop = None;
    for _ in code.insns {
        if stop.is_none() && state.point() < code.insns.len() as u64 {
            stop = stopped(alloc, code, state)?;
        }
    }
    Ok(stop)
}

/// Asserts what a row says.
fn check(rt: &impl Abort, alloc: Global, case: &Case) -> Result<(), Fail> {
    let mut state = symbols(alloc)?;
    for (r, kind) in case.before {
        state.set_reg(*r, word(*kind));
    }
    let stop = run(alloc, &Listing { insns: case.insns }, &mut state)?;
    let flags = state.flags();
    assert_eq!(rt; stop, case.stop, "{}", case.name);
    assert_eq!(rt;
        (flags.cf, flags.zf, flags.sf, flags.of, flags.pf),
        case.flags,
        "{}",
        case.name
    );
    for (r, kind) in case.after {
        assert_eq!(rt; state.reg(*r).kind(), *kind, "{}: {r:?}", case.name);
    }
    Ok(())
}

#[test]
fn words_stop_where_their_numbers_would_matter(rt: HostRuntime) -> Result<(), Fail> {
    for case in CASES.iter() {
        check(&rt, rt.alloc(), case)?;
    }
    Ok(())
}

/// Makes a step with an answer, and says whether it moved.
fn moved<D: Domain, C: Code<D>>(
    alloc: Global,
    code: &C,
    state: &mut State<D, C::Point>,
    answer: &Reply<D::Word, D::Byte>,
) -> Result<bool, AllocError>
    requires fresh { FitsFresh (D.placed state.old.domain).regions answer.now.fresh }
    requires writes { AreInside (D.placed state.old.domain).regions (reply_value answer.now).writes }
{
    match reply(alloc, code, state, answer)? {
        Answer::Moved => Ok(true),
        _ => Ok(false),
    }
}

/// 5 is left below the word that the function returns to.
static CALLER: [Insn<u64>; 6] = [
    Push { from: Imm(5) },
    Pop { to: R(Rax) },
    Mov {
        w: Q,
        to: Mem(At {
            base: Some(Rsp),
            index: None,
            disp: 0,
        }),
        from: R(Rbx),
    },
    BORROW,
    JmpTo {
        to: R(Rcx),
        notrack: false,
    },
    P(Nop),
];

#[test]
fn a_function_forgets_flags_and_its_frame(rt: HostRuntime) -> Result<(), Fail> {
    let alloc = rt.alloc();
    let code = Listing { insns: &CALLER };
    let mut state = symbols(alloc)?;
    for (r, kind) in [
        (Rbx, Whole(Point(5))),
        (Rcx, Whole(Import(7))),
        (R15, Number(0)),
        (Rsp, SP),
    ] {
        state.set_reg(r, word(kind));
    }
    let stop = run(alloc, &code, &mut state)?;
    let below = Place {
        region: 1,
        offset: 264,
    };
    let before = state.byte(below);
    let answer = Reply {
        result: word(Number(42)),
        scratch: Vec::new(alloc),
        writes: Vec::new(alloc),
        fresh: None,
        end: None,
    };
    let has_moved = moved(alloc, &code, &mut state, &answer)?;
    assert_eq!(rt; (stop, has_moved, state.point()), (None, true, 5));
    assert_eq!(rt;
        (before, state.byte(below)),
        (Some(Cell::Num(5)), Some(Cell::Undef))
    );
    assert_eq!(rt;
        (
            state.flags().cf,
            state.reg(Rax).kind(),
            state.reg(Rcx).kind(),
            state.reg(Rbx).kind()
        ),
        (Tri::Unknown, Number(42), Mixed, Whole(Point(5)))
    );
    Ok(())
}

/// A jump into a function.
static LEAVES: [Insn<u64>; 1] = [JmpTo {
    to: R(Rcx),
    notrack: false,
}];

#[test]
fn a_function_that_ends_the_run_forgets_the_stack_alone(rt: HostRuntime) -> Result<(), Fail> {
    let alloc = rt.alloc();
    let code = Listing { insns: &LEAVES };
    let mut state = symbols(alloc)?;
    state.set_reg(Rcx, word(Whole(Import(7))));
    state.set_reg(Rsp, word(Whole(Ptr(0, 32))));
    let answer = Reply {
        result: word(Number(0)),
        scratch: Vec::new(alloc),
        writes: Vec::new(alloc),
        fresh: None,
        end: Some(Ending::Exited(3)),
    };
    let has_moved = moved(alloc, &code, &mut state, &answer)?;
    let data = Place {
        region: 0,
        offset: 16,
    };
    assert_eq!(rt; (has_moved, state.byte(data)), (false, Some(Cell::Num(0))));
    Ok(())
}
