//! Answers, and what they leave.

use crate::cases::machine;
use crate::listing::{FINISH, IMPORT, Listing};
use rw_base::Width::B;
use rw_domain::{Cause, Domain, Place, Region};
use rw_machine::{Answer, End, Reply, reply, step};
use std::test::Fail;
use x86_insn::Insn::{self, Call, Jmp, Mov, Plain as P, Push, Syscall};
use x86_insn::Mem::At;
use x86_insn::Operand::{Imm, Mem};
use x86_insn::Plain::Nop;
use x86_insn::Reg::{R8, R9, R10, R11, Rax, Rbx, Rcx, Rdi, Rdx, Rsi, Rsp};

/// The middle of the stack, offset 256.
const SP: u64 = 0x10_0100;

const FRESH: u64 = 0x4000_0000_0000;

/// A system call, and stores to the last byte of a region of 16 and behind it.
static SERVED: [Insn<u64>; 3] = [
    Syscall,
    Mov {
        w: B,
        to: Mem(At {
            base: Some(Rax),
            index: None,
            disp: 15,
        }),
        from: Imm(3),
    },
    Mov {
        w: B,
        to: Mem(At {
            base: Some(Rax),
            index: None,
            disp: 16,
        }),
        from: Imm(3),
    },
];

fn place(region: u32, offset: u64) -> Place {
    Place { region, offset }
}

#[test]
fn a_fresh_region_has_its_size(rt: HostRuntime) -> Result<(), Fail> {
    let alloc = rt.alloc();
    let code = Listing { insns: &SERVED };
    let mut state = machine(alloc)?;
    state.set_reg(Rax, 9);
    state.set_reg(Rdx, 5);
    let region = Region {
        size: 16,
        align: 16,
        writable: true,
        zero: true,
    };
    let answer = Reply {
        result: FRESH,
        scratch: vec![in alloc; 7, 8]?,
        writes: Vec::new(alloc),
        fresh: Some((region, FRESH)),
        end: None,
    };
    assert!(rt; matches!(step(alloc, &code, &mut state)?, Answer::Asks(_)));
    assert!(rt; state.domain().regions().len() == 4);
    let moved = reply(alloc, &code, &mut state, &answer)?;
    assert_eq!(rt;
        (moved, state.point(), state.domain().regions().len()),
        (Answer::Moved, 1, 5)
    );
    assert_eq!(rt;
        (state.byte(place(4, 15)), state.byte(place(4, 16))),
        (Some(0), None)
    );
    assert_eq!(rt;
        (
            state.reg(Rax),
            state.reg(Rcx),
            state.reg(R11),
            state.reg(Rdx)
        ),
        (FRESH, 7, 8, 5)
    );
    let inside = step(alloc, &code, &mut state)?;
    let behind = step(alloc, &code, &mut state)?;
    assert_eq!(rt;
        (inside, behind),
        (Answer::Moved, Answer::Stopped(Cause::AddressOutside))
    );
    assert_eq!(rt;
        (state.byte(place(4, 15)), state.byte(place(4, 0))),
        (Some(3), Some(0))
    );
    Ok(())
}

#[test]
fn bytes_of_an_answer_are_written(rt: HostRuntime) -> Result<(), Fail> {
    let alloc = rt.alloc();
    let code = Listing { insns: &[Syscall] };
    let mut state = machine(alloc)?;
    let at = place(0, 3);
    assert!(rt; state.byte(at).is_some());
    let answer = Reply {
        result: 1,
        scratch: vec![in alloc; 7, 8]?,
        writes: vec![in alloc; (at, vec![in alloc; 0x61u8]?)]?,
        fresh: None,
        end: None,
    };
    let moved = reply(alloc, &code, &mut state, &answer)?;
    assert_eq!(rt;
        (moved, state.point(), state.reg(Rax)),
        (Answer::Moved, 1, 1)
    );
    assert_eq!(rt;
        (
            state.byte(place(0, 2)),
            state.byte(at),
            state.byte(place(0, 4))
        ),
        (Some(0), Some(0x61), Some(0))
    );
    Ok(())
}

#[test]
fn a_function_returns_to_the_stored_word(rt: HostRuntime) -> Result<(), Fail> {
    let alloc = rt.alloc();
    let code = Listing {
        insns: &[Call { to: IMPORT }, P(Nop)],
    };
    let mut state = machine(alloc)?;
    state.set_reg(Rsp, SP);
    state.set_reg(Rbx, 9);
    let answer = Reply {
        result: 42,
        scratch: vec![in alloc; 11, 12, 13, 14, 15, 16, 17, 18]?,
        writes: Vec::new(alloc),
        fresh: None,
        end: None,
    };
    assert!(rt; matches!(step(alloc, &code, &mut state)?, Answer::Asks(_)));
    let moved = reply(alloc, &code, &mut state, &answer)?;
    assert_eq!(rt;
        (moved, state.point(), state.byte(place(1, 248))),
        (Answer::Moved, 1, Some(1))
    );
    assert_eq!(rt;
        (state.reg(Rax), state.reg(Rbx), state.reg(Rsp)),
        (42, 9, SP)
    );
    let scratch = [Rcx, Rdx, Rsi, Rdi, R8, R9, R10, R11].map(|r| state.reg(r));
    assert_eq!(rt; scratch, [11, 12, 13, 14, 15, 16, 17, 18]);
    Ok(())
}

#[test]
fn runs_end_by_answers(rt: HostRuntime) -> Result<(), Fail> {
    let alloc = rt.alloc();
    let mut state = machine(alloc)?;
    let exit = Reply {
        result: 0,
        scratch: vec![in alloc; 0, 0]?,
        writes: Vec::new(alloc),
        fresh: None,
        end: Some(End::Exited(3)),
    };
    let ended = reply(alloc, &Listing { insns: &[Syscall] }, &mut state, &exit)?;
    assert_eq!(rt; ended, Answer::Ended(End::Exited(3)));
    Ok(())
}

#[test]
fn a_function_that_cannot_return_changes_nothing(rt: HostRuntime) -> Result<(), Fail> {
    let alloc = rt.alloc();
    let code = Listing {
        insns: &[
            Push {
                from: Imm(FINISH as i64),
            },
            Jmp { to: IMPORT },
        ],
    };
    let mut state = machine(alloc)?;
    let answer = Reply {
        result: 0x103,
        scratch: Vec::new(alloc),
        writes: Vec::new(alloc),
        fresh: None,
        end: None,
    };
    let low = step(alloc, &code, &mut state)?;
    state.set_reg(Rsp, SP);
    let pushed = step(alloc, &code, &mut state)?;
    assert_eq!(rt;
        (low, pushed),
        (Answer::Stopped(Cause::AddressOutside), Answer::Moved)
    );
    state.set_reg(Rsp, 0);
    let stopped = reply(alloc, &code, &mut state, &answer)?;
    assert_eq!(rt;
        (stopped, state.point(), state.reg(Rax)),
        (Answer::Stopped(Cause::AddressOutside), 1, 0)
    );
    state.set_reg(Rsp, SP - 8);
    let ended = reply(alloc, &code, &mut state, &answer)?;
    assert_eq!(rt;
        (ended, state.reg(Rsp)),
        (Answer::Ended(End::Returned(3)), SP)
    );
    Ok(())
}
