//! The public calls, each once.

use crate::cases::{BORROWED, FlagRow, NONE, machine};
use crate::listing::Listing;
use crate::words::symbols;
use rw_base::Width::Q;
use rw_domain::{Domain, Flags, Place, Tri};
use rw_machine::{Answer, Registers, holds, step};
use rw_words::{Cell, Kind};
use std::test::Fail;
use x86_insn::Cond::{self, A, Ae, B, Be, E, G, Ge, L, Le, Ne, No, Np, Ns, O, P, S};
use x86_insn::Insn;
use x86_insn::Mem::Canary;
use x86_insn::Operand::{Mem, Reg as R};
use x86_insn::Reg::{R15, Rax, Rsp};

/// After a borrow, and after a difference 0.
static CONDITIONS: [(Cond, bool, bool); 16] = [
    (O, false, false),
    (No, true, true),
    (B, true, false),
    (Ae, false, true),
    (E, false, true),
    (Ne, true, false),
    (Be, true, true),
    (A, false, false),
    (S, true, false),
    (Ns, false, true),
    (P, true, true),
    (Np, false, false),
    (L, true, false),
    (Ge, false, true),
    (Le, true, true),
    (G, false, false),
];

const EQUAL: FlagRow = (Tri::No, Tri::Yes, Tri::No, Tri::No, Tri::Yes);

fn flags((cf, zf, sf, of, pf): FlagRow) -> Flags {
    Flags { cf, zf, sf, of, pf }
}

#[test]
fn conditions_need_their_flags(rt: HostRuntime) {
    for (cond, borrowed, equal) in CONDITIONS.iter() {
        let answers = (
            holds(*cond, flags(BORROWED)),
            holds(*cond, flags(EQUAL)),
            holds(*cond, flags(NONE)),
        );
        assert_eq!(rt; answers, (Some(*borrowed), Some(*equal), None), "{cond:?}");
    }
}

#[test]
fn a_new_machine_knows_its_first_bytes(rt: HostRuntime) -> Result<(), Fail> {
    let state = symbols(rt.alloc())?;
    let bytes = [(0, 63), (1, 0), (3, 7)].map(|(region, offset)| state.byte(Place {
        region,
        offset,
    }));
    assert_eq!(rt;
        bytes,
        [Some(Cell::Num(0)), Some(Cell::Undef), Some(Cell::Num(0))]
    );
    assert!(rt;
        state
            .byte(Place {
                region: 0,
                offset: 64
            })
            .is_none()
            && state
                .byte(Place {
                    region: 4,
                    offset: 0
                })
                .is_none()
    );
    assert_eq!(rt;
        (state.flags(), state.point(), state.domain().regions().len()),
        (flags(NONE), 0, 4)
    );
    assert_eq!(rt;
        (state.reg(Rax).kind(), state.reg(Rsp).kind()),
        (Kind::Mixed, Kind::Mixed)
    );
    Ok(())
}

#[test]
fn what_is_put_is_there(rt: HostRuntime) -> Result<(), Fail> {
    let mut state = machine(rt.alloc())?;
    let at = Place {
        region: 3,
        offset: 1,
    };
    assert!(rt; state.byte(at).is_some());
    state.put(rt.alloc(), at, 0x2a)?;
    state.set_reg(R15, 9);
    let code = Listing {
        insns: &[Insn::Mov {
            w: Q,
            to: R(Rax),
            from: Mem(Canary),
        }],
    };
    let answers = (
        step(rt.alloc(), &code, &mut state)?,
        step(rt.alloc(), &code, &mut state)?,
    );
    assert_eq!(rt;
        answers,
        (
            Answer::Moved,
            Answer::Stopped(rw_domain::Cause::TargetNoPoint)
        )
    );
    assert_eq!(rt;
        (state.reg(Rax), state.reg(R15), state.byte(at)),
        (0x2a00, 9, Some(0x2a))
    );
    Ok(())
}

#[test]
fn registers_have_names(rt: HostRuntime) {
    let mut registers = Registers {
        rax: 0,
        rcx: 1,
        rdx: 2,
        rbx: 3,
        rsp: 4,
        rbp: 5,
        rsi: 6,
        rdi: 7,
        r8: 8,
        r9: 9,
        r10: 10,
        r11: 11,
        r12: 12,
        r13: 13,
        r14: 14,
        r15: 15,
    };
    registers.set(Rsp, 40);
    assert_eq!(rt;
        (registers.get(Rsp), registers.rsp, registers.get(R15)),
        (40, 40, 15)
    );
}
