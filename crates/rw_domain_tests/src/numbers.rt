ghost use Rattle.std.specs.Prelude.{◌≡◌, IfOk, length};
ghost use Rattle.rw_domain.specs.NumberData.{placed_numbers};

use crate::processor::{
    ALU_ROWS, BIT_ROWS, DIV_ROWS, EXTEND_ROWS, MUL_ROWS, ONE_ROWS, Row, SCAN_ROWS, SHIFT_ROWS,
};
use rw_base::Width;
use rw_domain::{Access, Cause, Domain, Eight, Flags, Hole, Numbers, Place, Region, Tri};
use std::alloc::{AllocError, Global};
use std::test::Fail;
use x86_insn::{AluOp, ShiftOp};

pub(crate) fn before(cf: Tri) -> Flags {
    Flags {
        cf,
        zf: Tri::No,
        sf: Tri::Yes,
        of: Tri::No,
        pf: Tri::Yes,
    }
}

pub(crate) fn row(flags: Flags) -> Row {
    (flags.cf, flags.zf, flags.sf, flags.of, flags.pf)
}

pub(crate) fn region(size: u64, writable: bool) -> Region {
    Region {
        size,
        align: 16,
        writable,
        zero: true,
    }
}

/// Data with a hole, a stack, arguments and a canary.
fn domain(alloc: Global) -> Result<Numbers, AllocError>
    ensures { IfOk result (λ d. length (placed_numbers d).regions ≡ 4) }
{
    let mut regions = Vec::new(alloc);
    regions.push(region(64, true))?;
    regions.push(region(4096, true))?;
    regions.push(region(32, true))?;
    regions.push(region(8, false))?;
    let mut bases = Vec::new(alloc);
    bases.push(0x1000)?;
    bases.push(0x10_0000)?;
    bases.push(0x20_0000)?;
    bases.push(0xe000)?;
    let mut holes = Vec::new(alloc);
    holes.push(Hole {
        region: 0,
        start: 16,
        end: 24,
    })?;
    Ok(Numbers::new(regions, bases, holes))
}

#[test]
fn sums_and_differences_are_those_of_a_processor(rt: HostRuntime) -> Result<(), Fail> {
    let d = domain(rt.alloc())?;
    for (op, w, a, b, cf, result, flags) in ALU_ROWS.iter() {
        let answer = d.alu(*op, *w, *a, *b, before(*cf));
        let agrees = match answer {
            Ok((r, f)) => r == *result && row(f) == *flags,
            Err(_) => false,
        };
        assert!(rt; agrees, "{op:?} {w:?} of {a:x} and {b:x}");
    }
    for (op, w, a, cf, result, flags) in ONE_ROWS.iter() {
        let (r, f) = d.one(*op, *w, *a, before(*cf));
        assert!(rt; r == *result && row(f) == *flags, "{op:?} {w:?} of {a:x}");
    }
    Ok(())
}

#[test]
fn shifts_are_those_of_a_processor(rt: HostRuntime) -> Result<(), Fail> {
    let d = domain(rt.alloc())?;
    for (op, w, a, count, cf, result, flags) in SHIFT_ROWS.iter() {
        let agrees = match d.shift(*op, *w, *a, *count, before(*cf)) {
            Ok((r, f)) => r == *result && row(f) == *flags,
            Err(_) => false,
        };
        assert!(rt; agrees, "{op:?} {w:?} of {a:x} by {count}");
    }
    Ok(())
}

#[test]
fn products_and_quotients_are_those_of_a_processor(rt: HostRuntime) -> Result<(), Fail> {
    let d = domain(rt.alloc())?;
    for (signed, w, a, b, low, high, wide) in MUL_ROWS.iter() {
        let (l, h, f) = d.mul(*signed, *w, *a, *b);
        let flags = (*wide, Tri::Unknown, Tri::Unknown, *wide, Tri::Unknown);
        assert!(rt;
            l == *low && h == *high && row(f) == flags,
            "signed {signed} {w:?}: {a:x} times {b:x}"
        );
    }
    for (signed, w, high, low, by, quotient) in DIV_ROWS.iter() {
        assert!(rt;
            d.div(*signed, *w, *high, *low, *by) == Ok(*quotient),
            "signed {signed} {w:?}: {high:x} and {low:x} by {by:x}"
        );
    }
    Ok(())
}

#[test]
fn bits_are_those_of_a_processor(rt: HostRuntime) -> Result<(), Fail> {
    let d = domain(rt.alloc())?;
    for (op, w, a, index, result, cf) in BIT_ROWS.iter() {
        let (r, f) = d.bit(*op, *w, *a, *index, before(Tri::No));
        let flags = (*cf, Tri::No, Tri::Unknown, Tri::Unknown, Tri::Unknown);
        assert!(rt;
            r == *result && row(f) == flags,
            "{op:?} {w:?} of {a:x}, bit {index}"
        );
    }
    for (op, w, a, result, flags) in SCAN_ROWS.iter() {
        let (r, f) = d.scan(*op, *w, *a);
        assert!(rt;
            r == *result && (f.cf, f.zf) == *flags && f.of == Tri::Unknown,
            "{op:?} {w:?} of {a:x}"
        );
    }
    for (signed, from, a, to, result) in EXTEND_ROWS.iter() {
        assert!(rt;
            d.extend(*signed, *from, *a, *to) == *result,
            "signed {signed}: {a:x} of {from:?} to {to:?}"
        );
    }
    Ok(())
}

#[test]
fn undefined_flags_stop_what_needs_them(rt: HostRuntime) -> Result<(), Fail> {
    let d = domain(rt.alloc())?;
    let carried = d.alu(AluOp::Add, Width::L, 0xffff_ffff, 1, Flags::UNKNOWN);
    let all = Flags {
        cf: Tri::Yes,
        zf: Tri::Yes,
        sf: Tri::No,
        of: Tri::No,
        pf: Tri::Yes,
    };
    assert!(rt; carried == Ok((0, all)));
    assert!(rt; d.alu(AluOp::Sbb, Width::L, 1, 1, Flags::UNKNOWN) == Err(Cause::FlagUnknown));
    let overflow = match d.shift(ShiftOp::Shl, Width::L, 1, 2, before(Tri::No)) {
        Ok((_, flags)) => flags.of,
        Err(_) => Tri::Yes,
    };
    assert!(rt; overflow == Tri::Unknown && d.div(false, Width::L, 1, 0, 1) == Ok(None));
    Ok(())
}

#[test]
fn words_are_their_bytes(rt: HostRuntime) -> Result<(), Fail> {
    let d = domain(rt.alloc())?;
    let a = d.num(Width::Q, 0x1122_3344_5566_7788);
    let bytes = Eight {
        b0: d.split(a, 0),
        b1: d.split(a, 1),
        b2: d.split(a, 2),
        b3: d.split(a, 3),
        b4: d.split(a, 4),
        b5: d.split(a, 5),
        b6: d.split(a, 6),
        b7: d.split(a, 7),
    };
    assert!(rt;
        bytes.b0 == 0x88 && d.join(Width::Q, &bytes) == a && d.join(Width::W, &bytes) == 0x7788
    );
    assert!(rt; d.swap(Width::L, a) == 0x8877_6655 && d.swap(Width::Q, a) == 0x8877_6655_4433_2211);
    assert!(rt; d.number(Width::B, a) == Some(0x88) && d.undef(Width::W) == 0 && !d.forgets());
    Ok(())
}

#[test]
fn places_are_inside_regions_and_outside_their_holes(rt: HostRuntime) -> Result<(), Fail> {
    let mut d = domain(rt.alloc())?;
    let at = d.sum(Some(0x1000), Some((3, 8)), -16);
    let cases = [
        (at, 8, Access::Write, Ok((0, 8))),
        (at, 9, Access::Read, Err(Cause::AddressOutside)),
        (0x1018, 8, Access::Read, Ok((0, 24))),
        (0x1017, 8, Access::Read, Err(Cause::AddressOutside)),
        (0x103f, 2, Access::Read, Err(Cause::AddressOutside)),
        (d.canary(), 8, Access::Read, Ok((3, 0))),
        (d.canary(), 8, Access::Write, Err(Cause::NotWritable)),
        (d.canary(), 9, Access::Write, Err(Cause::AddressOutside)),
        (
            0x4000_0000_0000,
            16,
            Access::Write,
            Err(Cause::AddressOutside),
        ),
    ];
    for (address, len, access, want) in cases.iter() {
        let place = d.place(address, *len, *access);
        let want = want.map(|(region, offset)| Place { region, offset });
        assert!(rt; place == want, "{access:?} of {len} bytes at {address:x}");
    }
    d.add(rt.alloc(), region(16, true), 0x4000_0000_0000)?;
    let fresh = d.place(&0x4000_0000_0000, 16, Access::Write);
    assert!(rt;
        fresh
            == Ok(Place {
                region: 4,
                offset: 0
            })
            && d.regions().len() == 5
            && d.stack_fits(&0)
            && d.stack() == 1
    );
    Ok(())
}

#[test]
fn an_order_changes_no_place(rt: HostRuntime) -> Result<(), Fail> {
    let mut plain = domain(rt.alloc())?;
    let mut ordered = domain(rt.alloc())?;
    ordered.order(rt.alloc())?;
    plain.add(rt.alloc(), region(8, true), 0x1010)?;
    ordered.add(rt.alloc(), region(8, true), 0x1010)?;
    for address in 0xff8..0x1048 {
        for len in 0..10 {
            let place = ordered.place(&address, len, Access::Read);
            assert!(rt;
                place == plain.place(&address, len, Access::Read),
                "at {address}"
            );
        }
    }
    assert!(rt;
        ordered.place(&0x1010, 8, Access::Write)
            == Ok(Place {
                region: 4,
                offset: 0
            })
    );
    Ok(())
}
