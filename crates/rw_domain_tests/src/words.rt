ghost use Rattle.std.specs.Prelude.{◌≡◌, IfOk, length};
ghost use Rattle.rw_domain.specs.SymbolData.{placed_symbols};

use crate::numbers::{before, region, row};
use crate::processor::Row;
use rw_base::Width;
use rw_domain::{Access, Cause, Domain, Flags, Hole, Place, Symbols, Tri};
use rw_words::Atom::{Code, Diff, Past, Ptr};
use rw_words::Kind::{self, Mixed, Number, Whole};
use rw_words::{Cell, Word};
use std::alloc::{AllocError, Global};
use std::test::Fail;
use x86_insn::AluOp::{self, Add, And, Cmp, Or, Sub, Xor};
use x86_insn::{OneOp, ScanOp, ShiftOp};

/// Data of 64 bytes with a hole, a stack, arguments and a canary.
fn symbols(alloc: Global) -> Result<Symbols, AllocError>
    ensures { IfOk result (λ d. length (placed_symbols d).regions ≡ 4) }
{
    let mut regions = Vec::new(alloc);
    regions.push(region(64, true))?;
    regions.push(region(4096, true))?;
    regions.push(region(32, true))?;
    regions.push(region(8, false))?;
    let mut holes = Vec::new(alloc);
    holes.push(Hole {
        region: 0,
        start: 16,
        end: 24,
    })?;
    Ok(Symbols::new(regions, holes))
}

/// The word of 64 bits of a kind.
fn word(kind: Kind) -> Word {
    match kind {
        Number(n) => Word::num(Width::Q, n),
        Whole(a) => Word::atom(a),
        Mixed => Word::undef(Width::Q),
    }
}

/// What the low 64 bits of a word are.
fn kind_of_word(a: Word) -> Kind {
    a.low(Width::Q).kind()
}

const N: Row = (
    Tri::Unknown,
    Tri::Unknown,
    Tri::Unknown,
    Tri::Unknown,
    Tri::Unknown,
);

/// All clear but parity, which is unknown.
const CLEAR: Row = (Tri::No, Tri::No, Tri::No, Tri::No, Tri::Unknown);

const DIFFER: Row = (
    Tri::Unknown,
    Tri::No,
    Tri::Unknown,
    Tri::Unknown,
    Tri::Unknown,
);

const BELOW: Row = (Tri::Yes, Tri::No, Tri::Unknown, Tri::Unknown, Tri::Unknown);

const EQUAL: Row = (Tri::No, Tri::Yes, Tri::No, Tri::No, Tri::Yes);

/// Of 8 minus 13.
const NEGATIVE: Row = (Tri::Yes, Tri::No, Tri::Yes, Tri::No, Tri::No);

/// Operator, operands, result and flags.
type Case = (AluOp, Kind, Kind, Kind, Row);

#[rattlefmt::skip]
static CASES: [Case; 36] = [
    (Add, Whole(Ptr(0, 8)), Number(5), Whole(Ptr(0, 13)), N),
    (Add, Number(5), Whole(Ptr(0, 8)), Whole(Ptr(0, 13)), N),
    (Add, Whole(Code(8)), Number(5), Mixed, N),
    (Sub, Whole(Ptr(0, 8)), Number(13), Whole(Ptr(0, 0xffff_ffff_ffff_fffb)), N),
    (Sub, Whole(Ptr(0, 8)), Whole(Ptr(0, 13)), Number(0xffff_ffff_ffff_fffb), NEGATIVE),
    (Sub, Whole(Ptr(0, 64)), Whole(Ptr(0, 64)), Number(0), EQUAL),
    (Sub, Whole(Ptr(0, 65)), Whole(Ptr(0, 64)), Number(1), N),
    (Add, Whole(Ptr(0, 8)), Whole(Diff(7, 0, 8)), Whole(Code(7)), N),
    (Add, Whole(Diff(7, 0, 8)), Whole(Ptr(0, 8)), Whole(Code(7)), N),
    (Add, Whole(Ptr(0, 9)), Whole(Diff(7, 0, 8)), Mixed, N),
    (And, Whole(Ptr(0, 31)), Number(0xffff_ffff_ffff_fff0), Whole(Ptr(0, 16)), N),
    (And, Whole(Ptr(0, 31)), Number(0xffff_ffff_ffff_ffe0), Mixed, N),
    (And, Whole(Ptr(0, 31)), Number(0xffff_ffff_ffff_fff1), Mixed, N),
    (And, Whole(Ptr(0, 31)), Number(0), Mixed, N),
    (And, Whole(Ptr(9, 31)), Number(0xffff_ffff_ffff_ffff), Whole(Ptr(9, 31)), N),
    (And, Number(0xffff_ffff_ffff_fff0), Whole(Ptr(0, 31)), Mixed, N),
    (And, Whole(Ptr(0, 64)), Whole(Ptr(0, 64)), Whole(Ptr(0, 64)), CLEAR),
    (And, Whole(Ptr(0, 65)), Whole(Ptr(0, 65)), Whole(Ptr(0, 65)), N),
    (Or, Whole(Code(7)), Whole(Code(7)), Whole(Code(7)), CLEAR),
    (Or, Whole(Code(7)), Whole(Code(8)), Mixed, N),
    (Or, Whole(Past(7)), Whole(Past(7)), Whole(Past(7)), N),
    (Xor, Whole(Code(7)), Whole(Code(7)), Mixed, N),
    (Sub, Whole(Ptr(0, 64)), Number(0), Whole(Ptr(0, 64)), CLEAR),
    (Sub, Whole(Ptr(0, 65)), Number(0), Whole(Ptr(0, 65)), N),
    (Sub, Whole(Code(7)), Number(0), Mixed, CLEAR),
    (Cmp, Whole(Code(7)), Number(1), Mixed, N),
    (Cmp, Whole(Ptr(0, 63)), Number(0x8000_0000_0000), Whole(Ptr(0, 0xffff_8000_0000_003f)), BELOW),
    (Cmp, Whole(Ptr(0, 64)), Number(0x8000_0000_0000), Whole(Ptr(0, 0xffff_8000_0000_0040)), N),
    (Cmp, Whole(Ptr(0, 63)), Number(0x7fff_ffff_ffff), Whole(Ptr(0, 0xffff_8000_0000_0040)), N),
    (Cmp, Whole(Ptr(0, 63)), Whole(Ptr(1, 0)), Mixed, DIFFER),
    (Cmp, Whole(Ptr(0, 64)), Whole(Ptr(1, 0)), Mixed, N),
    (Cmp, Whole(Ptr(0, 20)), Whole(Ptr(1, 0)), Mixed, N),
    (Cmp, Whole(Ptr(1, 0)), Whole(Ptr(4, 0)), Mixed, N),
    (Cmp, Whole(Code(7)), Whole(Code(7)), Mixed, EQUAL),
    (Cmp, Whole(Code(7)), Whole(Code(8)), Mixed, DIFFER),
    (Cmp, Whole(Code(7)), Whole(Past(7)), Mixed, N),
];

#[test]
fn operators_on_words_are_those_of_the_table(rt: HostRuntime) -> Result<(), Fail> {
    let d = symbols(rt.alloc())?;

    for (op, a, b, result, flags) in CASES.iter() {
        let agrees = match d.alu(*op, Width::Q, word(*a), word(*b), Flags::UNKNOWN) {
            Ok((r, f)) => kind_of_word(r) == *result && row(f) == *flags,
            Err(_) => false,
        };
        assert!(rt; agrees, "{op:?} of {a:?} and {b:?}");
    }
    Ok(())
}

#[test]
fn other_operators_need_numbers_or_know_nothing(rt: HostRuntime) -> Result<(), Fail> {
    let d = symbols(rt.alloc())?;
    let three = d.num(Width::L, 3);
    let unknown = d.undef(Width::L);
    let place = Word::atom(Ptr(0, 8));
    assert!(rt;
        match d.div(false, Width::L, unknown, three, three) {
            Err(c) => c == Cause::NumberUnknown,
            Ok(_) => false
        }
    );
    assert!(rt;
        match d.shift(ShiftOp::Shl, Width::Q, three, place, Flags::UNKNOWN) {
            Err(c) => c == Cause::NumberUnknown,
            Ok(_) => false
        }
    );
    let (next, flags) = d.one(OneOp::Dec, Width::Q, place, before(Tri::Yes));
    assert!(rt;
        next.whole() == Some(Ptr(0, 7))
            && row(flags)
                == (
                    Tri::Yes,
                    Tri::Unknown,
                    Tri::Unknown,
                    Tri::Unknown,
                    Tri::Unknown
                )
    );
    let (nothing, flags) = d.scan(ScanOp::Bsf, Width::L, d.num(Width::L, 0));
    assert!(rt; nothing.cell(0) == Cell::Undef && flags.zf == Tri::Yes);
    let half = Word::atom(Diff(7, 0, 8)).low(Width::L);
    assert!(rt; d.extend(true, Width::L, half, Width::Q).whole() == Some(Diff(7, 0, 8)));
    assert!(rt;
        d.extend(true, Width::L, place.low(Width::L), Width::Q)
            .cell(0)
            == Cell::Undef
    );
    let wide = d.extend(false, Width::L, place.low(Width::L), Width::Q);
    assert!(rt; wide.cell(3) == Cell::Part(Ptr(0, 8), 3) && wide.cell(4) == Cell::Num(0));
    Ok(())
}

#[test]
fn places_of_words_are_pointers_into_regions(rt: HostRuntime) -> Result<(), Fail> {
    let mut d = symbols(rt.alloc())?;
    let code = Some(Word::atom(Code(7)));
    assert!(rt; d.sum(code, None, 0).whole() == Some(Code(7)));
    assert!(rt; d.sum(code, Some((d.num(Width::Q, 0), 1)), 0).cell(0) == Cell::Undef);
    let at = d.sum(
        Some(Word::atom(Ptr(0, 8))),
        Some((d.num(Width::Q, 6), 8)),
        -24,
    );
    let cases = [
        ("up to the end", at, 32, Access::Write, Ok((0, 32))),
        (
            "past the end",
            at,
            33,
            Access::Read,
            Err(Cause::AddressOutside),
        ),
        (
            "into the hole",
            word(Whole(Ptr(0, 9))),
            8,
            Access::Read,
            Err(Cause::AddressOutside),
        ),
        (
            "a number",
            word(Number(4096)),
            1,
            Access::Read,
            Err(Cause::AddressOutside),
        ),
        (
            "code",
            word(Whole(Code(7))),
            1,
            Access::Read,
            Err(Cause::AddressUnknown),
        ),
        (
            "a write of the canary",
            d.canary(),
            8,
            Access::Write,
            Err(Cause::NotWritable),
        ),
        (
            "past the canary",
            d.canary(),
            9,
            Access::Write,
            Err(Cause::AddressOutside),
        ),
    ];
    for (what, address, len, access, want) in cases.iter() {
        let want = want.map(|(region, offset)| Place { region, offset });
        assert!(rt; d.place(address, *len, *access) == want, "{what}");
    }
    let fits = [(255, false), (256, true), (4096, true), (4097, false)];
    for (offset, want) in fits {
        assert!(rt;
            d.stack_fits(&word(Whole(Ptr(1, offset)))) == want,
            "at {offset}"
        );
    }
    d.add(rt.alloc(), region(16, true), 0)?;
    assert!(rt;
        d.place(&word(Whole(Ptr(4, 8))), 8, Access::Write)
            == Ok(Place {
                region: 4,
                offset: 8
            })
            && d.forgets()
            && d.stack() == 1
    );
    Ok(())
}
