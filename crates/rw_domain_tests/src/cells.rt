//! Words of cells: what they are, and what they are made of.

use rw_base::Width;
use rw_words::{Atom, Cell, Word};

/// A row of cells, its width, the number that it is and the atom that it is.
type Case = ([Cell; 8], Width, Option<u64>, Option<Atom>);

const PLACE: Atom = Atom::Ptr(1, 8);

const OTHER: Cell = Cell::Part(Atom::Ptr(1, 9), 7);

const P0: Cell = Cell::Part(PLACE, 0);

const P1: Cell = Cell::Part(PLACE, 1);

const P2: Cell = Cell::Part(PLACE, 2);

const P3: Cell = Cell::Part(PLACE, 3);

const P4: Cell = Cell::Part(PLACE, 4);

const P5: Cell = Cell::Part(PLACE, 5);

const P6: Cell = Cell::Part(PLACE, 6);

const P7: Cell = Cell::Part(PLACE, 7);

const N: Cell = Cell::Num(0x12);

const U: Cell = Cell::Undef;

#[rattlefmt::skip]
const CASES: [Case; 7] = [
    ([Cell::Num(0x34), N, U, U, U, U, U, U], Width::W, Some(0x1234), None),
    ([Cell::Num(0x34), N, U, U, U, U, U, U], Width::L, None, None),
    ([N, N, N, N, N, N, N, N], Width::Q, Some(0x1212_1212_1212_1212), None),
    ([P0, P1, P2, P3, P4, P5, P6, P7], Width::Q, None, Some(PLACE)),
    ([P0, P1, P2, P3, P4, P5, P6, P7], Width::L, None, None),
    ([P0, P1, P2, P4, P3, P5, P6, P7], Width::Q, None, None),
    ([P0, P1, P2, P3, P4, P5, P6, OTHER], Width::Q, None, None),
];

#[test]
fn numbers_and_whole_words_are_told_apart(rt: HostRuntime) {
    let cases = CASES;
    for (i, (row, w, number, whole)) in cases.iter().enumerate() {
        let word = Word::of(*w, row);
        assert!(rt;
            word.number() == *number
                && word.whole() == *whole
                && word.cells().len() == w.bytes() as usize,
            "at {i}"
        );
    }
}

#[test]
fn words_are_made_from_the_lowest_byte_on(rt: HostRuntime) {
    let number = Word::num(Width::L, 0x9_1234_5678);
    let atom = Word::atom(Atom::Diff(4096, 0, 16));
    let nothing = Word::undef(Width::B);
    assert!(rt;
        number.cell(0) == Cell::Num(0x78)
            && number.cell(3) == N
            && number.cell(4) == U
            && atom.cell(5) == Cell::Part(Atom::Diff(4096, 0, 16), 5)
            && nothing.cell(0) == U
    );
}
