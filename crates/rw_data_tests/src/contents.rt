//! What the data of small files holds before they run.

ghost use Rattle.std.specs.Prelude.{Contains};
ghost use Rattle.rw_elf.specs.Tables.{kept_sections};

use crate::files::{COPY, File, Filled, Given, JUMP_SLOT, Named, RELATIVE, made};
use rw_base::{Refusal, Span};
use rw_data::{Picture, Piece};
use rw_elf::Section;
use rw_tables::Table;
use rw_words::{Atom, Cell};
use std::alloc::{AllocError, Global};
use std::test::Fail;

/// A file with its first contents at offsets of regions, and its pieces, section by section.
struct Held {
    what: &'static str,
    file: File,
    cells: &'static [(u32, u64, Cell)],
    pieces: &'static [Piece],
}

const DISPATCH: &[u8] =
    b"\xbf\0\0\0\0\x83\xff\x02\x77\x24\x48\x8d\x15\xef\x0f\0\0\x48\x63\x04\xba\x48\x01\xd0\x3e\xff\xe0\xbf\x0a\0\0\0\xeb\x0c\xbf\x0b\0\0\0\xeb\x05\xbf\x0c\0\0\0\xb8\x3c\0\0\0\x0f\x05";

/// `xorl %edi, %edi`, `ud2`.
const CODE: &[u8] = b"\x31\xff\x0f\x0b";

#[rattlefmt::skip]
static HELD: [Held; 5] = [
    Held {
        what: "bytes of the file, in two sections",
        file: File { sections: &[Given(b".text", 1, 6, 0x1000, CODE), Given(b".data", 1, 3, 0x3000, b"\x09\x08"), Given(b".rodata", 1, 2, 0x2000, b"\x01\x02\x03\x04\x07\0\0\0")], functions: &[Named(b"_start", 1, 1, 0x1000, 4)], dynamic: &[], filled: &[], entry: 0x1000 },
        cells: &[(0, 0, Cell::Num(1)), (0, 4, Cell::Num(7)), (0, 7, Cell::Num(0)), (1, 1, Cell::Num(8))],
        pieces: &[Piece::Bytes(Span { start: 0x2000, end: 0x2008 }), Piece::Bytes(Span { start: 0x3000, end: 0x3002 })],
    },
    Held {
        what: "a jump table, and a byte behind it",
        file: File { sections: &[Given(b".text", 1, 6, 0x1000, DISPATCH), Given(b".rodata", 1, 2, 0x2000, b"\x1b\xf0\xff\xff\x22\xf0\xff\xff\x29\xf0\xff\xff\x05")], functions: &[Named(b"_start", 1, 1, 0x1000, 53)], dynamic: &[], filled: &[], entry: 0x1000 },
        cells: &[(0, 0, Cell::Part(Atom::Diff(0x101b, 0, 0), 0)), (0, 3, Cell::Part(Atom::Diff(0x101b, 0, 0), 3)), (0, 5, Cell::Part(Atom::Diff(0x1022, 0, 0), 1)), (0, 11, Cell::Part(Atom::Diff(0x1029, 0, 0), 3)), (0, 12, Cell::Num(5))],
        pieces: &[Piece::Table(Table { base: 0x2000, count: 3 }), Piece::Bytes(Span { start: 0x200c, end: 0x200d })],
    },
    Held {
        what: "addresses of data and of code, between bytes",
        file: File { sections: &[Given(b".text", 1, 6, 0x1000, CODE), Given(b".data", 1, 3, 0x3000, b"\x06\0\0\0\0\0\0\0\0\0\0\0\0\0\0\0\0\0\0\0\x09")], functions: &[Named(b"_start", 1, 1, 0x1000, 4)], dynamic: &[], filled: &[Filled(0x300b, 0, RELATIVE, 0x1002), Filled(0x3001, 0, RELATIVE, 0x3015)], entry: 0x1000 },
        cells: &[(0, 0, Cell::Num(6)), (0, 1, Cell::Part(Atom::Ptr(0, 21), 0)), (0, 8, Cell::Part(Atom::Ptr(0, 21), 7)), (0, 9, Cell::Num(0)), (0, 11, Cell::Part(Atom::Code(0x1002), 0)), (0, 18, Cell::Part(Atom::Code(0x1002), 7)), (0, 20, Cell::Num(9))],
        pieces: &[Piece::Bytes(Span { start: 0x3000, end: 0x3001 }), Piece::Quad(0x3001, Atom::Ptr(0, 21)), Piece::Bytes(Span { start: 0x3009, end: 0x300b }), Piece::Quad(0x300b, Atom::Code(0x1002)), Piece::Bytes(Span { start: 0x3013, end: 0x3015 })],
    },
    Held {
        what: "an import, directly behind constant data",
        file: File { sections: &[Given(b".text", 1, 6, 0x1000, CODE), Given(b".rodata", 1, 2, 0x2ff0, &[3; 16]), Given(b".got", 1, 3, 0x3000, &[0; 8])], functions: &[Named(b"_start", 1, 1, 0x1000, 4)], dynamic: &[Named(b"puts", 1, 0, 0, 0)], filled: &[Filled(0x3000, 1, JUMP_SLOT, 0)], entry: 0x1000 },
        cells: &[(0, 15, Cell::Num(3)), (1, 0, Cell::Part(Atom::Import(1), 0)), (1, 7, Cell::Part(Atom::Import(1), 7))],
        pieces: &[Piece::Bytes(Span { start: 0x2ff0, end: 0x3000 }), Piece::Quad(0x3000, Atom::Import(1))],
    },
    Held {
        what: "copied symbols, with bytes in the file and without, and the address of one",
        file: File { sections: &[Given(b".text", 1, 6, 0x1000, CODE), Given(b".data", 1, 3, 0x3000, b"\x01\x02\x03\x04\0\0\0\0\0\0\0\0"), Given(b".bss", 8, 3, 0x4000, &[0; 16])], functions: &[Named(b"_start", 1, 1, 0x1000, 4)], dynamic: &[Named(b"stdout", 1, 3, 0x4000, 8), Named(b"two", 1, 2, 0x3001, 2)], filled: &[Filled(0x4000, 1, COPY, 0), Filled(0x3001, 2, COPY, 0), Filled(0x3004, 0, RELATIVE, 0x4001)], entry: 0x1000 },
        cells: &[(0, 0, Cell::Num(1)), (0, 1, Cell::Num(2)), (0, 2, Cell::Num(3)), (0, 4, Cell::Part(Atom::Ptr(3, 1), 0)), (1, 0, Cell::Num(0)), (1, 15, Cell::Num(0))],
        pieces: &[Piece::Bytes(Span { start: 0x3000, end: 0x3004 }), Piece::Quad(0x3004, Atom::Ptr(3, 1)), Piece::Bytes(Span { start: 0x4000, end: 0x4010 })],
    },
];

fn picture_of(alloc: Global, file: &File) -> Result<Picture, Refusal> {
    let bytes = made(alloc, file)?;
    Picture::of(alloc, bytes)
}

/// The first content at an offset of a region, where the file has it.
fn cell_of(picture: &Picture, region: u32, offset: u64) -> Option<Cell> {
    let kept = picture.elf().kept();
    if region as usize >= kept.len() || offset >= kept[region as usize].size {
        return None;
    }
    Some(picture.first_cell(region, offset))
}

#[test]
fn tells_first_contents(rt: HostRuntime) -> Result<(), Fail> {
    for held in &HELD {
        let picture = picture_of(rt.alloc(), &held.file)?;
        for (region, offset, cell) in held.cells {
            assert_eq!(rt;
                cell_of(&picture, *region, *offset),
                Some(*cell),
                "{}: {region} {offset}",
                held.what
            );
        }
    }
    Ok(())
}

fn push_pieces(
    pieces: &mut Vec<Piece>,
    picture: &Picture,
    section: &Section,
) -> Result<(), AllocError>
    requires { Contains (kept_sections picture.now) section.now }
{
    let mut at = section.addr;
    while let Some(piece) = picture.piece_at(section, at) {
        pieces.push(piece)?;
        at = piece.end();
    }
    Ok(())
}

/// The pieces of all sections.
fn pieces_of(alloc: Global, picture: &Picture) -> Result<Vec<Piece>, AllocError> {
    let mut pieces = Vec::new(alloc);
    for section in picture.elf().kept() {
        push_pieces(&mut pieces, picture, section)?;
    }
    Ok(pieces)
}

#[test]
fn cuts_sections_into_pieces(rt: HostRuntime) -> Result<(), Fail> {
    for held in &HELD {
        let picture = picture_of(rt.alloc(), &held.file)?;
        let pieces = pieces_of(rt.alloc(), &picture)?;
        assert_eq!(rt; pieces.as_slice(), held.pieces, "{}", held.what);
    }
    Ok(())
}
