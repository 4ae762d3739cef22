//! The items of the functions and of the data of a file, one after another: at each place of the list the item there, and the place
//! behind it.

ghost use Rattle.std.specs.Prelude.{◌≡◌, ℕ, List, ◌+◌, ◌*◌, ◌≤◌, ◌<◌, ◌^◌, [], ◌∷◌, ◌++◌, drop, length, slice_range, true, IfSome, IfNone, Contains};
ghost use Rattle.x86_insn.specs.WellFormed.{is_instruction};
ghost use Rattle.rw_elf.specs.Tables.{kept_sections};
ghost use Rattle.rw_funcs.specs.Functions.{code_of_symbol, end_of, function_at, kept_functions};
ghost use Rattle.rw_out.specs.Items as items;
ghost use Rattle.rw_probe.specs.ProbedPrograms.{is_endbr64};
ghost use Rattle.rw_out.specs.Items.{byte_line, contents, exponent, function_number, insn_items, last_items, line_count, section_number, with_symbols};
ghost use Rattle.rw_out.specs.Positions.{Goes, HasLine, IsAt, IsPast, IsPointOf, counting_on, entry_on, functions_on, lines_on, points_on, rest, sections_on, words_on};
ghost use Rattle.asm_items.specs.declared.item.Item.TheVariants.{Bytes, Ins};
ghost use Rattle.asm_items.specs.declared.item.Item.TheVariants as item;
ghost use Rattle.asm_items.specs.declared.item.Label.TheVariants as label;
ghost use Rattle.rw_out.specs.Kept.{probes_in};

use crate::position::{FileItem, Position};
use crate::probes::{Counting, Probes};
use arrayvec::ArrayVec;
use asm_items::Label;
use rw_base::Span;
use rw_data::laws::pieces_begin_at_section;
use rw_data::{Picture, Piece};
use rw_elf::abi::SHF_WRITE;
use rw_elf::{NameAt, Section};
use rw_tables::Table;
use x86_decode::decode_one;
use x86_insn::{Insn, Plain};

/// A step of the walk: an item, and the place behind it. It is large, and a function for each kind of place, not inlined, writes
/// it at once to where it is wanted.
type Step = Option<(FileItem, Position)>;

// The power of 2 that an alignment is.
fn exponent(alignment: u64) -> u8
    ensures { result ≡ exponent alignment }
{
    if alignment == 0 {
        0
    } else {
        alignment.trailing_zeros() as u8
    }
}

// How many lines of 16 bytes a run has.
fn line_count(run: Span) -> u64
    requires { run.start ≤ run.end }
    ensures { result ≡ line_count run }
{
    (run.end - run.start).div_ceil(16)
}

/// The item at a place and the place behind it; `None` exactly at the end. Each point is decoded once, where its label is
/// the item. `probe` is the number of the probe that is looked at first, 0 at the start of a walk; the step doesn't depend
/// on it.
pub(crate) fn next_item(
    picture: &Picture,
    probes: &Probes,
    probe: &mut u32,
    position: Position,
) -> Step
    requires { IsAt picture.now position }
    ensures { Goes picture.now (probes_in probes.now) (rest picture.now (probes_in probes.now) position) result }
{
    match position {
        Position::Function(k) => function_step(picture, probes, k),
        Position::TextHead(k) => Some((FileItem::TextHead, Position::CodeAlignment(k))),
        Position::CodeAlignment(k) => Some((FileItem::Align(4), behind_alignment(picture, k))),
        Position::Globl(k) => Some((FileItem::Globl, Position::FuncKind(k))),
        Position::FuncKind(k) => Some((FileItem::FuncKind, Position::Name(k))),
        Position::Name(k) => name_step(picture, k),
        Position::Label(k, at) => label_step(picture, probes, probe, k, at),
        Position::Insn(k, insn, next) => insn_step(k, insn, next),
        Position::Counting(k, line, insn, next) => counting_step(k, line, insn, next),
        Position::Leading(k, insn, line, next) => leading_step(k, insn, line, next),
        Position::Following(k, line, next) => following_step(k, line, next),
        Position::Closing(k) => closing_step(picture, k),
        Position::Section(n) => section_step(picture, probes, n),
        Position::Alignment(n) => alignment_step(picture, n),
        Position::SectionLabel(n) => section_label_step(picture, n),
        Position::Zeros(n) => zeros_step(picture, n),
        Position::Piece(n, at) => piece_step(picture, probes, n, at),
        Position::Line(n, run, k) => line_step(picture, n, run, k),
        Position::Word(n, table, k) => word_step(picture, n, table, k),
        Position::CountersGlobl => Some((FileItem::CountersGlobl, Position::CountersAlignment)),
        Position::CountersAlignment => Some((FileItem::Align(3), Position::CountersName)),
        Position::CountersName => Some((FileItem::CountersName, Position::CountersZeros)),
        Position::CountersZeros => Some((
            FileItem::Zero(8 * probes.count() as u64),
            Position::Tail,
        )),
        Position::Tail => Some((FileItem::Tail, Position::End)),
        Position::End => None,
    }
}

// ---- functions

// How many functions there are.
fn function_count(picture: &Picture) -> usize
    ensures { result ≡ length (kept_functions picture.now) }
{
    picture.funcs().list().len()
}

// The range of the function with a number.
pub(crate) fn span_of(picture: &Picture, k: usize) -> Span
    requires { k < length (kept_functions picture.now) }
    ensures { result ≡ (function_at (function_number picture.now k)).span }
{
    picture.funcs().list()[k].span
}

// Its name.
fn name_of(picture: &Picture, k: usize) -> NameAt
    requires { k < length (kept_functions picture.now) }
    ensures { result ≡ (function_at (function_number picture.now k)).name }
{
    picture.funcs().list()[k].name
}

#[inline(never)]
fn function_step(picture: &Picture, probes: &Probes, k: usize) -> Step
    requires { k ≤ length (kept_functions picture.now) }
    ensures { Goes picture.now (probes_in probes.now) (functions_on picture.now (probes_in probes.now) k) result }
{
    // (for its clause `clean`: the file has no fault)
    let _elf = picture.elf();
    if k < function_count(picture) {
        Some((
            FileItem::Comment(name_of(picture, k)),
            Position::TextHead(k),
        ))
    } else {
        section_step(picture, probes, 0)
    }
}

// Behind the alignment of a function: the function that is entered has three more lines.
fn behind_alignment(picture: &Picture, k: usize) -> Position
    requires { k < length (kept_functions picture.now) }
    ensures rest { (probes : items.Probes) → rest picture.now probes result ≡ entry_on picture.now probes k }
    ensures at { IsAt picture.now result }
{
    // (for its clause `clean`: the file has no fault)
    let _elf = picture.elf();
    let start = span_of(picture, k).start;
    if start == picture.funcs().entry() {
        Position::Globl(k)
    } else {
        Position::Label(k, start)
    }
}

#[inline(never)]
fn name_step(picture: &Picture, k: usize) -> Step
    requires { IsAt picture.now (Position.Name k) }
    ensures { (probes : items.Probes) → Goes picture.now probes (rest picture.now probes (Position.Name k)) result }
{
    // (for its clause `clean`: the file has no fault)
    let _elf = picture.elf();
    Some((
        FileItem::Name,
        Position::Label(k, span_of(picture, k).start),
    ))
}

#[inline(never)]
fn label_step(picture: &Picture, probes: &Probes, probe: &mut u32, k: usize, at: u64) -> Step
    requires { IsAt picture.now (Position.Label k at) }
    ensures { Goes picture.now (probes_in probes.now) (rest picture.now (probes_in probes.now) (Position.Label k at)) result }
{
    // (for its clause `clean`: the file has no fault)
    let _elf = picture.elf();
    let span = span_of(picture, k);
    if at < span.end {
        Some((
            FileItem::Label(Label::Code(at)),
            behind_label(picture, probes, probe, k, at),
        ))
    } else {
        Some((
            FileItem::Label(Label::Past(span.start)),
            Position::Closing(k),
        ))
    }
}

// The bytes of the function with a number.
fn code_of(picture: &Picture, k: usize) -> &[u8]
    requires { k < length (kept_functions picture.now) }
    ensures { result.now ≡ code_of_symbol picture.now (function_number picture.now k) }
{
    let function = &picture.funcs().list()[k];
    picture.funcs().code_of(function)
}

// The bytes from an offset on.
fn bytes_from(bytes: &[u8], offset: u64) -> &[u8]
    requires { offset ≤ length bytes.now }
    ensures { result.now ≡ drop offset bytes.now }
{
    &bytes[offset as usize..]
}

// The instruction at a point of a function, and the address behind it.
pub(crate) fn insn_at(picture: &Picture, k: usize, at: u64) -> (Insn<u64>, u64)
    requires past { IsPast picture.now k at }
    requires inside { at < end_of (function_number picture.now k) }
    ensures next { IsPointOf picture.now k at result.0 result.1 }
    ensures at { IsPast picture.now k result.1 }
    ensures formed { is_instruction result.0 ≡ true }
{
    // (for its clause `clean`: the file has no fault)
    let _elf = picture.elf();
    let code = code_of(picture, k);
    let offset = at - span_of(picture, k).start;
    let (insn, len) = decode_one(bytes_from(code, offset), at).unwrap();
    (insn, at + u64::from(len))
}

fn is_endbr64(insn: &Insn<u64>) -> bool
    ensures { result ≡ is_endbr64 insn.now }
{
    matches!(insn, Insn::Plain(Plain::Endbr64))
}

// Before an instruction with a probe.
fn probed(k: usize, insn: Insn<u64>, line: Counting, next: u64) -> Position
    ensures rest { (file : List ℕ) (probes : items.Probes) → rest file probes result ≡ insn_items (is_endbr64 insn) (Ins (with_symbols file insn)) (counting_on line) ++ points_on file probes k next }
    ensures at { (file : List ℕ) → IsPast file k next → is_instruction insn ≡ true → HasLine line → IsAt file result }
{
    if is_endbr64(&insn) {
        Position::Leading(k, insn, line, next)
    } else {
        Position::Counting(k, line, insn, next)
    }
}

// Behind the label of a point of a function.
fn behind_label(picture: &Picture, probes: &Probes, probe: &mut u32, k: usize, at: u64) -> Position
    requires past { IsPast picture.now k at }
    requires inside { at < end_of (function_number picture.now k) }
    ensures rest { item.Label (label.Code at) ∷ rest picture.now (probes_in probes.now) result ≡ points_on picture.now (probes_in probes.now) k at }
    ensures at { IsAt picture.now result }
{
    let (insn, next) = insn_at(picture, k, at);
    match probes.at_near(at, probe) {
        Some((counter, form)) => probed(k, insn, Counting::first(counter, form), next),
        None => Position::Insn(k, insn, next),
    }
}

#[inline(never)]
fn insn_step(k: usize, insn: Insn<u64>, next: u64) -> Step
    ensures { (file : List ℕ) (probes : items.Probes) → IsPast file k next → is_instruction insn ≡ true → Goes file probes (rest file probes (Position.Insn k insn next)) result }
{
    Some((FileItem::Insn(insn), Position::Label(k, next)))
}

#[inline(never)]
fn leading_step(k: usize, insn: Insn<u64>, line: Counting, next: u64) -> Step
    requires { HasLine line }
    ensures { (file : List ℕ) (probes : items.Probes) → IsPast file k next → is_instruction insn ≡ true → Goes file probes (rest file probes (Position.Leading k insn line next)) result }
{
    Some((FileItem::Insn(insn), Position::Following(k, line, next)))
}

#[inline(never)]
fn counting_step(k: usize, line: Counting, insn: Insn<u64>, next: u64) -> Step
    requires { HasLine line }
    ensures { (file : List ℕ) (probes : items.Probes) → IsPast file k next → is_instruction insn ≡ true → Goes file probes (rest file probes (Position.Counting k line insn next)) result }
{
    match line.next() {
        Some(behind) => Some((
            FileItem::Counting(line),
            Position::Counting(k, behind, insn, next),
        )),
        None => Some((FileItem::Counting(line), Position::Insn(k, insn, next))),
    }
}

#[inline(never)]
fn following_step(k: usize, line: Counting, next: u64) -> Step
    requires { HasLine line }
    ensures { (file : List ℕ) (probes : items.Probes) → IsPast file k next → Goes file probes (rest file probes (Position.Following k line next)) result }
{
    match line.next() {
        Some(behind) => Some((
            FileItem::Counting(line),
            Position::Following(k, behind, next),
        )),
        None => Some((FileItem::Counting(line), Position::Label(k, next))),
    }
}

#[inline(never)]
fn closing_step(picture: &Picture, k: usize) -> Step
    requires { IsAt picture.now (Position.Closing k) }
    ensures { (probes : items.Probes) → Goes picture.now probes (rest picture.now probes (Position.Closing k)) result }
{
    // (so the number of the next function fits its type)
    let _within = k < function_count(picture);
    Some((
        FileItem::Insn(Insn::Plain(Plain::Int3)),
        Position::Function(k + 1),
    ))
}

// ---- data

// How many kept sections there are.
fn section_count(picture: &Picture) -> usize
    ensures exact { result ≡ length (kept_sections picture.now) }
    ensures few { result < 2 ^ 32 }
{
    // (for its clause `clean`: the file has no fault)
    let _file = picture.elf().file();
    picture.elf().kept().len()
}

// The kept section with a number.
fn kept_section(picture: &Picture, n: usize) -> &Section
    requires { n < length (kept_sections picture.now) }
    ensures section { result.now ≡ section_number picture.now n }
    ensures kept { Contains (kept_sections picture.now) result.now }
{
    &picture.elf().kept()[n]
}

// The first line behind the data: of the counters, if there are any.
fn last_step(probes: &Probes) -> Step
    ensures { (file : List ℕ) → Goes file (probes_in probes.now) (last_items (probes_in probes.now)) result }
{
    if probes.count() == 0 {
        Some((FileItem::Tail, Position::End))
    } else {
        Some((FileItem::CountersHead, Position::CountersGlobl))
    }
}

#[inline(never)]
fn section_step(picture: &Picture, probes: &Probes, n: usize) -> Step
    requires { n ≤ length (kept_sections picture.now) }
    ensures { Goes picture.now (probes_in probes.now) (sections_on picture.now (probes_in probes.now) n) result }
{
    if n < section_count(picture) {
        let section = kept_section(picture, n);
        Some((
            FileItem::SectionHead(n as u32, section.has_flag(SHF_WRITE), !section.has_bytes()),
            Position::Alignment(n),
        ))
    } else {
        last_step(probes)
    }
}

#[inline(never)]
fn alignment_step(picture: &Picture, n: usize) -> Step
    requires { IsAt picture.now (Position.Alignment n) }
    ensures { (probes : items.Probes) → Goes picture.now probes (rest picture.now probes (Position.Alignment n)) result }
{
    Some((
        FileItem::Align(exponent(kept_section(picture, n).align)),
        Position::SectionLabel(n),
    ))
}

// Where the contents of a kept section begin.
fn contents_at(picture: &Picture, n: usize) -> Position
    requires { n < length (kept_sections picture.now) }
    ensures rest { (probes : items.Probes) → rest picture.now probes result ≡ contents picture.now (section_number picture.now n) ++ sections_on picture.now probes (n + 1) }
    ensures at { IsAt picture.now result }
{
    pieces_begin_at_section();
    let section = kept_section(picture, n);
    if section.has_bytes() {
        Position::Piece(n, section.addr)
    } else {
        Position::Zeros(n)
    }
}

#[inline(never)]
fn section_label_step(picture: &Picture, n: usize) -> Step
    requires { IsAt picture.now (Position.SectionLabel n) }
    ensures { (probes : items.Probes) → Goes picture.now probes (rest picture.now probes (Position.SectionLabel n)) result }
{
    // (so the number fits its type)
    let _within = n < section_count(picture);
    Some((
        FileItem::Label(Label::Section(n as u32)),
        contents_at(picture, n),
    ))
}

#[inline(never)]
fn zeros_step(picture: &Picture, n: usize) -> Step
    requires { IsAt picture.now (Position.Zeros n) }
    ensures { (probes : items.Probes) → Goes picture.now probes (rest picture.now probes (Position.Zeros n)) result }
{
    // (so the number of the next section fits its type)
    let _within = n < section_count(picture);
    Some((
        FileItem::Zero(kept_section(picture, n).size),
        Position::Section(n + 1),
    ))
}

#[inline(never)]
fn piece_step(picture: &Picture, probes: &Probes, n: usize, at: u64) -> Step
    requires { IsAt picture.now (Position.Piece n at) }
    ensures { Goes picture.now (probes_in probes.now) (rest picture.now (probes_in probes.now) (Position.Piece n at)) result }
{
    // (for its clause `clean`, and so the number of the next section fits its type)
    let _elf = picture.elf();
    let _within = n < section_count(picture);
    match picture.piece_at(kept_section(picture, n), at) {
        Some(Piece::Bytes(run)) => line_step(picture, n, run, 0),
        Some(Piece::Quad(_, atom)) => Some((FileItem::Quad(atom), Position::Piece(n, at + 8))),
        Some(Piece::Table(table)) => Some((
            FileItem::Label(Label::Table(table.base)),
            Position::Word(n, table, 0),
        )),
        None => section_step(picture, probes, n + 1),
    }
}

// Behind the line with a number of a run of bytes.
fn behind_line(picture: &Picture, n: usize, run: Span, k: u64) -> Position
    requires { IsAt picture.now (Position.Line n run k) }
    ensures rest { (probes : items.Probes) → rest picture.now probes result ≡ lines_on picture.now probes n run (k + 1) }
    ensures at { IsAt picture.now result }
{
    // (for its clause `clean`: the file has no fault)
    let _elf = picture.elf();
    if k + 1 < line_count(run) {
        Position::Line(n, run, k + 1)
    } else {
        Position::Piece(n, run.end)
    }
}

#[inline(never)]
fn line_step(picture: &Picture, n: usize, run: Span, k: u64) -> Step
    requires { IsAt picture.now (Position.Line n run k) }
    ensures { (probes : items.Probes) → Goes picture.now probes (rest picture.now probes (Position.Line n run k)) result }
{
    Some((
        FileItem::Bytes(line_bytes(picture, n, run, k)),
        behind_line(picture, n, run, k),
    ))
}

// The bytes from an offset on.
fn part(bytes: &[u8], start: u64, len: u64) -> &[u8]
    requires { start + len ≤ length bytes.now }
    ensures { result.now ≡ slice_range bytes.now start (start + len) }
{
    &bytes[start as usize..(start + len) as usize]
}

// The same bytes in a line.
fn row(bytes: &[u8]) -> ArrayVec<u8, 16>
    requires { length bytes.now ≤ 16 }
    ensures { result.items ≡ bytes.now }
{
    let mut row = ArrayVec::new();
    let _fits = row.try_extend_from_slice(bytes);
    row
}

fn line_bytes(picture: &Picture, n: usize, run: Span, k: u64) -> ArrayVec<u8, 16>
    requires { IsAt picture.now (Position.Line n run k) }
    ensures { Bytes result ≡ byte_line picture.now (section_number picture.now n) run k }
{
    // (for its clause `clean`: the file has no fault)
    let _elf = picture.elf();
    let section = kept_section(picture, n);
    let from = run.start + 16 * k;
    let start = section.offset + (from - section.addr);
    row(part(picture.elf().file(), start, (run.end - from).min(16)))
}

// Behind the word with a number of a jump table.
fn behind_word(picture: &Picture, n: usize, table: Table, k: u64) -> Position
    requires { IsAt picture.now (Position.Word n table k) }
    ensures rest { (probes : items.Probes) → rest picture.now probes result ≡ words_on picture.now probes n table (k + 1) }
    ensures at { IsAt picture.now result }
{
    // (for its clause `clean`: the file has no fault)
    let _elf = picture.elf();
    if k + 1 < table.count {
        Position::Word(n, table, k + 1)
    } else {
        Position::Piece(n, table.base + 4 * table.count)
    }
}

#[inline(never)]
fn word_step(picture: &Picture, n: usize, table: Table, k: u64) -> Step
    requires { IsAt picture.now (Position.Word n table k) }
    ensures { (probes : items.Probes) → Goes picture.now probes (rest picture.now probes (Position.Word n table k)) result }
{
    // (for its clause `clean`: the file has no fault)
    let _elf = picture.elf();
    let next = behind_word(picture, n, table, k);
    match picture.tables().entry_at(table.base + 4 * k) {
        Some((point, base)) => Some((FileItem::LongDiff(point, base), next)),
        None => Some((FileItem::LongDiff(0, 0), next)),
    }
}
