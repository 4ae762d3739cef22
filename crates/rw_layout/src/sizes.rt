//! The sizes of data in a text.

ghost use Rattle.std.specs.Prelude.{◌≡◌, ◌≤◌, ◌<◌, ◌+◌, ℕ, List, IfSome, map, None};
ghost use Rattle.asm_items.specs.Lines.{line_size as size_of_line};
ghost use Rattle.asm_items.specs.Named.{named};
ghost use Rattle.rw_layout.specs.Sizes.{AreWithin, sizes_with, part_with, counted_with};
ghost use Rattle.rw_layout.specs.Sizes as sizes;
ghost use Rattle.rw_layout.specs.Checks.{IsFirstAt, Nowhere, PassesLimit};

use asm_items::Item;

/// The most bytes that the sections together have, and the copies together.
const MOST_DATA: u64 = 1 << 30;

/// The most bytes that the counters have.
const MOST_COUNTERS: u64 = 1 << 27;

/// In which part of the text a line stands.
#[derive(Clone, Copy)]
pub(crate) enum Part {
    /// Neither in a section nor among the counters.
    Outside,
    /// In a section.
    InSection,
    /// Among the counters.
    InCounters,
}

/// The sizes so far in bytes, and where the next line stands.
#[derive(Clone, Copy)]
pub(crate) struct Sizes {
    pub(crate) part: Part,
    pub(crate) counted: bool,
    pub(crate) sections: u64,
    pub(crate) copies: u64,
    pub(crate) counters: u64,
}

/// The bytes that a line takes among data.
pub(crate) fn line_size(item: &Item) -> u64
    ensures { (names : List (List ℕ)) → result ≡ size_of_line (named names item.now) }
{
    match item {
        Item::Bytes(bytes) => bytes.len() as u64,
        Item::Quad(_) => 8,
        Item::LongDiff(_, _) => 4,
        Item::Zero(size) => *size,
        _ => 0,
    }
}

fn part_behind(item: &Item, part: Part, counted: bool) -> Part
    ensures { (names : List (List ℕ)) → result ≡ part_with part counted (named names item.now) }
{
    match item {
        Item::TextHead => Part::Outside,
        Item::Tail => Part::Outside,
        Item::SectionHead(_, _, _) => Part::InSection,
        Item::CountsHead => {
            if counted {
                Part::Outside
            } else {
                Part::InCounters
            }
        }
        _ => part,
    }
}

fn is_counted_behind(item: &Item, counted: bool) -> bool
    ensures { (names : List (List ℕ)) → result ≡ counted_with counted (named names item.now) }
{
    match item {
        Item::CountsHead => true,
        _ => counted,
    }
}

fn size_in_section(part: Part, size: u64) -> u64
    ensures { result ≡ sizes.in_section part size }
{
    match part {
        Part::InSection => size,
        _ => 0,
    }
}

fn size_in_counters(part: Part, size: u64) -> u64
    ensures { result ≡ sizes.in_counters part size }
{
    match part {
        Part::InCounters => size,
        _ => 0,
    }
}

fn copy_size(item: &Item) -> u64
    ensures { (names : List (List ℕ)) → result ≡ sizes.copy_size (named names item.now) }
{
    match item {
        Item::Copy(_, size) => *size,
        _ => 0,
    }
}

// A sum that is at most a limit, if the one before was.
fn within(sum: u64, more: u64, limit: u64) -> Option<u64>
    requires { sum ≤ limit }
    ensures sum { IfSome result (λ s. (s ≡ sum + more) × (s ≤ limit)) }
    ensures none { result ≡ None → limit < sum + more }
{
    if more > limit - sum {
        return None;
    }
    Some(sum + more)
}

// The sizes with one more line, unless one is past its limit.
fn with_line(sizes: &Sizes, item: &Item) -> Option<Sizes>
    requires { AreWithin sizes.now }
    ensures more { IfSome result (λ more. ((names : List (List ℕ)) → more ≡ sizes_with sizes.now (named names item.now)) × AreWithin more) }
    ensures none { result ≡ None → (names : List (List ℕ)) → AreWithin (sizes_with sizes.now (named names item.now)) → ⊥ }
{
    let size = line_size(item);
    let sections = within(sizes.sections, size_in_section(sizes.part, size), MOST_DATA)?;
    let copies = within(sizes.copies, copy_size(item), MOST_DATA)?;
    let counters = within(
        sizes.counters,
        size_in_counters(sizes.part, size),
        MOST_COUNTERS,
    )?;
    Some(Sizes {
        part: part_behind(item, sizes.part, sizes.counted),
        counted: is_counted_behind(item, sizes.counted),
        sections,
        copies,
        counters,
    })
}

/// The first line with which a size is past its limit.
pub(crate) fn first_oversize(items: &[Item]) -> Option<usize>
    ensures found { IfSome result (λ p. (names : List (List ℕ)) → IsFirstAt (PassesLimit (map (named names) items.now)) p) }
    ensures none { result ≡ None → (names : List (List ℕ)) → Nowhere (PassesLimit (map (named names) items.now)) }
{
    let mut sizes = Sizes {
        part: Part::Outside,
        counted: false,
        sections: 0,
        copies: 0,
        counters: 0,
    };
    for (i, item) in items.iter().enumerate() {
        match with_line(&sizes, item) {
            Some(more) => sizes = more,
            None => return Some(i),
        }
    }
    None
}
