//! A text, line by line.

ghost use Rattle.std.specs.Prelude.{◌≡◌, ◌<◌, IfOk, IfErr, length, true, count_by};
ghost use Rattle.std.specs.Str.{bytes_eq};
ghost use Rattle.asm_items.specs.Formed.{is_item};
ghost use Rattle.asm_items.specs.Named.{named};
ghost use Rattle.asm_print.specs.Text.{body};
ghost use Rattle.asm_read.specs.Lines.{is_feed};
ghost use Rattle.asm_read.specs.Outcome.{IsReadAs, Refuses};
ghost use Rattle.asm_read.specs.Shown.{Shows};

use crate::formed::candidate;
use crate::numbering::numbered_item;
use crate::pieces::split_at_byte;
use asm_items::{Item, NameId, Names};
use asm_print::{Line, line_of};
use rw_base::{Fault, Refusal};
use std::alloc::{AllocError, Global};

/// The items of a text, with their names.
#[derive(Drop)]
pub struct Text {
    /// The names that the items show, by first appearance.
    pub names: Names,
    /// The items, one for each line.
    pub items: Vec<Item<NameId>>,
}

/// Whether the item's line is this text and a line feed. The line is left in `line`.
#[tactic(auto, using(crate::proofs::Shown::without_feed))]
fn is_line_of(item: &Item<NameId>, names: &Names, line: &mut Line, text: &[u8]) -> bool
    requires { is_item (named names.now item.now) ≡ true }
    ensures { result ≡ bytes_eq (body (named names.now item.now)) text.now }
{
    line_of(item, names, line);
    match line.bytes.as_slice() {
        [shown @ .., _feed] => shown == text,
        [] => false,
    }
}

/// The item whose line this is, but for its line feed, with the number of its name, which is added where it is new.
fn shown_item(
    alloc: Global,
    names: &mut Names,
    line: &mut Line,
    text: &[u8],
) -> Result<Option<Item<NameId>>, AllocError>
    requires { length names.old < 4294967295 }
    ensures { IfOk result (λ found. Shows names.old names.new text.now found) }
{
    let Some(item) = candidate(text) else {
        return Ok(None);
    };
    let item = numbered_item(alloc, names, item)?;
    if !is_line_of(&item, names, line, text) {
        return Ok(None);
    }
    Ok(Some(item))
}

/// Reads a text, which has fewer than 4,294,967,295 line feeds. The empty text is a text of no items.
///
/// A refusal is want of memory, or `BadText` with the number of the first line that isn't the line of an item of a text,
/// counted from 1; a last line without a line feed is none.
pub fn read_text(alloc: Global, bytes: &[u8]) -> Result<Text, Refusal>
    requires { count_by is_feed bytes.now < 4294967295 }
    ensures read { IfOk result (λ text. IsReadAs bytes.now text.names text.items.items) }
    ensures refused { IfErr result (λ refusal. Refuses bytes.now refusal) }
{
    let mut names = Names::new(alloc);
    let mut items = Vec::new(alloc);
    let mut line = Line::new();
    let mut rest = bytes;
    while !rest.is_empty() {
        let number = items.len() as u64 + 1;
        let Some((text, behind)) = split_at_byte(rest, b'\n') else {
            return Err(Refusal::Fault(Fault::BadText(number)));
        };
        let Some(item) = shown_item(alloc, &mut names, &mut line, text)? else {
            return Err(Refusal::Fault(Fault::BadText(number)));
        };
        items.push(item)?;
        rest = behind;
    }
    Ok(Text { names, items })
}
