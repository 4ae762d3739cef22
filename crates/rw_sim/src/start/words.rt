//! The argument words of a program at its start, and the first words of its stack.

ghost use Rattle.std.specs.Prelude.{◌≡◌, ◌≤◌, ◌+◌, ◌++◌, IfOk, Some, length, map, slice_get};
ghost use Rattle.rw_words.specs.declared.atom.Cell.TheVariants.{Num};
ghost use Rattle.rw_code.specs.Start.{IsStart, all_words, arguments_row, pointers, text_cells, texts_offset as texts_of, word_count, words_size};
ghost use Rattle.rw_sim.specs.Start.{file_ground, own_words, stack_words, start_with};

use super::regions;
use rw_base::Width;
use rw_code::texts_offset;
use rw_data::Picture;
use rw_words::{Atom, Cell, Word};
use std::alloc::{AllocError, Global};

/// How many words there are.
pub(crate) fn count(args: &[String]) -> u64
    requires { IsStart (start_with args.now) }
    ensures count { result ≡ word_count (start_with args.now) }
    ensures args { result ≡ length args.now + 1 }
    ensures few { result ≤ 4096 }
{
    args.len() as u64 + 1
}

/// The bytes of the word with a number: those of the program's name, or of an argument.
fn word(args: &[String], number: u64) -> &[u8]
    requires { number ≤ length args.now }
    ensures { slice_get (all_words (start_with args.now)) number ≡ Some result.now }
{
    if number == 0 {
        "program".as_bytes()
    } else {
        args[number as usize - 1].as_bytes()
    }
}

/// How many bytes the words take, with a zero byte behind each.
pub(crate) fn size(args: &[String]) -> u64
    requires { IsStart (start_with args.now) }
    ensures size { result ≡ words_size (start_with args.now) }
    ensures few { result ≤ 4096 }
{
    let mut size = 0;
    for number in 0..count(args) {
        size += word(args, number).len() as u64 + 1;
    }
    size
}

/// Adds pointers to the words, which stand in the region with a number.
fn push_pointers(args: &[String], region: u32, cells: &mut Vec<Cell>) -> Result<(), AllocError>
    requires { IsStart (start_with args.now) }
    ensures { IfOk result (λ _. cells.new.items ≡ cells.old.items ++ pointers region (texts_of (start_with args.now)) (all_words (start_with args.now))) }
{
    let count = count(args);
    let mut at = texts_offset(count);
    for number in 0..count {
        let pointer = Word::atom(Atom::Ptr(region, at));
        cells.extend_from_slice(pointer.cells())?;
        at += word(args, number).len() as u64 + 1;
    }
    Ok(())
}

/// Adds the bytes of a word.
fn push_text(word: &[u8], cells: &mut Vec<Cell>) -> Result<(), AllocError>
    ensures { IfOk result (λ _. cells.new.items ≡ cells.old.items ++ map Num word.now) }
{
    for byte in word {
        cells.push(Cell::Num(*byte))?;
    }
    Ok(())
}

/// Adds the bytes of the words, with a zero byte behind each.
fn push_texts(args: &[String], cells: &mut Vec<Cell>) -> Result<(), AllocError>
    requires { IsStart (start_with args.now) }
    ensures { IfOk result (λ _. cells.new.items ≡ cells.old.items ++ text_cells (all_words (start_with args.now))) }
{
    for number in 0..count(args) {
        push_text(word(args, number), cells)?;
        cells.push(Cell::Num(0))?;
    }
    Ok(())
}

/// What the region of the arguments holds: pointers to the words, two zero words, and the words.
pub(crate) fn arguments_row(
    alloc: Global,
    picture: &Picture,
    args: &[String],
) -> Result<Vec<Cell>, AllocError>
    requires { IsStart (start_with args.now) }
    ensures { IfOk result (λ cells. cells.items ≡ arguments_row (file_ground picture.now) (start_with args.now)) }
{
    let mut cells = Vec::new(alloc);
    push_pointers(args, regions::count(picture) + 2, &mut cells)?;
    cells.extend_from_slice(&[Cell::Num(0); 16])?;
    push_texts(args, &mut cells)?;
    Ok(cells)
}

/// The first words of the stack of a program that starts itself: the count of the words, pointers to them, and four zero
/// words.
fn own_words(alloc: Global, picture: &Picture, args: &[String]) -> Result<Vec<Cell>, AllocError>
    requires { IsStart (start_with args.now) }
    ensures { IfOk result (λ cells. cells.items ≡ own_words (file_ground picture.now) (start_with args.now)) }
{
    let mut cells = Vec::new(alloc);
    let number = Word::num(Width::Q, count(args));
    cells.extend_from_slice(number.cells())?;
    push_pointers(args, regions::count(picture) + 2, &mut cells)?;
    cells.extend_from_slice(&[Cell::Num(0); 32])?;
    Ok(cells)
}

/// The first words of the stack: of a program that a C library starts, the word to which `main` returns.
pub(crate) fn stack_words(
    alloc: Global,
    picture: &Picture,
    args: &[String],
) -> Result<Vec<Cell>, AllocError>
    requires { IsStart (start_with args.now) }
    ensures { IfOk result (λ cells. cells.items ≡ stack_words (file_ground picture.now) (start_with args.now)) }
{
    if !picture.funcs().hosted() {
        return own_words(alloc, picture, args);
    }
    let end = Word::atom(Atom::End);
    let mut cells = Vec::new(alloc);
    cells.extend_from_slice(end.cells())?;
    Ok(cells)
}
