//! Tables of relative relocations in compact form (gABI, "Relocation", SHT_RELR).

ghost use Rattle.std.specs.Prelude.{◌≡◌, ◌+◌, ◌^◌, ◌++◌, [], ◌∷◌, ◌<◌, ◌≤◌, true, if◌then◌else◌, IfOk, OnOk, None, length};
ghost use Rattle.std.specs.List.{list_any};
ghost use Rattle.std.specs.Result.{result_err};
ghost use Rattle.rw_base.specs.Rules.{first_of};
ghost use Rattle.rw_reloc.specs.Relr.{base_behind, has_word, is_address, is_bad_number, is_relr, is_too_high, number_faults, relr_words, word_at, words_named};

use rw_base::Fault;
use rw_elf::Section;
use rw_elf::abi::SHT_RELR;
use rw_elf::number::u64_at;
use std::alloc::{AllocError, Global};

/// The size of a number of a table, in bytes.
pub(crate) const NUMBER_SIZE: u64 = 8;

/// How many words a bitmap may name.
const WORDS: u64 = 63;

/// No address of a file is as high.
const TOO_HIGH: u64 = 1 << 47;

/// Whether a section is such a table and is loaded.
pub(crate) fn is_relr(section: &Section) -> bool
    ensures { result ≡ is_relr section.now }
{
    section.is_placed() && section.kind == SHT_RELR
}

/// Whether a number of a table is the address of a word, and no bitmap.
fn is_address(number: u64) -> bool
    ensures { result ≡ is_address number }
{
    number % 2 == 0
}

/// Whether a bitmap names the word at a place behind the base; bit 1 is for the first.
fn has_word(bitmap: u64, place: u64) -> bool
    requires { place < 63 }
    ensures { result ≡ has_word bitmap place }
{
    (bitmap >> (place + 1)) & 1 == 1
}

/// The base behind a number.
fn base_behind(base: u64, number: u64) -> u64
    requires base { base < 2 ^ 48 }
    requires number { is_address number ≡ true → number < 2 ^ 47 }
    ensures { result ≡ base_behind base number }
{
    if is_address(number) {
        number + 8
    } else {
        base + 8 * WORDS
    }
}

/// Whether a number names a word above all addresses of a file.
#[tactic(auto, unfolding(crate::specs::Relr::words_named))]
fn names_too_high(base: u64, number: u64) -> bool
    requires { base < 2 ^ 48 }
    ensures { result ≡ list_any is_too_high (words_named base number) }
{
    if is_address(number) {
        return number >= TOO_HIGH;
    }
    for place in 0..WORDS {
        if has_word(number, place) && base + 8 * place >= TOO_HIGH {
            return true;
        }
    }
    false
}

/// Whether a number of a table names no words, or words that no file has.
fn is_bad(index: u64, base: u64, number: u64) -> bool
    requires { base < 2 ^ 48 }
    ensures { result ≡ is_bad_number index base number }
{
    (index == 0 && !is_address(number)) || names_too_high(base, number)
}

/// What is wrong with the first bad number of a table.
#[tactic(auto, unfolding(crate::specs::Relr::number_faults))]
pub(crate) fn check_numbers(bytes: &[u8], table: &Section) -> Result<(), Fault>
    requires inside { table.now.offset + table.now.size ≤ length bytes.now }
    requires short { length bytes.now < 2 ^ 32 }
    ensures { result_err result ≡ first_of (number_faults bytes.now table.now) }
{
    let mut base = 0;
    for index in 0..table.size / NUMBER_SIZE {
        let at = table.offset + NUMBER_SIZE * index;
        let number = u64_at(bytes, at as usize);
        if is_bad(index, base, number) {
            return Err(Fault::BadHeader(at));
        }
        base = base_behind(base, number);
    }
    Ok(())
}

/// Adds the word at a place behind the base, if a bitmap names it.
fn add_word(words: &mut Vec<u64>, base: u64, bitmap: u64, place: u64) -> Result<(), AllocError>
    requires base { base < 2 ^ 48 }
    requires place { place < 63 }
    ensures { OnOk result (words.new.items ≡ words.old.items ++ (if has_word bitmap place then word_at base place ∷ [] else [])) }
{
    if has_word(bitmap, place) {
        words.push(base + 8 * place)?;
    }
    Ok(())
}

/// Adds the words that a number names.
#[tactic(auto, unfolding(crate::specs::Relr::words_named))]
fn add_words(words: &mut Vec<u64>, base: u64, number: u64) -> Result<(), AllocError>
    requires { base < 2 ^ 48 }
    ensures { OnOk result (words.new.items ≡ words.old.items ++ words_named base number) }
{
    if is_address(number) {
        words.push(number)?;
        return Ok(());
    }
    for place in 0..WORDS {
        add_word(words, base, number, place)?;
    }
    Ok(())
}

/// The words that a table without a fault names, in the order of naming.
#[tactic(auto, unfolding(crate::specs::Relr::relr_words))]
pub(crate) fn relr_words(
    alloc: Global,
    bytes: &[u8],
    table: &Section,
) -> Result<Vec<u64>, AllocError>
    requires inside { table.now.offset + table.now.size ≤ length bytes.now }
    requires short { length bytes.now < 2 ^ 32 }
    requires clean { first_of (number_faults bytes.now table.now) ≡ None }
    ensures { IfOk result (λ words. words.items ≡ relr_words bytes.now table.now) }
{
    let mut words = Vec::new(alloc);
    let mut base = 0;
    for index in 0..table.size / NUMBER_SIZE {
        let number = u64_at(bytes, (table.offset + NUMBER_SIZE * index) as usize);
        add_words(&mut words, base, number)?;
        base = base_behind(base, number);
    }
    Ok(words)
}
