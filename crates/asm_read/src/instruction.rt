//! Instructions by their words.

ghost use Rattle.std.specs.Prelude.{◌≡◌, codes, option_map};
ghost use Rattle.x86_insn.specs.References.{map_references};
ghost use Rattle.asm_items.specs.Named.{map_sym};
ghost use Rattle.asm_print.specs.Pieces.{after_prefix};
ghost use Rattle.asm_print.specs.Arguments.{without_comma, one_by, two_in, three_in, args_in};
ghost use Rattle.asm_print.specs.Reading.{is_prefix_word, insn_named, insn_in};
ghost use Rattle.asm_print.specs.Spelling.{map_args};
ghost use Rattle.asm_read.specs.Found.{Finds};
ghost use Rattle.asm_read.specs.Words.{pieces_left};

use crate::arguments::argument;
use crate::building::built;
use crate::forms::form_of_mnemonic;
use crate::pieces::{after, first_piece};
use asm_items::Sym;
use asm_print::spelling::Args;
use x86_insn::Insn;

/// The text but for its last byte, which is a comma behind each argument but the last.
#[tactic(auto, unfolding(asm_print::specs::Arguments::without_comma))]
fn without_comma(text: &[u8]) -> &[u8]
    ensures { result.now ≡ without_comma text.now }
{
    let (front, _) = text.split_at(text.len().saturating_sub(1));
    front
}

fn one(word: &[u8]) -> Option<Args<Sym<&[u8]>>>
    ensures { Finds (map_args (map_sym (λ name. name.now))) result (one_by word.now (after_prefix (codes "*") word.now)) }
{
    match after(word, "*") {
        Some(rest) => {
            let a = argument(rest)?;
            Some(Args::Star(a))
        }
        None => {
            let a = argument(word)?;
            Some(Args::One(a))
        }
    }
}

fn two<'a>(first: &'a [u8], second: &'a [u8]) -> Option<Args<Sym<&'a [u8]>>>
    ensures { Finds (map_args (map_sym (λ name. name.now))) result (two_in first.now second.now) }
{
    let a = argument(without_comma(first))?;
    let b = argument(second)?;
    Some(Args::Two(a, b))
}

fn three<'a>(first: &'a [u8], second: &'a [u8], third: &'a [u8]) -> Option<Args<Sym<&'a [u8]>>>
    ensures { Finds (map_args (map_sym (λ name. name.now))) result (three_in first.now second.now third.now) }
{
    let a = argument(without_comma(first))?;
    let b = argument(without_comma(second))?;
    let c = argument(third)?;
    Some(Args::Three(a, b, c))
}

/// The arguments by their words.
#[tactic(auto, using(crate::proofs::Words::words))]
fn arguments(words: Option<&[u8]>) -> Option<Args<Sym<&[u8]>>>
    ensures { Finds (map_args (map_sym (λ name. name.now))) result (args_in (pieces_left 32 (option_map (λ text. text.now) words.entry))) }
{
    let Some(words) = words else {
        return Some(Args::Zero);
    };
    let (a, rest) = first_piece(words, b' ');
    let Some(rest) = rest else {
        return one(a);
    };
    let (b, rest) = first_piece(rest, b' ');
    let Some(rest) = rest else {
        return two(a, b);
    };
    let (c, rest) = first_piece(rest, b' ');
    if rest.is_some() {
        return None;
    }
    three(a, b, c)
}

/// An instruction by its mnemonic with its prefix, and the words of its arguments.
fn with_mnemonic<'a>(name: &[u8], words: Option<&'a [u8]>) -> Option<Insn<Sym<&'a [u8]>>>
    ensures { Finds (map_references (map_sym (λ name. name.now))) result (insn_named name.now (pieces_left 32 (option_map (λ text. text.now) words.entry))) }
{
    let args = arguments(words)?;
    let form = form_of_mnemonic(name, &args)?;
    built(form, args)
}

fn is_prefix_word(word: &[u8]) -> bool
    ensures { result ≡ is_prefix_word word.now }
{
    word == "rep".as_bytes() || word == "notrack".as_bytes()
}

/// An instruction, without its tab.
#[tactic(auto, using(crate::proofs::Words::words), unfolding(asm_print::specs::Reading::insn_in))]
pub fn instruction(text: &[u8]) -> Option<Insn<Sym<&[u8]>>>
    ensures { Finds (map_references (map_sym (λ name. name.now))) result (insn_in text.now) }
{
    let (word, rest) = first_piece(text, b' ');
    if !is_prefix_word(word) {
        return with_mnemonic(word, rest);
    }
    let behind = rest?;
    let (second, rest) = first_piece(behind, b' ');
    with_mnemonic(&text[..word.len() + 1 + second.len()], rest)
}
