//! Programs, and the checks that a text has to pass to be one.

ghost use Rattle.std.specs.Prelude.{◌≡◌, ◌+◌, ◌<◌, ◌^◌, IfOk, IfErr, length};
ghost use Rattle.asm_items.specs.Lines.{copies_number};
ghost use Rattle.rw_base.specs.declared.fault.Fault.TheVariants.{BadText};
ghost use Rattle.rw_base.specs.declared.fault.Refusal.TheVariants.{Fault as FaultIs};
ghost use Rattle.rw_layout.specs.Checks.{IsProgram, Refuses};
ghost use Rattle.rw_layout.specs.Keys.{AreKeyed, Ascend};
ghost use Rattle.rw_layout.specs.Program.{IsText, seen, shown};
ghost use Rattle.rw_layout.specs.Rule.{functions_number};

use crate::definitions::definitions;
use crate::keyed::{KeyedLine, lines_by_key};
use crate::order::first_misplaced;
use crate::sizes::first_oversize;
use crate::units::count_units;
use crate::uses::{first_unknown, has_counters};
use asm_items::{Item, Names};
use asm_read::Text;
use rw_base::{Fault, Refusal};
use std::alloc::{AllocError, Global};
use std::marker::Model;

/// A text whose lines are in order, define no label twice and copy no name twice, use nothing that isn't defined, and whose data
/// has room. Contracts see it as its text.
#[derive(Drop)]
pub struct Program {
    text: Text,
}

impl Model for Program {
    ghost use Rattle.rw_layout.specs.Checks.{IsProgram};
    ghost use Rattle.rw_layout.specs.Program.{IsText, Numbered, seen, shown};

    ghost Value = { Numbered };

    ghost view = { λ p. seen p.text };

    ghost invariant = { λ p. IsText (seen p.text) × IsProgram (shown (seen p.text)) };
}

// The refusal of a line, which is told counted from 1.
fn refused_at(line: usize) -> Refusal
    requires { line < 2 ^ 32 }
    ensures { result ≡ FaultIs (BadText (line + 1)) }
{
    Refusal::Fault(Fault::BadText(line as u64 + 1))
}

// The four checks, one after another.
fn check(alloc: Global, names: &Names, items: &[Item]) -> Result<(), Refusal>
    requires { IsText (record { names = names.now; items = items.now }) }
    ensures program { IfOk result (λ done. IsProgram (shown (record { names = names.now; items = items.now }))) }
    ensures refused { IfErr result (λ refusal. Refuses (shown (record { names = names.now; items = items.now })) refusal) }
{
    names.are_distinct();
    if let Some(line) = first_misplaced(names, items) {
        return Err(refused_at(line));
    }
    let defined = match definitions(alloc, items)? {
        Ok(defined) => defined,
        Err(line) => return Err(refused_at(line as usize)),
    };
    let counters = has_counters(names, items);
    if let Some(line) = first_unknown(items, &defined, counters) {
        return Err(refused_at(line));
    }
    if let Some(line) = first_oversize(items) {
        return Err(refused_at(line));
    }
    Ok(())
}

impl Program {
    /// The text as a program. The lines of the text are items of a text, as those of one that was read, and there are
    /// fewer than 2^32.
    ///
    /// A refusal is want of memory, or `BadText` with the number of a line, counted from 1: the first line that the first
    /// of these checks refuses.
    ///
    /// 1. The lines are in order. Where another line has to stand, that line is refused; where the text ends too early, the
    ///    one past the last.
    /// 2. No label is defined twice, and no name copied twice.
    /// 3. What is used is defined, and a name without a copy has no offset.
    /// 4. The sections together, and the copies together, have at most 2^30 bytes, and the counters 2^27.
    ///
    /// The time is near-linear in the number of lines.
    pub fn of(alloc: Global, text: Text) -> Result<Program, Refusal>
        requires { IsText (seen text) }
        ensures text { IfOk result (λ program. program ≡ seen text) }
        ensures program { IfOk result (λ program. IsProgram (shown program)) }
        ensures refused { IfErr result (λ refusal. Refuses (shown (seen text)) refusal) }
    {
        check(alloc, &text.names, &text.items)?;
        Ok(Program { text })
    }

    /// The text.
    pub fn text(&self) -> &Text
        ensures text { seen result.now ≡ self.now }
        ensures formed { IsText self.now }
        ensures program { IsProgram (shown self.now) }
    {
        &self.text
    }

    /// How many functions and sections the program has together. The time is linear in the number of lines.
    pub fn units(&self) -> usize
        ensures { result ≡ functions_number (shown self.now) + copies_number (shown self.now) }
    {
        let counts = count_units(&self.text);
        counts.functions + counts.sections
    }

    // The lines that define something, by ascending key.
    pub(crate) fn lines(&self, alloc: Global) -> Result<Vec<KeyedLine>, AllocError>
        ensures ascend { IfOk result (λ lines. Ascend lines.items) }
        ensures keyed { IfOk result (λ lines. AreKeyed lines.items self.now.items (length self.now.items)) }
    {
        lines_by_key(alloc, &self.text.items)
    }
}
