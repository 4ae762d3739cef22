//! The top call.

ghost use Rattle.std.specs.Prelude.{◌≡◌, ◌≢◌, ◌⊎◌, ◌≤◌, ℕ, List, IfSome, None};
ghost use Rattle.std.specs.Io.KnownBytes.{Appends};
ghost use Rattle.rw_io.specs.Outside.{Rose};
ghost use Rattle.asm_items.specs.Lines.{Items};
ghost use Rattle.asm_print.specs.Text.{text_of};
ghost use Rattle.rw_out.specs.Probed.{AreItemsOf};
ghost use Rattle.rw_out.specs.Rewritten.{IsRewritten};
ghost use Rattle.rw_out.specs.Simulates.{Simulates};
ghost use Rattle.retro.specs.Call.{Gains, GainsPart, IfRewriteTold, IsDecided, due_on_err, status_of, texts, told_outcome};
ghost use Rattle.retro.specs.Words.{command_of};

use crate::command::{Ending, command};
use crate::failure::say;
use rw_io::{Files, Sink, Source};
use std::alloc::Global;

/// Does what the words ask for: `rewrite` writes the text of a file in a mode, `blocks` the list of its leaders.
///
/// The answer is the exit status: 0 done, 1 the file has a fault, 2 the words aren't understood, 3 reading failed, 4 writing
/// failed, 5 memory is short. With 1, 2, 3 and 5 a line on `err` says why.
pub fn retro<F: Files, I: Source, O: Sink, E: Sink>(
    alloc: Global,
    words: &[String],
    files: &mut F,
    input: &mut I,
    out: &mut O,
    err: &mut E,
) -> u8
    // 0, 1 and 2 come exactly where the words and the file say so, unless reading fails (3), writing fails (4) or memory is
    // short (5).
    ensures answers { result ≤ 5 }
    ensures decided { IsDecided result → IfSome (told_outcome (texts words.now) (F.told files.old)) (λ outcome. result ≡ status_of outcome) }

    // 2 comes exactly where the words aren't understood, whether the files are told or not, unless writing fails (4).
    ensures words { result ≡ 2 → command_of (texts words.now) ≡ None }
    ensures other_words { command_of (texts words.now) ≡ None → (result ≡ 2) ⊎ (result ≡ 4) }

    // Reading or writing failed: only where a count of faults rose. A failed write decides before a failed read.
    ensures read_fault { result ≡ 3 → Rose (F.faults files.old) (F.faults files.new) }
    ensures write_fault { result ≡ 4 → Rose (O.faults out.old) (O.faults out.new) ⊎ Rose (E.faults err.old) (E.faults err.new) }
    ensures files_kept { result ≢ 3 → result ≢ 4 → F.faults files.new ≡ F.faults files.old }
    ensures out_kept { result ≢ 4 → O.faults out.new ≡ O.faults out.old }
    ensures err_kept { result ≢ 4 → E.faults err.new ≡ E.faults err.old }
    ensures input_kept { input.new ≡ input.old }

    // What `out` gained: at 0 the whole text or list, at 4 a front of it, else nothing.
    ensures text { result ≡ 0 → IfSome (told_outcome (texts words.now) (F.told files.old)) (Gains (O.held out.old) (O.held out.new)) }
    ensures part { result ≡ 4 → IfSome (told_outcome (texts words.now) (F.told files.old)) (GainsPart (O.held out.old) (O.held out.new)) }
    ensures nothing { result ≢ 0 → result ≢ 4 → O.held out.new ≡ O.held out.old }

    // What `err` gained: the line of the answer; nothing at 0, and nothing at 4 unless writing it failed.
    ensures line { result ≢ 4 → IfSome (due_on_err result (told_outcome (texts words.now) (F.told files.old))) (Appends (E.held err.old) (E.held err.new)) }
    ensures quiet { result ≡ 0 → E.held err.new ≡ E.held err.old }
    ensures unsaid { result ≡ 4 → (E.held err.new ≡ E.held err.old) ⊎ Rose (E.faults err.old) (E.faults err.new) }

    // Of `rewrite`: `out` gained the text of some items, and whatever items it is the text of, they simulate the file with the
    // probes of the mode: the original at each placing and the printed program at each layout do what the symbolic machine of
    // the file does, as long as that doesn't stop, and each counter holds how often its leader was entered.
    ensures simulates { result ≡ 0 → IfRewriteTold (command_of (texts words.now)) (F.told files.old) (λ file mode. (gained : List ℕ) × Appends (O.held out.old) (O.held out.new) gained × IsRewritten file mode gained) }

    // Of `rewrite`: these items are those that are laid down for the file in the mode.
    ensures items { result ≡ 0 → IfRewriteTold (command_of (texts words.now)) (F.told files.old) (λ file mode. (items : Items) × AreItemsOf file mode items × Appends (O.held out.old) (O.held out.new) (text_of items) × Simulates file mode items) }
{
    match command(alloc, words, files, out) {
        Ending::Done => 0,
        Ending::WriteFault => 4,
        Ending::Failed(failure) => match say(failure, err) {
            Ok(()) => failure.status(),
            Err(_) => 4,
        },
    }
}
