ghost use Rattle.std.specs.Prelude.{◌≡◌, ◌≤◌};
ghost use Rattle.rw_code.specs.Start.{Start, word_count, first_offset as offset_of, texts_offset as texts_of};

/// The offset in the stack where a program starts: the greatest multiple of 16 that leaves room, at the stack's end, for
/// the count of its words, a pointer to each and four zero words. `stack` is the size of the stack in bytes, and `words`
/// counts the program's name too.
pub fn first_offset(stack: u64, words: u64) -> u64
    requires few { words ≤ 4096 }
    ensures { (start : Start) → start.stack ≡ stack → word_count start ≡ words → result ≡ offset_of start }
{
    stack.saturating_sub(8 * (words + 5)) / 16 * 16
}

/// The offset in the arguments where the bytes of the words begin: behind a pointer to each and two zero words.
pub fn texts_offset(words: u64) -> u64
    requires few { words ≤ 4096 }
    ensures { (start : Start) → word_count start ≡ words → result ≡ texts_of start }
{
    8 * (words + 2)
}
