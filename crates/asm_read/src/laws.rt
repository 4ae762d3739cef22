//! The laws of reading.

ghost use Rattle.std.specs.Prelude.{◌≡◌, List, ℕ, count_by, length, map};
ghost use Rattle.asm_items.specs.declared.item.Item.{Item};
ghost use Rattle.asm_items.specs.declared.item.NameId.{NameId};
ghost use Rattle.asm_items.specs.Formed.{AreItems};
ghost use Rattle.asm_items.specs.Named.{named};
ghost use Rattle.asm_print.specs.Text.{text_of};
ghost use Rattle.asm_read.specs.Lines.{is_feed, lines_of, IsFirstBad};
ghost use Rattle.asm_read.specs.Outcome.{IsReadAs};

/// A text of items is refused at no line, and what is read of it are these items.
pub fn texts_are_read()
    ensures whole { (items : List (Item (List ℕ))) → AreItems items → (k : ℕ) → IsFirstBad (lines_of (text_of items)) k → ⊥ }
    ensures again { (items : List (Item (List ℕ))) → AreItems items → (names : List (List ℕ)) (found : List (Item NameId)) → IsReadAs (text_of items) names found → map (named names) found ≡ items }
{}

/// What is read of a text has one item for each line feed.
pub fn items_are_lines()
    ensures { (bytes : List ℕ) (names : List (List ℕ)) (items : List (Item NameId)) → IsReadAs bytes names items → length items ≡ count_by is_feed bytes }
{}
