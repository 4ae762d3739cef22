//! Laws of lines.
ghost use Rattle.std.specs.Prelude.{◌≡◌, ◌≤◌, List, ℕ, length, true, Some};
ghost use Rattle.asm_items.specs.declared.item.Item.{Item};
ghost use Rattle.asm_items.specs.Formed.{is_item, AreItems};
ghost use Rattle.asm_print.specs.Text.{body, line_text, text_of};
ghost use Rattle.asm_print.specs.Reading.{item_in};

/// The line of an item of a text fits a `Line`.
pub fn lines_fit()
    ensures { (item : Item (List ℕ)) → is_item item ≡ true → length (line_text item) ≤ 8192 }
{}

/// The line of an item of a text, without its line feed, is read as that item.
pub fn lines_are_read()
    ensures { (item : Item (List ℕ)) → is_item item ≡ true → item_in (body item) ≡ Some item }
{}

/// Equal lines are lines of equal items.
pub fn lines_apart()
    ensures { (a b : Item (List ℕ)) → is_item a ≡ true → is_item b ≡ true → line_text a ≡ line_text b → a ≡ b }
{}

/// Equal texts are texts of equal lists of items.
pub fn texts_apart()
    ensures { (xs ys : List (Item (List ℕ))) → AreItems xs → AreItems ys → text_of xs ≡ text_of ys → xs ≡ ys }
{}
