//! Laws of the words: which numbers they stand for, and what splitting and joining keep.
ghost use Rattle.std.specs.Prelude.{ℕ, ◌≡◌, ◌↔◌, ◌≢◌, ◌<◌, ◌/◌, ◌%◌, ◌^◌, List, ◌∷◌, ◌++◌, All, Some, length, slice_get, slice_index_or, take};
ghost use Rattle.rw_base.specs.declared.width.Width.{Width};
ghost use Rattle.rw_base.specs.Width.{byte_count, bit_count};
ghost use Rattle.rw_words.specs.declared.atom.Atom.{Atom};
ghost use Rattle.rw_words.specs.declared.atom.Cell.{Cell};
ghost use Rattle.rw_words.specs.declared.atom.Cell.TheVariants.{Undef};
ghost use Rattle.rw_words.specs.Addresses.{Addresses, address_of, byte_of, CellStands, CellsStand};
ghost use Rattle.rw_words.specs.Words.{number_cells, atom_cells, number_in, whole_of, number_of_bytes};
ghost use Rattle.rw_words.specs.Laws.{RowStands, HoldBytes};
ghost use Rattle.rw_words.specs.Kinds.{KindStands, kind_of};

/// A word is a number exactly where all its cells are numbers, and whole exactly where it is the parts 0 to 7 of an atom.
pub fn words_by_cells()
    ensures whole { (a : Atom) → whole_of (atom_cells a) ≡ Some a }
    ensures parts { (cells : List Cell) (a : Atom) → whole_of cells ≡ Some a → cells ≡ atom_cells a }
    ensures number { (w : Width) (n : ℕ) → number_in (number_cells w n) ≡ Some (n % 2 ^ bit_count w) }
{}

/// A word whose cells are all numbers stands for its number, and for no other.
pub fn numbers_stand()
    ensures stands { (l : Addresses) (cells : List Cell) (v : ℕ) → HoldBytes cells → number_in cells ≡ Some v
        → CellsStand l cells v }
    ensures alone { (l : Addresses) (cells : List Cell) (v n : ℕ) → number_in cells ≡ Some v → CellsStand l cells n
        → n ≡ v }
{}

/// A whole word stands for the address of its atom, and for no other number.
pub fn whole_words_stand()
    ensures stands { (l : Addresses) (cells : List Cell) (a : Atom) → whole_of cells ≡ Some a
        → CellsStand l cells (address_of l a) }
    ensures alone { (l : Addresses) (cells : List Cell) (a : Atom) (n : ℕ) → whole_of cells ≡ Some a
        → CellsStand l cells n → n ≡ address_of l a }
{}

/// A cell of which something is known stands for one byte alone, so equal cells stand for equal bytes.
pub fn equal_cells_stand()
    ensures { (l : Addresses) (c d : Cell) (m n : ℕ) → c ≡ d → c ≢ Undef → CellStands l c m → CellStands l d n → m ≡ n }
{}

/// Splitting a word and joining cells keep what they stand for.
pub fn split_and_join()
    ensures split { (l : Addresses) (cells : List Cell) (n i : ℕ) → CellsStand l cells n
        → CellStands l (slice_index_or cells i Undef) (byte_of n i) }
    ensures join { (l : Addresses) (w : Width) (row : List Cell) (bytes : List ℕ) → RowStands l row bytes
        → CellsStand l (take (byte_count w) row) (number_of_bytes (take (byte_count w) bytes)) }
{}

/// The kind of a word says for which number it stands.
pub fn kinds_stand()
    ensures { (l : Addresses) (cells : List Cell) (n : ℕ) → CellsStand l cells n → KindStands l (kind_of cells) n }
{}
