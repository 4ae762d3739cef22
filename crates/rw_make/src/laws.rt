//! Laws of the definitions.

ghost use Rattle.std.specs.Prelude.{ℕ, ◌+◌, ◌*◌, List, ◌∷◌, ◌++◌, length, map};
ghost use Rattle.rw_make.specs.Bytes.{string_table, zero_ended};
ghost use Rattle.rw_make.specs.Image.{Piece, contents_of, section_header, file_of_pieces};
ghost use Rattle.rw_make.specs.Places.{StandsAt, offset_behind, name_behind};

/// In a file of sections, of which `p` is one behind those in `front`, the contents of `p` stand at the offset that
/// its header has, its name at the place of the string table that its header has, and its header in the table behind
/// all contents, at its index.
pub fn sections_stand_where_headers_say()
    ensures contents { (entry : ℕ) (front back : List Piece) (p : Piece) → StandsAt (file_of_pieces entry (front ++ p ∷ back)) (offset_behind front) p.contents }
    ensures name { (front back : List Piece) (p : Piece) → StandsAt (string_table (map (λ q. q.name) (front ++ p ∷ back))) (name_behind front) (zero_ended p.name) }
    ensures header { (entry : ℕ) (front back : List Piece) (p : Piece) → StandsAt (file_of_pieces entry (front ++ p ∷ back))
        (offset_behind (front ++ p ∷ back) + 64 * (length front + 1)) (section_header (name_behind front) (offset_behind front) p) }
{}
