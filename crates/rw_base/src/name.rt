//! Which byte strings are names of functions and of imported symbols. Names are bytes: nothing is said of an encoding.
ghost use Rattle.std.specs.Prelude.{◌≡◌};
ghost use Rattle.std.specs.List.{list_all};
ghost use Rattle.rw_base.specs.Name.{is_graphic, is_good_name, is_name_byte, begins_a_name, is_own_name, is_import_name};

/// The greatest length of a name, in bytes.
pub const LONGEST: u32 = 4096;

/// Whether the byte is a character of ASCII that is printed, without the blank: 0x21 to 0x7e.
pub fn is_graphic(byte: u8) -> bool
    ensures { result ≡ is_graphic byte }
{
    byte >= 0x21 && byte <= 0x7e
}

fn all_graphic(name: &[u8]) -> bool
    ensures { result ≡ list_all is_graphic name.now }
{
    name.iter().all(|byte| is_graphic(*byte))
}

/// Whether a function may have the name: 1 to 4,096 graphic characters.
#[tactic(auto, unfolding(crate::specs::Name::is_good_name))]
pub fn is_good_name(name: &[u8]) -> bool
    ensures { result ≡ is_good_name name.now }
{
    name.len() >= 1 && name.len() <= LONGEST as usize && all_graphic(name)
}

/// Whether the byte is a letter, a digit, or one of `$`, `.` and `_`, of which the GNU assembler's symbols are made
/// ("Symbol Names").
pub fn is_name_byte(byte: u8) -> bool
    ensures { result ≡ is_name_byte byte }
{
    matches!(byte, b'A'..=b'Z' | b'a'..=b'z' | b'0'..=b'9' | b'$' | b'.' | b'_')
}

fn has_name_bytes(name: &[u8]) -> bool
    ensures { result ≡ list_all is_name_byte name.now }
{
    name.iter().all(|byte| is_name_byte(*byte))
}

/// Whether the name begins with none of a digit, `$` and `.L`, with which numbers, immediates and labels of a text begin.
pub fn begins_a_name(name: &[u8]) -> bool
    ensures { result ≡ begins_a_name name.now }
{
    !matches!(name, [b'0'..=b'9' | b'$', ..] | [b'.', b'L', ..])
}

/// Whether the name is one that a text gives itself: `main`, `_start` or `__retro_counts`.
pub fn is_own_name(name: &[u8]) -> bool
    ensures { result ≡ is_own_name name.now }
{
    name == b"main".as_slice()
        || name == b"_start".as_slice()
        || name == b"__retro_counts".as_slice()
}

/// Whether an imported symbol may have the name: a good name of name bytes that begins as a name does and isn't a text's own.
#[tactic(auto, unfolding(crate::specs::Name::is_import_name))]
pub fn is_import_name(name: &[u8]) -> bool
    ensures { result ≡ is_import_name name.now }
{
    is_good_name(name) && has_name_bytes(name) && begins_a_name(name) && !is_own_name(name)
}
