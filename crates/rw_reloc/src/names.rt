//! The names that imported symbols may have.
ghost use Rattle.std.specs.Prelude.{◌≡◌, ◌^◌, ◌<◌, ◌≤◌, length, slice_range};
ghost use Rattle.std.specs.List.{list_all};
ghost use Rattle.rw_elf.specs.Name.{name_bytes};
ghost use Rattle.rw_elf.specs.Tables.{IsNameIn};
ghost use Rattle.rw_base.specs.Name.{is_import_name, is_name_byte};

use rw_base::name::{LONGEST, begins_a_name, is_name_byte, is_own_name};
use rw_base::places::{ByteTest, Places};
use rw_elf::{Elf, NameAt};

/// A byte that stands in no import name.
pub(crate) struct Foreign;

impl ByteTest for Foreign {
    ghost use Rattle.std.specs.Prelude.{not};
    ghost use Rattle.rw_base.specs.Name.{is_name_byte};

    ghost test = { λ b. not (is_name_byte b) };

    fn passes(byte: u8) -> bool {
        !is_name_byte(byte)
    }
}

/// Whether all bytes from `at` up to `end` may stand in a name.
fn has_name_bytes(foreign: &Places<Foreign>, at: u64, end: u64) -> bool
    requires { end ≤ length foreign.now }
    ensures { result ≡ list_all is_name_byte (slice_range foreign.now at end) }
{
    foreign.first_from(at, end).is_none()
}

/// Whether an imported symbol may have the name.
#[tactic(auto, unfolding(rw_base::specs::Name::is_import_name))]
pub(crate) fn is_import_name(elf: &Elf, foreign: &Places<Foreign>, at: NameAt) -> bool
    requires fits { length elf.now < 2 ^ 32 }
    requires foreign { foreign.now ≡ elf.now }
    requires name { IsNameIn elf.now at }
    ensures { result ≡ is_import_name (name_bytes elf.now at) }
{
    if at.len == 0 || at.len > LONGEST {
        return false;
    }
    let name = elf.name_of(at);
    has_name_bytes(foreign, at.at, at.at + u64::from(at.len))
        && begins_a_name(name)
        && !is_own_name(name)
}
