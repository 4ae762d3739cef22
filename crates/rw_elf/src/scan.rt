//! The bytes at which names end, and those that no good name has.
use rw_base::name::is_graphic;
use rw_base::places::ByteTest;

/// The zero byte, which ends a name.
pub(crate) struct Zero;

impl ByteTest for Zero {
    ghost use Rattle.rw_elf.specs.Name.{is_zero};

    ghost test = { is_zero };

    fn passes(byte: u8) -> bool {
        byte == 0
    }
}

/// A byte that is not graphic.
pub(crate) struct NotGraphic;

impl ByteTest for NotGraphic {
    ghost use Rattle.std.specs.Prelude.{not};
    ghost use Rattle.rw_base.specs.Name.{is_graphic};

    ghost test = { λ b. not (is_graphic b) };

    fn passes(byte: u8) -> bool {
        !is_graphic(byte)
    }
}
