ghost use Rattle.std.specs.Prelude.{◌≡◌, ℕ};

use rw_domain::{Domain, Numbers, Symbols};
use rw_words::{Atom, Word};

/// A domain that tells where its next region will lie.
pub trait Allots: Domain {
    ghost use Rattle.rw_domain.specs.Placed.{Placed};

    /// The address of the first byte of the next region, and its base.
    ghost first_byte: { Placed → ℕ → Self.Word × ℕ };

    /// The address of the first byte of the region that is added next, and the base with which it is added, where the
    /// layout rule gives it a base.
    fn first_byte(&self, base: u64) -> (Self::Word, u64)
        ensures { result ≡ first_byte (Self.placed self.now) base };
}

impl Allots for Symbols {
    ghost use Rattle.rw_sim.specs.FirstBytes.{first_byte_of_words};

    ghost first_byte = { first_byte_of_words };

    /// A pointer to the next region, which lies nowhere: its base is 0.
    fn first_byte(&self, _base: u64) -> (Word, u64) {
        let number = self.regions().len() as u32;
        (Word::atom(Atom::Ptr(number, 0)), 0)
    }
}

impl Allots for Numbers {
    ghost use Rattle.rw_sim.specs.FirstBytes.{first_byte_of_numbers};

    ghost first_byte = { first_byte_of_numbers };

    /// The base itself.
    fn first_byte(&self, base: u64) -> (u64, u64) {
        (base, base)
    }
}
