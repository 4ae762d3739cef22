//! What takes small operations, one after another.

ghost use Rattle.std.specs.Prelude.{◌≡◌, ◌≤◌, ◌+◌, ℕ, [], ◌∷◌, ◌++◌};
ghost use Rattle.x86_meaning.specs.declared.operations.Micro.{Micro as MicroValue};

use crate::operations::Micro;
use arrayvec::ArrayVec;

/// What takes small operations, one after another.
pub(crate) trait Sink {
    // What it is after one operation more.
    ghost with_one: { Self → MicroValue → Self };

    // How many operations it holds.
    ghost count: { Self → ℕ };

    /// Takes one operation more.
    fn push(&mut self, op: Micro)
        requires { count self.old ≤ 15 }
        ensures one { self.new ≡ with_one self.old op }
        ensures count { count self.new ≤ count self.old + 1 };
}

/// A list of small operations.
pub(crate) type Operations = ArrayVec<Micro, 16>;

impl Sink for ArrayVec<Micro, 16> {
    ghost use Rattle.arrayvec.specs.ArrayVec.{array_vec_len};

    ghost with_one = { λ s m. record { items = s.items ++ m ∷ [] } };

    ghost count = { array_vec_len };

    fn push(&mut self, op: Micro) {
        ArrayVec::push(self, op);
    }
}
