//! The places of the bytes that pass a test. They are found in one pass, so that no byte is looked at twice.
ghost use Rattle.std.specs.Prelude.{◌≡◌, ◌-◌, ◌^◌, ◌<◌, ◌≤◌, ℕ, IfOk, IfSome, length, slice_index};
ghost use Rattle.std.specs.List.Sorted.{IsNonDecreasing};
ghost use Rattle.rw_base.specs.Places.{ArePlaces, place_where};
ghost use Rattle.rw_base.specs.Rules.{first_from};

use std::alloc::{AllocError, Global};
use std::marker::{Model, PhantomData};

/// A test of one byte.
pub trait ByteTest {
    ghost use Rattle.std.specs.Prelude.{◌≡◌, ℕ, Bool};

    /// Which bytes pass.
    ghost test: { ℕ → Bool };

    /// Whether the byte passes.
    fn passes(byte: u8) -> bool
        ensures { result ≡ test byte };
}

/// The places of those of some bytes that pass a test, ascending. A contract sees all the bytes.
#[derive(Drop)]
pub struct Places<'a, T: ByteTest> {
    bytes: &'a [u8],
    list: Vec<u32>,
    test: PhantomData<T>,
}

impl<'a, T: ByteTest> Model for Places<'a, T> {
    ghost use Rattle.std.specs.Prelude.{List, ℕ};
    ghost use Rattle.rw_base.specs.Places.{ArePlaces};

    ghost Value = { List ℕ };

    ghost view = { λ p. p.bytes.now };

    ghost invariant = { λ p. ArePlaces T.test p.bytes.now p.list.items };
}

// The places themselves.
fn passing_places<T: ByteTest>(alloc: Global, bytes: &[u8]) -> Result<Vec<u32>, AllocError>
    requires { length bytes.now < 2 ^ 32 }
    ensures { IfOk result (λ list. ArePlaces T.test bytes.now list.items) }
{
    let count = bytes.iter().filter(|byte| T::passes(**byte)).count();
    let mut list = Vec::with_capacity(alloc, count)?;
    for (place, byte) in bytes.iter().enumerate() {
        if T::passes(*byte) {
            list.push(place as u32)?;
        }
    }
    Ok(list)
}

// How many of the ascending places come before one.
fn count_before(list: &[u32], at: u64) -> usize
    requires { IsNonDecreasing list.now }
    ensures before { (k : ℕ) → k < result → slice_index list.now k < at }
    ensures after { (k : ℕ) → result ≤ k → k < length list.now → at ≤ slice_index list.now k }
{
    list.partition_point(|place| u64::from(*place) < at)
}

impl<'a, T: ByteTest> Places<'a, T> {
    /// Finds the places.
    ///
    /// # Errors
    ///
    /// There is not enough memory: four bytes for each place.
    pub fn of(alloc: Global, bytes: &'a [u8]) -> Result<Places<'a, T>, AllocError>
        requires { length bytes.now < 2 ^ 32 }
        ensures { IfOk result (λ places. places ≡ bytes.now) }
    {
        let list = passing_places::<T>(alloc, bytes)?;
        Ok(Places {
            bytes,
            list,
            test: PhantomData,
        })
    }

    /// The first place from `at` up to `end`; `None` exactly where no byte there passes. The time is logarithmic in the
    /// number of places.
    pub fn first_from(&self, at: u64, end: u64) -> Option<u64>
        requires { end ≤ length self.now }
        ensures first { result ≡ first_from (place_where T.test self.now) at (end - at) }
        ensures bounds { IfSome result (λ place. (at ≤ place) × (place < end)) }
    {
        let next = count_before(&self.list, at);
        let place = u64::from(*self.list.get(next)?);
        if place < end { Some(place) } else { None }
    }
}
