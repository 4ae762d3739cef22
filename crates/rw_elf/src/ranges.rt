//! Items that take ranges of addresses, and the one around an address.
ghost use Rattle.std.specs.Prelude.{◌≡◌};
ghost use Rattle.std.specs.List.Sorted.{IsNonDecreasingBy};
ghost use Rattle.rw_elf.specs.Ranges.{AreApartBy, CountsUpTo, number_around};

/// Something that takes a range of addresses.
pub trait Ranged {
    ghost use Rattle.std.specs.Prelude.{◌≡◌, ◌≤◌, ℕ, nat_lt};

    /// The first of its addresses.
    ghost start_of: { Self → ℕ };

    /// The address behind the last.
    ghost end_of: { Self → ℕ };

    /// The first of its addresses.
    fn start(&self) -> u64
        ensures { result ≡ start_of self.now };

    /// Whether it goes on above an address at or behind the first.
    fn passes(&self, address: u64) -> bool
        requires { start_of self.now ≤ address }
        ensures { result ≡ nat_lt address (end_of self.now) };
}

/// How many of the items, which ascend, begin at or below an address.
fn count_up_to<T: Ranged>(items: &[T], address: u64) -> usize
    requires { IsNonDecreasingBy T.start_of items.now }
    ensures { CountsUpTo T.start_of items.now address result }
{
    items.partition_point(|item| item.start() <= address)
}

/// The number of the item around an address, among items that ascend and don't overlap; `None` exactly where
/// there is none. The time is logarithmic in the number of items.
pub fn number_around<T: Ranged>(items: &[T], address: u64) -> Option<usize>
    requires ascending { IsNonDecreasingBy T.start_of items.now }
    requires apart { AreApartBy T.start_of T.end_of items.now }
    ensures { result ≡ number_around T.start_of T.end_of items.now address }
{
    let next = count_up_to(items, address);
    if next == 0 {
        return None;
    }
    let last = &items[next - 1];
    if last.passes(address) {
        Some(next - 1)
    } else {
        None
    }
}
