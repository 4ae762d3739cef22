//! The probes of a text: which stands at an address, and the byte that a plan keeps of each.

ghost use Rattle.std.specs.Prelude.{◌≡◌, ◌==◌, ◌≤◌, ◌<◌, ℕ, List, None, Some, length, position, slice_index_or, true};
ghost use Rattle.std.specs.List.Sorted.{IsStrictlyIncreasing};
ghost use Rattle.asm_items.specs.declared.item.Sym.TheVariants.{Counter};
ghost use Rattle.x86_decode.specs.Value.{register_of};
ghost use Rattle.x86_insn.specs.References.{map_references};
ghost use Rattle.asm_items.specs.Named.{map_sym, name_of};
ghost use Rattle.rw_out.specs.Kept.{AreFew, forms_of, probe_byte, probe_of_byte, probes_by, probes_in};
ghost use Rattle.rw_out.specs.Probed.{counted};
ghost use Rattle.rw_out.specs.Positions.{GoesOn, HasLine, counter_insn, counting_on};
ghost use Rattle.rw_out.specs.Items.{probe_items};

use asm_items::Sym;
use rw_probe::{Leaders, Probe};
use std::marker::Model;
use x86_insn::{Insn, Reg};

/// The register of a code (Intel SDM vol. 2, table 3-1).
fn register_of(code: u8) -> Reg
    ensures { result ≡ register_of code }
{
    Reg::ALL.get(code as usize).copied().unwrap_or(Reg::Rax)
}

/// The byte of a probe: 0 is one `incq`, 1 saves `%rax`, and 2 plus the code of a register goes through it.
pub(crate) fn byte_of(probe: Probe) -> u8
    ensures byte { result ≡ probe_byte probe }
    ensures back { probe_of_byte result ≡ probe }
{
    match probe {
        Probe::Inc => 0,
        Probe::Spill => 1,
        Probe::Dead(register) => 2 + register.code(),
    }
}

/// The probe of a byte.
pub(crate) fn probe_of(byte: u8) -> Probe
    ensures { result ≡ probe_of_byte byte }
{
    match byte {
        0 => Probe::Inc,
        1 => Probe::Spill,
        _ => Probe::Dead(register_of(byte - 2)),
    }
}

/// Whether the leaders before a number are below an address, as far as the one directly before it shows.
fn are_below(leaders: &[u64], number: usize, address: u64) -> bool
    requires { IsStrictlyIncreasing leaders.now }
    ensures { result ≡ true → (k d : ℕ) → k < number → k < length leaders.now → slice_index_or leaders.now k d < address }
{
    if number == 0 {
        return true;
    }
    match leaders.get(number - 1) {
        Some(leader) => *leader < address,
        None => false,
    }
}

/// Whether the leaders from a number on are above an address.
fn are_above(leaders: &[u64], number: usize, address: u64) -> bool
    requires { IsStrictlyIncreasing leaders.now }
    ensures { result ≡ true → (k d : ℕ) → number ≤ k → k < length leaders.now → address < slice_index_or leaders.now k d }
{
    match leaders.get(number) {
        Some(leader) => address < *leader,
        None => true,
    }
}

/// Whether the leader with a number is at an address.
fn is_number_of(leaders: &[u64], number: usize, address: u64) -> bool
    requires { IsStrictlyIncreasing leaders.now }
    ensures { result ≡ true → position (λ leader. leader == address) leaders.now ≡ Some number }
{
    match leaders.get(number) {
        Some(leader) => *leader == address,
        None => false,
    }
}

/// Whether an address is above the leaders before a number, and below those from it on.
fn is_between(leaders: &[u64], number: usize, address: u64) -> bool
    requires { IsStrictlyIncreasing leaders.now }
    ensures { result ≡ true → position (λ leader. leader == address) leaders.now ≡ None }
{
    are_below(leaders, number, address) && are_above(leaders, number, address)
}

/// The number of the leader at an address, if there is one. The time is constant where `next` is the number of the first leader
/// at or above the address, and else logarithmic.
fn number_near(leaders: &Leaders, address: u64, next: u32) -> Option<u32>
    ensures { result ≡ position (λ leader. leader == address) leaders.now }
{
    let list = leaders.list();
    let number = next as usize;
    if is_between(list, number, address) {
        None
    } else if is_number_of(list, number, address) {
        Some(next)
    } else {
        leaders.number_of(address)
    }
}

/// The probes of a text: where they stand, which each is, and the number of its counter. A contract sees the leaders and the
/// bytes.
#[derive(Drop)]
pub(crate) struct Probes<'a> {
    leaders: &'a Leaders,
    bytes: &'a [u8],
}

impl<'a> Model for Probes<'a> {
    ghost use Rattle.rw_out.specs.Kept.{AreFew, KeptProbes, probes_by};

    ghost Value = { KeptProbes };

    ghost view = { λ p. record { leaders = p.leaders.now; bytes = p.bytes.now } };

    ghost invariant = { λ p. AreFew (probes_by p.leaders.now p.bytes.now) };
}

impl<'a> Probes<'a> {
    /// The probes at the leaders, one byte for each.
    pub(crate) fn new(leaders: &'a Leaders, bytes: &'a [u8]) -> Probes<'a>
        requires { AreFew (probes_by leaders.now bytes.now) }
        ensures { result ≡ record { leaders = leaders.now; bytes = bytes.now } }
    {
        Probes { leaders, bytes }
    }

    /// How many counters there are.
    pub(crate) fn count(&self) -> usize
        ensures exact { result ≡ (probes_in self.now).counters }
        ensures few { AreFew (probes_in self.now) }
    {
        self.leaders.list().len()
    }

    /// The same counters with no probe at any address: enough for the names of a text, since probes use none.
    pub(crate) fn counters_alone(&self) -> Probes<'a>
        ensures { (probes_in result).counters ≡ (probes_in self.now).counters }
    {
        Probes {
            leaders: self.leaders,
            bytes: &[],
        }
    }

    /// The probe with a number, and that number.
    fn counted(&self, number: u32) -> Option<(u32, Probe)>
        ensures { result ≡ counted (forms_of self.now.bytes) number }
    {
        let byte = self.bytes.get(number as usize)?;
        Some((number, probe_of(*byte)))
    }

    /// The number of the counter and the form of the probe at an address, if there is one. The time is logarithmic in the
    /// number of leaders.
    pub(crate) fn at(&self, address: u64) -> Option<(u32, Probe)>
        ensures { result ≡ (probes_in self.now).at address }
    {
        self.counted(self.leaders.number_of(address)?)
    }

    /// The same, for addresses that ascend: the leader with the number `next` is looked at first, and `next` becomes the number
    /// behind a leader that is found. So the time is constant if `next` is the number of the first leader at or above the
    /// address, and else logarithmic. The answer doesn't depend on `next`.
    pub(crate) fn at_near(&self, address: u64, next: &mut u32) -> Option<(u32, Probe)>
        ensures { result ≡ (probes_in self.now).at address }
    {
        let number = number_near(self.leaders, address, *next)?;
        *next = number + 1;
        self.counted(number)
    }
}

/// A line of a probe: its counter, its form, and the number of the line, counted from 0.
#[derive(Clone, Copy)]
pub(crate) struct Counting {
    pub(crate) counter: u32,
    pub(crate) form: Probe,
    pub(crate) number: u8,
}

impl Counting {
    /// The first line.
    pub(crate) fn first(counter: u32, form: Probe) -> Counting
        ensures line { HasLine result }
        ensures all { counting_on result ≡ probe_items (Some (counter, form)) }
    {
        Counting {
            counter,
            form,
            number: 0,
        }
    }

    /// The instruction of the line.
    pub(crate) fn insn(self) -> Insn<Sym>
        requires { HasLine self }
        ensures { (names : List (List ℕ)) → map_references (map_sym (name_of names)) result ≡ counter_insn self }
    {
        self.form
            .insn(Sym::Counter(self.counter), self.number)
            .unwrap()
    }

    /// The line behind it, if there is one.
    pub(crate) fn next(self) -> Option<Counting>
        requires { HasLine self }
        ensures { GoesOn self result }
    {
        if self.number + 1 < self.form.len() {
            Some(Counting {
                number: self.number + 1,
                ..self
            })
        } else {
            None
        }
    }
}
