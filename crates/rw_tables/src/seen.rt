//! What the points of a function so far say of a jump that may follow.

ghost use Rattle.std.specs.Prelude.{◌≡◌, not, [], ◌&&◌};
ghost use Rattle.x86_insn.specs.declared.kinds.Reg.{Reg as Register};
ghost use Rattle.rw_tables.specs.Dispatch.{is_register, base_by, table_of, writes};
ghost use Rattle.rw_tables.specs.Seen.{has, address_in, address_behind, sum_over, sum_behind, base_for, seen_jump, jump_seen, IsSeen, IsNoted};

use crate::dispatch::{
    bound_of, ends_run, jump_register, jumps_above, naming_of, source_of, sum_register,
};
use crate::jump::Jump;
use crate::table::Table;
use x86_insn::{Insn, Reg};
use x86_meaning::{RegSet, touches};

/// The addresses that registers hold of a 64-bit `lea` relative to `%rip`.
#[derive(Drop)]
pub(crate) struct Addresses {
    /// The registers that such a `lea` wrote last.
    held: RegSet,
    /// Their addresses, by the registers' codes.
    values: [u64; 16],
}

/// What the points of a function so far say of a jump that may follow: as much room for any number of points.
#[derive(Drop)]
pub(crate) struct Seen {
    /// The registers that a 64-bit add wrote last, among the points of the run.
    sums: RegSet,
    /// What registers hold.
    named: Addresses,
    /// Where the last point is a 64-bit add: its register, and the base of its table.
    last: Option<(Reg, u64)>,
    /// The bound of the nearest `cmp` or `sub` with one.
    bound: Option<u16>,
    /// The bound before the nearest `ja`.
    limit: Option<u16>,
}

// The bits of the one number that aren't set in the other.
fn cleared(bits: u16, out: u16) -> u16
    ensures { (r : Register) → has result r ≡ (has bits r && not (has out r)) }
{
    bits & !out
}

// The registers of the one set that aren't in the other.
fn without(set: RegSet, other: RegSet) -> RegSet
    ensures { (r : Register) → has result.0 r ≡ (has set.0 r && not (has other.0 r)) }
{
    RegSet(cleared(set.0, other.0))
}

// The registers of a set that an instruction doesn't write. Where there are none, the instruction isn't looked at.
fn unwritten(set: RegSet, insn: &Insn<u64>) -> RegSet
    ensures { (r : Register) → has result.0 r ≡ (has set.0 r && not (writes r insn.now)) }
{
    if set.0 == 0 {
        return set;
    }
    without(set, touches(insn))
}

// The registers that adds wrote last, where they were these before the instruction.
fn sums_behind(sums: RegSet, insn: &Insn<u64>) -> RegSet
    ensures { (r : Register) → has result.0 r ≡ sum_behind (has sums.0) insn.now r }
{
    if ends_run(insn) {
        return RegSet::EMPTY;
    }
    let kept = unwritten(sums, insn);
    match sum_register(insn) {
        Some(r) => kept.with(r),
        None => kept,
    }
}

impl Addresses {
    fn get(&self, r: Reg) -> Option<u64>
        ensures { result ≡ address_in self.now r }
    {
        if self.held.contains(r) {
            Some(self.values[usize::from(r.code())])
        } else {
            None
        }
    }

    fn note(&mut self, insn: &Insn<u64>)
        ensures { (r : Register) → address_in self.new r ≡ address_behind (address_in self.old) insn.now r }
    {
        self.held = unwritten(self.held, insn);
        if let Some((r, address)) = naming_of(insn) {
            self.held = self.held.with(r);
            self.values[usize::from(r.code())] = address;
        }
    }

    // The base of the table of an add into a register.
    fn base_by(&self, r: Reg, insn: &Insn<u64>) -> Option<u64>
        ensures { result ≡ base_by (address_in self.now) r insn.now }
    {
        let s = source_of(insn)?;
        self.get(s).or(self.get(r))
    }

    // The register of a 64-bit add, and the base of its table.
    fn sum_over(&self, insn: &Insn<u64>) -> Option<(Reg, u64)>
        ensures { result ≡ sum_over (address_in self.now) insn.now }
    {
        let r = sum_register(insn)?;
        let base = self.base_by(r, insn)?;
        Some((r, base))
    }
}

fn base_for(r: Reg, last: Option<(Reg, u64)>) -> Option<u64>
    ensures { result ≡ base_for r last }
{
    match last {
        Some((s, base)) if s.code() == r.code() => Some(base),
        _ => None,
    }
}

fn table_of(base: Option<u64>, limit: Option<u16>) -> Option<Table>
    ensures { result ≡ table_of base limit }
{
    let base = base?;
    let limit = limit?;
    Some(Table {
        base,
        count: u64::from(limit) + 1,
    })
}

impl Seen {
    /// Of no points.
    pub(crate) fn nothing() -> Seen
        ensures { IsSeen [] result }
    {
        Seen {
            sums: RegSet::EMPTY,
            named: Addresses {
                held: RegSet::EMPTY,
                values: [0; 16],
            },
            last: None,
            bound: None,
            limit: None,
        }
    }

    /// Of one more point.
    pub(crate) fn note(&mut self, insn: &Insn<u64>)
        ensures { IsNoted self.old insn.now self.new }
    {
        self.last = self.named.sum_over(insn);
        self.sums = sums_behind(self.sums, insn);
        self.named.note(insn);
        if jumps_above(insn) {
            self.limit = self.bound;
        }
        self.bound = bound_of(insn).or(self.bound);
    }

    fn jump_through(&self, address: u64, r: Reg) -> Option<Jump>
        ensures { result ≡ seen_jump self.now address r }
    {
        if self.sums.contains(r) {
            Some(Jump {
                place: address,
                table: table_of(base_for(r, self.last), self.limit),
            })
        } else {
            None
        }
    }

    /// The jump that the instruction behind these points is, where an add wrote its register last.
    pub(crate) fn jump(&self, address: u64, insn: &Insn<u64>) -> Option<Jump>
        ensures { result ≡ jump_seen self.now address insn.now }
    {
        let r = jump_register(insn)?;
        self.jump_through(address, r)
    }
}
