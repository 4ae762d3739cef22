//! The domain of numbers, with regions at addresses.

ghost use Rattle.std.specs.Prelude.{◌≡◌, ◌+◌, ◌-◌, ◌≤◌, ◌<◌, ◌^◌, length, IfSome, Some, vec_len};
ghost use Rattle.rw_domain.specs.NumberPlaces.{place_of};
ghost use Rattle.rw_domain.specs.Pieces.{Ordered};
ghost use Rattle.std.proofs.Props.{props};
ghost use Rattle.rw_domain.specs.Numbers.{base_part, index_part, address_sum};

use crate::arithmetic::{alu_numbers, modulus_of, one_numbers};
use crate::bits::{bit_numbers, byte_at, extend_number, join_bytes, scan_numbers, swap_number};
use crate::cause::Cause;
use crate::domain::Domain;
use crate::eight::Eight;
use crate::flags::Flags;
use crate::holes::Holes;
use crate::lookup::{find_place, permit};
use crate::pieces::{Piece, grow, order, place_among};
use crate::place::{Access, Hole, Place, Region};
use crate::product::{div_numbers, mul_numbers};
use crate::shift::shift_numbers;
use crate::signed::to_number;
use rw_base::{Width, low};
use std::alloc::{AllocError, Global};
use x86_insn::{AluOp, BitOp, OneOp, ScanOp, ShiftOp};

/// The numbers below 2^64 as words, and the numbers below 256 as bytes, with regions at addresses.
#[derive(Drop)]
pub struct Numbers {
    regions: Vec<Region>,
    bases: Vec<u64>,
    holes: Holes,
    canary: u32,
    /// Where each address belongs, once the regions are in order.
    pieces: Option<Vec<Piece>>,
    ghost same_number: { vec_len bases ≡ vec_len regions },
    ghost countable: { vec_len regions < 2 ^ 32 - 1 },
    ghost has_canary: { canary < vec_len regions },
    ghost ordered: { IfSome pieces (λ p. Ordered regions.items bases.items holes p.items) } by { Prim.hlevel props },
}

impl Numbers {
    ghost use Rattle.rw_domain.specs.NumberData.{placed_numbers};

    /// The domain of some regions, each at its base, with ranges that don't belong to them. The last region is the one
    /// with the canary. A look-up goes through the regions until they are put in order.
    pub fn new(regions: Vec<Region>, bases: Vec<u64>, holes: Vec<Hole>) -> Numbers
        requires some { 3 ≤ vec_len regions }
        requires few { vec_len regions < 2 ^ 32 - 1 }
        requires based { vec_len bases ≡ vec_len regions }
        ensures { placed_numbers result ≡ record {
          regions = regions.items;
          bases = Some bases.items;
          holes = holes.items;
          canary = vec_len regions - 1;
        } }
    {
        let canary = (regions.len() - 1) as u32;
        Numbers {
            regions,
            bases,
            holes: Holes::new(holes),
            canary,
            pieces: None,
        }
    }

    /// Puts the regions in order by address, so that a look-up halves them. It changes no operator. They stay without
    /// order where the holes don't ascend by region and offset, where two of them share a byte or one has none, where
    /// two regions share a byte that isn't in a hole, and where one ends at 2^64 or above.
    pub fn order(&mut self, alloc: Global) -> Result<(), AllocError>
        ensures { placed_numbers self.new ≡ placed_numbers self.old }
    {
        self.pieces = order(alloc, &self.regions, &self.bases, &self.holes)?;
        Ok(())
    }

    /// The place of a range of addresses.
    fn find(&self, address: u64, len: u64) -> Option<Place>
        ensures { result ≡ place_of (placed_numbers self.now) address len }
    {
        match &self.pieces {
            Some(pieces) => {
                place_among(
                    pieces,
                    &self.regions,
                    &self.bases,
                    &self.holes,
                    address,
                    len,
                )
            }
            None => find_place(&self.regions, &self.bases, &self.holes, address, len),
        }
    }
}

impl Domain for Numbers {
    type Word = u64;

    type Byte = u8;

    ghost use Rattle.rw_domain.specs.NumberData.{placed_numbers};
    ghost use Rattle.rw_domain.specs.NumberPlaces.{numbers_over};
    ghost use Rattle.std.proofs.Common.{refl};
    ghost use Rattle.rw_domain.specs.Inside.{numbers-inside};

    ghost placed = { placed_numbers };

    ghost over = { numbers_over };

    fn num(&self, w: Width, v: u64) -> u64 {
        low(v, w)
    }

    fn undef(&self, _w: Width) -> u64 {
        0
    }

    fn number(&self, w: Width, a: u64) -> Option<u64> {
        Some(low(a, w))
    }

    fn split(&self, a: u64, i: u8) -> u8 {
        byte_at(a, i)
    }

    fn join(&self, w: Width, bytes: &Eight<u8>) -> u64 {
        join_bytes(w, bytes)
    }

    fn alu(
        &self,
        op: AluOp,
        w: Width,
        a: u64,
        b: u64,
        before: Flags,
    ) -> Result<(u64, Flags), Cause> {
        alu_numbers(op, w, a, b, before)
    }

    fn one(&self, op: OneOp, w: Width, a: u64, before: Flags) -> (u64, Flags) {
        one_numbers(op, w, a, before)
    }

    fn shift(
        &self,
        op: ShiftOp,
        w: Width,
        a: u64,
        count: u64,
        before: Flags,
    ) -> Result<(u64, Flags), Cause> {
        Ok(shift_numbers(op, w, a, count, before))
    }

    fn mul(&self, signed: bool, w: Width, a: u64, b: u64) -> (u64, u64, Flags) {
        mul_numbers(signed, w, a, b)
    }

    fn div(
        &self,
        signed: bool,
        w: Width,
        high: u64,
        low: u64,
        by: u64,
    ) -> Result<Option<(u64, u64)>, Cause> {
        Ok(div_numbers(signed, w, high, low, by))
    }

    fn extend(&self, signed: bool, from: Width, a: u64, to: Width) -> u64 {
        extend_number(signed, from, a, to)
    }

    fn swap(&self, w: Width, a: u64) -> u64 {
        swap_number(w, a)
    }

    fn bit(&self, op: BitOp, w: Width, a: u64, index: u64, before: Flags) -> (u64, Flags) {
        bit_numbers(op, w, a, index, before)
    }

    fn scan(&self, op: ScanOp, w: Width, a: u64) -> (u64, Flags) {
        scan_numbers(op, w, a)
    }

    fn sum(&self, base: Option<u64>, index: Option<(u64, u8)>, disp: i32) -> u64
        ensures { result ≡ address_sum base index disp }
    {
        address(base, index, disp)
    }

    fn canary(&self) -> u64 {
        self.bases[self.canary as usize]
    }

    fn place(&self, at: &u64, len: u64, access: Access) -> Result<Place, Cause> {
        match self.find(*at, len) {
            Some(place) => permit(&self.regions, access, place),
            None => Err(Cause::AddressOutside),
        }
    }

    fn stack(&self) -> u32 {
        self.canary.saturating_sub(2)
    }

    fn stack_fits(&self, _sp: &u64) -> bool {
        true
    }

    fn regions(&self) -> &[Region] {
        &self.regions
    }

    fn forgets(&self) -> bool {
        false
    }

    fn add(&mut self, _alloc: Global, region: Region, base: u64) -> Result<(), AllocError> {
        self.regions.reserve(1)?;
        self.bases.reserve(1)?;
        self.pieces = match self.pieces.take() {
            Some(pieces) => grow(
                pieces,
                &self.regions,
                &self.bases,
                &self.holes,
                region,
                base,
            ),
            None => None,
        };
        let _ = self.bases.push(base);
        let _ = self.regions.push(region);
        Ok(())
    }

    ghost places_inside = { λ d. numbers-inside (placed_numbers d) };

    ghost regions_placed = { λ d. refl };

    ghost one_undefined = { λ p q. refl };
}

/// The part of the base in an address.
fn base_number(base: Option<u64>) -> u64
    ensures { result ≡ base_part base }
{
    base.unwrap_or(0)
}

/// The part of the index in an address: the index times its scale.
fn index_number(index: Option<(u64, u8)>) -> u128
    ensures value { result ≡ index_part index }
    ensures bound { result < 2 ^ 72 }
{
    match index {
        Some((a, scale)) => a as u128 * scale as u128,
        None => 0,
    }
}

/// An address, modulo 2^64.
fn address(base: Option<u64>, index: Option<(u64, u8)>, disp: i32) -> u64
    ensures { result ≡ address_sum base index disp }
{
    let parts = base_number(base) as u128
        + index_number(index)
        + to_number(Width::Q, disp as i128) as u128;
    (parts % modulus_of(Width::Q)) as u64
}
