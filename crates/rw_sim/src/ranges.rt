//! Ranges of memory.

ghost use Rattle.std.specs.Prelude.{◌≡◌, ◌<◌, ◌+◌, replicate, slice_get, Some, IfOk};
ghost use Rattle.rw_domain.specs.declared.place.Region.{Region};
ghost use Rattle.rw_domain.specs.Operators.{IsInside};
ghost use Rattle.rw_machine.specs.Running.{range_at};
ghost use Rattle.rw_sim.specs.Answers.{Meets, writes_of, written_by};
ghost use Rattle.rw_sim.specs.Asked.{operators_of, memory_of, regions_of, IsPlaced};
ghost use Rattle.rw_sim.specs.Builtins.{bytes_at, needed_numbers};

use crate::answer::Refused;
use crate::asked::Asked;
use rw_domain::{Cause, Domain, Place};
use std::alloc::{AllocError, Global};

/// Bytes that are written at a place, or none.
type Write<B> = Option<(Place, Vec<B>)>;

/// So many times one word or byte.
pub(crate) fn repeated<B: Copy>(alloc: Global, byte: B, count: u64) -> Result<Vec<B>, AllocError>
    ensures { IfOk result (λ bytes. bytes.items ≡ replicate count byte) }
{
    let mut bytes = Vec::new(alloc);
    for _ in 0..count {
        bytes.push(byte)?;
    }
    Ok(bytes)
}

impl<D: Domain, P: Copy> Asked<'_, D, P> {
    /// The size of a region, in bytes.
    fn size_of(&self, region: u32) -> u64
        ensures { (r : Region) → slice_get (regions_of self.now) region ≡ Some r → result ≡ r.size }
    {
        match self.state.domain().regions().get(region as usize) {
            Some(region) => region.size,
            None => 0,
        }
    }

    /// The place so far behind another, in a range.
    fn behind(&self, start: Place, len: u64, i: u64) -> Place
        requires range { IsInside (regions_of self.now) start len }
        requires near { i < len }
        ensures region { result.region ≡ start.region }
        ensures offset { result.offset ≡ start.offset + i }
    {
        let size = self.size_of(start.region);
        Place {
            region: start.region,
            offset: start.offset.saturating_add(i).min(size),
        }
    }

    /// A byte of a range.
    fn byte_of(&self, start: Place, len: u64, i: u64) -> D::Byte
        requires range { IsInside (regions_of self.now) start len }
        requires near { i < len }
        ensures { slice_get (range_at (memory_of self.now) start len) i ≡ Some result }
    {
        match self.byte(self.behind(start, len, i)) {
            Some(byte) => byte,
            None => unreachable!(),
        }
    }

    /// The bytes of a range.
    fn bytes_of(&self, alloc: Global, start: Place, len: u64) -> Result<Vec<D::Byte>, AllocError>
        requires { IsInside (regions_of self.now) start len }
        ensures { IfOk result (λ bytes. bytes.items ≡ range_at (memory_of self.now) start len) }
    {
        let mut bytes = Vec::new(alloc);
        for i in 0..len {
            bytes.push(self.byte_of(start, len, i))?;
        }
        Ok(bytes)
    }

    /// The numbers of the bytes of a range.
    fn numbers_of(&self, alloc: Global, start: Place, len: u64) -> Result<Vec<u8>, Refused>
        requires { IsInside (regions_of self.now) start len }
        ensures { Meets (λ numbers. numbers.items) (needed_numbers (operators_of self.now) (range_at (memory_of self.now) start len)) result }
    {
        let mut numbers = Vec::new(alloc);
        for i in 0..len {
            match self.byte_number(self.byte_of(start, len, i)) {
                Some(number) => numbers.push(number)?,
                None => return Err(Refused::Stops(Cause::ByteUnknown)),
            }
        }
        Ok(numbers)
    }

    /// The bytes of a range. One without a place has none.
    fn bytes_at(
        &self,
        alloc: Global,
        from: Option<Place>,
        len: u64,
    ) -> Result<Vec<D::Byte>, AllocError>
        requires { IsPlaced (regions_of self.now) from len }
        ensures { IfOk result (λ bytes. bytes.items ≡ bytes_at (operators_of self.now) (memory_of self.now) from len) }
    {
        match from {
            Some(place) => self.bytes_of(alloc, place, len),
            None => Ok(Vec::new(alloc)),
        }
    }

    /// The numbers of the bytes of a range. One without a place has none.
    pub(crate) fn numbers_at(
        &self,
        alloc: Global,
        from: Option<Place>,
        len: u64,
    ) -> Result<Vec<u8>, Refused>
        requires { IsPlaced (regions_of self.now) from len }
        ensures { Meets (λ numbers. numbers.items) (needed_numbers (operators_of self.now) (bytes_at (operators_of self.now) (memory_of self.now) from len)) result }
    {
        match from {
            Some(place) => self.numbers_of(alloc, place, len),
            None => Ok(Vec::new(alloc)),
        }
    }

    /// A write of one byte to a whole range.
    pub(crate) fn fill(
        &self,
        alloc: Global,
        to: Option<Place>,
        byte: D::Byte,
        count: u64,
    ) -> Result<Write<D::Byte>, AllocError>
        ensures { IfOk result (λ write. written_by write ≡ writes_of to (replicate count byte)) }
    {
        match to {
            Some(place) => Ok(Some((place, repeated(alloc, byte, count)?))),
            None => Ok(None),
        }
    }

    /// A write of the bytes of a range to another place.
    pub(crate) fn copy(
        &self,
        alloc: Global,
        to: Option<Place>,
        from: Option<Place>,
        count: u64,
    ) -> Result<Write<D::Byte>, AllocError>
        requires { IsPlaced (regions_of self.now) from count }
        ensures { IfOk result (λ write. written_by write ≡ writes_of to (bytes_at (operators_of self.now) (memory_of self.now) from count)) }
    {
        match to {
            Some(place) => Ok(Some((place, self.bytes_at(alloc, from, count)?))),
            None => Ok(None),
        }
    }
}
