//! The trait of a domain.

ghost use Rattle.std.specs.Prelude.{◌≡◌, ◌+◌, ◌-◌, ◌<◌, ◌^◌, OnOk, OnErr, length, take};
ghost use Rattle.rw_base.specs.Width.{byte_count};
ghost use Rattle.rw_domain.specs.Eight.{eight_of};
ghost use Rattle.rw_domain.specs.Placed.{with_region};

use crate::cause::Cause;
use crate::eight::Eight;
use crate::flags::Flags;
use crate::place::{Access, Place, Region};
use rw_base::Width;
use std::alloc::{AllocError, Global};
use x86_insn::{AluOp, BitOp, OneOp, ScanOp, ShiftOp};

/// What a machine computes with: words and bytes, which may be numbers or not, and the regions of memory.
///
/// Everything that a domain computes is one record of operators over what it has placed, which the definitions of the
/// machine take. A word may have any width: each function looks at the low bytes that it needs.
pub trait Domain {
    /// What a register holds.
    type Word: Copy;

    /// What a byte of memory holds.
    type Byte: Copy;

    ghost use Rattle.rw_base.specs.declared.width.Width.TheVariants.{B};
    ghost use Rattle.rw_domain.specs.Operators.{Operators, PlacesInside};
    ghost use Rattle.rw_domain.specs.Placed.{Placed};

    /// The regions, where they lie, and their holes.
    ghost placed: { Self → Placed };

    /// Everything that the domain computes, over what is placed.
    ghost over: { Placed → Operators Self.Word Self.Byte };

    /// The word of a number's low bytes.
    fn num(&self, w: Width, v: u64) -> Self::Word
        ensures { result ≡ (over (placed self.now)).num w v };

    /// A word of which nothing is known; over numbers it is 0.
    fn undef(&self, w: Width) -> Self::Word
        ensures { result ≡ (over (placed self.now)).undef w };

    /// The number that a word is, if it is one.
    fn number(&self, w: Width, a: Self::Word) -> Option<u64>
        ensures { result ≡ (over (placed self.now)).number w a };

    /// A byte of a word, the lowest first.
    fn split(&self, a: Self::Word, i: u8) -> Self::Byte
        ensures { result ≡ (over (placed self.now)).split a i };

    /// The word of as many bytes as the width has, from `b0` on; the others don't matter.
    fn join(&self, w: Width, bytes: &Eight<Self::Byte>) -> Self::Word
        ensures { result ≡ (over (placed self.now)).join w (take (byte_count w) (eight_of bytes.now)) };

    /// Result and all five flags of an operator with two operands. It refuses with `FlagUnknown` exactly for adc and
    /// sbb with an unknown carry flag before.
    fn alu(
        &self,
        op: AluOp,
        w: Width,
        a: Self::Word,
        b: Self::Word,
        before: Flags,
    ) -> Result<(Self::Word, Flags), Cause>
        ensures { result ≡ (over (placed self.now)).alu op w a b before };

    /// Result and all five flags of inc, dec, not or neg; another operator changes nothing here.
    fn one(&self, op: OneOp, w: Width, a: Self::Word, before: Flags) -> (Self::Word, Flags)
        ensures { result ≡ (over (placed self.now)).one op w a before };

    /// Result and all five flags of a shift or rotate. It refuses with `NumberUnknown` exactly where the count isn't a
    /// number.
    fn shift(
        &self,
        op: ShiftOp,
        w: Width,
        a: Self::Word,
        count: Self::Word,
        before: Flags,
    ) -> Result<(Self::Word, Flags), Cause>
        ensures { result ≡ (over (placed self.now)).shift op w a count before };

    /// The low half of a product, its high half, and the flags.
    fn mul(
        &self,
        signed: bool,
        w: Width,
        a: Self::Word,
        b: Self::Word,
    ) -> (Self::Word, Self::Word, Flags)
        ensures { result ≡ (over (placed self.now)).mul signed w a b };

    /// Quotient and rest of a high and a low half by a divisor; `None` exactly where the division traps. It refuses
    /// with `NumberUnknown` exactly where one of the three words isn't a number.
    fn div(
        &self,
        signed: bool,
        w: Width,
        high: Self::Word,
        low: Self::Word,
        by: Self::Word,
    ) -> Result<Option<(Self::Word, Self::Word)>, Cause>
        ensures { result ≡ (over (placed self.now)).div signed w high low by };

    /// The word of one width as one of another, with zeros or its sign above it.
    fn extend(&self, signed: bool, from: Width, a: Self::Word, to: Width) -> Self::Word
        ensures { result ≡ (over (placed self.now)).extend signed from a to };

    /// The bytes in the other order.
    fn swap(&self, w: Width, a: Self::Word) -> Self::Word
        ensures { result ≡ (over (placed self.now)).swap w a };

    /// Result and all five flags of a bit test.
    fn bit(
        &self,
        op: BitOp,
        w: Width,
        a: Self::Word,
        index: Self::Word,
        before: Flags,
    ) -> (Self::Word, Flags)
        ensures { result ≡ (over (placed self.now)).bit op w a index before };

    /// Result and flags of a search for a bit.
    fn scan(&self, op: ScanOp, w: Width, a: Self::Word) -> (Self::Word, Flags)
        ensures { result ≡ (over (placed self.now)).scan op w a };

    /// An address: the base, plus the index times its scale, plus the displacement.
    fn sum(
        &self,
        base: Option<Self::Word>,
        index: Option<(Self::Word, u8)>,
        disp: i32,
    ) -> Self::Word
        ensures { result ≡ (over (placed self.now)).sum base index disp };

    /// The start of the region with the canary.
    fn canary(&self) -> Self::Word
        ensures { result ≡ (over (placed self.now)).canary };

    /// The place of an access of `len` bytes from an address on. It refuses with `AddressOutside` where they aren't
    /// inside a region and outside its holes, and else with `NotWritable` where a write isn't permitted.
    fn place(&self, at: &Self::Word, len: u64, access: Access) -> Result<Place, Cause>
        ensures { result ≡ (over (placed self.now)).place at.now len access };

    /// The number of the region with the stack, the third from the end of the regions at the beginning.
    fn stack(&self) -> u32
        ensures { result ≡ (over (placed self.now)).stack };

    /// The stack pointer is one that the machine goes on with.
    fn stack_fits(&self, sp: &Self::Word) -> bool
        ensures { result ≡ (over (placed self.now)).stack_fits sp.now };

    /// The regions; a region's number is its place here.
    fn regions(&self) -> &[Region]
        ensures { result.now ≡ (placed self.now).regions };

    /// Flags and stack cells are forgotten where the machine of words does so.
    fn forgets(&self) -> bool
        ensures { result ≡ (over (placed self.now)).forgets };

    /// Appends a region at a base, where with it there are still fewer than 2^32 - 1 regions. Want of memory changes
    /// nothing.
    fn add(&mut self, alloc: Global, region: Region, base: u64) -> Result<(), AllocError>
        requires { length (placed self.old).regions + 1 < 2 ^ 32 - 1 }
        ensures ok { OnOk result (placed self.new ≡ with_region (placed self.old) region base) }
        ensures err { OnErr result (placed self.new ≡ placed self.old) };

    /// A place that is given is inside its region.
    ghost places_inside: { (d : Self) → PlacesInside (over (placed d)) };

    /// The operators know the regions that are placed.
    ghost regions_placed: { (d : Self) → (over (placed d)).regions ≡ (placed d).regions };

    /// The byte of which nothing is known is the same whatever is placed.
    ghost one_undefined: { (p q : Placed) → (over p).split ((over p).undef B) 0 ≡ (over q).split ((over q).undef B) 0 };
}
