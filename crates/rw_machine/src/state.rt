ghost use Rattle.std.specs.Prelude.{◌≡◌, [], ◌∷◌, replicate, IfOk, IsOk, IsSome, ◌↔◌, ◌<◌, slice_set, slice_index_or, slice_get, option_and_then, true};
ghost use Rattle.x86_insn.specs.WellFormed.{code_of};
ghost use Rattle.rw_machine.specs.Running.{undefined_byte};
ghost use Rattle.rw_machine.specs.Views.{registers_of, rows_of, IsLaidOut};

use crate::first::first_rows;
use crate::memory::Memory;
use crate::registers::Registers;
use rw_base::Width;
use rw_domain::{Domain, Flags, Place};
use std::alloc::{AllocError, Global};
use x86_insn::Reg;

/// A machine over a domain: sixteen registers, flags, the bytes of each region, and the point of the next instruction.
#[derive(Drop)]
pub struct State<D: Domain, P> {
    pub(crate) domain: D,
    pub(crate) registers: Registers<D::Word>,
    pub(crate) flags: Flags,
    pub(crate) memory: Memory<D::Byte>,
    pub(crate) point: P,
    ghost laid_out: { IsLaidOut (D.placed domain).regions (rows_of memory) },
    ghost undefined: { memory.undefined ≡ undefined_byte (D.over (D.placed domain)) },
}

/// Sixteen equal words.
fn sixteen<W: Copy>(w: W) -> Registers<W>
    ensures { registers_of result ≡ replicate 16 w }
{
    Registers {
        rax: w,
        rcx: w,
        rdx: w,
        rbx: w,
        rsp: w,
        rbp: w,
        rsi: w,
        rdi: w,
        r8: w,
        r9: w,
        r10: w,
        r11: w,
        r12: w,
        r13: w,
        r14: w,
        r15: w,
    }
}

impl<D: Domain + Drop, P: Drop> State<D, P> {
    ghost use Rattle.rw_machine.specs.State.{machine_of, first_machine};

    /// A machine at a point. Every register is undefined, every flag is unknown, and each region has its first bytes.
    pub fn new(alloc: Global, domain: D, point: P) -> Result<State<D, P>, AllocError>
        ensures machine { IfOk result (λ s. machine_of s ≡ first_machine (D.over (D.placed domain)) (D.placed domain) point) }
        ensures domain { IfOk result (λ s. s.domain ≡ domain) }
    {
        let memory = first_rows(alloc, &domain)?;
        let registers = sixteen(domain.undef(Width::Q));
        Ok(State {
            domain,
            registers,
            flags: Flags::UNKNOWN,
            memory,
            point,
        })
    }
}

impl<D: Domain, P: Copy> State<D, P> {
    ghost use Rattle.rw_machine.specs.State.{machine_of};
    ghost use Rattle.rw_machine.specs.Running.{register, written_at};
    ghost use Rattle.rw_domain.specs.Operators.{IsInside};
    ghost use Rattle.rw_machine.specs.Rows.{byte_at};

    /// The word of a register.
    pub fn reg(&self, r: Reg) -> D::Word
        ensures { result ≡ register (D.over (D.placed self.now.domain)) (machine_of self.now).registers r }
    {
        self.registers.get(r)
    }

    /// Writes a register, by a word of width Q. Nothing else changes.
    pub fn set_reg(&mut self, r: Reg, v: D::Word)
        ensures machine { machine_of self.new ≡ record (machine_of self.old) { registers = slice_set (machine_of self.old).registers (code_of r) v } }
        ensures domain { self.new.domain ≡ self.old.domain }
    {
        self.registers.set(r, v);
    }

    /// The domain.
    pub fn domain(&self) -> &D
        ensures { result.now ≡ self.now.domain }
    {
        &self.domain
    }

    /// The flags.
    pub fn flags(&self) -> Flags
        ensures { result ≡ (machine_of self.now).flags }
    {
        self.flags
    }

    /// Where the next instruction stands.
    pub fn point(&self) -> P
        ensures { result ≡ (machine_of self.now).point }
    {
        self.point
    }

    /// The byte at a place, and `None` exactly where the place isn't inside a region.
    pub fn byte(&self, at: Place) -> Option<D::Byte>
        ensures value { result ≡ byte_at (machine_of self.now).memory at }
        ensures inside { IsSome result ↔ IsInside (D.placed self.now.domain).regions at 1 }
    {
        self.memory.byte(at)
    }

    /// Writes the byte at a place inside a region. Nothing else changes.
    pub fn put(&mut self, _alloc: Global, at: Place, b: D::Byte) -> Result<(), AllocError>
        requires { IsInside (D.placed self.old.domain).regions at 1 }
        ensures machine { machine_of self.new ≡ record (machine_of self.old) { memory = written_at (machine_of self.old).memory at (b ∷ []) } }
        ensures domain { self.new.domain ≡ self.old.domain }
        ensures done { IsOk result }
    {
        self.memory.write_byte(at, b);
        Ok(())
    }
}
