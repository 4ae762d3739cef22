//! Laws that tie the sets of an instruction to its list of small operations.

ghost use Rattle.std.specs.Prelude.{◌≡◌, ◌↔◌, ℕ, ℤ, Bool, List, Some, IsTrue};
ghost use Rattle.std.specs.List.{Any, Contains};
ghost use Rattle.std.specs.Int.{bit_at};
ghost use Rattle.x86_insn.specs.declared.kinds.Reg.{Reg};
ghost use Rattle.x86_insn.specs.declared.operands.Mem.TheVariants.{At};
ghost use Rattle.x86_insn.specs.declared.operands.Operand.TheVariants as operand;
ghost use Rattle.x86_insn.specs.declared.instruction.Insn.TheVariants.{CallTo};
ghost use Rattle.x86_insn.specs.WellFormed.{code_of, is_instruction};
ghost use Rattle.x86_meaning.specs.declared.sets.Flag.{Flag};
ghost use Rattle.x86_meaning.specs.Meaning.{micro_of, call_through_memory};
ghost use Rattle.x86_meaning.specs.Sets.{set_of, flag_code, flag_set};
ghost use Rattle.x86_meaning.specs.Registers.{reads_of, touches_of, writes_whole_of};
ghost use Rattle.x86_meaning.specs.Effects.{fetched, changed, filled};
ghost use Rattle.x86_meaning.specs.Typing.{no_widths, IsTyped};

use x86_insn::Insn;

/// An instruction reads exactly the registers that its small operations get: no other can reach a result.
pub fn reads_are_gets<R: Copy>(insn: &Insn<R>)
    ensures { (r : Reg) → Contains (reads_of insn.now) r ↔ Any (λ m. Contains (fetched m) r) (micro_of insn.now) }
{}

/// An instruction touches exactly the registers of which its small operations put some part.
pub fn touches_are_puts<R: Copy>(insn: &Insn<R>)
    ensures { (r : Reg) → Contains (touches_of insn.now) r ↔ Any (λ m. Contains (changed m) r) (micro_of insn.now) }
{}

/// Of each register that an instruction writes whole a small operation puts all 64 bits.
pub fn whole_is_put<R: Copy>(insn: &Insn<R>)
    ensures { (r : Reg) → Contains (writes_whole_of insn.now) r → Any (λ m. Contains (filled m) r) (micro_of insn.now) }
{}

/// A set has the bits of its members' codes and no other of a register or flag.
pub fn bits_are_members()
    ensures registers { (rs : List Reg) (r : Reg) → (bit_at (set_of rs) (code_of r) ≡ 1) ↔ Contains rs r }
    ensures flags { (fs : List Flag) (f : Flag) → (bit_at (flag_set fs) (flag_code f) ≡ 1) ↔ Contains fs f }
{}

/// A call through memory with base and index takes these ten operations, and no more.
pub fn call_takes_ten<R: Copy>()
    ensures { (base index : Reg) (scale : ℕ) (disp : ℤ) (notrack : Bool) → micro_of {R = R} (CallTo (operand.Mem (At (Some base) (Some (index, scale)) disp)) notrack) ≡ call_through_memory base index scale disp }
{}

/// Each small operation of a well formed instruction uses only temporary words that an earlier one put, of the widths
/// that it needs, and makes one of the eight; a constant is below its width's end, and a scale is 1, 2, 4 or 8.
pub fn lists_are_typed<R: Copy>(insn: &Insn<R>)
    requires { IsTrue (is_instruction insn.now) }
    ensures { IsTyped no_widths (micro_of insn.now) }
{}
