ghost use Rattle.std.specs.Prelude.{◌≡◌};

use crate::goal::Goal;
use rw_domain::{Cause, Domain};
use x86_insn::Insn;

/// What a machine over a domain runs: instructions at points, and what their references and targets are.
///
/// All that a code says is one record of functions, a program, which the definition of a step takes; each function of
/// the trait equals its field.
pub trait Code<D: Domain> {
    /// What an instruction refers by.
    type Ref: Copy;

    /// Where an instruction stands.
    type Point: Copy;

    ghost use Rattle.rw_domain.specs.Placed.{Placed};
    ghost use Rattle.rw_machine.specs.Program.{Program, GivesInstructions, GivesWords};

    /// Everything that the code says.
    ghost program: { Self → Program Self.Point Self.Ref D.Word };

    /// The instruction at a point, if there is one.
    fn insn(&self, p: Self::Point) -> Option<Insn<Self::Ref>>
        ensures { result ≡ (program self.now).insn p };

    /// The point behind that of an instruction.
    fn next(&self, p: Self::Point) -> Self::Point
        ensures { result ≡ (program self.now).next p };

    /// The word of a reference, as the direct target of a jump or call or as an address.
    fn resolve(&self, r: Self::Ref, direct: bool) -> D::Word
        ensures { result ≡ (program self.now).resolve r direct };

    /// Where a word leads as a target. It refuses with `TargetUnknown` or `TargetNoPoint`.
    fn target(&self, w: &D::Word) -> Result<Goal<Self::Point>, Cause>
        ensures { result ≡ (program self.now).target w.now };

    /// The word of a point.
    fn address_of(&self, p: Self::Point) -> D::Word
        ensures { result ≡ (program self.now).address_of p };

    /// Only values that are instructions stand at points.
    ghost gives_instructions: { (c : Self) → GivesInstructions (program c) };

    /// The words of references and of points have width Q.
    ghost gives_words: { (c : Self) (placed : Placed) → GivesWords (D.over placed) (program c) };
}
