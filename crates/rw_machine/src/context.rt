//! What an instruction runs over, and what its small operations find there.

ghost use Rattle.std.specs.Prelude.{◌≡◌, option_map};
ghost use Rattle.rw_machine.specs.Running as Runs;
ghost use Rattle.rw_machine.specs.Views.{running_of, registers_of, rows_of};

use crate::memory::Memory;
use crate::registers::Registers;
use crate::running::{Here, Running};
use rw_base::Width;
use rw_domain::Domain;
use x86_insn::Reg;
use x86_meaning::Temp;

/// What an instruction runs over: a domain, memory from before the instruction, and what it finds at its point.
#[derive(Drop)]
pub(crate) struct Context<'a, D: Domain> {
    pub(crate) domain: &'a D,
    pub(crate) memory: &'a Memory<D::Byte>,
    pub(crate) here: Here<D::Word>,
}

impl<D: Domain> Context<'_, D> {
    /// The word of a register.
    #[tactic(auto, using(std::proofs::lemmas::Option::get_or_from_slice_get))]
    pub(crate) fn register(&self, registers: &Registers<D::Word>, r: Reg) -> D::Word
        ensures { result ≡ Runs.register (D.over (D.placed self.now.domain.now)) (registers_of registers.now) r }
    {
        registers.get(r)
    }

    /// A temporary word; one whose number isn't below 8 is undefined.
    #[tactic(auto, using(std::proofs::lemmas::Option::get_or_from_slice_get))]
    pub(crate) fn temp(&self, run: &Running<D::Word>, t: Temp) -> D::Word
        ensures { let ops = D.over (D.placed self.now.domain.now) in
            result ≡ Runs.temp ops (running_of run.now) t }
    {
        if t.0 < 8 {
            run.temps.get(t.0)
        } else {
            self.domain.undef(Width::Q)
        }
    }

    /// The base of an address, if it has one.
    pub(crate) fn base(&self, run: &Running<D::Word>, t: Option<Temp>) -> Option<D::Word>
        ensures { let ops = D.over (D.placed self.now.domain.now) in
            result ≡ option_map (Runs.temp ops (running_of run.now)) t }
    {
        Some(self.temp(run, t?))
    }

    /// The index of an address with its scale, if it has one.
    pub(crate) fn index(
        &self,
        run: &Running<D::Word>,
        t: Option<(Temp, u8)>,
    ) -> Option<(D::Word, u8)>
        ensures { let ops = D.over (D.placed self.now.domain.now) in
            result ≡ option_map (λ p. (Runs.temp ops (running_of run.now) p.0, p.1)) t }
    {
        let (t, scale) = t?;
        Some((self.temp(run, t), scale))
    }
}
