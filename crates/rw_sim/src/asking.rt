//! The built-in answer to what a machine asks.

ghost use Rattle.std.specs.Prelude.{◌≡◌, ℕ, List, sum, Some, None};
ghost use Rattle.rw_base.specs.declared.width.Width.TheVariants.{Q};
ghost use Rattle.x86_insn.specs.declared.kinds.Reg.TheVariants.{Rsp};
ghost use Rattle.rw_domain.specs.declared.place.Place.{Place};
ghost use Rattle.rw_domain.specs.Operators.{IsInside};
ghost use Rattle.rw_machine.specs.Running.{register, bytes_from};
ghost use Rattle.rw_machine.specs.State.{domain_over, machine_of, event_of};
ghost use Rattle.rw_sim.specs.Answers.{Meets, answer_value};
ghost use Rattle.rw_sim.specs.Asking.{answer_to, fresh_sizes, pushed_place, pushed_word, stored_by};

use crate::answer::{Answer, Refused};
use crate::asked::Asked;
use rw_base::Width;
use rw_domain::{Access, Domain, Eight, Place};
use rw_machine::{Code, Event, State};
use std::alloc::Global;
use x86_insn::{Insn, Reg};

/// A code whose imported symbols have names.
pub trait Named<D: Domain>: Code<D> {
    /// The name of a symbol, by its number.
    ghost names: { Self → ℕ → List ℕ };

    /// The name of an imported symbol.
    fn name(&self, symbol: u32) -> &[u8]
        ensures { result.now ≡ names self.now symbol };
}

/// The word of `%rsp`, at width Q.
fn stack_pointer<D: Domain, P: Copy>(state: &State<D, P>) -> D::Word
    ensures { let m = machine_of state.now in let ops = D.over m.placed in result ≡ ops.join Q (bytes_from ops 8 0 (register ops m.registers Rsp)) }
{
    let domain = state.domain();
    let word = state.reg(Reg::Rsp);
    let bytes = Eight {
        b0: domain.split(word, 0),
        b1: domain.split(word, 1),
        b2: domain.split(word, 2),
        b3: domain.split(word, 3),
        b4: domain.split(word, 4),
        b5: domain.split(word, 5),
        b6: domain.split(word, 6),
        b7: domain.split(word, 7),
    };
    domain.join(Width::Q, &bytes)
}

/// The place eight bytes below the stack pointer, and the word of the next point.
fn pushed<D: Domain, C: Code<D>>(code: &C, state: &State<D, C::Point>) -> Option<(Place, D::Word)>
    ensures value { let m = machine_of state.now in let dom = domain_over D.over in let prog = C.program code.now in result ≡ pushed_word dom prog m (pushed_place dom prog m (D.over m.placed)) }
    ensures inside { (s : Place × D.Word) → result ≡ Some s → IsInside (machine_of state.now).placed.regions s.0 8 }
{
    let domain = state.domain();
    let below = domain.sum(Some(stack_pointer(state)), None, -8);
    match domain.place(&below, 8, Access::Write) {
        Ok(place) => Some((place, code.address_of(code.next(state.point())))),
        Err(_) => None,
    }
}

/// What the instruction at a state's point stores, where it is a call: the word to which the function returns, and its
/// place.
fn stored<D: Domain, C: Code<D>>(code: &C, state: &State<D, C::Point>) -> Option<(Place, D::Word)>
    ensures value { let m = machine_of state.now in let prog = C.program code.now in result ≡ stored_by (domain_over D.over) prog m (prog.insn m.point) }
    ensures inside { (s : Place × D.Word) → result ≡ Some s → IsInside (machine_of state.now).placed.regions s.0 8 }
{
    match code.insn(state.point()) {
        Some(Insn::Call { .. } | Insn::CallTo { .. }) => pushed(code, state),
        _ => None,
    }
}

/// The built-in answer to what a machine asks, by its event. That the event is that of the state is for the caller to see.
/// `fresh` is how many bytes the regions have that came during the run: those behind that with the canary. A function that
/// is called, and not jumped to, finds the word of the next point eight bytes below the stack pointer.
///
/// # Errors
///
/// [`Refused::Stops`] with the first cause, as [`Asked::system`] and [`Asked::import`] say; [`Refused::Memory`] for want of
/// memory.
pub fn answer_to<D: Domain, C: Named<D>>(
    alloc: Global,
    code: &C,
    state: &State<D, C::Point>,
    event: &Event<D::Word>,
    fresh: u64,
) -> Result<Answer<D::Word, D::Byte>, Refused>
    requires { fresh ≡ sum (fresh_sizes (machine_of state.now).placed) }
    ensures { let m = machine_of state.now in let ops = D.over m.placed in
        Meets answer_value (answer_to (domain_over D.over) (C.program code.now) m (C.names code.now) (event_of ops m.memory event.now)) result }
{
    match event {
        Event::System(number, words, _) => {
            Asked::new(state, *words, None).system(alloc, *number)
        }
        Event::Import(symbol, words) => {
            let asked = Asked::new(state, *words, stored(code, state));
            asked.import(alloc, fresh, *symbol, code.name(*symbol))
        }
    }
}
