ghost use Rattle.std.specs.Prelude.{◌≡◌, Some};
ghost use Rattle.rw_domain.specs.Operators.{IsInside};
ghost use Rattle.rw_domain.specs.declared.place.Place.{Place};
ghost use Rattle.rw_machine.specs.State.{machine_of};
ghost use Rattle.rw_machine.specs.Views.{HasRange};

use rw_domain::{Domain, Place};
use rw_machine::{Six, State};

/// A call that a machine asks: its state, the six words of the call, and the word to which the call returns, with its
/// place, where the call has stored one.
#[derive(Drop)]
pub struct Asked<'a, D: Domain, P> {
    pub(crate) state: &'a State<D, P>,
    pub(crate) words: Six<D::Word>,
    pub(crate) stored: Option<(Place, D::Word)>,
    ghost room: { (s : Place × D.Word) → stored ≡ Some s → HasRange (machine_of state.now).memory s.0 8 },
}

impl<'a, D: Domain, P: Copy> Asked<'a, D, P> {
    /// A call that a machine asks in a state. `words` are those of its event. A function that is called, and not jumped
    /// to, returns to a word that the call has stored: `stored` is this word, of width Q, and its place. That they are those
    /// of the event is for the caller to see.
    pub fn new(
        state: &'a State<D, P>,
        words: Six<D::Word>,
        stored: Option<(Place, D::Word)>,
    ) -> Asked<'a, D, P>
        requires { (s : Place × D.Word) → stored ≡ Some s → IsInside (machine_of state.now).placed.regions s.0 8 }
        ensures state { result.state.now ≡ state.now }
        ensures words { result.words ≡ words }
        ensures stored { result.stored ≡ stored }
    {
        Asked {
            state,
            words,
            stored,
        }
    }
}
