ghost use Rattle.std.specs.Prelude.{◌≡◌, ◌+◌, ◌-◌, ◌<◌, ◌^◌, [], length};
ghost use Rattle.rw_machine.specs.State.{machine_of};
ghost use Rattle.rw_sim.specs.Asking.{fresh_sizes};
ghost use Rattle.rw_sim.specs.FreshRegions.{Counts, HasRoom};

use crate::fresh::Fresh;
use rw_domain::Domain;
use rw_machine::State;
use std::alloc::Global;

/// A program that is simulated: its machine, the regions that came so far during the run, and the lengths of the pieces that
/// were read of the input, in bytes.
#[derive(Drop)]
pub struct Simulation<D: Domain, P> {
    pub(crate) state: State<D, P>,
    pub(crate) fresh: Fresh,
    pub(crate) reads: Vec<u32>,
    ghost counts: { Counts fresh (fresh_sizes (machine_of state).placed) },
    ghost room: { HasRoom (machine_of state).placed fresh.bytes },
}

impl<D: Domain, P: Copy> Simulation<D, P> {
    /// A simulation that begins with this machine. The region with the canary is the last one, and there is room for all
    /// regions that may come.
    pub fn new(alloc: Global, state: State<D, P>) -> Simulation<D, P>
        requires last { (machine_of state).placed.canary + 1 ≡ length (machine_of state).placed.regions }
        requires room { length (machine_of state).placed.regions + 67108864 < 2 ^ 32 - 1 }
        ensures machine { machine_of result.state ≡ machine_of state }
        ensures reads { result.reads.items ≡ [] }
    {
        Simulation {
            state,
            fresh: Fresh::new(),
            reads: Vec::new(alloc),
        }
    }

    /// The machine.
    pub fn state(&self) -> &State<D, P>
        ensures { result.now ≡ self.now.state }
    {
        &self.state
    }

    /// The lengths of the pieces that were read of the input so far, the first first, in bytes.
    pub fn reads(&self) -> &[u32]
        ensures { result.now ≡ self.now.reads.items }
    {
        self.reads.as_slice()
    }
}
