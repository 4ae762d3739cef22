//! What is live at the points of a function.

ghost use Rattle.std.specs.Prelude.{◌≡◌, ◌<◌, ◌↔◌, ℕ, List, IfOk, Some, length, slice_get, true};
ghost use Rattle.std.specs.List.{AllPairs};
ghost use Rattle.x86_meaning.specs.Sets.{flag_code};
ghost use Rattle.rw_funcs.specs.declared.function.Function.{Function};
ghost use Rattle.rw_funcs.specs.Functions.{functions_of};
ghost use Rattle.rw_funcs.specs.Points.{Point};
ghost use Rattle.rw_live.specs.Liveness.{IsLive, IsFlagLive};
ghost use Rattle.rw_live.specs.Lives.{HasAt, IsLiveOf};
ghost use Rattle.rw_live.specs.Nodes.{points_in};

use crate::graph::live_sets;
use crate::nodes::{Body, nodes_of, offsets, place_of};
use rw_funcs::Functions;
use std::alloc::{AllocError, Global};
use x86_insn::Reg;
use x86_meaning::Flag;

// Whether the set of the point at an address has an element.
fn has_at(offsets: &[u32], sets: &[u32], start: u64, at: u64, element: u8) -> bool
    requires { element < 32 }
    ensures { AllPairs (λ x y. x < y) offsets.now → result ≡ true ↔ HasAt offsets.now sets.now start at element }
{
    let Some(place) = place_of(offsets, start, at) else {
        return false;
    };
    match sets.get(place) {
        Some(set) => (*set >> element) & 1 == 1,
        None => false,
    }
}

/// The registers and flags that are live at the points of a function. It takes 8 bytes a point.
#[derive(Drop)]
pub struct Live {
    start: u64,
    offsets: Vec<u32>,
    sets: Vec<u32>,
}

impl Live {
    /// What is live in the function with a number. The time is near-linear in the number of the function's bytes. The memory
    /// is 32 bytes a point of the function, 8 a jump, and 4 a point that waits to be looked at again.
    pub fn of(alloc: Global, funcs: &Functions, f: u32) -> Result<Live, AllocError>
        requires { f < length (functions_of funcs.now) }
        ensures { IfOk result (λ live. (g : Function) → slice_get (functions_of funcs.now) f ≡ Some g → IsLiveOf (points_in funcs.now g.span) live) }
    {
        let function = &funcs.list()[f as usize];
        let span = function.span;
        let offsets = offsets(alloc, funcs, function)?;
        let body = Body {
            funcs,
            span,
            offsets: &offsets,
        };
        let nodes = nodes_of(alloc, &body)?;
        let sets = live_sets(alloc, &nodes)?;
        Ok(Live {
            start: span.start,
            offsets,
            sets,
        })
    }

    /// Whether a register is live at an address: exactly where some path inside the function from a point there reads it
    /// before it writes it whole. The time is logarithmic in the number of points.
    pub fn reg_live(&self, c: u64, r: Reg) -> bool
        ensures { (points : List Point) → IsLiveOf points self.now → result ≡ true ↔ IsLive points c r }
    {
        has_at(&self.offsets, &self.sets, self.start, c, r.code())
    }

    /// Whether a flag is live at an address: exactly where some path inside the function from a point there reads it before
    /// it writes it. The time is logarithmic in the number of points.
    pub fn flag_live(&self, c: u64, flag: Flag) -> bool
        ensures { (points : List Point) → IsLiveOf points self.now → result ≡ true ↔ IsFlagLive points c flag }
    {
        has_at(&self.offsets, &self.sets, self.start, c, 16 + flag.code())
    }
}
