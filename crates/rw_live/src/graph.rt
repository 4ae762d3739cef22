//! Liveness over a graph of numbered nodes, by a list of nodes to look at.

ghost use Rattle.std.specs.Prelude.{◌≡◌, ◌<◌, ◌≤◌, ◌-◌, ◌^◌, ℕ, [], Some, Contains, length, sum, min, true, false, IfOk, OnOk, slice_get};
ghost use Rattle.std.specs.Int.{bit_at};
ghost use Rattle.std.specs.List.Sorted.{IsNonDecreasingBy};
ghost use Rattle.rw_live.specs.declared.graph.Jump.{Jump as JumpFields};
ghost use Rattle.rw_live.specs.NodePaths.{ComputesLiveness};
ghost use Rattle.rw_live.specs.NodeSets.{bit_from, bit_before, IsSound};
ghost use Rattle.rw_live.specs.Work.{AreJumps, Covers, ChangesOnly, IsClosedUnder, IsGraph, has_node};

use std::alloc::{AllocError, Global};

/// A node of a graph: what it reads, what it writes whole, and the numbers of the nodes that may follow it.
#[derive(Clone, Copy, Drop)]
pub(crate) struct Node {
    pub(crate) reads: u32,
    pub(crate) writes: u32,
    pub(crate) next: Option<u32>,
    pub(crate) jump: Option<u32>,
}

/// A jump from one node to another, by their numbers.
#[derive(Clone, Copy, Drop)]
pub(crate) struct Jump {
    pub(crate) from: u32,
    pub(crate) to: u32,
}

fn set_at(live: &[u32], at: Option<u32>) -> u32
    ensures { (b : ℕ) → bit_at result b ≡ bit_from live.now at b }
{
    match at {
        Some(d) if (d as usize) < live.len() => live[d as usize],
        _ => 0,
    }
}

fn without(set: u32, out: u32) -> u32
    ensures { (b : ℕ) → b < 32 → bit_at result b ≡ min (bit_at set b) (1 - bit_at out b) }
{
    set & !out
}

fn live_before(node: &Node, live: &[u32]) -> u32
    ensures { (b : ℕ) → b < 32 → bit_at result b ≡ bit_before node.now live.now b }
{
    let after = set_at(live, node.next) | set_at(live, node.jump);
    node.reads | without(after, node.writes)
}

// Adds to the set of a node what the node makes live, and tells whether the set has grown.
fn relax(nodes: &[Node], live: &mut [u32], c: u32) -> bool
    requires same_length { length live.old ≡ length nodes.now }
    requires sound { IsSound (slice_get nodes.now) live.old }
    ensures sound { IsSound (slice_get nodes.now) live.new }
    ensures grown { result ≡ true → sum live.old < sum live.new }
    ensures only { ChangesOnly live.old live.new c }
    ensures same { result ≡ false → live.new ≡ live.old }
    ensures closed { IsClosedUnder (slice_get nodes.now) live.old live.new c }
{
    let Some(node) = nodes.get(c as usize) else {
        return false;
    };
    let set = live[c as usize];
    let more = set | live_before(node, live);
    if more == set {
        return false;
    }
    live[c as usize] = more;
    true
}

// How many of the jumps, which ascend by their targets, lead to a node below a number.
fn count_below(jumps: &[Jump], to: u32) -> usize
    requires { IsNonDecreasingBy (λ j. j.to) jumps.now }
    ensures within { result ≤ length jumps.now }
    ensures below { (k : ℕ) (j : JumpFields) → k < result → slice_get jumps.now k ≡ Some j → j.to < to }
    ensures above { (k : ℕ) (j : JumpFields) → result ≤ k → slice_get jumps.now k ≡ Some j → to ≤ j.to }
{
    jumps.partition_point(|jump| jump.to < to)
}

// Adds the nodes from a number on that jump to a node.
fn push_jumps(jumps: &[Jump], from: u32, to: u32, work: &mut Vec<u32>) -> Result<(), AllocError>
    requires { IsNonDecreasingBy (λ j. j.to) jumps.now }
    ensures kept { OnOk result ((c : ℕ) → has_node work.old.items c ≡ true → has_node work.new.items c ≡ true) }
    ensures added { OnOk result ((c : ℕ) → from ≤ c → Contains jumps.now (record { from = c; to = to }) → has_node work.new.items c ≡ true) }
{
    let mut at = count_below(jumps, to);
    'jumps: while at < jumps.len() && jumps[at].to == to {
        if from <= jumps[at].from {
            work.push(jumps[at].from)?;
        }
        at += 1;
    }
    Ok(())
}

// Adds the nodes from a number on that lead to a node. The one before it is last, so that it is looked at first: the list stays
// short where one jump leads to another.
fn push_leaders(jumps: &[Jump], from: u32, to: u32, work: &mut Vec<u32>) -> Result<(), AllocError>
    requires { IsNonDecreasingBy (λ j. j.to) jumps.now }
    ensures kept { OnOk result ((c : ℕ) → has_node work.old.items c ≡ true → has_node work.new.items c ≡ true) }
    ensures before { OnOk result (from < to → has_node work.new.items (to - 1) ≡ true) }
    ensures added { OnOk result ((c : ℕ) → from ≤ c → Contains jumps.now (record { from = c; to = to }) → has_node work.new.items c ≡ true) }
{
    push_jumps(jumps, from, to, work)?;
    if from < to {
        work.push(to - 1)?;
    }
    Ok(())
}

// Goes on until no node from a number on is left to look at.
fn settle(
    nodes: &[Node],
    jumps: &[Jump],
    from: u32,
    work: &mut Vec<u32>,
    live: &mut [u32],
) -> Result<(), AllocError>
    requires graph { IsGraph nodes.now }
    requires jumps { AreJumps (slice_get nodes.now) jumps.now }
    requires same_length { length live.old ≡ length nodes.now }
    requires sound { IsSound (slice_get nodes.now) live.old }
    requires covers { Covers (slice_get nodes.now) from live.old work.old.items }
    ensures same_length { OnOk result (length live.new ≡ length nodes.now) }
    ensures sound { OnOk result (IsSound (slice_get nodes.now) live.new) }
    ensures covers { OnOk result (Covers (slice_get nodes.now) from live.new []) }
    ensures empty { OnOk result (work.new.items ≡ []) }
{
    'work: while let Some(c) = work.pop() {
        if relax(nodes, live, c) {
            push_leaders(jumps, from, c, work)?;
        }
    }
    Ok(())
}

fn count_jumps(nodes: &[Node]) -> usize {
    nodes.iter().filter(|node| node.jump.is_some()).count()
}

// All jumps of a graph, by their targets.
fn jumps_of(alloc: Global, nodes: &[Node]) -> Result<Vec<Jump>, AllocError>
    requires { length nodes.now < 2 ^ 32 }
    ensures { IfOk result (λ jumps. AreJumps (slice_get nodes.now) jumps.items) }
{
    let mut jumps = Vec::with_capacity(alloc, count_jumps(nodes))?;
    for c in 0..nodes.len() as u32 {
        if let Some(to) = nodes[c as usize].jump {
            jumps.push(Jump { from: c, to })?;
        }
    }
    jumps.sort_unstable_by_key(|jump| jump.to);
    Ok(jumps)
}

/// What is live at each node. The nodes are taken from the last to the first; one that was looked at is looked at again only
/// when the set of one that may follow it grows, so the time is near-linear in the number of nodes.
pub(crate) fn live_sets(alloc: Global, nodes: &[Node]) -> Result<Vec<u32>, AllocError>
    requires { IsGraph nodes.now }
    ensures { IfOk result (λ live. ComputesLiveness (slice_get nodes.now) live.items) }
{
    let jumps = jumps_of(alloc, nodes)?;
    let mut live = vec![in alloc; 0u32; nodes.len()]?;
    let mut work = Vec::new(alloc);
    let mut from = nodes.len() as u32;
    'nodes: while from > 0 {
        from -= 1;
        work.push(from)?;
        settle(nodes, &jumps, from, &mut work, &mut live)?;
    }
    Ok(live)
}
