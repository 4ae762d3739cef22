//! The nodes of a function, one for each of its points.

ghost use Rattle.std.specs.Prelude.{◌≡◌, ◌<◌, ◌≤◌, ◌+◌, ◌-◌, ◌*◌, ◌^◌, ℕ, Contains, IfOk, length, slice_get};
ghost use Rattle.std.specs.List.{AllPairs};
ghost use Rattle.std.specs.List.Sorted.{IsNonDecreasingBy};
ghost use Rattle.rw_funcs.specs.Functions.{functions_of};
ghost use Rattle.rw_funcs.specs.Points.{insn_at, is_point};
ghost use Rattle.x86_meaning.specs.Sets.{set_of, flag_set};
ghost use Rattle.x86_meaning.specs.Registers.{reads_of, writes_whole_of};
ghost use Rattle.x86_meaning.specs.Flags.{flags_read_of, flags_written_of};
ghost use Rattle.rw_machine.specs.Step.{loses_flags};
ghost use Rattle.rw_live.specs.Liveness.{goes_on, is_jump, is_system, is_trap, jumps_out, reads_all_flags, target_of};
ghost use Rattle.rw_live.specs.Work.{IsGraph};
ghost use Rattle.rw_live.specs.Nodes.{AreOffsets, CountsBelow, IsBody, in_span, insn_with, jump_of, next_of, node_of, nodes_of, number_of, points_in, reads_by, writes_by};

use crate::graph::Node;
use rw_base::Span;
use rw_funcs::{Function, Functions};
use std::alloc::{AllocError, Global};
use x86_insn::{Insn, Plain};
use x86_meaning::Effects;

/// The points of a function. The number of a point is its place among the offsets of all from the function's start.
#[derive(Clone, Copy)]
pub(crate) struct Body<'a> {
    pub(crate) funcs: &'a Functions,
    pub(crate) span: Span,
    pub(crate) offsets: &'a [u32],
}

// Whether it is a call, a return or an indirect jump.
fn loses_flags(insn: &Insn<u64>) -> bool
    ensures { result ≡ loses_flags insn.now }
{
    matches!(
        *insn,
        Insn::Call { .. } | Insn::CallTo { .. } | Insn::JmpTo { .. } | Insn::Ret
    )
}

fn is_system(insn: &Insn<u64>) -> bool
    ensures { result ≡ is_system insn.now }
{
    matches!(*insn, Insn::Syscall)
}

fn is_trap(insn: &Insn<u64>) -> bool
    ensures { result ≡ is_trap insn.now }
{
    matches!(*insn, Insn::Plain(Plain::Ud2 | Plain::Int3 | Plain::Hlt))
}

fn is_jump(insn: &Insn<u64>) -> bool
    ensures { result ≡ is_jump insn.now }
{
    matches!(*insn, Insn::Jmp { .. })
}

// The target of a direct jump.
fn target_of(insn: &Insn<u64>) -> Option<u64>
    ensures { result ≡ target_of insn.now }
{
    match *insn {
        Insn::Jcc { to, .. } => Some(to),
        Insn::Jmp { to } => Some(to),
        _ => None,
    }
}

fn goes_on(insn: &Insn<u64>) -> bool
    ensures { result ≡ goes_on insn.now }
{
    !(loses_flags(insn) || (is_system(insn) || (is_trap(insn) || is_jump(insn))))
}

fn in_span(span: Span, at: u64) -> bool
    ensures { result ≡ in_span span at }
{
    span.start <= at && at < span.end
}

// The instruction at an address of a function, with its length.
fn insn_in(funcs: &Functions, span: Span, at: u64) -> Option<(Insn<u64>, u8)>
    ensures { result ≡ insn_at (points_in funcs.now span) at }
{
    if in_span(span, at) {
        funcs.insn_at(at)
    } else {
        None
    }
}

// Whether a point of a function is at an address.
fn is_point_in(funcs: &Functions, span: Span, at: u64) -> bool
    ensures { result ≡ is_point (points_in funcs.now span) at }
{
    if in_span(span, at) {
        funcs.is_point(at)
    } else {
        false
    }
}

fn jumps_out(funcs: &Functions, span: Span, insn: &Insn<u64>) -> bool
    ensures { result ≡ jumps_out (points_in funcs.now span) insn.now }
{
    match target_of(insn) {
        Some(to) => !is_point_in(funcs, span, to),
        None => false,
    }
}

fn reads_all_flags(funcs: &Functions, span: Span, insn: &Insn<u64>) -> bool
    ensures { result ≡ reads_all_flags (points_in funcs.now span) insn.now }
{
    is_system(insn) || jumps_out(funcs, span, insn)
}

// The set of registers and flags.
fn both(registers: u16, flags: u8) -> u32
    ensures { result ≡ registers + 65536 * flags }
{
    u32::from(registers) + 65536 * u32::from(flags)
}

// What it reads; `effects` are its own.
fn reads_by(funcs: &Functions, span: Span, insn: &Insn<u64>, effects: &Effects) -> u32
    requires registers { effects.now.reads.0 ≡ set_of (reads_of insn.now) }
    requires flags { effects.now.flags_read.0 ≡ flag_set (flags_read_of insn.now) }
    ensures { result ≡ reads_by (points_in funcs.now span) insn.now }
{
    let all_flags = reads_all_flags(funcs, span, insn);
    let registers = if loses_flags(insn) || all_flags {
        0xFFFF
    } else {
        effects.reads.0
    };
    let flags = if all_flags {
        0x1F
    } else {
        effects.flags_read.0
    };
    both(registers, flags)
}

// How many offsets, which ascend, are below one.
fn count_below(offsets: &[u32], offset: u64) -> usize
    ensures within { result ≤ length offsets.now }
    ensures counts { IsNonDecreasingBy (λ o. o) offsets.now → CountsBelow offsets.now offset result }
{
    offsets.partition_point(|o| u64::from(*o) < offset)
}

/// The number of the point at an address, among offsets that ascend. The time is logarithmic.
pub(crate) fn place_of(offsets: &[u32], start: u64, at: u64) -> Option<usize>
    ensures { AllPairs (λ x y. x < y) offsets.now → result ≡ number_of start offsets.now at }
{
    if at < start {
        return None;
    }
    let next = count_below(offsets, at - start);
    let found = u64::from(*offsets.get(next)?);
    if found == at - start {
        Some(next)
    } else {
        None
    }
}

fn number_of(body: &Body, at: u64) -> Option<u32>
    requires { IsBody body.now }
    ensures { result ≡ number_of body.now.span.start body.now.offsets.now at }
{
    let place = place_of(body.offsets, body.span.start, at)?;
    Some(place as u32)
}

fn jump_of(body: &Body, insn: &Insn<u64>) -> Option<u32>
    requires { IsBody body.now }
    ensures { result ≡ jump_of body.now.span.start body.now.offsets.now insn.now }
{
    number_of(body, target_of(insn)?)
}

// The number of the point behind one, if a path goes on there.
fn next_of(offsets: &[u32], c: u32, offset: u32, insn: &Insn<u64>, len: u8) -> Option<u32>
    requires { length offsets.now < 2 ^ 32 }
    ensures { result ≡ next_of offsets.now c (offset + len) insn.now }
{
    let behind = u64::from(offset) + u64::from(len);
    let next = u64::from(c) + 1;
    match offsets.get(next as usize) {
        Some(place) if goes_on(insn) && u64::from(*place) == behind => Some(next as u32),
        _ => None,
    }
}

// The node of a point with a number and an offset.
fn node_of(body: &Body, c: u32, offset: u32, insn: &Insn<u64>, len: u8) -> Node
    requires { IsBody body.now }
    ensures { result ≡ node_of (points_in body.now.funcs.now body.now.span) body.now.span.start body.now.offsets.now c offset insn.now len }
{
    let effects = Effects::of(insn);
    Node {
        reads: reads_by(body.funcs, body.span, insn, &effects),
        writes: both(effects.writes_whole.0, effects.flags_written.0),
        next: next_of(body.offsets, c, offset, insn, len),
        jump: jump_of(body, insn),
    }
}

// The instruction with a number, with its offset and length.
fn insn_with(body: &Body, c: u32) -> Option<(u32, Insn<u64>, u8)>
    requires { IsBody body.now }
    ensures { result ≡ insn_with (points_in body.now.funcs.now body.now.span) body.now.span.start body.now.offsets.now c }
{
    let offset = *body.offsets.get(c as usize)?;
    let (insn, len) = insn_in(body.funcs, body.span, body.span.start + u64::from(offset))?;
    Some((offset, insn, len))
}

// The node with a number, if there is one.
fn node_at(body: &Body, c: u32) -> Option<Node>
    requires { IsBody body.now }
    ensures { result ≡ nodes_of body.now c }
{
    let (offset, insn, len) = insn_with(body, c)?;
    Some(node_of(body, c, offset, &insn, len))
}

/// The nodes of a function, by their numbers. Each point is decoded once.
pub(crate) fn nodes_of(alloc: Global, body: &Body) -> Result<Vec<Node>, AllocError>
    requires { IsBody body.now }
    ensures graph { IfOk result (λ nodes. IsGraph nodes.items) }
    ensures exact { IfOk result (λ nodes. (c : ℕ) → slice_get nodes.items c ≡ nodes_of body.now c) }
{
    let mut nodes = Vec::with_capacity(alloc, body.offsets.len())?;
    for c in 0..body.offsets.len() as u32 {
        nodes.push(node_at(body, c).unwrap())?;
    }
    Ok(nodes)
}

/// The offsets of the points of a function from its start.
pub(crate) fn offsets(
    alloc: Global,
    funcs: &Functions,
    function: &Function,
) -> Result<Vec<u32>, AllocError>
    requires listed { Contains (functions_of funcs.now) function.now }
    requires ordered { function.now.span.start ≤ function.now.span.end }
    requires few { function.now.span.end - function.now.span.start < 2 ^ 32 }
    ensures { IfOk result (λ list. AreOffsets (points_in funcs.now function.now.span) function.now.span.start (function.now.span.end - function.now.span.start) list.items) }
{
    let marks = funcs.marks_of(function);
    let mut list = Vec::new(alloc);
    for offset in 0..marks.len() {
        if marks[offset] != 0 {
            list.push(offset as u32)?;
        }
    }
    list.shrink_to_fit();
    Ok(list)
}
