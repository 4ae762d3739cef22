//! What a machine asks.

ghost use Rattle.std.specs.Prelude.{◌≡◌, List, [], ◌∷◌, length, is_some, IsSome};
ghost use Rattle.rw_base.specs.declared.width.Width.TheVariants.{B};
ghost use Rattle.rw_machine.specs.Events as Asked;
ghost use Rattle.rw_machine.specs.Events.{known_bytes};
ghost use Rattle.rw_machine.specs.State as Seen;
ghost use Rattle.rw_machine.specs.State.{six_of, event_of_query, query_result};
ghost use Rattle.rw_domain.specs.Operators.{Operators};
ghost use Rattle.rw_machine.specs.Views.{HasRange, registers_of, rows_of, IsLaidOut};

use crate::event::{Event, Six};
use crate::memory::Memory;
use crate::registers::Registers;
use rw_base::Width;
use rw_domain::{Access, Cause, Domain, Eight, Place};

/// What is asked, but for its words.
#[derive(Clone, Copy)]
pub(crate) enum Query {
    /// A system call by its number, with the place and the length of the bytes of a write.
    System(u64, Option<(Place, u64)>),
    /// A call of an imported symbol, by its number.
    Import(u32),
}

/// The number of a byte, if it is one.
fn byte_number<D: Domain>(domain: &D, b: D::Byte) -> Option<u64>
    ensures { let ops = D.over (D.placed domain.now) in result ≡ ops.number B (ops.join B (b ∷ [])) }
{
    let bytes = Eight {
        b0: b,
        b1: b,
        b2: b,
        b3: b,
        b4: b,
        b5: b,
        b6: b,
        b7: b,
    };
    domain.number(Width::B, domain.join(Width::B, &bytes))
}

/// Every byte is a number.
fn are_numbers<D: Domain>(domain: &D, bytes: &[D::Byte]) -> bool
    ensures { result ≡ is_some (known_bytes (D.over (D.placed domain.now)) bytes.now) }
{
    for b in bytes {
        if byte_number(domain, *b).is_none() {
            return false;
        }
    }
    true
}

/// The words of a system call.
fn six_words<W: Copy>(registers: &Registers<W>) -> Six<W>
    ensures { six_of result ≡ registers.now.rdi ∷ registers.now.rsi ∷ registers.now.rdx ∷ registers.now.r10 ∷ registers.now.r8 ∷ registers.now.r9 ∷ [] }
{
    Six {
        w0: registers.rdi,
        w1: registers.rsi,
        w2: registers.rdx,
        w3: registers.r10,
        w4: registers.r8,
        w5: registers.r9,
    }
}

/// The query of a write of some bytes at a place.
fn query_at<D: Domain>(
    domain: &D,
    registers: &Registers<D::Word>,
    memory: &Memory<D::Byte>,
    len: u64,
    at: Place,
) -> Result<Query, Cause>
    requires { HasRange (rows_of memory.now) at len }
    ensures { let ops = D.over (D.placed domain.now) in
        query_result ops (registers_of registers.now) (rows_of memory.now) result ≡ Asked.event_at ops (registers_of registers.now) (rows_of memory.now) len at }
{
    let start = at.offset as usize;
    let row = &memory.rows[at.region as usize];
    if are_numbers(domain, &row[start..start + len as usize]) {
        Ok(Query::System(1, Some((at, len))))
    } else {
        Err(Cause::ByteUnknown)
    }
}

/// The query of a write to descriptor 1 or 2, by its length.
fn query_of_length<D: Domain>(
    domain: &D,
    registers: &Registers<D::Word>,
    memory: &Memory<D::Byte>,
    len: u64,
) -> Result<Query, Cause>
    requires { IsLaidOut (D.placed domain.now).regions (rows_of memory.now) }
    ensures { let ops = D.over (D.placed domain.now) in
        query_result ops (registers_of registers.now) (rows_of memory.now) result ≡ Asked.event_of_length ops (registers_of registers.now) (rows_of memory.now) len }
{
    if len == 0 {
        return Ok(Query::System(1, None));
    }
    let at = domain.place(&registers.rsi, len, Access::Read)?;
    query_at(domain, registers, memory, len, at)
}

/// The query of a write, by its descriptor.
fn query_of_write<D: Domain>(
    domain: &D,
    registers: &Registers<D::Word>,
    memory: &Memory<D::Byte>,
    descriptor: u64,
) -> Result<Query, Cause>
    requires { IsLaidOut (D.placed domain.now).regions (rows_of memory.now) }
    ensures { let ops = D.over (D.placed domain.now) in
        query_result ops (registers_of registers.now) (rows_of memory.now) result ≡ Asked.event_of_write ops (registers_of registers.now) (rows_of memory.now) descriptor }
{
    if descriptor != 1 && descriptor != 2 {
        return Ok(Query::System(1, None));
    }
    let len = domain
        .number(Width::Q, registers.rdx)
        .ok_or(Cause::NumberUnknown)?;
    query_of_length(domain, registers, memory, len)
}

/// The query of a system call, by its number.
fn query_of_number<D: Domain>(
    domain: &D,
    registers: &Registers<D::Word>,
    memory: &Memory<D::Byte>,
    number: u64,
) -> Result<Query, Cause>
    requires { IsLaidOut (D.placed domain.now).regions (rows_of memory.now) }
    ensures { let ops = D.over (D.placed domain.now) in
        query_result ops (registers_of registers.now) (rows_of memory.now) result ≡ Asked.event_of_number ops (registers_of registers.now) (rows_of memory.now) number }
{
    if number != 1 {
        return Ok(Query::System(number, None));
    }
    let descriptor = domain
        .number(Width::Q, registers.rdi)
        .ok_or(Cause::NumberUnknown)?;
    query_of_write(domain, registers, memory, descriptor)
}

/// The query of a system call.
pub(crate) fn system_query<D: Domain>(
    domain: &D,
    registers: &Registers<D::Word>,
    memory: &Memory<D::Byte>,
) -> Result<Query, Cause>
    requires { IsLaidOut (D.placed domain.now).regions (rows_of memory.now) }
    ensures { let ops = D.over (D.placed domain.now) in
        query_result ops (registers_of registers.now) (rows_of memory.now) result ≡ Asked.system_event ops (registers_of registers.now) (rows_of memory.now) }
{
    let number = domain
        .number(Width::Q, registers.rax)
        .ok_or(Cause::NumberUnknown)?;
    query_of_number(domain, registers, memory, number)
}

/// The arguments of a function.
fn six_arguments<W: Copy>(registers: &Registers<W>) -> Six<W>
    ensures { six_of result ≡ registers.now.rdi ∷ registers.now.rsi ∷ registers.now.rdx ∷ registers.now.rcx ∷ registers.now.r8 ∷ registers.now.r9 ∷ [] }
{
    Six {
        w0: registers.rdi,
        w1: registers.rsi,
        w2: registers.rdx,
        w3: registers.rcx,
        w4: registers.r8,
        w5: registers.r9,
    }
}

/// The event of a query, with its words.
pub(crate) fn event_of<D: Domain>(query: Query, registers: &Registers<D::Word>) -> Event<D::Word>
    ensures { (ops : Operators D.Word D.Byte) (memory : List (List D.Byte)) → Seen.event_of ops memory result ≡ event_of_query ops (registers_of registers.now) memory query }
{
    match query {
        Query::System(number, range) => Event::System(number, six_words(registers), range),
        Query::Import(symbol) => Event::Import(symbol, six_arguments(registers)),
    }
}
