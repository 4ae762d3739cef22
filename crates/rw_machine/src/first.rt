ghost use Rattle.std.specs.Prelude.{◌≡◌, IfOk, replicate, map};
ghost use Rattle.rw_machine.specs.Running as Runs;
ghost use Rattle.rw_machine.specs.Step.{filling};
ghost use Rattle.rw_machine.specs.Views.{rows_of};

use crate::memory::Memory;
use crate::words::undefined_byte;
use rw_base::Width;
use rw_domain::{Domain, Region};
use std::alloc::{AllocError, Global};

/// The byte that a region has everywhere at first.
fn first_byte<D: Domain>(domain: &D, region: &Region) -> D::Byte
    ensures { result ≡ filling (D.over (D.placed domain.now)) region.now }
{
    if region.zero {
        domain.split(domain.num(Width::B, 0), 0)
    } else {
        undefined_byte(domain)
    }
}

fn repeated<B: Copy>(alloc: Global, b: B, count: u64) -> Result<Vec<B>, AllocError>
    ensures { IfOk result (λ v. v.items ≡ replicate count b) }
{
    let mut row = Vec::with_capacity(alloc, count as usize)?;
    for _ in 0..count {
        row.push(b)?;
    }
    Ok(row)
}

/// The first bytes of a region.
pub(crate) fn first_row<D: Domain>(
    alloc: Global,
    domain: &D,
    region: &Region,
) -> Result<Vec<D::Byte>, AllocError>
    ensures { IfOk result (λ v. v.items ≡ replicate region.now.size (filling (D.over (D.placed domain.now)) region.now)) }
{
    repeated(alloc, first_byte(domain, region), region.size)
}

/// The first bytes of each region of a domain.
pub(crate) fn first_rows<D: Domain>(
    alloc: Global,
    domain: &D,
) -> Result<Memory<D::Byte>, AllocError>
    ensures rows { IfOk result (λ m. rows_of m ≡ map (λ region. replicate region.size (filling (D.over (D.placed domain.now)) region)) (D.placed domain.now).regions) }
    ensures undefined { IfOk result (λ m. m.undefined ≡ Runs.undefined_byte (D.over (D.placed domain.now))) }
{
    let mut rows = Vec::new(alloc);
    for region in domain.regions() {
        rows.push(first_row(alloc, domain, region)?)?;
    }
    Ok(Memory::new(rows, undefined_byte(domain)))
}
