//! Why a command isn't done, and the line that says so.

ghost use Rattle.std.specs.Prelude.{◌≡◌, ◌≢◌, ◌<◌};
ghost use Rattle.rw_io.specs.Outside.{HasCause};
ghost use Rattle.rw_io.specs.WriteAll.{WritesAll};
ghost use Rattle.asm_print.specs.Line.{Appends};
ghost use Rattle.retro.specs.FaultText.{fault_text, detail_text, two_digits, number_part, offset_part, address_part, section_part, line_part};
ghost use Rattle.retro.specs.Failure.{failure_text, status};
ghost use Rattle.retro.specs.Call.{message};

use asm_print::Line;
use rw_base::{Detail, Fault};
use rw_io::{Sink, WriteFault, write_all};

/// Why a command isn't done, though no write failed.
#[derive(Clone, Copy)]
pub enum Failure {
    /// The file has this fault.
    Fault(Fault),
    /// The words aren't understood.
    Words,
    /// A read failed.
    Read,
    /// Memory is short.
    Memory,
}

impl Failure {
    /// The answer of a call that ends so.
    pub fn status(self) -> u8
        ensures value { result ≡ status self }
        ensures not_four { result ≢ 4 }
    {
        match self {
            Failure::Fault(_) => 1,
            Failure::Words => 2,
            Failure::Read => 3,
            Failure::Memory => 5,
        }
    }
}

/// Puts a number below 100 in two digits.
#[tactic(auto, using(crate::proofs::Pieces::pieces))]
fn put_two_digits(line: &mut Line, n: u8)
    requires { n < 100 }
    ensures { Appends line.old.bytes.items (two_digits n) line.new.bytes.items }
{
    line.put(&[b'0' + n / 10, b'0' + n % 10]);
}

/// Puts a number.
#[tactic(auto, using(crate::proofs::Pieces::pieces), unfolding(crate::specs::FaultText::number_part))]
fn put_number(line: &mut Line, n: u64)
    ensures { Appends line.old.bytes.items (number_part n) line.new.bytes.items }
{
    line.put_str(" ");
    line.put_decimal(n);
}

/// Puts a place in the file.
#[tactic(auto, using(crate::proofs::Pieces::pieces), unfolding(crate::specs::FaultText::offset_part))]
fn put_offset(line: &mut Line, offset: u64)
    ensures { Appends line.old.bytes.items (offset_part offset) line.new.bytes.items }
{
    line.put_str(" at offset ");
    line.put_decimal(offset);
}

/// Puts an address.
#[tactic(auto, using(crate::proofs::Pieces::pieces), unfolding(crate::specs::FaultText::address_part))]
fn put_address(line: &mut Line, address: u64)
    ensures { Appends line.old.bytes.items (address_part address) line.new.bytes.items }
{
    line.put_str(" at 0x");
    line.put_hex(address);
}

/// Puts the index of a section.
#[tactic(auto, using(crate::proofs::Pieces::pieces), unfolding(crate::specs::FaultText::section_part))]
fn put_section(line: &mut Line, section: u64)
    ensures { Appends line.old.bytes.items (section_part section) line.new.bytes.items }
{
    line.put_str(" in section ");
    line.put_decimal(section);
}

/// Puts the number of a line of a text.
#[tactic(auto, using(crate::proofs::Pieces::pieces), unfolding(crate::specs::FaultText::line_part))]
fn put_line(line: &mut Line, number: u64)
    ensures { Appends line.old.bytes.items (line_part number) line.new.bytes.items }
{
    line.put_str(" at line ");
    line.put_decimal(number);
}

/// Puts what stands behind the name of a fault.
#[tactic(auto, using(crate::proofs::Pieces::pieces), unfolding(crate::specs::FaultText::detail_text))]
fn put_detail(line: &mut Line, detail: Detail)
    ensures { Appends line.old.bytes.items (detail_text detail) line.new.bytes.items }
{
    match detail {
        Detail::Nothing => {}
        Detail::Number(number) => put_number(line, number),
        Detail::Offset(offset) => put_offset(line, offset),
        Detail::Address(address) => put_address(line, address),
        Detail::Section(section) => put_section(line, u64::from(section)),
        Detail::Line(number) => put_line(line, number),
        Detail::NumberAndAddress(number, address) => {
            put_number(line, number);
            put_address(line, address);
        }
    }
}

/// Puts a fault: its number, its name and what stands behind it.
#[tactic(auto, using(crate::proofs::Pieces::pieces), unfolding(crate::specs::FaultText::fault_text))]
fn put_fault(line: &mut Line, fault: Fault)
    ensures { Appends line.old.bytes.items (fault_text fault) line.new.bytes.items }
{
    line.put_str("F");
    put_two_digits(line, fault.number());
    line.put_str(" ");
    line.put_str(fault.name());
    put_detail(line, fault.detail());
}

/// Puts why a command isn't done.
#[tactic(auto, using(crate::proofs::Pieces::pieces))]
fn put_failure(line: &mut Line, failure: Failure)
    ensures { Appends line.old.bytes.items (failure_text failure) line.new.bytes.items }
{
    match failure {
        Failure::Fault(fault) => put_fault(line, fault),
        Failure::Words => line.put_str("words not understood"),
        Failure::Read => line.put_str("read fault"),
        Failure::Memory => line.put_str("out of memory"),
    }
}

/// Writes the line of a failure by one `write_all`.
pub fn say<E: Sink>(failure: Failure, err: &mut E) -> Result<(), WriteFault>
    ensures bytes { WritesAll (E.held err.old) (E.held err.new) result (message (failure_text failure)) }
    ensures cause { HasCause (E.faults err.old) (E.faults err.new) result }
{
    let mut line = Line::new();
    line.put_str("retro: ");
    put_failure(&mut line, failure);
    line.put_str("\n");
    write_all(err, &line.bytes)
}
