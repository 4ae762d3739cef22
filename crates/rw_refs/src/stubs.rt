//! Stubs, through which imported functions are called.

ghost use Rattle.std.specs.Prelude.{◌≡◌, ◌+◌, ◌≤◌, ◌^◌, length, drop};
ghost use Rattle.rw_elf.specs.Tables.{IsNameIn, is_named};
ghost use Rattle.rw_refs.specs.Stubs.{bytes_on, displacement, import_at, import_of, place_through, stub_at, stub_in, stub_sections, through};

use byteorder::{ByteOrder, LittleEndian};
use rw_base::{Width, sign};
use rw_elf::{Elf, Section};
use rw_reloc::abi::{R_X86_64_GLOB_DAT, R_X86_64_JUMP_SLOT};
use rw_reloc::{Relocs, Slot, Target};

// `jmp *d(%rip)` up to its displacement (SDM, JMP: FF /4).
const JMP: [u8; 2] = [0xff, 0x25];

// The same with the prefix `bnd`.
const BND_JMP: [u8; 3] = [0xf2, 0xff, 0x25];

// Both behind `endbr64`.
const ENDBR64_JMP: [u8; 6] = [0xf3, 0x0f, 0x1e, 0xfa, 0xff, 0x25];

const ENDBR64_BND_JMP: [u8; 7] = [0xf3, 0x0f, 0x1e, 0xfa, 0xf2, 0xff, 0x25];

fn displacement(code: &[u8], jump: &[u8]) -> u64
    requires { length jump.now + 4 ≤ length code.now }
    ensures { result ≡ displacement code.now jump.now }
{
    sign(
        u64::from(LittleEndian::read_u32(&code[jump.len()..])),
        Width::L,
    )
}

// The address that code at an address jumps through, where it begins with this jump.
fn through(address: u64, code: &[u8], jump: &[u8]) -> Option<u64>
    requires { length jump.now ≤ 7 }
    ensures { result ≡ through address code.now jump.now }
{
    let len = jump.len() + 4;
    if code.len() < len || &code[..jump.len()] != jump {
        return None;
    }
    let end = address.wrapping_add(len as u64);
    Some(end.wrapping_add(displacement(code, jump)))
}

// The same of any of the jumps that a stub has.
fn place_through(address: u64, code: &[u8]) -> Option<u64>
    ensures { result ≡ place_through address code.now }
{
    through(address, code, &JMP)
        .or(through(address, code, &BND_JMP))
        .or(through(address, code, &ENDBR64_JMP))
        .or(through(address, code, &ENDBR64_BND_JMP))
}

fn import_of(slot: &Slot) -> Option<u32>
    ensures { result ≡ import_of slot.now.kind slot.now.target }
{
    match slot.target {
        Target::Import(number)
            if slot.kind == R_X86_64_GLOB_DAT || slot.kind == R_X86_64_JUMP_SLOT => { Some(number) }
        _ => None,
    }
}

fn import_at(relocs: &Relocs, address: u64) -> Option<u32>
    ensures { result ≡ import_at relocs.now address }
{
    import_of(&relocs.slot_at(address)?)
}

fn has_stubs(elf: &Elf, section: &Section) -> bool
    requires { IsNameIn elf.now section.now.name }
    ensures { result ≡ is_named elf.now stub_sections section.now }
{
    let name = elf.name_of(section.name);
    name == b".plt".as_slice() || name == b".plt.sec".as_slice() || name == b".plt.got".as_slice()
}

// The bytes of a section from an address on.
#[tactic(auto, using(std::proofs::lemmas::List::take_rest))]
fn bytes_on<'a>(elf: &'a Elf, address: u64, section: &Section) -> &'a [u8]
    requires { section.now.addr ≤ address }
    ensures { result.now ≡ bytes_on elf.now address section.now }
{
    let bytes = elf.section_bytes(section);
    let skipped = address - section.addr;
    if skipped >= bytes.len() as u64 {
        &[]
    } else {
        &bytes[skipped as usize..]
    }
}

fn stub_in(elf: &Elf, relocs: &Relocs, address: u64, section: &Section) -> Option<u32>
    requires relocs { relocs.now ≡ elf.now }
    requires name { IsNameIn elf.now section.now.name }
    requires above { section.now.addr ≤ address }
    ensures { result ≡ stub_in elf.now address section.now }
{
    if !has_stubs(elf, section) {
        return None;
    }
    import_at(
        relocs,
        place_through(address, bytes_on(elf, address, section))?,
    )
}

/// The import of the stub at an address, by its number in the section of type `SHT_DYNSYM`; `None` exactly where no stub is
/// there.
///
/// A stub stands in `.plt`, `.plt.sec` or `.plt.got`: `endbr64` or not, the prefix `bnd` or not, and `jmp *d(%rip)` through a
/// slot of type `R_X86_64_GLOB_DAT` or `R_X86_64_JUMP_SLOT` whose target is an import. The time is logarithmic in the numbers of
/// sections and of slots.
#[tactic(auto, unfolding(crate::specs::Stubs::stub_at))]
pub fn stub_at(elf: &Elf, relocs: &Relocs, address: u64) -> Option<u32>
    requires { relocs.now ≡ elf.now }
    ensures { result ≡ stub_at elf.now address }
{
    let section = elf.section_around(address)?;
    stub_in(elf, relocs, address, &section)
}
