//! The text of a file, written line by line.

ghost use Rattle.std.specs.Prelude.{◌≡◌, ◌+◌, ◌*◌, ◌≤◌, ◌<◌, ◌^◌, ◌++◌, All, IfOk};
ghost use Rattle.rw_io.specs.Outside.{HasCause};
ghost use Rattle.asm_print.specs.Text.{text_of};
ghost use Rattle.asm_items.specs.Named.{named};
ghost use Rattle.asm_items.specs.declared.item.Item.TheVariants.{Weak};
ghost use Rattle.rw_elf.specs.Name.{name_bytes};
ghost use Rattle.rw_out.specs.Items as items;
ghost use Rattle.rw_out.specs.Items.{copy_item, copy_items, items_with, main_items, target_name, weak_items};
ghost use Rattle.rw_out.specs.Plan.{has, names_of};
ghost use Rattle.rw_out.specs.Positions.{IsWeak};
ghost use Rattle.rw_out.specs.Writing.{WritesOn};
ghost use Rattle.rw_out.specs.Kept.{probes_in};

use crate::numbers::{number_at, numbered};
use crate::position::Position;
use crate::probes::Probes;
use crate::steps::next_item;
use crate::symbols::target_place;
use crate::writing::write_item;
use asm_items::{Item, Names};
use asm_print::Line;
use rw_data::Picture;
use rw_elf::NameAt;
use rw_io::{Sink, WriteFault};
use rw_reloc::Slot;

// The line of a copied symbol.
fn copy_item(picture: &Picture, names: &Names, copy: &Slot) -> Item
    requires { has names.now (target_name picture.now copy.now.target) }
    ensures { named names.now result ≡ copy_item picture.now copy.now }
{
    let name = target_place(picture, copy.target);
    Item::Copy(number_at(picture, names, name), copy.target.size())
}

// The line of a weak symbol.
fn weak_item(picture: &Picture, names: &Names, name: NameAt) -> Item
    requires { has names.now (name_bytes picture.now name) }
    ensures { named names.now result ≡ Weak (name_bytes picture.now name) }
{
    Item::Weak(number_at(picture, names, name))
}

/// Writes the lines of the copied symbols, and answers how many bytes stand written.
fn write_copies<S: Sink>(
    picture: &Picture,
    names: &Names,
    line: &mut Line,
    sink: &mut S,
) -> Result<usize, WriteFault>
    requires names { (probes : items.Probes) × (names.now ≡ names_of (items_with picture.now probes)) }
    requires bytes { All (λ b. b < 256) picture.now }
    ensures bytes { WritesOn (S.held sink.old) (S.held sink.new) 0 result (text_of (copy_items picture.now)) }
    ensures few { IfOk result (λ n. n ≤ 8192 * 2 ^ 31) }
    ensures cause { HasCause (S.faults sink.old) (S.faults sink.new) result }
{
    // (for its clause `clean`: the file has no fault)
    let _elf = picture.elf();
    let mut written = 0;
    for copy in picture.relocs().copies() {
        let item = copy_item(picture, names, copy);
        written = write_item(&item, names, written, line, sink)?;
    }
    Ok(written)
}

/// Writes the lines of the weak symbols, `done` bytes being written before.
fn write_weak<S: Sink>(
    picture: &Picture,
    probes: &Probes,
    names: &Names,
    weak: &[NameAt],
    done: usize,
    line: &mut Line,
    sink: &mut S,
) -> Result<usize, WriteFault>
    requires names { names.now ≡ names_of (items_with picture.now (probes_in probes.now)) }
    requires bytes { All (λ b. b < 256) picture.now }
    requires weak { IsWeak picture.now (probes_in probes.now) weak.now }
    requires few { done ≤ 8192 * 2 ^ 31 }
    ensures bytes { WritesOn (S.held sink.old) (S.held sink.new) done result (text_of (weak_items picture.now (probes_in probes.now))) }
    ensures few { IfOk result (λ n. n ≤ 8192 * (2 ^ 31 + 16777216)) }
    ensures cause { HasCause (S.faults sink.old) (S.faults sink.new) result }
{
    // (for their clauses `clean` and `few`: the file has no fault, and there are few counters)
    let _elf = picture.elf();
    let _count = probes.count();
    let mut written = done;
    for name in weak {
        let item = weak_item(picture, names, *name);
        written = write_item(&item, names, written, line, sink)?;
    }
    Ok(written)
}

/// Writes the lines of the functions and of the data, `done` bytes being written before.
fn write_main<S: Sink>(
    picture: &Picture,
    probes: &Probes,
    names: &Names,
    done: usize,
    line: &mut Line,
    sink: &mut S,
) -> Result<usize, WriteFault>
    requires names { names.now ≡ names_of (items_with picture.now (probes_in probes.now)) }
    requires bytes { All (λ b. b < 256) picture.now }
    requires few { done ≤ 8192 * (2 ^ 31 + 16777216) }
    ensures bytes { WritesOn (S.held sink.old) (S.held sink.new) done result (text_of (main_items picture.now (probes_in probes.now))) }
    ensures cause { HasCause (S.faults sink.old) (S.faults sink.new) result }
{
    // (for their clauses `clean` and `few`: the file has no fault, and there are few counters)
    let _elf = picture.elf();
    let _count = probes.count();
    let mut written = done;
    let mut probe = 0;
    let mut position = Position::Function(0);
    while let Some((shown, next)) = next_item(picture, probes, &mut probe, position) {
        let item = numbered(picture, names, shown);
        written = write_item(&item, names, written, line, sink)?;
        position = next;
    }
    Ok(written)
}

fn write_front<S: Sink>(
    picture: &Picture,
    probes: &Probes,
    names: &Names,
    weak: &[NameAt],
    line: &mut Line,
    sink: &mut S,
) -> Result<usize, WriteFault>
    requires names { names.now ≡ names_of (items_with picture.now (probes_in probes.now)) }
    requires bytes { All (λ b. b < 256) picture.now }
    requires weak { IsWeak picture.now (probes_in probes.now) weak.now }
    ensures bytes { WritesOn (S.held sink.old) (S.held sink.new) 0 result (text_of (copy_items picture.now ++ weak_items picture.now (probes_in probes.now))) }
    ensures few { IfOk result (λ n. n ≤ 8192 * (2 ^ 31 + 16777216)) }
    ensures cause { HasCause (S.faults sink.old) (S.faults sink.new) result }
{
    let done = write_copies(picture, names, line, sink)?;
    write_weak(picture, probes, names, weak, done, line, sink)
}

/// Writes the text of a file whose names and weak symbols are these, and answers how many bytes it has.
pub(crate) fn write_text<S: Sink>(
    picture: &Picture,
    probes: &Probes,
    names: &Names,
    weak: &[NameAt],
    line: &mut Line,
    sink: &mut S,
) -> Result<usize, WriteFault>
    requires names { names.now ≡ names_of (items_with picture.now (probes_in probes.now)) }
    requires bytes { All (λ b. b < 256) picture.now }
    requires weak { IsWeak picture.now (probes_in probes.now) weak.now }
    ensures bytes { WritesOn (S.held sink.old) (S.held sink.new) 0 result (text_of (items_with picture.now (probes_in probes.now))) }
    ensures cause { HasCause (S.faults sink.old) (S.faults sink.new) result }
{
    let done = write_front(picture, probes, names, weak, line, sink)?;
    write_main(picture, probes, names, done, line, sink)
}
