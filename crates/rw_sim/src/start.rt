//! The machine of a file at its start.

ghost use Rattle.std.specs.Prelude.{◌≡◌, IfOk, replicate};
ghost use Rattle.rw_base.specs.declared.width.Width.TheVariants.{Q};
ghost use Rattle.rw_words.specs.Words.{undefined_cells};
ghost use Rattle.rw_machine.specs.State.{machine_of};
ghost use Rattle.rw_code.specs.Start.{IsStart, first_registers, first_rows, hosted_registers, own_registers, words_start};
ghost use Rattle.rw_sim.specs.Start.{blank, file_ground, loaded_rows, start_with, stack_offset};

mod cells;
mod regions;
mod sections;
mod words;

use rw_base::Width;
use rw_code::{FilePoint, first_offset};
use rw_data::Picture;
use rw_domain::{Place, Symbols};
use rw_machine::State;
use rw_words::{Atom, Cell, Word};
use std::alloc::{AllocError, Global};
use x86_insn::Reg;

/// A machine over words at a point of a file.
type Machine = State<Symbols, FilePoint>;

/// The size of the stack, in bytes.
pub(crate) const STACK_SIZE: u64 = 1_048_576;

/// The offset in the stack at which the program starts.
fn stack_offset(picture: &Picture, args: &[String]) -> u64
    requires { IsStart (start_with args.now) }
    ensures { result ≡ stack_offset (file_ground picture.now) (start_with args.now) }
{
    if picture.funcs().hosted() {
        STACK_SIZE - 8
    } else {
        first_offset(STACK_SIZE, words::count(args))
    }
}

/// Writes the first words of the stack, the arguments and the canary.
fn put_words(
    alloc: Global,
    picture: &Picture,
    args: &[String],
    state: &mut Machine,
) -> Result<(), AllocError>
    requires start { IsStart (start_with args.now) }
    requires loaded { machine_of state.old ≡ record (blank (file_ground picture.now) (start_with args.now)) { memory = loaded_rows (file_ground picture.now) (start_with args.now) } }
    ensures { IfOk result (λ _. machine_of state.new ≡ record (blank (file_ground picture.now) (start_with args.now)) { memory = first_rows (file_ground picture.now) (start_with args.now) }) }
{
    let region = regions::count(picture);
    let stack = Place {
        region: region + 1,
        offset: stack_offset(picture, args),
    };
    let arguments = Place {
        region: region + 2,
        offset: 0,
    };
    let canary = Place {
        region: region + 3,
        offset: 0,
    };
    let first = words::stack_words(alloc, picture, args)?;
    cells::put(alloc, state, stack, &first)?;
    let row = words::arguments_row(alloc, picture, args)?;
    cells::put(alloc, state, arguments, &row)?;
    let bytes = [
        Cell::Num(0),
        Cell::Num(1),
        Cell::Num(2),
        Cell::Num(3),
        Cell::Num(4),
        Cell::Num(5),
        Cell::Num(6),
        Cell::Num(7),
    ];
    cells::put(alloc, state, canary, &bytes)?;
    Ok(())
}

/// Sets the registers of a program that starts itself, of which nothing is known but `%rsp`.
fn set_own(picture: &Picture, args: &[String], state: &mut Machine)
    requires start { IsStart (start_with args.now) }
    requires unknown { (machine_of state.old).registers ≡ replicate 16 (undefined_cells Q) }
    ensures { machine_of state.new ≡ record (machine_of state.old) { registers = own_registers (file_ground picture.now) (start_with args.now) } }
{
    let stack = regions::count(picture) + 1;
    let offset = first_offset(STACK_SIZE, words::count(args));
    state.set_reg(Reg::Rsp, Word::atom(Atom::Ptr(stack, offset)));
}

/// Sets the registers of a program that a C library calls: `%rsp`, the count of the words, the pointers to them, and the
/// environment, which is empty.
fn set_hosted(picture: &Picture, args: &[String], state: &mut Machine)
    requires start { IsStart (start_with args.now) }
    requires unknown { (machine_of state.old).registers ≡ replicate 16 (undefined_cells Q) }
    ensures { machine_of state.new ≡ record (machine_of state.old) { registers = hosted_registers (file_ground picture.now) (start_with args.now) } }
{
    let stack = regions::count(picture) + 1;
    let arguments = stack + 1;
    let count = words::count(args);
    state.set_reg(Reg::Rsp, Word::atom(Atom::Ptr(stack, STACK_SIZE - 8)));
    state.set_reg(Reg::Rdi, Word::num(Width::Q, count));
    state.set_reg(Reg::Rsi, Word::atom(Atom::Ptr(arguments, 0)));
    state.set_reg(Reg::Rdx, Word::atom(Atom::Ptr(arguments, 8 * (count + 1))));
}

/// Sets the registers, of which nothing is known yet.
fn set_registers(picture: &Picture, args: &[String], state: &mut Machine)
    requires start { IsStart (start_with args.now) }
    requires unknown { (machine_of state.old).registers ≡ replicate 16 (undefined_cells Q) }
    ensures { machine_of state.new ≡ record (machine_of state.old) { registers = first_registers (file_ground picture.now) (start_with args.now) } }
{
    if picture.funcs().hosted() {
        set_hosted(picture, args, state);
    } else {
        set_own(picture, args, state);
    }
}

/// The machine over words of a file, at the start of its program with these arguments.
///
/// The regions are those of the file, the counters, of which there are none, the stack of 1 MiB, the arguments and the canary.
/// Memory holds the first contents of the file's data, the first words, and the canary with the bytes 0 to 7; the first word is
/// `program`, the others are the arguments, and there is no environment. The point is the file's entry. A program that a C
/// library starts begins as `main` is called; another one begins at its entry, with its words on the stack (psABI, 3.4.1).
///
/// The time and the memory are near to linear in the size of the regions.
///
/// # Errors
///
/// Where there is not enough memory.
pub fn words_start(
    alloc: Global,
    picture: &Picture,
    args: &[String],
) -> Result<State<Symbols, FilePoint>, AllocError>
    requires { IsStart (start_with args.now) }
    ensures machine { IfOk result (λ state. machine_of state ≡ words_start (file_ground picture.now) (start_with args.now)) }
{
    let regions = regions::all(alloc, picture, args)?;
    let holes = regions::holes(alloc, picture)?;
    let entry = FilePoint::At(picture.funcs().entry());
    let mut state = State::new(alloc, Symbols::new(regions, holes), entry)?;
    sections::put(alloc, picture, &mut state)?;
    put_words(alloc, picture, args, &mut state)?;
    set_registers(picture, args, &mut state);
    Ok(state)
}
