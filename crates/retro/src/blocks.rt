//! The list of the leaders of a file.

ghost use Rattle.std.specs.Prelude.{◌≡◌, ◌≤◌, length, None};
ghost use Rattle.rw_data.specs.FirstFault.{first_fault};
ghost use Rattle.rw_io.specs.Outside.{HasCause};
ghost use Rattle.rw_io.specs.WriteAll.{WritesAll};
ghost use Rattle.rw_probe.specs.Leaders.{leaders_of};
ghost use Rattle.asm_print.specs.Line.{Appends};
ghost use Rattle.rw_out.specs.Probed.{AreProbes};
ghost use Rattle.retro.specs.Blocks.{function_name, leader_line, lines_from, probe_word};
ghost use Rattle.retro.specs.Listing.{Lists};

use asm_print::Line;
use asm_print::words::low_name;
use rw_base::Width;
use rw_data::Picture;
use rw_io::{Failed, Sink, WriteFault, write_all};
use rw_out::Plan;
use rw_probe::Probe;

/// The word of a probe.
#[tactic(auto, unfolding(crate::specs::Blocks::probe_word))]
fn word_of(probe: Probe) -> &'static str
    ensures { result.now ≡ probe_word probe }
{
    match probe {
        Probe::Inc => "inc",
        Probe::Dead(r) => low_name(Width::Q, r),
        Probe::Spill => "spill",
    }
}

/// The name of the function whose range has an address.
#[tactic(auto, unfolding(crate::specs::Blocks::function_name))]
fn function_name(picture: &Picture, address: u64) -> &[u8]
    ensures name { result.now ≡ function_name picture.now address }
    ensures clean { first_fault picture.now ≡ None }
{
    let functions = picture.funcs();
    match functions.function_of(address) {
        Some(number) => picture
            .elf()
            .name_of(functions.list()[number as usize].name),
        None => &[],
    }
}

/// Puts the line of a leader: its number, its address, the name of its function and its probe.
#[tactic(auto, using(crate::proofs::Pieces::pieces), unfolding(crate::specs::Blocks::leader_line))]
fn put_leader(line: &mut Line, number: u64, address: u64, name: &[u8], probe: Probe)
    ensures { Appends line.old.bytes.items (leader_line number address name.now probe) line.new.bytes.items }
{
    line.put_decimal(number);
    line.put_str("\t");
    line.put_hex(address);
    line.put_str("\t");
    line.put(name);
    line.put_str("\t");
    line.put_str(word_of(probe));
    line.put_str("\n");
}

/// Writes the line of a leader by one `write_all`.
fn write_leader<O: Sink>(
    number: u64,
    address: u64,
    name: &[u8],
    probe: Probe,
    out: &mut O,
) -> Result<(), WriteFault>
    requires { length name.now ≤ 4096 }
    ensures bytes { WritesAll (O.held out.old) (O.held out.new) result (leader_line number address name.now probe) }
    ensures cause { HasCause (O.faults out.old) (O.faults out.new) result }
{
    let mut line = Line::new();
    put_leader(&mut line, number, address, name, probe);
    write_all(out, &line.bytes)
}

/// Writes the lines of the leaders of a plan, by one `write_all` each. It takes no memory.
pub fn write_leaders<O: Sink>(plan: &Plan, out: &mut O) -> Result<(), Failed>
    ensures lines { Lists (O.held out.old) (O.held out.new) result (lines_from plan.now.file 0 (leaders_of plan.now.file plan.now.mode) plan.now.forms) }
    ensures probes { AreProbes plan.now.file plan.now.mode plan.now.forms }
    ensures cause { HasCause (O.faults out.old) (O.faults out.new) result }
{
    let picture = plan.picture();
    for (number, address) in plan.leaders().list().iter().enumerate() {
        if let Some(probe) = plan.probe_at(*address) {
            let name = function_name(picture, *address);
            match write_leader(number as u64, *address, name, probe, out) {
                Ok(()) => {}
                Err(_) => return Err(Failed),
            }
        }
    }
    Ok(())
}
