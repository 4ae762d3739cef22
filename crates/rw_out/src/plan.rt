//! What is to be printed for a file.

ghost use Rattle.std.specs.Prelude.{◌≡◌, ◌<◌, All, IfNone, IfOk, IfSome, false, option_map, true};
ghost use Rattle.rw_base.specs.Answers.{Judges};
ghost use Rattle.rw_io.specs.Outside.{HasCause};
ghost use Rattle.rw_io.specs.WriteAll.{WritesAll};
ghost use Rattle.asm_print.specs.Text.{text_of};
ghost use Rattle.rw_data.specs.FirstFault.{first_fault};
ghost use Rattle.rw_probe.specs.Leaders.{is_leader, leaders_of};
ghost use Rattle.rw_out.specs.Items.{items_with};
ghost use Rattle.rw_out.specs.Kept.{forms_of, probes_in};
ghost use Rattle.rw_out.specs.Plan.{IsPlan, names_of, plan_items, plan_probes};
ghost use Rattle.rw_out.specs.Positions.{IsWeak};
ghost use Rattle.rw_out.specs.Probed.{AreProbes};
ghost use Rattle.rw_out.specs.Rewritten.{IsRewritten};
ghost use Rattle.rw_out.specs.Simulates.{Simulates};
ghost use Rattle.rw_out.specs.Writing.{WritesOn};

use crate::choosing::probe_bytes;
use crate::naming::{all_names, find_names, weak_names};
use crate::probes::Probes;
use crate::text::write_text;
use asm_items::Names;
use asm_print::Line;
use rw_base::Refusal;
use rw_data::Picture;
use rw_elf::NameAt;
use rw_io::{Sink, WriteFault};
use rw_probe::{Leaders, Mode, Probe};
use std::alloc::{AllocError, Global};
use std::marker::Model;

/// A file that has no fault, with what its text needs in a mode. A contract sees it as the file's bytes, the mode, and the
/// forms of the probes, one for each leader of the mode.
#[derive(Drop)]
pub struct Plan {
    /// The file, with all that is found in it.
    pub picture: Picture,
    /// The points that have a probe, by ascending address. A probe counts in the counter that has the number of its leader.
    pub leaders: Leaders,
    /// The probes, one byte for each leader: 0 is `Inc`, 1 is `Spill`, and 2 plus the register's code is `Dead`.
    pub probes: Vec<u8>,
    /// The names of its items, by first appearance.
    pub names: Names,
    /// Which points are leaders.
    pub mode: Mode,
    weak: Vec<NameAt>,
}

impl Model for Plan {
    ghost use Rattle.rw_out.specs.Kept.{forms_of};
    ghost use Rattle.rw_out.specs.Plan.{IsPlan, PlanOf};

    ghost Value = { PlanOf };

    ghost view = { λ p. record { file = p.picture; mode = p.mode; forms = forms_of p.probes.items } };

    ghost invariant = { λ p. IsPlan (record { file = p.picture; mode = p.mode; forms = forms_of p.probes.items }) p.leaders p.probes.items p.names p.weak.items };
}

impl Plan {
    /// Reads a file and makes its plan in a mode. What is live is found function by function, in those that have a leader.
    ///
    /// # Errors
    ///
    /// `Memory`, where there is not enough memory, or the first fault of the file.
    pub fn of(alloc: Global, bytes: Vec<u8>, mode: Mode) -> Result<Plan, Refusal>
        ensures judged { Judges result (first_fault bytes.items) }
        ensures file { IfOk result (λ plan. plan.file ≡ bytes.items) }
        ensures mode { IfOk result (λ plan. plan.mode ≡ mode) }
    {
        let picture = Picture::of(alloc, bytes)?;
        are_bytes(picture.elf().file());
        Ok(Plan::in_mode(alloc, picture, mode)?)
    }

    // The plan of a file that has no fault.
    fn in_mode(alloc: Global, picture: Picture, mode: Mode) -> Result<Plan, AllocError>
        requires { All (λ b. b < 256) picture }
        ensures file { IfOk result (λ plan. plan.file ≡ picture) }
        ensures mode { IfOk result (λ plan. plan.mode ≡ mode) }
    {
        let leaders = leaders_in(alloc, &picture, mode)?;
        let probes = probe_bytes(alloc, picture.funcs(), leaders.list())?;
        let listed = names_in(alloc, &picture, &Probes::new(&leaders, &probes))?;
        Ok(Plan::made(picture, leaders, probes, listed, mode))
    }

    // The plan of these parts.
    fn made(picture: Picture, leaders: Leaders, probes: Vec<u8>, listed: Listed, mode: Mode) -> Plan
        requires { IsPlan (record { file = picture; mode = mode; forms = forms_of probes.items }) leaders probes.items listed.names listed.weak.items }
        ensures { result ≡ record { file = picture; mode = mode; forms = forms_of probes.items } }
    {
        Plan {
            picture,
            leaders,
            probes,
            names: listed.names,
            mode,
            weak: listed.weak,
        }
    }

    /// The file, with all that is found in it.
    pub fn picture(&self) -> &Picture
        ensures { result.now ≡ self.now.file }
    {
        &self.picture
    }

    /// The points that have a probe.
    pub fn leaders(&self) -> &Leaders
        ensures list { result.now ≡ leaders_of self.now.file self.now.mode }
        ensures probes { AreProbes self.now.file self.now.mode self.now.forms }
    {
        self.are_probes();
        &self.leaders
    }

    /// The probe at an address; `None` exactly where it isn't that of a leader. The time is logarithmic in the number of
    /// leaders.
    pub fn probe_at(&self, c: u64) -> Option<Probe>
        ensures probe { result ≡ option_map (λ counted. counted.1) ((plan_probes self.now).at c) }
        ensures none { IfNone result (is_leader self.now.file self.now.mode c ≡ false) }
        ensures some { IfSome result (λ _. is_leader self.now.file self.now.mode c ≡ true) }
    {
        self.are_probes();
        let (_, probe) = self.probes().at(c)?;
        Some(probe)
    }

    // The probes at the leaders.
    fn probes(&self) -> Probes
        ensures { probes_in result ≡ plan_probes self.now }
    {
        Probes::new(&self.leaders, &self.probes)
    }

    // The file has no fault, and the probes are its own.
    fn are_probes(&self)
        ensures clean { first_fault self.now.file ≡ None }
        ensures probes { AreProbes self.now.file self.now.mode self.now.forms }
    {
        // (what is known of `self` shows where a field is read)
        let _picture = &self.picture;
    }

    // What the file does, its items do: the law of the simulation. They are the items of its text.
    fn is_simulated(&self)
        ensures simulates { Simulates self.now.file self.now.mode (plan_items self.now) }
        ensures rewritten { IsRewritten self.now.file self.now.mode (text_of (plan_items self.now)) }
    {
        // (what is known of `self` shows where a field is read)
        let _picture = &self.picture;
    }

    // Writes the text, and answers how many bytes it has.
    fn write_items<S: Sink>(&self, sink: &mut S) -> Result<usize, WriteFault>
        ensures bytes { WritesOn (S.held sink.old) (S.held sink.new) 0 result (text_of (plan_items self.now)) }
        ensures cause { HasCause (S.faults sink.old) (S.faults sink.new) result }
    {
        let probes = self.probes();
        write_text(
            &self.picture,
            &probes,
            &self.names,
            &self.weak,
            &mut Line::new(),
            sink,
        )
    }

    /// Writes the text of the file in the mode, one line by one `write_all` each. It takes no memory. A fault comes only where
    /// the sink's count of faults rose; the first `done` bytes of the text are then written.
    pub fn write<S: Sink>(&self, sink: &mut S) -> Result<(), WriteFault>
        ensures bytes { WritesAll (S.held sink.old) (S.held sink.new) result (text_of (plan_items self.now)) }
        ensures probes { AreProbes self.now.file self.now.mode self.now.forms }
        ensures simulates { Simulates self.now.file self.now.mode (plan_items self.now) }
        ensures rewritten { IsRewritten self.now.file self.now.mode (text_of (plan_items self.now)) }
        ensures cause { HasCause (S.faults sink.old) (S.faults sink.new) result }
    {
        self.are_probes();
        self.is_simulated();
        self.write_items(sink)?;
        Ok(())
    }
}

/// The names of the items, and the places of those of weak symbols.
#[derive(Drop)]
struct Listed {
    names: Names,
    weak: Vec<NameAt>,
}

fn names_in(alloc: Global, picture: &Picture, probes: &Probes) -> Result<Listed, AllocError>
    ensures names { IfOk result (λ listed. listed.names ≡ names_of (items_with picture.now (probes_in probes.now))) }
    ensures weak { IfOk result (λ listed. IsWeak picture.now (probes_in probes.now) listed.weak.items) }
{
    let found = find_names(alloc, picture, probes)?;
    let weak = weak_names(alloc, picture, &found.used)?;
    let names = all_names(alloc, picture, &weak, &found.all)?;
    Ok(Listed { names, weak })
}

// The leaders of a file.
fn leaders_in(alloc: Global, picture: &Picture, mode: Mode) -> Result<Leaders, AllocError>
    ensures { IfOk result (λ leaders. leaders ≡ leaders_of picture.now mode) }
{
    Leaders::of(
        alloc,
        picture.elf(),
        picture.relocs(),
        picture.funcs(),
        picture.tables(),
        mode,
    )
}

// The items of a slice of bytes are below 256.
fn are_bytes(bytes: &[u8])
    ensures { All (λ b. b < 256) bytes.now }
{}
