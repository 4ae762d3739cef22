ghost use Rattle.std.specs.Prelude.{◌≡◌};
ghost use Rattle.rw_machine.specs.Conditions;

use rw_domain::{Flags, Tri};
use x86_insn::Cond;

/// Whether a condition holds; `None` where a flag that it names isn't known.
pub fn holds(cond: Cond, flags: Flags) -> Option<bool>
    ensures { result ≡ Conditions.holds cond flags }
{
    match cond {
        Cond::O => known(flags.of),
        Cond::No => opposite(known(flags.of)),
        Cond::B => known(flags.cf),
        Cond::Ae => opposite(known(flags.cf)),
        Cond::E => known(flags.zf),
        Cond::Ne => opposite(known(flags.zf)),
        Cond::Be => either(known(flags.cf), known(flags.zf)),
        Cond::A => opposite(either(known(flags.cf), known(flags.zf))),
        Cond::S => known(flags.sf),
        Cond::Ns => opposite(known(flags.sf)),
        Cond::P => known(flags.pf),
        Cond::Np => opposite(known(flags.pf)),
        Cond::L => less(flags),
        Cond::Ge => opposite(less(flags)),
        Cond::Le => either(known(flags.zf), less(flags)),
        Cond::G => opposite(either(known(flags.zf), less(flags))),
    }
}

fn less(flags: Flags) -> Option<bool>
    ensures { result ≡ Conditions.differ (Conditions.known_value flags.sf) (Conditions.known_value flags.of) }
{
    differ(known(flags.sf), known(flags.of))
}

fn known(flag: Tri) -> Option<bool>
    ensures { result ≡ Conditions.known_value flag }
{
    match flag {
        Tri::Yes => Some(true),
        Tri::No => Some(false),
        Tri::Unknown => None,
    }
}

fn opposite(a: Option<bool>) -> Option<bool>
    ensures { result ≡ Conditions.opposite a }
{
    Some(!a?)
}

/// One of two holds, where both are known.
fn either(a: Option<bool>, b: Option<bool>) -> Option<bool>
    ensures { result ≡ Conditions.either a b }
{
    Some(a? | b?)
}

/// Two differ, where both are known.
fn differ(a: Option<bool>, b: Option<bool>) -> Option<bool>
    ensures { result ≡ Conditions.differ a b }
{
    Some(a? != b?)
}
