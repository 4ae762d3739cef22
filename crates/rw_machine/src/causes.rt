//! The causes to stop, in their order.

ghost use Rattle.std.specs.Prelude.{◌≡◌};
ghost use Rattle.rw_machine.specs.Running as Runs;

use crate::running::Running;
use rw_domain::Cause;

/// The order of causes: an unknown flag, an address, an unknown number, an unknown byte, the target, the stack.
fn rank(cause: Cause) -> u8
    ensures { result ≡ Runs.rank cause }
{
    match cause {
        Cause::FlagUnknown => 0,
        Cause::AddressUnknown | Cause::AddressOutside | Cause::NotWritable => 1,
        Cause::NumberUnknown => 2,
        Cause::ByteUnknown => 3,
        Cause::TargetUnknown | Cause::TargetNoPoint => 4,
        Cause::StackLow | Cause::Import(_) => 5,
    }
}

/// Of two causes the first in their order, and of equal ones the earlier.
pub(crate) fn first_cause(old: Option<Cause>, new: Cause) -> Option<Cause>
    ensures { result ≡ Runs.first_cause old new }
{
    match old {
        Some(before) if rank(before) <= rank(new) => old,
        _ => Some(new),
    }
}

/// Keeps a cause to stop.
pub(crate) fn stop<V: Copy>(run: &mut Running<V>, cause: Cause)
    ensures { run.new ≡ record run.old { cause = Runs.first_cause run.old.cause cause } }
{
    run.cause = first_cause(run.cause, cause);
}
