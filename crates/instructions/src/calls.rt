//! Calls of the monitor, and codes that are not installed: one line each, which names the stop, over what they share.

ghost use Rattle.instructions.specs.Calls.{monitor_call_of, not_installed_of, stopped};
ghost use Rattle.instructions.specs.Narrow.{NarrowEffect};
ghost use Rattle.std.specs.Prelude.{◌≡◌};

use crate::results::wordless;
use operations::{Effect, Inputs, Status};
use stops::Stop;

/// No word changes, and the run stops.
fn stopped(why: Stop, status: Status) -> Effect
    ensures value { result ≡ stopped why status }
    ensures narrow { NarrowEffect result }
{
    Effect {
        stop: Some(why),
        ..wordless(status)
    }
}

/// A call that the monitor is to answer.
pub(crate) fn monitor_call(given: Inputs) -> Effect
    ensures value { result ≡ monitor_call_of given }
    ensures narrow { NarrowEffect result }
{
    stopped(Stop::MonitorCall(given.call), given.status)
}

/// A code that is not installed.
pub(crate) fn not_installed(given: Inputs) -> Effect
    ensures value { result ≡ not_installed_of given }
    ensures narrow { NarrowEffect result }
{
    stopped(Stop::NotInstalled(given.call), given.status)
}
