// What the archive exports of crate `foldharbor_back`, in an object of its own: there the step back's loop is the one place that calls for a tick, which the
// compiler then takes into the loop.
#![tactic(auto)]

ghost use Rattle.std.specs.Prelude.{◌≡◌};
ghost use Rattle.desk.specs.Calls.{back_outcome};

use desk::{Desk, Outcome};

#[unsafe(no_mangle)]
pub extern "C" fn foldharbor_step_back(desk: Desk, k: u32, journal: &[u8]) -> Outcome
    ensures { result ≡ back_outcome desk k journal.now }
{
    foldharbor_back::foldharbor_step_back(desk, k, journal)
}
