// The step back that a host program links: crate `foldharbor_back_c` exports it.
#![tactic(auto)]

ghost use Rattle.std.specs.Prelude.{◌≡◌};
ghost use Rattle.desk.specs.Calls.{back_outcome};

use desk::{Desk, Outcome};

pub fn foldharbor_step_back(desk: Desk, k: u32, journal: &[u8]) -> Outcome
    ensures { result ≡ back_outcome desk k journal.now }
{
    desk.step_back(k, journal)
}
