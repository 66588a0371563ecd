// The call that tells a host program why the valve is open: crate `foldharbor_why_c` exports it.
#![tactic(auto)]

ghost use Rattle.std.specs.Prelude.{◌≡◌};
ghost use Rattle.why.specs.Why.{why_outcome};

use desk::Desk;
use why::Reasons;

pub fn foldharbor_why(desk: Desk, journal: &[u8]) -> Reasons
    ensures { result ≡ why_outcome desk journal.now }
{
    why::why(desk, journal)
}
