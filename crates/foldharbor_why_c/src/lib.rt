// What the archive exports of crate `foldharbor_why`, in an object of its own, as the step back is.
#![tactic(auto)]

ghost use Rattle.std.specs.Prelude.{◌≡◌};
ghost use Rattle.why.specs.Why.{why_outcome};

use desk::Desk;
use why::Reasons;

#[unsafe(no_mangle)]
pub extern "C" fn foldharbor_why(desk: Desk, journal: &[u8]) -> Reasons
    ensures { result ≡ why_outcome desk journal.now }
{
    foldharbor_why::foldharbor_why(desk, journal)
}
