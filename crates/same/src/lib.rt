// Whether two desks are the same, in every field.
#![tactic(auto)]

ghost use Rattle.std.specs.Prelude.{◌≡◌, true, ◌↔◌};

use desk::Desk;

pub fn same_desk(a: Desk, b: Desk) -> bool
    ensures { (result ≡ true) ↔ (a ≡ b) }
{
    a == b
}
