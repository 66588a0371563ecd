// What a yes or no weighs.
#![tactic(auto)]

ghost use Rattle.std.specs.Prelude.{◌≡◌, cond, ◌≤◌};

// w if on, else 0.
pub fn weight(on: bool, w: u8) -> u8
    ensures { (result ≡ cond on w 0) × (result ≤ w) }
{
    if on { w } else { 0 }
}
