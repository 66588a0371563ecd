// What the two floats of a cab sample say, exactly: each is read by comparison and by its bits, and never by float arithmetic.
#![tactic(auto)]

ghost use Rattle.std.specs.Prelude.{◌≡◌, ◌≤◌};
ghost use Rattle.reading.specs.Bits.{float_of_bits};
ghost use Rattle.reading.specs.Speed.{top_speed, speed_of};
ghost use Rattle.reading.specs.Pressure.{pressure_of};

use refusal::Refusal;

// An f32 is 23 bits of digits, 8 of exponent and one of sign.
// 2^23: where the exponent begins, and the weight of the leading digit, which has no bit
const LEADING: u32 = 8388608;
// 2^31: the weight of the sign
const SIGN: u32 = 2147483648;
// the pattern of infinity: those above it, the sign aside, are the NaNs
const INFINITY: u32 = 2139095040;

// The f32 of a bit pattern, a NaN's too.
#[tactic(auto, using(crate::proofs::Patterns::nan_made_at, crate::proofs::Patterns::no_nan_at))]
pub fn float_of_bits(bits: u32) -> f32
    ensures { result ≡ float_of_bits bits }
{
    // `from_bits` is undefined at a NaN's pattern, and no literal is a NaN: a division makes one
    if bits % SIGN > INFINITY {
        return 0.0 / 0.0;
    }
    f32::from_bits(bits)
}

// The greatest v: 250 km/h.
pub const TOP_SPEED: u16 = 2500;

// A speed that a train can have.
#[derive(Clone, Copy)]
pub struct Speed {
    // of km/h
    pub tenths: u16,
    pub ghost in_range: { tenths ≤ top_speed },
}

// v of x m/s: 36x rounded to the nearest whole number, a half up.
pub fn speed_of(x: f32) -> Result<u16, Refusal>
    ensures { result ≡ speed_of x }
{
    // a NaN fails this test, and minus zero passes it
    if x >= 0.0 {
        let bits: u32 = f32::to_bits(x);
        let exponent: u32 = bits % SIGN / LEADING;
        // below 1/128 m/s: 36x + 1/2 is below 1
        if exponent < 120 {
            return Ok(0);
        }
        // 128 m/s and above, infinity too: v would be above 4600
        if exponent > 133 {
            return Err(Refusal::BadSpeed);
        }
        // x is digits / 2^(150 - exponent)
        let digits: u32 = LEADING + bits % LEADING;
        // the floor of 72x; half of one more, cut again, is the floor of 36x + 1/2
        let twice: u32 = (72 * digits) >> (150 - exponent);
        let v: u32 = (twice + 1) / 2;
        if v <= TOP_SPEED as u32 {
            return Ok(v as u16);
        }
    }
    Err(Refusal::BadSpeed)
}

// The band of x bar.
pub fn pressure_of(x: f32) -> Result<u8, Refusal>
    ensures { result ≡ pressure_of x }
{
    // a NaN fails this test, and minus zero passes it
    if x >= 0.0 {
        if x <= 10.0 {
            if x < 3.5 {
                return Ok(0);
            }
            if x < 4.5 {
                return Ok(1);
            }
            return Ok(2);
        }
    }
    Err(Refusal::BadPressure)
}
