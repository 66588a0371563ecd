// What the cab delivers: a sample, the record that a tick goes by, and its 8 bytes.
#![tactic(auto)]

ghost use Rattle.std.specs.Prelude.{◌≡◌, ◌+◌, ◌≤◌, length, IfOk, IfErr};
ghost use Rattle.record.specs.Modes.{pre_or_vyl};
ghost use Rattle.record.specs.Flags.{keys_of};
ghost use Rattle.refusal.specs.Number.{number, number_of};
ghost use Rattle.record.specs.Record.{RecordRanges, record_in_range, record_width, record_at, put_record};
ghost use Rattle.record.specs.Sample.{sample_refusal, sample_record};
ghost use Rattle.record.specs.Laws.{record_laws};

use ranges::{InRange, Ranged};
use reading::TOP_SPEED;
use refusal::Refusal;

// What the cab delivers at a tick: two floats and the switches.
#[repr(C)]
#[derive(Clone, Copy)]
pub struct Sample {
    // in m/s
    pub speed: f32,
    // in bar
    pub pressure: f32,
    pub code: u8,
    pub mode: u8,
    pub lever: u8,
    pub flags: u8,
    pub sense: u8,
}

// What a tick goes by, and what the journal keeps of it.
#[repr(C)]
#[derive(Clone, Copy, Default, PartialEq, Eq)]
pub struct Record {
    // in tenths of km/h
    pub v: u16,
    pub code: u8,
    // the mode that is asked for
    pub mode: u8,
    pub lever: u8,
    pub flags: u8,
    // of the pressure
    pub band: u8,
    // of motion
    pub sense: u8,
}

// The codes: bytes, since `Record`, `Sample` and `State`, which a C host hands over, may hold any byte in a code's place.
pub const NONE: u8 = 0;

pub const STOP: u8 = 1;

pub const WARNING: u8 = 2;

pub const FORTY: u8 = 3;

pub const CLEAR: u8 = 4;

// The modes: bytes for the same reason.
pub const POS: u8 = 1;

pub const PRE: u8 = 2;

pub const VYL: u8 = 3;

pub const ZAV: u8 = 4;

pub fn pre_or_vyl(mode: u8) -> bool
    ensures { result ≡ pre_or_vyl mode }
{
    (mode == PRE) | (mode == VYL)
}

// The last of the lever's places and of the senses of motion.
const REVERSE: u8 = 2;

// The weights of the flag bits: bytes for the same reason.
pub const VIGILANCE: u8 = 1;

pub const PLUS: u8 = 2;

pub const MAN: u8 = 4;

pub const BRAKE: u8 = 8;

pub const REMOTE: u8 = 16;

pub const LOSS: u8 = 32;

pub const CAB: u8 = 64;

const ALL_FLAGS: u8 = VIGILANCE + PLUS + MAN + BRAKE + REMOTE + LOSS + CAB;

// What the driver and the cab do at a tick: the presses of the three buttons, then the switches.
#[derive(Clone, Copy)]
pub struct Keys {
    pub vigilance: bool,
    pub plus: bool,
    pub man: bool,
    // the direct brake
    pub brake: bool,
    // remote stop
    pub remote: bool,
    // adhesion loss
    pub loss: bool,
    pub cab: bool,
}

// `buttons` are those of the tick before.
#[tactic(auto, unfolding(crate::specs::Flags::keys_of, crate::specs::Flags::pressed))]
pub fn keys_of(flags: u8, buttons: u8) -> Keys
    ensures { result ≡ keys_of flags buttons }
{
    Keys {
        vigilance: (flags / VIGILANCE % 2 == 1) & !(buttons / VIGILANCE % 2 == 1),
        plus: (flags / PLUS % 2 == 1) & !(buttons / PLUS % 2 == 1),
        man: (flags / MAN % 2 == 1) & !(buttons / MAN % 2 == 1),
        brake: flags / BRAKE % 2 == 1,
        remote: flags / REMOTE % 2 == 1,
        loss: flags / LOSS % 2 == 1,
        cab: flags / CAB % 2 == 1,
    }
}

// The highest band.
pub const TOP_BAND: u8 = 2;

impl Ranged for Record {
    ghost ranges = { RecordRanges };

    ghost test = { record_in_range };

    ghost laws = { record_laws };

    #[tactic(auto, unfolding(crate::specs::Record::record_in_range))]
    fn in_range(self) -> bool {
        (self.v <= TOP_SPEED)
            & (self.code <= CLEAR)
            & (POS <= self.mode)
            & (self.mode <= ZAV)
            & (self.lever <= REVERSE)
            & (self.flags <= ALL_FLAGS)
            & (self.band <= TOP_BAND)
            & (self.sense <= REVERSE)
    }
}

// A sample that is refused: its record, in which a refused float reads 0, and the first of its refusals. The record stands first, where it lies in a sample
// that is taken too: with the refusal first a tick misses the goal of docs/TIMES.md.
#[derive(Clone, Copy)]
pub struct BadSample {
    pub reading: Record,
    pub refusal: Refusal,
}

impl From<BadSample> for Refusal {
    ghost from_gives = { λ bad refusal. refusal ≡ bad.refusal };

    fn from(bad: BadSample) -> Refusal {
        bad.refusal
    }
}

// The record of any sample.
#[tactic(auto, using(refusal::proofs::Number::or_none), unfolding(crate::specs::Sample::sample_record))]
fn record_of(sample: Sample) -> Record
    ensures { result ≡ sample_record sample }
{
    Record {
        v: reading::speed_of(sample.speed).unwrap_or(0),
        code: sample.code,
        mode: sample.mode,
        lever: sample.lever,
        flags: sample.flags,
        band: reading::pressure_of(sample.pressure).unwrap_or(0),
        sense: sample.sense,
    }
}

// The record of a sample, or the first of its refusals: speed, pressure, another field.
#[tactic(auto, unfolding(crate::specs::Sample::sample_refusal, crate::specs::Sample::sample_record))]
fn fit_sample(sample: Sample) -> Result<InRange<Record>, Refusal>
    ensures refusal { number_of result ≡ sample_refusal sample }
    ensures reading { IfOk result (λ reading. reading.it ≡ sample_record sample) }
{
    let v = reading::speed_of(sample.speed)?;
    let band = reading::pressure_of(sample.pressure)?;
    let reading = Record {
        v,
        code: sample.code,
        mode: sample.mode,
        lever: sample.lever,
        flags: sample.flags,
        band,
        sense: sample.sense,
    };
    InRange::of(reading).ok_or(Refusal::BadField)
}

// The same, where a refused sample comes with its record too. Not one function: with the record made before it is judged a tick misses that goal.
#[tactic(auto, unfolding(refusal::specs::Number::number_of))]
pub fn take_sample(sample: Sample) -> Result<InRange<Record>, BadSample>
    ensures taken { IfOk result (λ reading. (reading.it ≡ sample_record sample) × (sample_refusal sample ≡ 0)) }
    ensures refused { IfErr result (λ bad. (bad.reading ≡ sample_record sample) × (number bad.refusal ≡ sample_refusal sample)) }
{
    match fit_sample(sample) {
        Ok(reading) => Ok(reading),
        Err(refusal) => Err(BadSample {
            reading: record_of(sample),
            refusal,
        }),
    }
}

// The most ticks of a drive: twelve minutes.
pub const MOST_TICKS: u16 = 7200;

// How many bytes a record takes.
pub const RECORD_WIDTH: usize = 8;

// The record in the 8 bytes from `at`.
#[tactic(auto, unfolding(crate::specs::Record::record_at))]
pub fn record_at(bytes: &[u8], at: usize) -> Record
    requires { at + record_width ≤ length bytes.now }
    ensures { result ≡ record_at bytes.now at }
{
    Record {
        v: layout::u16_within(bytes, at),
        code: bytes[at + 2],
        mode: bytes[at + 3],
        lever: bytes[at + 4],
        flags: bytes[at + 5],
        band: bytes[at + 6],
        sense: bytes[at + 7],
    }
}

// Writes the record's 8 bytes from `at`; where they do not fit, nothing.
#[tactic(auto, unfolding(crate::specs::Record::put_record))]
pub fn put_record(bytes: &mut [u8], at: usize, reading: Record)
    ensures { bytes.new ≡ put_record bytes.old at reading }
{
    let [low, high] = reading.v.to_le_bytes();
    layout::put_if_fits(
        bytes,
        at,
        [
            low,
            high,
            reading.code,
            reading.mode,
            reading.lever,
            reading.flags,
            reading.band,
            reading.sense,
        ],
    );
}
