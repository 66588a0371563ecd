// A drive script: the header that opens a desk, and the calls on it.
#![tactic(auto)]

ghost use Rattle.std.specs.Prelude.{◌≡◌, ◌+◌, ◌≤◌};
ghost use Rattle.script.specs.Sample.{u32_at, sample_at};
ghost use Rattle.script.specs.Call.{journal_length, open_reply, call_most, call_of, width, reply_of, journal_of, play_reply, play_journal};

use card::CARD_WIDTH;
use desk::{Desk, Outcome};
use layout::{byte_at, u16_at};
use reading::float_of_bits;
use record::Sample;
use why::Reasons;

// The card, and the journal's length as a u16.
pub const HEADER_WIDTH: usize = CARD_WIDTH + 2;

// How many bytes a sample takes.
const SAMPLE_WIDTH: usize = 13;

// The most bytes of a call: those of a tick.
pub const CALL_MOST: usize = 1 + SAMPLE_WIDTH;

// What can be asked of a desk.
#[derive(Clone, Copy)]
pub enum Call {
    Tick,
    StepBack,
    Restart,
    Why,
}

// What is wrong with a header or a call.
#[derive(Clone, Copy)]
pub enum BadScript {
    UnknownCall,
    CutShort,
}

// What a call comes to.
#[derive(Clone, Copy)]
pub enum Reply {
    // what is printed as a line
    Line(Outcome),
    // why the valve is open, printed as a line too; the desk is as it was
    Why(Reasons),
}

// The call that begins with a byte.
impl TryFrom<u8> for Call {
    type Error = BadScript;

    ghost try_from_gives = { λ byte result. result ≡ call_of byte };

    #[tactic(auto, unfolding(crate::specs::Call::call_of))]
    fn try_from(byte: u8) -> Result<Call, BadScript> {
        match byte {
            1 => Ok(Call::Tick),
            2 => Ok(Call::StepBack),
            3 => Ok(Call::Restart),
            4 => Ok(Call::Why),
            _ => Err(BadScript::UnknownCall),
        }
    }
}

impl Call {
    // How many bytes a call takes, the first among them.
    #[tactic(auto, unfolding(crate::specs::Call::width))]
    pub fn width(self) -> usize
        ensures { (result ≡ width self) × (1 ≤ result) × (result ≤ call_most) }
    {
        match self {
            Call::Tick => CALL_MOST,
            Call::StepBack => 1 + 2,
            Call::Restart => 1,
            Call::Why => 1,
        }
    }
}

// Not `from_le_bytes`: a place past the end holds 0.
fn u32_at(bytes: &[u8], at: usize, k: usize) -> u32
    requires { k ≤ 4 }
    ensures { result ≡ u32_at bytes.now (at + k) }
{
    let low = u16_at(bytes, at, k);
    let high = u16_at(bytes, at, k + 2);
    low as u32 + 65536 * (high as u32)
}

// The sample in the 13 bytes from `at`.
pub fn sample_at(bytes: &[u8], at: usize) -> Sample
    ensures { result ≡ sample_at bytes.now at }
{
    Sample {
        speed: float_of_bits(u32_at(bytes, at, 0)),
        pressure: float_of_bits(u32_at(bytes, at, 4)),
        code: byte_at(bytes, at, 8),
        mode: byte_at(bytes, at, 9),
        lever: byte_at(bytes, at, 10),
        flags: byte_at(bytes, at, 11),
        sense: byte_at(bytes, at, 12),
    }
}

#[tactic(auto, unfolding(crate::specs::Call::journal_length))]
pub fn journal_length(header: &[u8]) -> u16
    ensures { result ≡ journal_length header.now }
{
    u16_at(header, CARD_WIDTH, 0)
}

// Opens the desk of a header's card.
#[tactic(auto, unfolding(crate::specs::Call::open_reply))]
pub fn open(header: &[u8]) -> Result<Outcome, BadScript>
    ensures { result ≡ open_reply header.now }
{
    if header.len() < HEADER_WIDTH {
        return Err(BadScript::CutShort);
    }
    Ok(Desk::open(card::card_at(header, 0)))
}

// Plays a call that is known, and all there.
#[tactic(auto, unfolding(crate::specs::Call::reply_of, crate::specs::Call::journal_of))]
fn reply_of(kind: Call, desk: Desk, call: &[u8], journal: &mut [u8]) -> Reply
    ensures reply { result ≡ reply_of desk call.now journal.old kind }
    ensures journal { journal.new ≡ journal_of desk call.now journal.old kind }
{
    match kind {
        Call::Tick => Reply::Line(desk.tick(sample_at(call, 1), journal)),
        Call::StepBack => Reply::Line(desk.step_back(u16_at(call, 1, 0) as u32, journal)),
        Call::Restart => Reply::Line(desk.restart()),
        Call::Why => Reply::Why(why::why(desk, journal)),
    }
}

// Plays one call on the desk.
#[tactic(auto, unfolding(crate::specs::Call::play_reply, crate::specs::Call::play_journal))]
pub fn play(desk: Desk, call: &[u8], journal: &mut [u8]) -> Result<Reply, BadScript>
    ensures reply { result ≡ play_reply desk call.now journal.old }
    ensures journal { journal.new ≡ play_journal desk call.now journal.old }
{
    let kind = Call::try_from(byte_at(call, 0, 0))?;
    if call.len() < kind.width() {
        return Err(BadScript::CutShort);
    }
    Ok(reply_of(kind, desk, call, journal))
}
