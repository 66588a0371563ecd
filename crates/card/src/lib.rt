// The card: what the train is, as the school sets it.
#![tactic(auto)]

ghost use Rattle.std.specs.Prelude.{◌≡◌, ◌+◌, ◌≤◌, length};
ghost use Rattle.card.specs.Card.{CardRanges, card_in_range, card_width, card_at, put_card};
ghost use Rattle.card.specs.Laws.{card_laws};

use layout::u16_within;
use ranges::Ranged;
use reading::TOP_SPEED;

// Speeds in tenths of km/h, times in ticks of 0.1 s.
#[repr(C)]
#[derive(Clone, Copy, Default, PartialEq, Eq)]
pub struct Card {
    pub design: u16,
    pub set: u16,
    pub highest: u16,
    // ceilings of the modes POS and ZAV
    pub pos: u16,
    pub zav: u16,
    pub tolerance: u16,
    // the target under the code Stop
    pub stop: u16,
    // r, in tenths of km/h per second
    pub deceleration: u16,
    // the ordinary vigilance cycle
    pub cycle: u16,
    // the movement wait
    pub wait: u16,
}

// How many bytes a card takes.
pub const CARD_WIDTH: usize = 20;

// The two movement waits.
const SHORT_WAIT: u16 = 250;

pub const LONG_WAIT: u16 = 1000;

impl Ranged for Card {
    ghost ranges = { CardRanges };

    ghost test = { card_in_range };

    ghost laws = { card_laws };

    #[tactic(auto, unfolding(crate::specs::Card::card_in_range))]
    fn in_range(self) -> bool {
        (1 <= self.design)
            & (self.design <= TOP_SPEED)
            & (1 <= self.set)
            & (self.set <= TOP_SPEED)
            & (1 <= self.highest)
            & (self.highest <= TOP_SPEED)
            & (1 <= self.pos)
            & (self.pos <= TOP_SPEED)
            & (1 <= self.zav)
            & (self.zav <= TOP_SPEED)
            & (self.tolerance <= 100)
            & (self.stop <= 400)
            & (5 <= self.deceleration)
            & (self.deceleration <= 40)
            & (150 <= self.cycle)
            & (self.cycle <= 600)
            & ((self.wait == SHORT_WAIT) | (self.wait == LONG_WAIT))
    }
}

// The card in the 20 bytes from `at`.
#[tactic(auto, unfolding(crate::specs::Card::card_at))]
pub fn card_at(bytes: &[u8], at: usize) -> Card
    requires { at + card_width ≤ length bytes.now }
    ensures { result ≡ card_at bytes.now at }
{
    Card {
        design: u16_within(bytes, at),
        set: u16_within(bytes, at + 2),
        highest: u16_within(bytes, at + 4),
        pos: u16_within(bytes, at + 6),
        zav: u16_within(bytes, at + 8),
        tolerance: u16_within(bytes, at + 10),
        stop: u16_within(bytes, at + 12),
        deceleration: u16_within(bytes, at + 14),
        cycle: u16_within(bytes, at + 16),
        wait: u16_within(bytes, at + 18),
    }
}

// Writes the card's 20 bytes from `at`; where they do not fit, nothing.
pub fn put_card(bytes: &mut [u8], at: usize, card: Card)
    ensures { bytes.new ≡ put_card bytes.old at card }
{
    let fields = [
        card.design,
        card.set,
        card.highest,
        card.pos,
        card.zav,
        card.tolerance,
        card.stop,
        card.deceleration,
        card.cycle,
        card.wait,
    ];
    if layout::fits(bytes.len(), at, CARD_WIDTH) {
        layout::put_u16s(bytes, at, &fields);
    }
}
