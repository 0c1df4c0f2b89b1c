ghost use Rattle.sequences.specs.Sequences.{earlier};
ghost use Rattle.sequences.specs.Ordering.{earlier_ranks};

use bag::ranked::Ranked;
use std::cmp::Reverse;

// The slots start, start + period, start + 2 * period and so on of a channel, which no page has.
#[derive(Clone, Copy, Debug, Default, PartialEq, Eq)]
pub struct FreeSequence {
    pub channel: u8,
    pub start: u32,
    pub period: u32,
}

impl Ranked for FreeSequence {
    ghost before = { earlier };

    ghost blank = { record { channel = 0; start = 0; period = 0 } };

    ghost ordered = { λ w. earlier_ranks w };

    fn comes_before(&self, other: &Self, window: u32) -> bool {
        let key = |s: &Self| {
            let rest = window.checked_rem(s.period).unwrap_or(window);
            (rest, Reverse(s.period), s.channel, s.start)
        };
        key(self) < key(other)
    }

    fn zero() -> Self {
        Self::default()
    }
}
