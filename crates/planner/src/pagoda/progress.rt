ghost use Rattle.std.specs.Prelude.{◌≡◌, ◌≤◌, MatchBool};
ghost use Rattle.planner.specs.Pagoda.{Takes, share};

// What is left to deal from at a delay, and the period that the subchannels have together so far, unless it is too long.
#[derive(Clone, Copy)]
pub struct Progress {
    pub delay: u16,
    pub first: u16,
    pub period: Option<u32>,
    ghost in_range: { (1 ≤ first) × (first ≤ 1025) × (delay ≤ 1024) },
}

impl Progress {
    // How many pages the next subchannel gets, where its channel has so many.
    pub(super) fn pages_next(self, subchannels: u8) -> u16
        requires some { 1 ≤ subchannels }
        ensures share_of_window { result ≡ share self.delay subchannels self.first }
        ensures small { result ≤ 2048 }
    {
        (self.delay + self.first - 1) / u16::from(subchannels)
    }

    // Whether the next channel may have so many subchannels.
    pub(super) fn takes(self, subchannels: u8) -> bool
        ensures decides { MatchBool result (Takes self.delay subchannels self.first) (Takes self.delay subchannels self.first → ⊥) }
    {
        (1..=32).contains(&subchannels) && u16::from(subchannels) <= self.delay + self.first - 1
    }
}
