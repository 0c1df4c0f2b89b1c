ghost use Rattle.std.specs.Prelude.{◌≡◌, ◌^◌, ◌≤◌};
ghost use Rattle.fast.specs.Fast.{fast, fast_delay, fast_pages, fast_lawful};
ghost use Rattle.fast.specs.FastAnswers.{FastAnswer, FastSound};

use super::Fast;
use plans::refusal::Refusal;
use timetable::interface::Timetable;

// 2 to the power of a number that is at most 8.
fn doubled(times: u8) -> u32
    requires { times ≤ 8 }
    ensures power { result ≡ 2 ^ times }
    ensures small { (1 ≤ result) × (result ≤ 256) }
{
    1 << times
}

impl Fast {
    // The plan on 1 to 8 channels.
    pub fn plan(channels: u8) -> Result<Fast, Refusal>
        ensures plan_or_out_of_range { FastAnswer channels result }
        ensures starves_nobody { FastSound result }
    {
        if !(1..=8).contains(&channels) {
            return Err(Refusal::OutOfRange);
        }
        Ok(Fast { channels })
    }

    // The slots from the tune-in to the film's start.
    pub fn delay(&self) -> u16
        ensures fast_delay { result ≡ fast_delay }
    {
        1
    }

    // The pages of the film.
    pub fn pages(&self) -> u16
        ensures fast_pages { result ≡ fast_pages self.now.channels }
    {
        (doubled(self.channels) - 1) as u16
    }
}

impl Timetable for Fast {
    ghost meaning = { λ plan. fast plan.channels };

    ghost lawful = { λ plan. fast_lawful plan.channels };

    fn channels(&self) -> u8 {
        self.channels
    }

    fn period(&self) -> u32 {
        doubled(self.channels - 1)
    }

    fn page_at(&self, channel: u8, slot: u32) -> u16 {
        if !(1..=self.channels).contains(&channel) {
            return 0;
        }
        let first = doubled(channel - 1);
        (first + slot % first) as u16
    }
}
