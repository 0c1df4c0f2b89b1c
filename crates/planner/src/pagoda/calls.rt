ghost use Rattle.std.specs.Prelude.{◌≡◌, ◌+◌, ◌<◌, ◌≤◌, vec_len, MatchBool};
ghost use Rattle.planner.specs.Pagoda.{Askable, count_at, pagoda, pagoda_lawful};
ghost use Rattle.planner.specs.PagodaAnswers.{Own, PagodaAnswer, PagodaSound};

use super::Pagoda;
use super::deal::deal;
use crate::subchannel::Subchannel;
use plans::refusal::Refusal;
use records::kinds::Channel;
use std::alloc::Global;
use timetable::interface::Timetable;
use timetable::turns::turn_in;

// Whether a plan may be asked for with a delay and so many channels.
fn askable(delay: u16, channels: &[Channel]) -> bool
    ensures decides { MatchBool result (Askable delay channels.now) (Askable delay channels.now → ⊥) }
{
    (1..=1024).contains(&delay) && (1..=8).contains(&channels.len())
}

impl Pagoda {
    // The plan for a delay of 1 to 1,024 slots and the subchannels of each of 1 to 8 channels.
    pub fn plan(heap: Global, delay: u16, channels: &[Channel]) -> Result<Pagoda, Refusal>
        ensures plan_or_refusal { PagodaAnswer delay channels.now result }
        ensures starves_nobody { PagodaSound result }
    {
        if !askable(delay, channels) {
            return Err(Refusal::OutOfRange);
        }
        let (dealt, last) = deal(heap, delay, channels)?;
        let period = last.period.ok_or(Refusal::PeriodTooLong)?;
        let channels = Vec::from_slice(heap, channels)?;
        Ok(Pagoda {
            delay,
            pages: last.first - 1,
            period,
            channels,
            dealt,
        })
    }

    // The slots from the tune-in to the film's start.
    pub fn delay(&self) -> u16
        ensures own_delay { result ≡ self.now.delay }
    {
        self.delay
    }

    // The pages of the film.
    pub fn pages(&self) -> u16
        ensures own_pages { result ≡ self.now.pages }
    {
        self.pages
    }

    // How many subchannels a channel has, counted from 0.
    fn count(&self, index: usize) -> u32
        requires within { index < vec_len self.now.channels }
        ensures counted { result ≡ count_at self.now.channels.items index }
        ensures some { (1 ≤ result) × (result ≤ 32) }
    {
        u32::from(self.channels[index].subchannels)
    }

    // A subchannel, counted from 0, of a channel.
    fn subchannel(&self, index: usize, turn: u32) -> Subchannel
        requires within { index < vec_len self.now.channels }
        requires turn { turn < count_at self.now.channels.items index }
        ensures own { Own self.now index turn result }
        ensures small { (1 ≤ result.pages) × (result.first + result.pages ≤ 1025) }
    {
        self.dealt[index][turn as usize]
    }
}

impl Timetable for Pagoda {
    ghost meaning = { λ plan. pagoda plan.delay plan.channels.items plan.period };

    ghost lawful = { λ plan. pagoda_lawful plan.delay plan.channels.items plan.period };

    fn channels(&self) -> u8 {
        self.channels.len() as u8
    }

    fn period(&self) -> u32 {
        self.period
    }

    fn page_at(&self, channel: u8, slot: u32) -> u16 {
        let Some(place) = turn_in(self.channels(), self.period, channel, slot) else {
            return 0;
        };
        let index = usize::from(channel) - 1;
        let subchannels = self.count(index);
        let own = self.subchannel(index, place % subchannels);
        own.first + (place / subchannels % u32::from(own.pages)) as u16
    }
}
