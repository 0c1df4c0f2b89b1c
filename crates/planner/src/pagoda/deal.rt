ghost use Rattle.std.specs.Prelude.{◌≡◌, ◌≤◌, IfErr, drop, length};
ghost use Rattle.planner.specs.Dealing.{AllDealt, ChannelDealt, StoppedAt};
ghost use Rattle.planner.specs.Pagoda.{Takes};

use super::MOST_SUBCHANNELS;
use super::progress::Progress;
use crate::subchannel::Subchannel;
use plans::period::joined;
use plans::refusal::Refusal;
use records::kinds::Channel;
use std::alloc::Global;

// The most pages that a film may have.
const MOST_PAGES: u16 = 1024;

impl Progress {
    // Deals pages to the subchannels of the next channel, which its list then begins with, or refuses where they pass 1,024.
    fn deal_channel(
        self,
        list: &mut [Subchannel; MOST_SUBCHANNELS],
        subchannels: u8,
    ) -> Result<Progress, Refusal>
        requires takes { Takes self.delay subchannels self.first }
        ensures dealt { ChannelDealt self.delay subchannels self.first self.period list.new result }
        ensures stopped_at { IfErr result (λ _. StoppedAt self.delay subchannels self.first list.old list.new) }
        ensures rest_kept { drop subchannels list.new ≡ drop subchannels list.old }
    {
        let mut next = self;
        for turn in 0..subchannels {
            let first = next.first;
            let pages = next.pages_next(subchannels);
            if first + pages > MOST_PAGES + 1 {
                return Err(Refusal::TooManyPages);
            }
            list[usize::from(turn)] = Subchannel { first, pages };
            next = Progress {
                delay: self.delay,
                first: first + pages,
                period: joined(next.period, u32::from(subchannels) * u32::from(pages)),
            };
        }
        Ok(next)
    }
}

// Deals pages to all channels, in order, or refuses at the first that gets none.
pub(super) fn deal(
    heap: Global,
    delay: u16,
    channels: &[Channel],
) -> Result<(Vec<[Subchannel; MOST_SUBCHANNELS]>, Progress), Refusal>
    requires in_range { (1 ≤ delay) × (delay ≤ 1024) × (length channels.now ≤ 8) }
    ensures all_dealt { AllDealt delay channels.now result }
{
    let mut all = Vec::with_capacity(heap, channels.len())?;
    let mut progress = Progress {
        delay,
        first: 1,
        period: Some(1),
    };
    let blank = Subchannel { first: 0, pages: 0 };
    for channel in channels {
        let subchannels = channel.subchannels;
        if !progress.takes(subchannels) {
            return Err(Refusal::WrongSubchannels);
        }
        let index = all.len();
        all.push_reserved([blank; MOST_SUBCHANNELS]);
        progress = progress.deal_channel(&mut all[index], subchannels)?;
    }
    Ok((all, progress))
}
