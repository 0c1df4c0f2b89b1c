ghost use Rattle.std.specs.Prelude.{◌≡◌, ◌<◌, ◌≤◌, map, vec_len};
ghost use Rattle.planner.specs.Pagoda.{Deals, Laid, filled, laid};

use crate::subchannel::Subchannel;
use records::kinds::Channel;

pub mod calls;
mod deal;
mod progress;

// The most subchannels that a channel may have.
const MOST_SUBCHANNELS: usize = 32;

// A pagoda plan: each channel lends its slots to its subchannels in turn, and each subchannel carries some pages.
#[derive(Drop)]
pub struct Pagoda {
    delay: u16,
    pages: u16,
    period: u32,
    channels: Vec<Channel>,
    // Kept so: a plan means what was asked for, and each count is at hand as it was asked for; the lists alone do not say how many of their places are used.
    // for each channel a list that begins with its subchannels, with blank places after them
    // Kept so: lists of 32 places lie in one block, where each list of a length of its own would ask for memory.
    dealt: Vec<[Subchannel; MOST_SUBCHANNELS]>,
    ghost few: { vec_len channels ≤ 8 },
    ghost positive: { 0 < period },
    ghost deals: { Deals delay channels.items (vec_len channels) },
    ghost lists: { vec_len dealt ≡ vec_len channels },
    ghost laid: { dealt.items ≡ map filled (laid delay channels.items (vec_len channels)) },
    ghost begun: { Laid delay channels.items (vec_len channels) dealt.items },
}
