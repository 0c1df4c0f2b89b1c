// Feeding: a receiver that is tuned and given one line of pages a slot.
#![tactic(auto)]

ghost use Rattle.feeding.specs.Laws.{ToldByStock, WholeRoom, EnoughRoom, StocksAreArrivals, LessRoom, PeakIsTop};
ghost use Rattle.feeding.specs.Viewings.{Views};

use std::alloc::{AllocError, Global};
use view::follow;
use viewing::{Stop, Viewing};

mod phases;
mod view;
pub mod viewing;

// Tunes a receiver and feeds it lines, one a slot, until the film is whole, the lines end or a call is refused. Its promises
// beside the first are laws of every feeding in which no page starves. The memory for the viewing is taken before anything is fed.
#[tactic(auto, using(crate::proofs::Runs::told_by_stock, crate::proofs::Story::whole_room, crate::proofs::Story::enough_room, crate::proofs::Story::stocks_are_arrivals, crate::proofs::Story::peak_is_top))]
pub fn feed(
    heap: Global,
    delay: u16,
    pages: u16,
    capacity: u16,
    store: &mut [u8],
    lines: &[Vec<u16>],
) -> Result<Viewing, AllocError>
    ensures feeds { Views delay pages capacity store.old lines.now result store.new }
    ensures stock_decides { ToldByStock }
    ensures whole_room_is_enough { WholeRoom }
    ensures enough_room { EnoughRoom }
    ensures stocks_are_arrivals { StocksAreArrivals }
    ensures less_room_is_refused { LessRoom }
    ensures peak_is_top { PeakIsTop }
{
    let mut viewing = Viewing {
        shows: Vec::with_capacity(heap, lines.len())?,
        stocks: Vec::with_capacity(heap, lines.len())?,
        peak: 0,
        stop: Ok(Stop::LinesEnded),
    };
    viewing.stop = follow(delay, pages, capacity, store, lines, &mut viewing);
    Ok(viewing)
}
