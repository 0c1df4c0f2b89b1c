ghost use Rattle.std.specs.Prelude.{◌≡◌, ◌+◌, ◌≤◌, List, ℕ, length, OnOk};
ghost use Rattle.feeding.specs.Phases.{HearsLine, ShowsLine, HearsAll, ShowsAll, HasRoom, GrowsBy};

use crate::viewing::{Stop, Viewing};
use receiver::refusal::Refusal;
use receiver::states::{Receiver, Showing, Waiting};

// Hears one line, and answers the stock in that slot.
fn hear_line(
    waiting: &mut Receiver<Waiting>,
    store: &mut [u8],
    line: &[u16],
) -> Result<u16, Refusal>
    ensures hears_and_weighs { HearsLine waiting.old.numbers store.old line.now result
        waiting.new.numbers store.new }
{
    let stock = waiting.stock(store, line)?;
    waiting.hear(store, line)?;
    Ok(stock)
}

// Shows one page, and answers it and the stock in that slot.
fn show_line(
    showing: &mut Receiver<Showing>,
    store: &mut [u8],
    line: &[u16],
) -> Result<(u16, u16), Refusal>
    ensures shows_and_weighs { ShowsLine showing.old.numbers store.old line.now result
        showing.new.numbers store.new }
{
    let stock = showing.stock(store, line)?;
    let page = showing.show(store, line)?;
    Ok((page, stock))
}

// Hears lines, no more than are left of the delay.
pub(crate) fn hear_all(
    waiting: &mut Receiver<Waiting>,
    store: &mut [u8],
    lines: &[Vec<u16>],
    viewing: &mut Viewing,
) -> Result<(), Refusal>
    requires early { waiting.old.numbers.heard + length lines.now ≤ waiting.old.numbers.delay }
    requires room { HasRoom viewing.old (length lines.now) }
    requires same_peak { viewing.old.peak ≡ waiting.old.numbers.peak }
    ensures told_so_far { (rest : List (List ℕ)) → HearsAll lines.now rest
        viewing.old waiting.old.numbers store.old result
        viewing.new waiting.new.numbers store.new }
    ensures each_heard { OnOk result
        ((waiting.new.numbers.heard ≡ waiting.old.numbers.heard + length lines.now)
        × (waiting.new.numbers.delay ≡ waiting.old.numbers.delay)) }
    ensures same_peak { viewing.new.peak ≡ waiting.new.numbers.peak }
    ensures room_used { GrowsBy (length lines.now) viewing.old viewing.new }
{
    for line in lines {
        viewing.grant(hear_line(waiting, store, line.as_slice())?);
    }
    Ok(())
}

// Shows pages, one a line, until the film is whole, the lines end or a call is refused.
pub(crate) fn show_all(
    showing: &mut Receiver<Showing>,
    store: &mut [u8],
    lines: &[Vec<u16>],
    viewing: &mut Viewing,
) -> Result<Stop, Refusal>
    requires room { HasRoom viewing.old (length lines.now) }
    requires same_peak { viewing.old.peak ≡ showing.old.numbers.peak }
    ensures all_told { ShowsAll lines.now
        viewing.old showing.old.numbers store.old result
        viewing.new store.new }
{
    for line in lines {
        let (page, stock) = show_line(showing, store, line.as_slice())?;
        viewing.shows.push_reserved(page);
        viewing.grant(stock);
        if page == showing.pages() {
            return Ok(Stop::FilmWhole);
        }
    }
    Ok(Stop::LinesEnded)
}
