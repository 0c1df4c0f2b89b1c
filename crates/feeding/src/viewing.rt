ghost use Rattle.std.specs.Prelude.{◌≡◌, ◌<◌, vec_len, vec_capacity};
ghost use Rattle.feeding.specs.Phases.{Grants};

use receiver::refusal::Refusal;

// How a feeding ended in which no call was refused.
#[derive(Clone, Copy, Debug, PartialEq, Eq)]
pub enum Stop {
    // There were no more lines.
    LinesEnded,
    // The last page of the film was shown.
    FilmWhole,
}

// What a feeding tells: the pages that were shown and the stock in each slot that was granted, both in order, the peak, and how
// it ended, or the refusal.
#[derive(Drop)]
pub struct Viewing {
    pub shows: Vec<u16>,
    pub stocks: Vec<u16>,
    pub peak: u16,
    pub stop: Result<Stop, Refusal>,
}

impl Viewing {
    // A slot was granted, with this stock.
    pub(crate) fn grant(&mut self, stock: u16)
        requires room { vec_len self.old.stocks < vec_capacity self.old.stocks }
        ensures one_more { Grants self.old stock self.new }
    {
        self.stocks.push_reserved(stock);
        self.peak = self.peak.max(stock);
    }
}
