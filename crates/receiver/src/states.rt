ghost use Rattle.std.specs.Prelude.{◌≡◌};
ghost use Rattle.receiver.specs.Calls.{weigh, finish};
ghost use Rattle.receiver.specs.Promises.{Weighs};

use crate::numbers::Numbers;
use crate::refusal::Refusal;
use crate::stock;

mod shows;
mod waits;

// The state of a receiver that hears the slots before its film.
#[derive(Clone, Copy)]
pub struct Waiting;

// The state of a receiver that shows its film.
#[derive(Clone, Copy)]
pub struct Showing;

// A receiver in the state S. Only one that waits hears, and only one that shows its film shows pages.
#[derive(Drop)]
pub struct Receiver<S> {
    numbers: Numbers,
    state: S,
}

impl<S: Drop> Receiver<S> {
    // The pages of its film.
    pub fn pages(&self) -> u16
        ensures of_film { result ≡ self.now.numbers.pages }
    {
        self.numbers.pages
    }

    // The stock that a slot with these pages would make.
    pub fn stock(&self, store: &[u8], pages: &[u16]) -> Result<u16, Refusal>
        ensures weighs_or_refuses { Weighs
            (weigh self.now.numbers.pages store.now pages.now) result }
    {
        stock::stock(store, self.numbers.pages, pages)
    }

    // Ends the receiver: the pages that it showed, which are none while it waits, and its peak.
    pub fn finish(self) -> (u16, u16)
        ensures shown_and_peak { result ≡ finish self.numbers }
    {
        (self.numbers.shown, self.numbers.peak)
    }
}
