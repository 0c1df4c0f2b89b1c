ghost use Rattle.receiver.specs.Calls.{show};
ghost use Rattle.receiver.specs.Promises.{Shows};

use super::{Receiver, Showing};
use crate::refusal::Refusal;
use crate::slot::{HELD, SHOWN};

impl Receiver<Showing> {
    // One slot of the film: the next page is shown, and the pages that the receiver wants are held.
    pub fn show(&mut self, store: &mut [u8], pages: &[u16]) -> Result<u16, Refusal>
        ensures shows_or_refuses { Shows
            (show self.old.numbers store.old pages.now)
            self.old.numbers store.old result self.new.numbers store.new }
    {
        let shown = self.numbers.shown;
        let (film, _) = store
            .split_at_mut_checked(usize::from(self.numbers.pages))
            .ok_or(Refusal::OutOfRange)?;
        let mark = *film.get(usize::from(shown)).ok_or(Refusal::AllShown)?;
        if mark != HELD {
            return Err(Refusal::NotHeld(shown + 1));
        }
        self.numbers.take_in(film, pages)?;
        film[usize::from(shown)] = SHOWN;
        self.numbers.shown = shown + 1;
        Ok(shown + 1)
    }
}
