ghost use Rattle.receiver.specs.Calls.{tune, hear, start};
ghost use Rattle.receiver.specs.Promises.{Tunes, Hears, Starts};

use super::{Receiver, Showing, Waiting};
use crate::numbers::Numbers;
use crate::refusal::Refusal;

// The longest delay, and the most pages of a film.
const MOST: u16 = 1_024;

impl Receiver<Waiting> {
    // A receiver that tunes in to a film; the bytes of its pages in the store are zeroed.
    pub fn tune(
        delay: u16,
        pages: u16,
        capacity: u16,
        store: &mut [u8],
    ) -> Result<Receiver<Waiting>, Refusal>
        ensures tunes_or_refuses { Tunes
            (tune delay pages capacity store.old) store.old result store.new }
    {
        let sizes = 1..=MOST;
        if !sizes.contains(&delay) || !sizes.contains(&pages) || capacity > pages {
            return Err(Refusal::OutOfRange);
        }
        let (film, _) = store
            .split_at_mut_checked(usize::from(pages))
            .ok_or(Refusal::OutOfRange)?;
        film.fill(0);
        Ok(Receiver {
            numbers: Numbers {
                delay,
                pages,
                capacity,
                heard: 0,
                shown: 0,
                peak: 0,
            },
            state: Waiting,
        })
    }

    // One slot before the film: the pages that it wants are held.
    pub fn hear(&mut self, store: &mut [u8], pages: &[u16]) -> Result<(), Refusal>
        ensures hears_or_refuses { Hears
            (hear self.old.numbers store.old pages.now)
            self.old.numbers store.old result self.new.numbers store.new }
    {
        let Numbers { delay, heard, .. } = self.numbers;
        let (film, _) = store
            .split_at_mut_checked(usize::from(self.numbers.pages))
            .ok_or(Refusal::OutOfRange)?;
        if heard >= delay {
            return Err(Refusal::HeardAll);
        }
        self.numbers.take_in(film, pages)?;
        self.numbers.heard = heard + 1;
        Ok(())
    }

    // Starts the film, or hands the receiver back where it heard too few slots.
    pub fn start(self) -> Result<Receiver<Showing>, (Refusal, Receiver<Waiting>)>
        ensures starts_or_refuses { Starts (start self.numbers) self.numbers result }
    {
        if self.numbers.heard < self.numbers.delay {
            return Err((Refusal::TooEarly, self));
        }
        Ok(Receiver {
            numbers: self.numbers,
            state: Showing,
        })
    }
}
