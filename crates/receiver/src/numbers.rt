ghost use Rattle.std.specs.Prelude.{◌≤◌, length};
ghost use Rattle.receiver.specs.Promises.{Takes};

use crate::refusal::Refusal;
use crate::slot;

// What a receiver knows of its film and of itself, in plain numbers. Its store is not among them: it is lent at each call.
#[derive(Clone, Copy)]
pub struct Numbers {
    // The slots that are heard before the film starts.
    pub delay: u16,
    // The pages of the film.
    pub pages: u16,
    // The most pages that may be held at a time.
    pub capacity: u16,
    // The slots that were heard so far.
    pub heard: u16,
    // The pages that were shown so far.
    pub shown: u16,
    // The greatest stock of a slot so far.
    pub peak: u16,
}

impl Numbers {
    // Holds the wanted ones among a slot's pages, if the stock that they make is within the capacity.
    pub(crate) fn take_in(&mut self, film: &mut [u8], pages: &[u16]) -> Result<(), Refusal>
        requires short { length film.old ≤ 65535 }
        ensures takes_or_refuses { Takes (length film.old) pages.now
            self.old film.old result self.new film.new }
    {
        let stock = slot::stock_of(film, pages);
        if stock > self.capacity {
            return Err(Refusal::Full);
        }
        slot::take_in(film, pages);
        self.peak = self.peak.max(stock);
        Ok(())
    }
}
