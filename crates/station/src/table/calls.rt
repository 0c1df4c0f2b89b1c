ghost use Rattle.std.specs.Prelude.{◌≡◌, ◌<◌, false, [], ◌∷◌, ◌++◌, length, nat_le, position};
ghost use Rattle.station.specs.Tables.{listed, is_entry, without};
ghost use Rattle.timetable.specs.Closed.{closed_in};

use super::ClosureTable;
use arrayvec::ArrayVec;
use records::kinds::Closure;

impl ClosureTable {
    // A table with nothing closed.
    pub(crate) fn none() -> ClosureTable
        ensures nothing_closed { listed result ≡ [] }
    {
        ClosureTable {
            entries: ArrayVec::new(),
        }
    }

    // The closed entries.
    pub(crate) fn closed(&self) -> &[Closure]
        ensures lists_closed { result.now ≡ listed self.now }
    {
        self.entries.as_slice()
    }

    // Whether no more entries can be closed.
    pub(crate) fn is_full(&self) -> bool
        ensures by_count { result ≡ nat_le 64 (length (listed self.now)) }
    {
        self.entries.is_full()
    }

    // One closed entry more.
    pub(crate) fn add(&mut self, entry: Closure)
        requires room { length (listed self.old) < 64 }
        ensures one_more { listed self.new ≡ listed self.old ++ entry ∷ [] }
    {
        self.entries.push(entry);
    }

    // Where an entry stands among the closed ones.
    fn place_of(&self, entry: Closure) -> Option<usize>
        ensures first_place { result ≡ position (is_entry entry.channel entry.slot) (listed self.now) }
    {
        self.closed().iter().position(|closed| *closed == entry)
    }

    // Takes out an entry, and says whether it was there.
    pub(crate) fn remove(&mut self, entry: Closure) -> bool
        ensures was_closed { result ≡ closed_in (listed self.old) entry.channel entry.slot }
        ensures stays_unless_closed { result ≡ false → listed self.new ≡ listed self.old }
        ensures without_entry { listed self.new ≡ without (listed self.old) entry.channel entry.slot }
    {
        match self.place_of(entry) {
            Some(place) => {
                self.entries.remove(place);
                true
            }
            None => false,
        }
    }
}
