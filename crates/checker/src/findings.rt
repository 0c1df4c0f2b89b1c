// The findings of a timetable: which pages starve, and from which tune-in slot on.
ghost use Rattle.std.specs.Prelude.{◌≡◌, length, replicate};
ghost use Rattle.bag.specs.Bags.{Emptied, SameMemory};
ghost use Rattle.checker.specs.Findings.{Finds};
ghost use Rattle.checker.specs.Sweep.{Filled, gathered};

use crate::range::{Asked, begin};
use crate::refusal::FindingsRefusal;
use crate::sweep::{Swept, sweep};
use bag::bag::{Bag, Full};
use bag::finding::Finding;
use scratch::Scratch;
use timetable::interface::Timetable;

// Puts the finding of each page that starves into the bag.
fn gather(swept: &Swept, bag: &mut Bag<Finding>) -> Result<(), Full>
    requires nothing_held { Emptied bag.old }
    ensures all_or_full { Filled (gathered swept.now.film.delay swept.now.film.pages swept.now.end swept.now.cells.now swept.now.film.pages) bag.new result }
    ensures same_memory { SameMemory bag.old bag.new }
{
    for finding in (0..swept.film.pages).filter_map(|place| swept.finding_at(place)) {
        bag.put(finding)?;
    }
    Ok(())
}

// Has the bag hold each page that starves with the first tune-in slot at which it does, and nothing else; the answer is how many these are. A refusal leaves the bag empty.
pub fn findings<T: Timetable>(
    table: &T,
    delay: u16,
    pages: u16,
    scratch: &mut [u32],
    bag: &mut Bag<Finding>,
) -> Result<usize, FindingsRefusal>
    ensures finds { Finds (T.meaning table.now) delay pages (length scratch.old) result bag.new }
    ensures same_memory { SameMemory bag.old bag.new }
    ensures scratch_zeroed { scratch.new ≡ replicate (length scratch.old) 0 }
{
    let guard = Scratch { cells: scratch };
    bag.clear();
    let film = Asked { delay, pages };
    let end = begin(table, film, guard.cells)?;
    // No page is above the highest number, so this sweep goes over every entry.
    let _ = sweep(table, film, end, u16::MAX, guard.cells);
    let swept = Swept {
        cells: guard.cells,
        film,
        end,
    };
    match gather(&swept, bag) {
        Ok(()) => Ok(bag.len()),
        Err(Full) => {
            bag.clear();
            Err(FindingsRefusal::ShortBag)
        }
    }
}
