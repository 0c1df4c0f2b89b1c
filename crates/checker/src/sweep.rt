// One sweep over the slots of a period and of the windows that begin in it, which asks each entry once. The scratch has two
// numbers for each page: the tune-in slot that still waits for it, and one more than the first starving slot found, or 0.
ghost use Rattle.std.specs.Prelude.{◌≡◌, ℕ, ◌+◌, ◌*◌, ◌^◌, ◌<◌, ◌≤◌, length, MatchOption, MatchResult, slice_index};
ghost use Rattle.timetable.specs.Windows.{FirstStray};
ghost use Rattle.checker.specs.Ready.{Ready};
ghost use Rattle.checker.specs.Sweep.{missing, heard, known, Heard, Clean, Tells, Lowest};

use crate::range::Asked;
use crate::refusal::Stray;
use bag::finding::Finding;
use timetable::interface::Timetable;

// Kept so: the answer stands in a cell of the lent scratch, which holds numbers alone; `finding_at` makes an Option of it.
// One more than the first starving tune-in slot known of a page, once the slots below `by` were asked: that found before, or the slot that waits if its window is over.
fn missed(waiting: u32, found: u32, window: u32, by: u32) -> u32
    requires waiting_small { waiting < 2 ^ 30 }
    requires window_small { window < 2 ^ 30 }
    ensures first_missed { result ≡ missing waiting found window by }
{
    if found == 0 && waiting + window <= by {
        waiting + 1
    } else {
        found
    }
}

// Kept so: what is proved of a sweep (`Heard`, `known`) is told of the one list that the caller lends; with two slices each of these would be told of two lists, and the code would save one addition.
// One entry of the sweep: `page` is sent in `slot`. A number that is no page of the film changes nothing.
fn settle(scratch: &mut [u32], film: Asked, page: u16, slot: u32)
    requires slot_small { slot < 2 ^ 29 }
    requires two_a_page { 2 * film.pages ≤ length scratch.old }
    requires not_ahead { (j : ℕ) → j < film.pages → slice_index scratch.old j ≤ slot + 1 }
    ensures page_heard { scratch.new ≡ heard film.delay film.pages page slot scratch.old }
{
    if (1..=film.pages).contains(&page) {
        let waiting = usize::from(page) - 1;
        let found = usize::from(film.pages) + waiting;
        let window = u32::from(film.delay) + u32::from(page) - 1;
        scratch[found] = missed(scratch[waiting], scratch[found], window, slot);
        scratch[waiting] = slot + 1;
    }
}

// Sweeps over the entries of the slots below `end`, or to the first that carries a number above `highest`.
pub(crate) fn sweep<T: Timetable>(
    table: &T,
    film: Asked,
    end: u32,
    highest: u16,
    scratch: &mut [u32],
) -> Result<(), Stray>
    requires ready { Ready (T.meaning table.now) film.delay film.pages end scratch.old }
    ensures clean_or_stray { MatchResult result
        (λ _. Clean (T.meaning table.now) highest end 1 × Heard (T.meaning table.now) film.delay film.pages end 1 scratch.new)
        (λ e. FirstStray (T.meaning table.now) highest e.slot e.channel e.page) }
{
    // Kept so: by a rule of the project, the sweep is two loops that are left by a label at the first stray entry.
    let mut outcome = Ok(());
    'sweep: for slot in 0..end {
        for channel in 1..=table.channels() {
            let page = table.page_at(channel, slot);
            if page > highest {
                outcome = Err(Stray {
                    slot,
                    channel,
                    page,
                });
                break 'sweep;
            }
            settle(scratch, film, page, slot);
        }
    }
    outcome
}

// Kept so: the check and the findings each make it after `sweep`. Were it the answer of `sweep`, `findings`, whose sweep meets no stray entry, would have to name a refusal that never comes.
// What a sweep over the slots below `end` left in the scratch.
#[derive(Clone, Copy)]
pub(crate) struct Swept<'a> {
    pub(crate) cells: &'a [u32],
    pub(crate) film: Asked,
    pub(crate) end: u32,
    ghost two_a_page: { 2 * film.pages ≤ length cells.now },
    ghost waiting_small: { (j : ℕ) → j < film.pages → slice_index cells.now j < 2 ^ 29 },
}

impl Swept<'_> {
    // The finding of the page at a place, from 0: the first tune-in slot that starves of it.
    pub(crate) fn finding_at(&self, place: u16) -> Option<Finding>
        requires of_film { place < self.now.film.pages }
        ensures told { Tells (place + 1) (known self.now.film.delay self.now.film.pages self.now.end self.now.cells.now place) result }
    {
        let waiting = usize::from(place);
        let found = usize::from(self.film.pages) + waiting;
        let window = u32::from(self.film.delay) + u32::from(place);
        let first = missed(self.cells[waiting], self.cells[found], window, self.end);
        first.checked_sub(1).map(|slot| Finding {
            page: place + 1,
            slot,
        })
    }

    // The finding of the lowest page that has one.
    pub(crate) fn lowest(&self) -> Option<Finding>
        ensures lowest_or_none { MatchOption result
            ((j : ℕ) → j < self.now.film.pages → known self.now.film.delay self.now.film.pages self.now.end self.now.cells.now j ≡ 0)
            (λ f. Lowest self.now.film.delay self.now.film.pages self.now.end self.now.cells.now f.page f.slot) }
    {
        (0..self.film.pages).find_map(|place| self.finding_at(place))
    }
}
