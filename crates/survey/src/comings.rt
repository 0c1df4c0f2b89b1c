// The next coming of each page: place i holds the slot in which page i + 1 comes next.
ghost use Rattle.std.specs.Prelude.{◌≡◌, length};
ghost use Rattle.timetable.specs.Closed.{line};
ghost use Rattle.survey.specs.Cells.{note_one, noted};

use timetable::interface::Timetable;

// A page is sent in a slot before those that were noted.
fn note_page(nexts: &mut [u32], page: u16, slot: u32)
    ensures notes_page { nexts.new ≡ note_one (length nexts.old) slot nexts.old page }
{
    let Some(place) = usize::from(page).checked_sub(1) else {
        return;
    };
    if place < nexts.len() {
        nexts[place] = slot;
    }
}

// All pages of a slot.
pub(crate) fn note_slot<T: Timetable>(table: &T, nexts: &mut [u32], slot: u32)
    ensures notes_line { nexts.new
        ≡ noted (length nexts.old) slot nexts.old (line (T.meaning table.now) slot) }
{
    for channel in 1..=table.channels() {
        note_page(nexts, table.page_at(channel, slot), slot);
    }
}
