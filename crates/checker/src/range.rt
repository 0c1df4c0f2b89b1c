// Whether the numbers of a film and its timetable may be such, and what the check and the findings begin with.
ghost use Rattle.std.specs.Prelude.{◌≡◌, length, Decides, MatchResult};
ghost use Rattle.timetable.specs.Windows.{InRange};
ghost use Rattle.checker.specs.Ready.{Ready, NotReady};

use crate::refusal::Unready;
use records::kinds::Film;
use scratch::zero;
use timetable::interface::Timetable;

// The delay of a film, and how many pages it has. On how many channels it is sent, the timetable tells.
#[derive(Clone, Copy)]
pub(crate) struct Asked {
    pub(crate) delay: u16,
    pub(crate) pages: u16,
}

// Whether the delay, the pages, the channels and the period are in range.
fn in_range<T: Timetable>(table: &T, film: Asked) -> bool
    ensures decides_range { Decides result (InRange (T.meaning table.now) film.delay film.pages) }
{
    let numbers = Film {
        delay: film.delay,
        pages: film.pages,
        channels: table.channels(),
    };
    numbers.is_in_range() && (1..=65_536).contains(&table.period())
}

// Zeroes the scratch for a film whose numbers are in range. The answer is the slot after the last of the windows that begin
// in the first period.
pub(crate) fn begin<T: Timetable>(
    table: &T,
    film: Asked,
    scratch: &mut [u32],
) -> Result<u32, Unready>
    ensures ready_or_not { MatchResult result
        (λ end. Ready (T.meaning table.now) film.delay film.pages end scratch.new)
        (NotReady (T.meaning table.now) film.delay film.pages (length scratch.old)) }
{
    if !in_range(table, film) {
        return Err(Unready::OutOfRange);
    }
    if scratch.len() < 2 * usize::from(film.pages) {
        return Err(Unready::ShortScratch);
    }
    zero(scratch);
    Ok(table.period() + u32::from(film.delay) + u32::from(film.pages) - 2)
}
