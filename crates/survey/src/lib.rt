// The survey of a timetable: how much a receiver has to hold at most, wherever it tunes in.
#![tactic(auto)]

ghost use Rattle.std.specs.Prelude.{◌≡◌, length, replicate};
ghost use Rattle.survey.specs.Guarantees.{StockRepeats, Enough, Least};
ghost use Rattle.survey.specs.Surveys.{Surveys};

use greatest::greatest_peak;
use refusal::SurveyRefusal;
use scratch::Scratch;
use timetable::interface::Timetable;

mod arrivals;
mod comings;
mod greatest;
pub mod refusal;

// The longest period that is surveyed.
const LONGEST: u32 = 4_096;

// The greatest peak of a receiver with room for the whole film that is fed what a timetable sends, over the tune-ins of a
// period, and the first of them that reaches it. The scratch cells may hold anything, and are all 0 afterwards. The last three
// promises are laws of every such peak: how much room is enough wherever a receiver tunes in, and that no less is.
#[tactic(auto, using(crate::proofs::Guarantee::stock_repeats, crate::proofs::Guarantee::least))]
pub fn survey<T: Timetable>(
    table: &T,
    delay: u16,
    pages: u16,
    scratch: &mut [u32],
) -> Result<(u16, u32), SurveyRefusal>
    ensures surveys_or_refuses { Surveys
        (T.meaning table.now) delay pages (length scratch.old) result }
    ensures all_zero { scratch.new ≡ replicate (length scratch.old) 0 }
    ensures stock_repeats { StockRepeats }
    ensures peak_is_enough { Enough }
    ensures no_less_is { Least }
{
    let guard = Scratch { cells: scratch };
    if guard.cells.len() < 2 * usize::from(pages) {
        return Err(SurveyRefusal::ShortScratch);
    }
    if table.period() > LONGEST {
        return Err(SurveyRefusal::LongPeriod);
    }
    let answer = greatest_peak(table, delay, pages, guard.cells);
    Ok(answer)
}
