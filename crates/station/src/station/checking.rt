// The check of what is sent, its findings, and the survey.
ghost use Rattle.std.specs.Prelude.{◌≡◌, length, replicate};
ghost use Rattle.bag.specs.Bags.{room, SameMemory};
ghost use Rattle.station.specs.States.{seen, Checks, by_check, by_survey, FindingsOf, SurveyTold};

use super::Station;
use crate::phase::Phase;
use crate::refusal::*;
use bag::bag::Bag;
use bag::finding::Finding;
use scratch::Scratch;
use timetable::interface::Timetable;

impl<T: Timetable> Station<T> {
    // Checks what is sent; the station is passed then, or stays as it was.
    pub fn check(&mut self, scratch: &mut [u32]) -> Result<(), Refusal>
        ensures checks_or_refuses { Checks (seen (T.meaning self.old.table) self.old) (length scratch.old) (by_check result) (seen (T.meaning self.new.table) self.new) }
        ensures scratch_zeroed { scratch.new ≡ replicate (length scratch.old) 0 }
    {
        let guard = Scratch { cells: scratch };
        if self.is_on_air() {
            return Err(Refusal::OnAir);
        }
        checker::checking::check(&self.sent(), self.delay, self.pages, guard.cells)?;
        self.phase = Phase::Passed;
        Ok(())
    }

    // Has the bag hold what starves, page by page with the first tune-in slot, and nothing else; the answer is how many pages these are.
    pub fn findings(&self, scratch: &mut [u32], bag: &mut Bag<Finding>) -> Result<usize, Refusal>
        ensures finds_or_refuses { FindingsOf (seen (T.meaning self.now.table) self.now) (length scratch.old) (room bag.old) result bag.new }
        ensures same_memory { SameMemory bag.old bag.new }
        ensures scratch_zeroed { scratch.new ≡ replicate (length scratch.old) 0 }
    {
        Ok(checker::findings::findings(&self.sent(), self.delay, self.pages, scratch, bag)?)
    }

    // The greatest peak of a receiver with room for the whole film, over all tune-ins, and the first slot that reaches it.
    pub fn survey(&self, scratch: &mut [u32]) -> Result<(u16, u32), Refusal>
        ensures surveys_or_refuses { SurveyTold (seen (T.meaning self.now.table) self.now) (length scratch.old) (by_survey result) }
        ensures scratch_zeroed { scratch.new ≡ replicate (length scratch.old) 0 }
    {
        let guard = Scratch { cells: scratch };
        // Kept so: from a derived `==` with `Phase::Open` the proof does not get that the phase is `Open`.
        if let Phase::Open = self.phase {
            return Err(Refusal::NotPassed);
        }
        Ok(survey::survey(&self.sent(), self.delay, self.pages, guard.cells)?)
    }
}
