#![tactic(auto)]

ghost use Rattle.std.specs.Prelude.{◌≡◌, length};
ghost use Rattle.worked_all.specs.Surveyed.{SurveyComputed, SurveyHasOneAnswer};
ghost use Rattle.worked_all.specs.Verdict.{CheckComputed, CheckHasOneAnswer};
ghost use Rattle.worked_all.specs.Worked.{worked_loops, LoopsAsWorked, PeriodComputed};

// How many loops are worked through by hand and come out of the definitions as they should.
pub fn worked_loops() -> u8
    ensures loops_as_worked { LoopsAsWorked }
    ensures period_computed { PeriodComputed }
    ensures check_computed { CheckComputed }
    ensures check_has_one_answer { CheckHasOneAnswer }
    ensures survey_computed { SurveyComputed }
    ensures survey_has_one_answer { SurveyHasOneAnswer }
    ensures how_many { result ≡ length worked_loops }
{
    17
}
