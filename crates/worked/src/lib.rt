#![tactic(auto)]

ghost use Rattle.std.specs.Prelude.{◌≡◌};
ghost use Rattle.worked.specs.Worked.{LoopsAsWorked, PeriodComputed};

// How many plans are worked through by hand and come out of the definitions as they should.
pub fn worked_loops() -> u8
    ensures loops_as_worked { LoopsAsWorked }
    ensures period_computed { PeriodComputed }
    ensures how_many { result ≡ 6 }
{
    6
}
