ghost use Rattle.std.specs.Prelude.{ℕ, ◌<◌, List, [], ◌∷◌, ◌++◌};
ghost use Rattle.plans.specs.Periods.{PeriodOf, Joins};

// The longest period that a plan may have.
pub const LONGEST: u32 = 65_536;

// The period that the cycles so far have with one more, which is not 0; `None` from where it is too long.
pub fn joined(so_far: Option<u32>, cycle: u32) -> Option<u32>
    ensures least_within_longest { Joins so_far cycle result }
    ensures joins_cycle { (xs : List ℕ) → 0 < cycle → PeriodOf xs so_far → PeriodOf (xs ++ (cycle ∷ [])) result }
{
    let period = so_far?;
    numbers::lcm_within(period, cycle, LONGEST)
}
