ghost use Rattle.rows.specs.Period.{RowsPeriod};

use plans::period::joined;
use plans::refusal::Refusal;
use records::kinds::Row;

// Kept so: the periods stand each in a row, and there is no heap to list them in; one function for rows and nodes would take each number from a closure and promise by what that answers, which is longer than these lines.
// The period of a plan by rows: the least common multiple of the rows' periods, silent rows' too. None has the period 0.
pub fn rows_period(rows: &[Row]) -> Result<u32, Refusal>
    ensures least_common_multiple { RowsPeriod rows.now result }
{
    let mut period = 1;
    for row in rows {
        if row.period == 0 {
            return Err(Refusal::PeriodTooLong);
        }
        period = joined(Some(period), row.period).ok_or(Refusal::PeriodTooLong)?;
    }
    Ok(period)
}
