// The closures of a plan, judged one after the other.
ghost use Rattle.load.specs.Closures.{Judged, FirstJudged};

use crate::fault::ClosureFault;
use records::kinds::Closure;
use timetable::aired::is_closed;

// Whether a closure closes an entry, after the earlier ones, in a timetable of so many channels and such a period.
fn judge(
    earlier: &[Closure],
    closure: &Closure,
    channels: u8,
    period: u32,
) -> Result<(), ClosureFault>
    ensures judges { Judged channels period earlier.now closure.now result }
{
    if closure.channel == 0 || closure.channel > channels || closure.slot >= period {
        return Err(ClosureFault::NoEntry);
    }
    if is_closed(earlier, closure.channel, closure.slot) {
        return Err(ClosureFault::ClosedAlready);
    }
    Ok(())
}

// Whether each closure closes an entry, or the first that does not, and why.
pub fn judge_all(
    closures: &[Closure],
    channels: u8,
    period: u32,
) -> Result<(), (usize, ClosureFault)>
    ensures judges_in_order { FirstJudged channels period closures.now result }
{
    for (index, closure) in closures.iter().enumerate() {
        judge(&closures[..index], closure, channels, period).map_err(|fault| (index, fault))?;
    }
    Ok(())
}
