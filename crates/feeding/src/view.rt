ghost use Rattle.std.specs.Prelude.{length};
ghost use Rattle.feeding.specs.Phases.{Begins, Tells};

use crate::phases;
use crate::viewing::{Stop, Viewing};
use receiver::refusal::Refusal;
use receiver::states::Receiver;

// Tunes a receiver and feeds it the lines, until the film is whole, the lines end or a call is refused.
pub(crate) fn follow(
    delay: u16,
    pages: u16,
    capacity: u16,
    store: &mut [u8],
    lines: &[Vec<u16>],
    viewing: &mut Viewing,
) -> Result<Stop, Refusal>
    requires untold { Begins viewing.old (length lines.now) }
    ensures tells { Tells delay pages capacity store.old lines.now result viewing.new store.new }
{
    let mut waiting = Receiver::tune(delay, pages, capacity, store)?;
    let (early, late) = lines.split_at(lines.len().min(usize::from(delay)));
    phases::hear_all(&mut waiting, store, early, viewing)?;
    let Ok(mut showing) = waiting.start() else {
        return Ok(Stop::LinesEnded);
    };
    phases::show_all(&mut showing, store, late, viewing)
}
