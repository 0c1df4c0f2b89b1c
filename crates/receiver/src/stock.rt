ghost use Rattle.receiver.specs.Calls.{weigh};
ghost use Rattle.receiver.specs.Promises.{Weighs};

use crate::refusal::Refusal;
use crate::slot;

// The stock that a slot with these pages makes, with the store of a film of so many pages.
pub fn stock(store: &[u8], film: u16, pages: &[u16]) -> Result<u16, Refusal>
    ensures weighs_or_refuses { Weighs (weigh film store.now pages.now) result }
{
    let (bytes, _) = store
        .split_at_checked(usize::from(film))
        .ok_or(Refusal::OutOfRange)?;
    Ok(slot::stock_of(bytes, pages))
}
