// Closing entries and opening them again.
ghost use Rattle.std.specs.Prelude.{◌≡◌, false, IfOk, IfErr};
ghost use Rattle.station.specs.States.{seen, Is, closes, reopens, by_close, by_reopen};

use super::Station;
use crate::phase::Phase;
use crate::refusal::Refusal;
use crate::slip::Slip;
use records::kinds::Closure;
use timetable::aired::is_closed;
use timetable::interface::Timetable;

impl<T: Timetable> Station<T> {
    // Closes the entry of a channel in a slot of the period; the station is open then. The slip is its word for it.
    pub fn close(&mut self, channel: u8, slot: u32) -> Result<Slip, Refusal>
        ensures closes_or_refuses { Is (closes (seen (T.meaning self.old.table) self.old) (record { channel = channel; slot = slot })) (by_close result) (seen (T.meaning self.new.table) self.new) }
        ensures slip_unspent { IfOk result (λ slip. slip.spent ≡ false) }
    {
        if self.is_on_air() {
            return Err(Refusal::OnAir);
        }
        if channel < 1 || channel > self.table.channels() || slot >= self.table.period() {
            return Err(Refusal::NoEntry);
        }
        if is_closed(self.closures.closed(), channel, slot) {
            return Err(Refusal::ClosedAlready);
        }
        if self.closures.is_full() {
            return Err(Refusal::TableFull);
        }
        let entry = Closure { channel, slot };
        self.closures.add(entry);
        self.phase = Phase::Open;
        Ok(Slip {
            mark: self.mark,
            entry,
            spent: false,
        })
    }

    // Opens the entry of a slip again; the station is open then. A slip that is refused is handed back.
    pub fn reopen(&mut self, slip: Slip) -> Result<(), (Refusal, Slip)>
        ensures reopens_or_refuses { Is (reopens (seen (T.meaning self.old.table) self.old) slip.mark slip.entry) (by_reopen result) (seen (T.meaning self.new.table) self.new) }
        ensures hands_back { IfErr result (λ e. e.1 ≡ slip) }
    {
        if self.is_on_air() {
            return Err((Refusal::OnAir, slip));
        }
        if slip.mark != self.mark {
            return Err((Refusal::OtherSlip, slip));
        }
        if !self.closures.remove(slip.entry) {
            return Err((Refusal::OtherSlip, slip));
        }
        self.phase = Phase::Open;
        slip.keep();
        Ok(())
    }
}
