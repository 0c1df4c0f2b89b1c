ghost use Rattle.std.specs.Prelude.{◌≡◌};
ghost use Rattle.rows.specs.Rows.{rows_timetable, rows_timetable_lawful, fitting, lowest};

use records::kinds::Row;
use std::convert::AsSlice;
use timetable::interface::Timetable;
use timetable::turns::turn_in;

// A timetable by rows, lent or its own: a channel carries the lowest page among its rows that fit the slot.
#[derive(Clone, Copy, Drop)]
pub struct Rows<L> {
    pub rows: L,
    pub channels: u8,
    pub period: u32,
}

// Whether a row has its channel carry its page in this slot. The channel is compared before anything is divided.
fn fits(row: &Row, channel: u8, slot: u32) -> bool
    ensures decides { result ≡ fitting channel slot row.now }
{
    row.channel == channel && row.period != 0 && slot % row.period == row.start
}

// The lowest page among the rows that fit.
fn lowest_page(rows: &[Row], channel: u8, slot: u32) -> Option<u16>
    ensures is_lowest { result ≡ lowest rows.now channel slot }
{
    rows.iter()
        .filter(|row| fits(*row, channel, slot))
        .map(|row| row.page)
        .min()
}

impl<L: AsSlice<Row>> Timetable for Rows<L> {
    ghost meaning = { λ plan. rows_timetable (L.AsSlice.items plan.rows) plan.channels plan.period };

    ghost lawful = { λ plan. rows_timetable_lawful (L.AsSlice.items plan.rows) plan.channels plan.period };

    fn channels(&self) -> u8 {
        self.channels
    }

    fn period(&self) -> u32 {
        self.period
    }

    fn page_at(&self, channel: u8, slot: u32) -> u16 {
        let Some(turn) = turn_in(self.channels, self.period, channel, slot) else {
            return 0;
        };
        lowest_page(self.rows.as_slice(), channel, turn).unwrap_or(0)
    }
}
