ghost use Rattle.timetable.specs.Grid.{grid, grid_lawful};

use super::interface::Timetable;
use super::turns::turn_in;

// A timetable written out in lent memory: the pages of all channels in slot 0, then those of slot 1, and so on.
#[derive(Clone, Copy)]
pub struct Grid<'a> {
    pub cells: &'a [u16],
    pub channels: u8,
    pub period: u32,
}

impl Timetable for Grid<'_> {
    ghost meaning = { λ g. grid g.cells.now g.channels g.period };

    ghost lawful = { λ g. grid_lawful g.cells.now g.channels g.period };

    fn channels(&self) -> u8 {
        self.channels
    }

    fn period(&self) -> u32 {
        self.period
    }

    fn page_at(&self, channel: u8, slot: u32) -> u16 {
        let Some(turn) = turn_in(self.channels, self.period, channel, slot) else {
            return 0;
        };
        // Kept so: no `usize::from` takes 32 bits.
        let line = turn as usize * usize::from(self.channels);
        let place = line + usize::from(channel) - 1;
        self.cells.get(place).copied().unwrap_or(0)
    }
}
