// The lines of a report on a plan file, and their text.
#![tactic(auto)]

ghost use Rattle.line.specs.Text.{text};
ghost use Rattle.std.specs.Prelude.{Some as Shown};

use std::fmt;

// One line of a report.
#[derive(Clone, Copy, Debug, PartialEq, Eq)]
pub enum Line {
    // The film: its delay in slots, its pages and its channels.
    Film(u16, u16, u8),
    // The slots after which the plan begins again.
    Period(u32),
    // The check passes.
    Pass,
    // The first entry that carries a number beyond the film: slot, channel and that number.
    Stray(u32, u8, u16),
    // The lowest page that starves, and the first tune-in slot at which it does.
    Starved(u16, u32),
    // A page that starves, and the first tune-in slot at which it does.
    Miss(u16, u32),
    // How many pages a receiver has to hold at most, and the first tune-in slot at which it has to.
    Stock(u16, u32),
    // The period is too long for a survey.
    LongStock,
    // How many slots a guest waits.
    Wait(u16),
    // The one fault of a file: its number, the byte where the record at fault begins, and the lower number of a fault of the plan or of a closure.
    Fault(u8, usize, Option<u8>),
}

impl fmt::Display for Line {
    ghost output = { λ l. Shown (text l) };

    fn fmt<W: fmt::Write>(&self, f: &mut fmt::Formatter<W>) -> fmt::Result {
        match self {
            Line::Film(delay, pages, channels) => write!(f, "FILM {delay} {pages} {channels}"),
            Line::Period(period) => write!(f, "PERIOD {period}"),
            Line::Pass => write!(f, "CHECK PASS"),
            Line::Stray(slot, channel, page) => write!(f, "CHECK STRAY {slot} {channel} {page}"),
            Line::Starved(page, slot) => write!(f, "CHECK STARVED {page} {slot}"),
            Line::Miss(page, slot) => write!(f, "MISS {page} {slot}"),
            Line::Stock(peak, slot) => write!(f, "STOCK {peak} {slot}"),
            Line::LongStock => write!(f, "STOCK LONG"),
            Line::Wait(delay) => write!(f, "WAIT {delay}"),
            Line::Fault(number, byte, None) => write!(f, "FAULT {number} {byte}"),
            Line::Fault(number, byte, Some(lower)) => write!(f, "FAULT {number} {byte} {lower}"),
        }
    }
}
