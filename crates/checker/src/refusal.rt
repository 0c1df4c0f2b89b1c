// Why a timetable is not passed, or its findings are not told.
ghost use Rattle.std.specs.Prelude.{◌≡◌};
ghost use Rattle.checker.specs.declared.refusal.CheckRefusal.TheVariants.{Strays};
ghost use Rattle.checker.specs.Unready.{check_unready, findings_unready};

use bag::finding::Finding;

// An entry that carries a number beyond the film.
#[derive(Clone, Copy, Debug, PartialEq, Eq)]
pub struct Stray {
    pub slot: u32,
    pub channel: u8,
    pub page: u16,
}

#[derive(Clone, Copy, Debug, PartialEq, Eq)]
pub enum CheckRefusal {
    // The delay, the pages, the channels or the period are out of range.
    OutOfRange,
    // The scratch has fewer than two cells a page.
    ShortScratch,
    // The first entry, by slot and then by channel, that carries a number beyond the film.
    Strays(Stray),
    // The lowest page that starves, with the first tune-in slot at which it does.
    Starves(Finding),
}

#[derive(Clone, Copy, Debug, PartialEq, Eq)]
pub enum FindingsRefusal {
    // The delay, the pages, the channels or the period are out of range.
    OutOfRange,
    // The scratch has fewer than two cells a page.
    ShortScratch,
    // The bag has fewer places than there are findings.
    ShortBag,
}

impl From<Stray> for CheckRefusal {
    ghost from_gives = { λ e r. r ≡ Strays e };

    fn from(stray: Stray) -> CheckRefusal {
        CheckRefusal::Strays(stray)
    }
}

// Why neither the check nor the findings can begin.
#[derive(Clone, Copy, Debug, PartialEq, Eq)]
pub(crate) enum Unready {
    // The delay, the pages, the channels or the period are out of range.
    OutOfRange,
    // The scratch has fewer than two cells a page.
    ShortScratch,
}

impl From<Unready> for CheckRefusal {
    ghost from_gives = { λ e r. r ≡ check_unready e };

    fn from(unready: Unready) -> CheckRefusal {
        match unready {
            Unready::OutOfRange => CheckRefusal::OutOfRange,
            Unready::ShortScratch => CheckRefusal::ShortScratch,
        }
    }
}

impl From<Unready> for FindingsRefusal {
    ghost from_gives = { λ e r. r ≡ findings_unready e };

    fn from(unready: Unready) -> FindingsRefusal {
        match unready {
            Unready::OutOfRange => FindingsRefusal::OutOfRange,
            Unready::ShortScratch => FindingsRefusal::ShortScratch,
        }
    }
}
