// Why a station refuses a call.
ghost use Rattle.std.specs.Prelude.{◌≡◌};
ghost use Rattle.station.specs.declared.refusal.Refusal.TheVariants.{Checking as CheckRefused, Finding as FindingsRefused, Surveying as SurveyRefused};

use checker::refusal::{CheckRefusal, FindingsRefusal};
use survey::refusal::SurveyRefusal;

#[derive(Clone, Copy, Debug, PartialEq, Eq)]
pub enum Refusal {
    // The station is on air.
    OnAir,
    // The channel is not 1 to c, or the slot is not below the period.
    NoEntry,
    // The entry is closed already.
    ClosedAlready,
    // As many entries are closed as a station keeps.
    TableFull,
    // The slip has another house's mark, or its entry is not closed.
    OtherSlip,
    // The check refuses, for this.
    Checking(CheckRefusal),
    // The findings are not told, for this.
    Finding(FindingsRefusal),
    // The station is open: it was not checked since it last changed.
    NotPassed,
    // The survey is refused, for this.
    Surveying(SurveyRefusal),
    // The station is not on air.
    NotOnAir,
    // The list has fewer places than there are channels.
    ShortList,
    // The clock has come to its end.
    ClockFull,
}

impl From<CheckRefusal> for Refusal {
    ghost from_gives = { λ e r. r ≡ CheckRefused e };

    fn from(refusal: CheckRefusal) -> Refusal {
        Refusal::Checking(refusal)
    }
}

impl From<SurveyRefusal> for Refusal {
    ghost from_gives = { λ e r. r ≡ SurveyRefused e };

    fn from(refusal: SurveyRefusal) -> Refusal {
        Refusal::Surveying(refusal)
    }
}

impl From<FindingsRefusal> for Refusal {
    ghost from_gives = { λ e r. r ≡ FindingsRefused e };

    fn from(refusal: FindingsRefusal) -> Refusal {
        Refusal::Finding(refusal)
    }
}
