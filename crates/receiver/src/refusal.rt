ghost use Rattle.std.specs.Prelude.{◌≡◌};
ghost use Rattle.receiver.specs.Refusals.{told};

// Why a receiver refuses a call.
#[derive(Clone, Copy, Debug, PartialEq, Eq)]
pub enum Refusal {
    // The delay or the pages are not 1 to 1,024, the capacity is above the pages, or the store has fewer bytes than pages.
    OutOfRange,
    // Fewer slots than the delay were heard.
    TooEarly,
    // As many slots as the delay were heard already.
    HeardAll,
    // The stock would pass the capacity.
    Full,
    // This page, the next to show, is not held before the slot.
    NotHeld(u16),
    // Every page of the film was shown.
    AllShown,
}

impl Refusal {
    // The number of the refusal.
    // Kept so: the rules give each refusal a number, and some tell values beside it.
    pub fn number(&self) -> u8
        ensures is_told { result ≡ (told self.now).0 }
    {
        match self {
            Refusal::OutOfRange => 31,
            Refusal::TooEarly => 32,
            Refusal::HeardAll => 33,
            Refusal::Full => 34,
            Refusal::NotHeld(_) => 35,
            Refusal::AllShown => 36,
        }
    }
}
