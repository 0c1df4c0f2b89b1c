ghost use Rattle.std.specs.Prelude.{◌≡◌};
ghost use Rattle.survey.specs.Refusals.{told};

// Why there is no survey.
#[derive(Clone, Copy, Debug, PartialEq, Eq)]
pub enum SurveyRefusal {
    // The scratch has fewer than two cells for each page.
    ShortScratch,
    // The period is above 4,096.
    LongPeriod,
}

impl SurveyRefusal {
    // The number of the refusal.
    // Kept so: the rules give each refusal a number.
    pub fn number(&self) -> u8
        ensures is_told { result ≡ (told self.now).0 }
    {
        match self {
            SurveyRefusal::ShortScratch => 13,
            SurveyRefusal::LongPeriod => 23,
        }
    }
}
