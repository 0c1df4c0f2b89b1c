ghost use Rattle.std.specs.Prelude.{◌≡◌, ◌≢◌, MatchOption};
ghost use Rattle.plans.specs.Refusals.{told};
ghost use Rattle.plans.specs.declared.refusal.Refusal.TheVariants.{OutOfMemory};

use std::alloc::AllocError;

// Why there is no plan.
#[derive(Clone, Copy, Debug, PartialEq, Eq)]
pub enum Refusal {
    // The delay, the pages, the channels or the number of nodes are out of range.
    OutOfRange,
    // A channel has no subchannel or more than 32, or more than its first page's window has slots.
    WrongSubchannels,
    // The channels carry more than 1,024 pages.
    TooManyPages,
    // The period, or that of a node of a tree, is above 65,536; or a row has no period.
    PeriodTooLong,
    // So many pages have their slots, and none are free for the next.
    NoFreeSequence(usize),
    // The list of rows is too short for the pages, or the bag of free sequences has too few places.
    NoRoom,
    // The node with this number is an inner node with no children, or with children that do not come after it or are not there.
    WrongNode(usize),
    // There is no memory for the plan.
    OutOfMemory,
}

impl Refusal {
    // Kept so: the rules give each refusal a number.
    // The number of the refusal, or `None` for want of memory, which is no judgement on a plan.
    pub fn number(&self) -> Option<u8>
        ensures is_told { MatchOption result (self.now ≡ OutOfMemory) (λ n. (n ≢ 0) × ((told self.now).0 ≡ n)) }
    {
        match self {
            Refusal::OutOfRange => Some(1),
            Refusal::WrongSubchannels => Some(2),
            Refusal::TooManyPages => Some(3),
            Refusal::PeriodTooLong => Some(4),
            Refusal::NoFreeSequence(_) => Some(5),
            Refusal::NoRoom => Some(6),
            Refusal::WrongNode(_) => Some(7),
            Refusal::OutOfMemory => None,
        }
    }
}

impl From<AllocError> for Refusal {
    ghost from_gives = { λ _ r. r ≡ OutOfMemory };

    fn from(_: AllocError) -> Refusal {
        Self::OutOfMemory
    }
}
