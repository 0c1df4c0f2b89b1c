// Why a plan file is not loaded.
ghost use Rattle.std.specs.Prelude.{◌≡◌, [], ◌∷◌, MatchOption};
ghost use Rattle.load.specs.Closures.{told_closure};
ghost use Rattle.load.specs.Told.{told_load, lower_list};
ghost use Rattle.load.specs.declared.fault.LoadFault.TheVariants.{Reading as NotRead, Planning as NotPlanned};
ghost use Rattle.load.specs.declared.fault.SaveFault.TheVariants.{Unfit as NotLoaded};

use plans::refusal::Refusal;
use records::fault::Fault;

// Why an entry cannot be closed.
#[derive(Clone, Copy, Debug, PartialEq, Eq)]
pub enum ClosureFault {
    // The timetable has no such channel, or the slot is not below its period.
    NoEntry,
    // An earlier record closes it.
    ClosedAlready,
}

// Each fault holds that of the layer below whole.
#[derive(Clone, Copy, Debug, PartialEq, Eq)]
pub enum LoadFault {
    // The file is no plan file.
    Reading(Fault),
    // It holds a plan that no planner accepts.
    Planning(Refusal),
    // A closure, whose record begins at this byte, closes no entry of the plan.
    Closing(usize, ClosureFault),
}

impl ClosureFault {
    // Kept so: the rules give each fault a number.
    // The number of the fault.
    pub fn number(&self) -> u8
        ensures is_told { result ≡ told_closure self.now }
    {
        match self {
            ClosureFault::NoEntry => 19,
            ClosureFault::ClosedAlready => 20,
        }
    }
}

impl LoadFault {
    // Kept so: the rules give each fault a number.
    // The number of the fault, its byte, and the lower number where there is one; `None` for want of memory.
    pub fn numbers(&self) -> Option<(u8, usize, Option<u8>)>
        ensures is_told { MatchOption result (told_load self.now ≡ (0, [])) (λ n. told_load self.now ≡ (n.0, n.1 ∷ lower_list n.2)) }
    {
        match self {
            LoadFault::Reading(fault) => {
                fault
                    .number_and_byte()
                    .map(|(number, byte)| (number, byte, None))
            },
            LoadFault::Planning(refusal) => refusal.number().map(|lower| (45, 0, Some(lower))),
            LoadFault::Closing(byte, fault) => Some((45, *byte, Some(fault.number()))),
        }
    }
}

impl From<Fault> for LoadFault {
    ghost from_gives = { λ f r. r ≡ NotRead f };

    fn from(fault: Fault) -> LoadFault {
        LoadFault::Reading(fault)
    }
}

impl From<Refusal> for LoadFault {
    ghost from_gives = { λ f r. r ≡ NotPlanned f };

    fn from(refusal: Refusal) -> LoadFault {
        LoadFault::Planning(refusal)
    }
}

// Why a plan is not saved.
// Kept so: as one type with `WriteFault` it could not be made from a `Fault`, since an `impl` of std's trait has to name a type of its own crate.
#[derive(Clone, Copy, Debug, PartialEq, Eq)]
pub enum SaveFault {
    // Loading would refuse the bytes, with this fault.
    Unfit(LoadFault),
    // The output list is too short.
    NoRoom,
}

impl From<LoadFault> for SaveFault {
    ghost from_gives = { λ f r. r ≡ NotLoaded f };

    fn from(fault: LoadFault) -> SaveFault {
        SaveFault::Unfit(fault)
    }
}

impl From<Fault> for SaveFault {
    ghost from_gives = { λ f r. r ≡ NotLoaded (NotRead f) };

    fn from(fault: Fault) -> SaveFault {
        SaveFault::Unfit(LoadFault::Reading(fault))
    }
}
