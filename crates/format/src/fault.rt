// Why a plan is not written.
ghost use Rattle.std.specs.Prelude.{◌≡◌};
ghost use Rattle.format.specs.declared.fault.WriteFault.TheVariants.{Unfit as NotRead};

use records::fault::Fault;

#[derive(Clone, Copy, Debug, PartialEq, Eq)]
pub enum WriteFault {
    // Reading would refuse the bytes, with this fault.
    Unfit(Fault),
    // The output list is too short.
    NoRoom,
}

impl From<Fault> for WriteFault {
    ghost from_gives = { λ f r. r ≡ NotRead f };

    fn from(fault: Fault) -> WriteFault {
        WriteFault::Unfit(fault)
    }
}
