// Why there are no lines on a plan.
ghost use Rattle.std.specs.Prelude.{◌≡◌};
ghost use Rattle.report.specs.declared.fault.ReportFault.TheVariants.{Loading as NotLoaded, Memory as OutOfMemory};

use load::fault::LoadFault;
use std::alloc::{AllocError, AllocFailed};

#[derive(Clone, Copy, Debug)]
pub enum ReportFault {
    // The file is not loaded, for this fault.
    Loading(LoadFault),
    // There was no memory for the lines.
    Memory,
}

impl From<LoadFault> for ReportFault {
    ghost from_gives = { λ f r. r ≡ NotLoaded f };

    fn from(fault: LoadFault) -> ReportFault {
        ReportFault::Loading(fault)
    }
}

// Kept so: std has two errors for want of memory, and `?` needs an impl for each.
impl From<AllocError> for ReportFault {
    ghost from_gives = { λ _ r. r ≡ OutOfMemory };

    fn from(_e: AllocError) -> ReportFault {
        ReportFault::Memory
    }
}

impl<T: Drop> From<AllocFailed<T>> for ReportFault {
    ghost from_gives = { λ _ r. r ≡ OutOfMemory };

    fn from(_e: AllocFailed<T>) -> ReportFault {
        ReportFault::Memory
    }
}
