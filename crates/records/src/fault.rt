// Why a plan file is refused.
ghost use Rattle.std.specs.Prelude.{◌≡◌, [], ◌∷◌, MatchOption};
ghost use Rattle.records.specs.Faults.{told};
ghost use Rattle.records.specs.declared.fault.Fault.TheVariants.{Memory as OutOfMemory};

use std::alloc::{AllocError, AllocFailed};

// A fault of a plan file, with the byte where the record at fault begins. Want of memory is one more case.
#[derive(Clone, Copy, Debug, PartialEq, Eq)]
pub enum Fault {
    // The file ends where a record should begin, or within one.
    CutShort(usize),
    // No record has this kind byte.
    UnknownKind(usize),
    // A record that cannot stand here, or one too many.
    OutOfPlace(usize),
    // Bytes after the end record.
    AfterEnd(usize),
    // More bytes than any plan file has.
    TooLong,
    // There was no memory for a record.
    Memory,
}

impl Fault {
    // The number of the fault and its byte, or `None` for want of memory, which is no fault of the file.
    // Kept so: the rules give each fault a number.
    pub fn number_and_byte(&self) -> Option<(u8, usize)>
        ensures is_told { MatchOption result (self.now ≡ OutOfMemory) (λ p. told self.now ≡ (p.0, p.1 ∷ [])) }
    {
        match self {
            Fault::CutShort(byte) => Some((41, *byte)),
            Fault::UnknownKind(byte) => Some((42, *byte)),
            Fault::OutOfPlace(byte) => Some((43, *byte)),
            Fault::AfterEnd(byte) => Some((44, *byte)),
            Fault::TooLong => Some((46, 0)),
            Fault::Memory => None,
        }
    }
}

// Kept so: std has two errors for want of memory, and `?` needs an impl for each.
impl From<AllocError> for Fault {
    ghost from_gives = { λ _ r. r ≡ OutOfMemory };

    fn from(_e: AllocError) -> Fault {
        Fault::Memory
    }
}

impl<T: Drop> From<AllocFailed<T>> for Fault {
    ghost from_gives = { λ _ r. r ≡ OutOfMemory };

    fn from(_e: AllocFailed<T>) -> Fault {
        Fault::Memory
    }
}
