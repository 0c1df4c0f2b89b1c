// The word of a station that it closed an entry.
ghost use Rattle.std.specs.Prelude.{◌≡◌, true};

use records::kinds::Closure;

// It says whose entry is closed and which. It must be spent, by opening the entry again or by keeping it closed: a program
// that lets one go does not build.
// Kept so: by a rule of the project a slip may be dropped once it is spent and not before, and its drop asks for the flag.
pub struct Slip {
    pub(crate) mark: u32,
    pub(crate) entry: Closure,
    pub(crate) spent: bool,
}

impl Drop for Slip {
    fn drop(self)
        requires spent { self.spent ≡ true }
    {
        let Slip {
            mark: _,
            entry: _,
            spent: _,
        } = self;
    }
}

impl Slip {
    // The mark of the station that closed the entry.
    pub fn mark(&self) -> u32
        ensures is_mark { result ≡ self.now.mark }
    {
        self.mark
    }

    // The entry that is closed.
    pub fn entry(&self) -> Closure
        ensures is_entry { result ≡ self.now.entry }
    {
        self.entry
    }

    // Spends the slip and leaves the entry closed.
    pub fn keep(self) {
        let mut slip = self;
        slip.spent = true;
    }
}
