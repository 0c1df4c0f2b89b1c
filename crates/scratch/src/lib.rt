// Working memory that the caller lends, and gets back zeroed.
#![tactic(auto)]

ghost use Rattle.std.specs.Prelude.{◌≡◌, length, replicate};

// Sets every cell to 0.
pub fn zero(cells: &mut [u32])
    ensures all_zero { cells.new ≡ replicate (length cells.old) 0 }
{
    cells.fill(0);
}

// A guard over lent cells: whatever they hold meanwhile, they are all 0 when it goes.
pub struct Scratch<'a> {
    pub cells: &'a mut [u32],
}

impl Drop for Scratch<'_> {
    fn drop(self)
        ensures all_zero { self.exit.0.now ≡ replicate (length self.entry.cells.now) 0 }
    {
        zero(self.cells);
        let Scratch { cells: _ } = self;
    }
}
