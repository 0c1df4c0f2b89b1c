ghost use Rattle.std.specs.Prelude.{◌≡◌, ℕ, Bool};
ghost use Rattle.std.specs.Cmp.{IsStrictWeakOrder};

// A kind of record that a bag can hold: it has an order, which may depend on a number, the window, and a zero record.
pub trait Ranked: Sized + Copy {
    // Whether one record comes before another at a window.
    ghost before: { ℕ → Self → Self → Bool };

    // The record that a free place holds.
    ghost blank: { Self };

    // The record that a free place holds.
    // Kept so: a bound on `Default` gives the type of every bag one more argument in each definition, and says no more.
    fn zero() -> Self
        ensures is_blank { result ≡ blank };

    // Whether this record comes before the other at a window.
    fn comes_before(&self, other: &Self, window: u32) -> bool
        ensures by_order { result ≡ before window self.now other.now };

    // At each window the order is total, up to ties: of two records at most one comes before the other, and where x does
    // not come before y, nor y before z, x does not come before z.
    ghost ordered: { (w : ℕ) → IsStrictWeakOrder (before w) };
}
