ghost use Rattle.std.specs.Prelude.{◌≤◌, length};
ghost use Rattle.bag.specs.Places.{FreeFrom};

use crate::ranked::Ranked;

mod calls;

// Records in lent places. The held ones lie in front, in no order that counts, and every free place holds the zero record.
// A zero record that is put is held like any other: it takes a place, is counted, and is taken out in its turn.
// Kept so: the caller lends the places, so they can be no `Vec`, and the count says how many of them are held.
#[derive(Drop)]
pub struct Bag<'a, R: Ranked> {
    places: &'a mut [R],
    count: usize,
    ghost fits: { count ≤ length places.now },
    ghost free: { FreeFrom count places.now R.Ranked.blank },
}

// The refusal of a record for which there is no place.
#[derive(Clone, Copy, Debug, PartialEq, Eq)]
pub struct Full;
