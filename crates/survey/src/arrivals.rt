// The pages that arrive in each slot of the film, for one tune-in: place s counts those that come s slots after the delay, and
// place 0 also those that come within it. There is a place for each page.
ghost use Rattle.std.specs.Prelude.{◌≡◌, suc, ◌-◌, ◌≤◌, length, nat_le};
ghost use Rattle.receiver.specs.Count.{count};
ghost use Rattle.feeding.specs.Laws.{top};
ghost use Rattle.survey.specs.Cells.{late, total};

// The greatest stock, from the arrivals.
fn crest(arrivals: &[u32]) -> usize
    requires short { length arrivals.now ≤ 65535 }
    ensures greatest_stock { result
        ≡ top (λ s. total arrivals.now (suc s) - s) 0 (length arrivals.now) 0 }
{
    let mut arrived: usize = 0;
    let mut best: usize = 0;
    for (shown, pages) in arrivals.iter().enumerate() {
        arrived += *pages as usize;
        best = best.max(arrived.saturating_sub(shown));
    }
    best
}

// The peak of a receiver that tunes in at a slot, from the next coming of each page, which is counted in the slot in which it
// arrives.
pub(crate) fn peak_from(nexts: &[u32], arrivals: &mut [u32], delay: u16, slot: u32) -> u16
    requires same_film { length arrivals.old ≡ length nexts.now }
    requires short { length nexts.now ≤ 65535 }
    ensures by_comings { result
        ≡ top (λ s. count (length nexts.now)
        (λ i. nat_le (late delay (length nexts.now) slot nexts.now i) s) - s)
        0 (length nexts.now) 0 }
{
    arrivals.fill(0);
    for next in nexts {
        let behind = next.saturating_sub(slot).saturating_sub(u32::from(delay)) as usize;
        arrivals[behind.min(nexts.len() - 1)] += 1;
    }
    crest(arrivals) as u16
}
