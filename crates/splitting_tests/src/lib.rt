// Tests of bags and of plans by splitting.
#![tactic(auto)]

ghost use Rattle.std.specs.Prelude.{◌≡◌, ℕ, ◌<◌, length, slice_index_or};

use bag::bag::Bag;
use records::kinds::Row;
use sequences::sequence::FreeSequence;
use splitting::planner::plan;

// Plans with a bag over lent places, and gives these back all zero: what a bag leaves is what its lender then has.
pub fn plan_and_give_back(places: &mut [FreeSequence], rows: &mut [Row]) -> bool
    ensures places_come_back_zero { (k : ℕ) → k < length places.new → slice_index_or places.new k (record { channel = 0; start = 0; period = 0 }) ≡ record { channel = 0; start = 0; period = 0 } }
{
    let mut bag = Bag::over(places);
    let planned = plan(1, 1, 1, rows, &mut bag).is_ok();
    bag.clear();
    planned
}

#[cfg(test)]
mod tests {
    use bag::bag::Bag;
    use bag::finding::Finding;
    use plans::refusal::Refusal;
    use records::kinds::Row;
    use rows::rows::Rows;
    use sequences::sequence::FreeSequence;
    use splitting::planner::plan;
    use timetable::interface::Timetable;

    // What the rows and the places hold before a plan, so that what is left of it shows.
    const OLD_ROW: Row = Row {
        page: 9,
        channel: 9,
        start: 9,
        period: 9,
    };

    const OLD_PLACE: FreeSequence = FreeSequence {
        channel: 9,
        start: 9,
        period: 9,
    };

    #[test]
    fn findings_come_by_page_and_slot(rt: HostRuntime) {
        let mut places = [Finding { page: 7, slot: 7 }; 3];
        let mut bag = Bag::over(&mut places);
        assert!(rt; bag.len() == 0 && bag.room() == 3);
        assert!(rt; bag.put(Finding { page: 2, slot: 1 }).is_ok());
        assert!(rt; bag.put(Finding { page: 1, slot: 9 }).is_ok());
        assert!(rt; bag.put(Finding { page: 1, slot: 3 }).is_ok());
        assert!(rt; bag.put(Finding { page: 1, slot: 4 }).is_err());
        assert!(rt; bag.take_first(0) == Some(Finding { page: 1, slot: 3 }));
        assert!(rt; bag.take_first(0) == Some(Finding { page: 1, slot: 9 }));
        assert!(rt; bag.len() == 1);
    }

    // A zero record takes a place like any other.
    #[test]
    fn zero_record_is_held(rt: HostRuntime) {
        let mut places = [Finding { page: 7, slot: 7 }; 1];
        let mut bag = Bag::over(&mut places);
        assert!(rt; bag.put(Finding { page: 0, slot: 0 }).is_ok());
        assert!(rt; bag.put(Finding { page: 1, slot: 1 }).is_err());
        assert!(rt; bag.take_first(0) == Some(Finding { page: 0, slot: 0 }));
        assert!(rt; bag.take_first(0).is_none());
    }

    #[test]
    fn longest_period_comes_first(rt: HostRuntime) {
        let mut places = [OLD_PLACE; 4];
        let mut bag = Bag::over(&mut places);
        for period in 1..4 {
            assert!(rt;
                bag.put(FreeSequence {
                    channel: 1,
                    start: 0,
                    period,
                })
                .is_ok()
            );
        }
        assert!(rt;
            bag.take_first(6)
                == Some(FreeSequence {
                    channel: 1,
                    start: 0,
                    period: 3,
                })
        );
    }

    fn begins(plan: &Rows<&[Row]>, channel: u8, pages: &[u16]) -> bool {
        pages
            .iter()
            .zip(0..)
            .all(|(page, slot)| plan.page_at(channel, slot) == *page)
    }

    fn carries_known_pages(rows: &[Row]) -> bool {
        let table = Rows {
            rows,
            channels: 4,
            period: 720,
        };
        begins(&table, 1, &[1, 1, 1, 1])
            && begins(&table, 2, &[2, 4, 2, 8, 2, 4, 2, 16, 2, 4, 2, 8])
            && begins(&table, 3, &[3, 6, 9, 3, 7, 18, 3, 6, 22, 3, 7, 9])
            && begins(&table, 4, &[5, 10, 12, 14, 15, 5, 11, 13, 20, 24])
    }

    // The plan of these pages on four channels carries the known pages, and the row after them stays as it was.
    fn known_plan(pages: u16, rows: &mut [Row], places: &mut [FreeSequence]) -> bool {
        let count = usize::from(pages);
        let mut bag = Bag::over(places);
        plan(1, 4, pages, rows, &mut bag) == Ok(720)
            && bag.len() == 0
            && rows.get(count) == Some(&OLD_ROW)
            && carries_known_pages(&rows[..count])
    }

    #[test]
    fn known_plan_on_four_channels(rt: HostRuntime) {
        assert!(rt; known_plan(25, &mut [OLD_ROW; 26], &mut [OLD_PLACE; 7]));
    }

    // A plan that is refused so leaves every row zero and the bag empty.
    fn refused(
        delay: u16,
        channels: u8,
        pages: u16,
        rows: &mut [Row],
        places: &mut [FreeSequence],
        refusal: Refusal,
    ) -> bool {
        let mut bag = Bag::over(places);
        let _ = bag.put(OLD_PLACE);
        plan(delay, channels, pages, rows, &mut bag) == Err(refusal)
            && bag.len() == 0
            && rows.iter().all(|row| *row == Row::default())
    }

    #[test]
    fn no_sequence_for_page_26(rt: HostRuntime) {
        assert!(rt;
            refused(
                1,
                4,
                26,
                &mut [OLD_ROW; 26],
                &mut [OLD_PLACE; 7],
                Refusal::NoFreeSequence(25),
            )
        );
    }

    // The fifth page on four channels needs a seventh place.
    #[test]
    fn one_place_too_few(rt: HostRuntime) {
        assert!(rt;
            refused(
                1,
                4,
                25,
                &mut [OLD_ROW; 26],
                &mut [OLD_PLACE; 6],
                Refusal::NoRoom,
            )
        );
        assert!(rt;
            refused(
                1,
                4,
                4,
                &mut [OLD_ROW; 26],
                &mut [OLD_PLACE; 3],
                Refusal::NoRoom,
            )
        );
    }

    #[test]
    fn too_few_rows(rt: HostRuntime) {
        assert!(rt;
            refused(
                1,
                4,
                25,
                &mut [OLD_ROW; 24],
                &mut [OLD_PLACE; 7],
                Refusal::NoRoom,
            )
        );
    }

    #[test]
    fn period_too_long(rt: HostRuntime) {
        assert!(rt;
            refused(
                7,
                3,
                50,
                &mut [OLD_ROW; 50],
                &mut [OLD_PLACE; 25],
                Refusal::PeriodTooLong,
            )
        );
    }

    // Out of range nothing changes.
    #[test]
    fn out_of_range(rt: HostRuntime) {
        let mut rows = [OLD_ROW; 2];
        let mut places = [OLD_PLACE; 2];
        let mut bag = Bag::over(&mut places);
        assert!(rt; bag.put(OLD_PLACE).is_ok());
        assert!(rt; plan(0, 1, 1, &mut rows, &mut bag) == Err(Refusal::OutOfRange));
        assert!(rt; plan(1, 9, 1, &mut rows, &mut bag) == Err(Refusal::OutOfRange));
        assert!(rt; plan(1, 1, 1025, &mut rows, &mut bag) == Err(Refusal::OutOfRange));
        assert!(rt; bag.len() == 1 && rows[0] == OLD_ROW && rows[1] == OLD_ROW);
    }
}
