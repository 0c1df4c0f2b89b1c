#![tactic(auto)]

// Tests of stations over timetables that are written out, most of them over a loop of five pages: one channel, delay 4, period 12.
#[cfg(test)]
mod tests {
    use bag::bag::Bag;
    use bag::finding::Finding;
    use checker::refusal::{CheckRefusal, FindingsRefusal, Stray};
    use records::kinds::Closure;
    use station::refusal::*;
    use station::slip::Slip;
    use station::station::Station;
    use std::test::Fail;
    use survey::refusal::SurveyRefusal;
    use timetable::grid::Grid;

    const LOOP: [u16; 12] = [1, 3, 2, 4, 1, 5, 2, 3, 1, 4, 2, 5];

    // A grid of one channel that carries these pages in turn.
    fn one_channel(cells: &[u16], period: u32) -> Grid {
        Grid {
            cells,
            channels: 1,
            period,
        }
    }

    fn all_zero(cells: &[u32]) -> bool {
        cells.iter().all(|cell| *cell == 0)
    }

    // Closes an entry and keeps the slip.
    fn closing(station: &mut Station<Grid>, channel: u8, slot: u32) -> Result<(), Refusal> {
        let slip = station.close(channel, slot)?;
        slip.keep();
        Ok(())
    }

    // Opens an entry again; a slip that is refused is kept.
    fn reopening(station: &mut Station<Grid>, slip: Slip) -> Result<(), Refusal> {
        station.reopen(slip).map_err(|(refusal, back)| {
            back.keep();
            refusal
        })
    }

    // The slip that a station hands back because it is another's, or because its entry is not closed.
    fn refused_by(station: &mut Station<Grid>, slip: Slip) -> Result<Slip, Fail> {
        match station.reopen(slip) {
            Err((Refusal::OtherSlip, back)) => Ok(back),
            Err((_, back)) => {
                back.keep();
                Err(Fail::new("the slip was not refused"))
            }
            Ok(()) => Err(Fail::new("the slip was not refused")),
        }
    }

    #[test]
    fn closes_entries_of_the_timetable_once(rt: HostRuntime) {
        let cells = LOOP;
        let mut station = Station::new(4, 5, one_channel(&cells, 12), 7);
        assert!(rt; closing(&mut station, 0, 0) == Err(Refusal::NoEntry));
        assert!(rt; closing(&mut station, 2, 0) == Err(Refusal::NoEntry));
        assert!(rt; closing(&mut station, 1, 12) == Err(Refusal::NoEntry));
        assert!(rt; closing(&mut station, 1, 11) == Ok(()));
        assert!(rt; closing(&mut station, 1, 11) == Err(Refusal::ClosedAlready));
        let mut empty = Station::new(4, 5, one_channel(&cells, 0), 7);
        assert!(rt; closing(&mut empty, 1, 0) == Err(Refusal::NoEntry));
    }

    // The one channel has 100 slots, of which 64 can be closed.
    #[test]
    fn closes_64_entries(rt: HostRuntime) {
        let cells = LOOP;
        let mut station = Station::new(4, 5, one_channel(&cells, 100), 7);
        for slot in 0..64 {
            assert!(rt; closing(&mut station, 1, slot) == Ok(()));
        }
        assert!(rt; closing(&mut station, 1, 64) == Err(Refusal::TableFull));
        assert!(rt; closing(&mut station, 1, 63) == Err(Refusal::ClosedAlready));
        assert!(rt; closing(&mut station, 1, 100) == Err(Refusal::NoEntry));
    }

    // A slip is taken by the station of its mark where its entry is closed, and handed back by any other.
    #[test]
    fn reopens_by_its_own_slip(rt: HostRuntime) -> Result<(), Fail> {
        let cells = LOOP;
        let mut station = Station::new(4, 5, one_channel(&cells, 12), 7);
        let mut other = Station::new(4, 5, one_channel(&cells, 12), 8);
        let mut twin = Station::new(4, 5, one_channel(&cells, 12), 7);
        let slip = station.close(1, 11)?;
        let slip = refused_by(&mut other, slip)?;
        let slip = refused_by(&mut twin, slip)?;
        let own = slip.mark() == 7
            && slip.entry()
                == Closure {
                    channel: 1,
                    slot: 11,
                };
        let reopened = reopening(&mut station, slip);
        assert!(rt; own && reopened == Ok(()));
        assert!(rt; closing(&mut station, 1, 11) == Ok(()));
        Ok(())
    }

    // What a check with garbage in the scratch answers; the scratch is all zero then.
    fn checked(delay: u16, pages: u16, grid: Grid) -> Result<(), Refusal> {
        let mut scratch = [9; 4];
        let mut station = Station::new(delay, pages, grid, 7);
        let answer = station.check(&mut scratch);
        if all_zero(&scratch) {
            answer
        } else {
            Err(Refusal::ShortList)
        }
    }

    // The refusal of a check that finds this page starving.
    fn starving(page: u16, slot: u32) -> Result<(), Refusal> {
        Err(Refusal::Checking(CheckRefusal::Starves(Finding { page, slot })))
    }

    const OUT_OF_RANGE: Result<(), Refusal> = Err(Refusal::Checking(CheckRefusal::OutOfRange));

    #[test]
    fn check_out_of_range(rt: HostRuntime) {
        let cells = [1; 9];
        assert!(rt; checked(0, 1, one_channel(&cells, 1)) == OUT_OF_RANGE);
        assert!(rt; checked(1, 1025, one_channel(&cells, 1)) == OUT_OF_RANGE);
        assert!(rt; checked(1, 1, one_channel(&cells, 0)) == OUT_OF_RANGE);
        assert!(rt; checked(1, 1, one_channel(&cells, 65_537)) == OUT_OF_RANGE);
        let none = Grid {
            cells: &cells,
            channels: 0,
            period: 1,
        };
        assert!(rt; checked(1, 1, none) == OUT_OF_RANGE);
        let nine = Grid {
            cells: &cells,
            channels: 9,
            period: 1,
        };
        assert!(rt; checked(1, 1, nine) == OUT_OF_RANGE);
    }

    // A stray entry is told before a starving page, and neither without scratch.
    #[test]
    fn check_refuses_in_order(rt: HostRuntime) {
        let stray = Refusal::Checking(CheckRefusal::Strays(Stray {
            slot: 1,
            channel: 1,
            page: 3,
        }));
        assert!(rt; checked(2, 2, one_channel(&[1, 3], 2)) == Err(stray));
        assert!(rt;
            checked(2, 3, one_channel(&[1, 9], 2))
                == Err(Refusal::Checking(CheckRefusal::ShortScratch))
        );
        assert!(rt; checked(1, 1, one_channel(&[1, 0], 2)) == starving(1, 1));
        assert!(rt; checked(2, 1, one_channel(&[1, 0], 2)) == Ok(()));
        assert!(rt; checked(1, 2, one_channel(&[], 3)) == starving(1, 0));
    }

    // What starves of three pages on a silent channel, with a record in the bag before it.
    fn found(scratch: &mut [u32], bag: &mut Bag<Finding>) -> Result<usize, Refusal> {
        let _ = bag.put(Finding { page: 9, slot: 9 });
        Station::new(1, 3, one_channel(&[], 1), 7).findings(scratch, bag)
    }

    #[test]
    fn findings_fill_the_bag(rt: HostRuntime) {
        let mut scratch = [9; 7];
        let mut places = [Finding { page: 7, slot: 7 }; 3];
        let mut bag = Bag::over(&mut places);
        assert!(rt; found(&mut scratch, &mut bag) == Ok(3));
        assert!(rt; all_zero(&scratch));
        assert!(rt; bag.take_first(0) == Some(Finding { page: 1, slot: 0 }));
        assert!(rt; bag.take_first(0) == Some(Finding { page: 2, slot: 0 }));
        assert!(rt; bag.take_first(0) == Some(Finding { page: 3, slot: 0 }));
        assert!(rt; bag.len() == 0);
    }

    #[test]
    fn findings_refuse_and_leave_an_empty_bag(rt: HostRuntime) {
        let mut scratch = [9; 6];
        let mut places = [Finding { page: 7, slot: 7 }; 2];
        let mut bag = Bag::over(&mut places);
        assert!(rt;
            found(&mut scratch, &mut bag) == Err(Refusal::Finding(FindingsRefusal::ShortBag))
        );
        assert!(rt; bag.len() == 0 && all_zero(&scratch));
        let mut short = [9; 5];
        assert!(rt;
            found(&mut short, &mut bag) == Err(Refusal::Finding(FindingsRefusal::ShortScratch))
        );
        assert!(rt; bag.len() == 0 && all_zero(&short));
    }

    #[test]
    fn survey_refuses_in_order(rt: HostRuntime) {
        let cells = [1; 4097];
        let mut scratch = [9; 3];
        let mut station = Station::new(1, 1, one_channel(&cells, 4097), 7);
        assert!(rt; station.survey(&mut scratch) == Err(Refusal::NotPassed) && all_zero(&scratch));
        assert!(rt; station.check(&mut scratch) == Ok(()));
        let mut short = [9; 1];
        assert!(rt;
            station.survey(&mut short) == Err(Refusal::Surveying(SurveyRefusal::ShortScratch))
        );
        let long = station.survey(&mut scratch);
        assert!(rt; long == Err(Refusal::Surveying(SurveyRefusal::LongPeriod)) && all_zero(&short));
    }

    // On air: the clock runs, nothing else is granted but to withdraw, and then the station is open.
    #[test]
    fn sends_slot_by_slot(rt: HostRuntime) {
        let cells = [1, 2, 2, 1];
        let grid = Grid {
            cells: &cells,
            channels: 2,
            period: 2,
        };
        let mut station = Station::new(1, 2, grid, 7);
        let mut list = [9; 3];
        assert!(rt; station.air() == Err(Refusal::NotPassed));
        assert!(rt; station.check(&mut [9; 4]) == Ok(()) && station.is_passed());
        assert!(rt; station.tick(&mut list) == Err(Refusal::NotOnAir));
        assert!(rt; station.withdraw() == Err(Refusal::NotOnAir));
        assert!(rt; station.air() == Ok(()) && !station.is_passed());
        assert!(rt; station.air() == Err(Refusal::OnAir));
        assert!(rt; station.check(&mut [9; 4]) == Err(Refusal::OnAir));
        assert!(rt; closing(&mut station, 1, 0) == Err(Refusal::OnAir));
        assert!(rt; station.tick(&mut [9; 1]) == Err(Refusal::ShortList));
        assert!(rt; station.tick(&mut list) == Ok(0) && list == [1, 2, 9]);
        assert!(rt; station.tick(&mut list) == Ok(1) && list == [2, 1, 9]);
        assert!(rt; station.withdraw() == Ok(()));
        assert!(rt; station.air() == Err(Refusal::NotPassed));
    }

    // A closed entry is not sent, and a station that was passed is open after closing and after opening again.
    #[test]
    fn closing_and_reopening_undo_the_check(rt: HostRuntime) -> Result<(), Fail> {
        let mut station = Station::new(2, 1, one_channel(&[1, 1], 2), 7);
        let mut scratch = [9; 2];
        assert!(rt; station.check(&mut scratch) == Ok(()));
        let slip = station.close(1, 0)?;
        let open = !station.is_passed();
        let passes = station.check(&mut scratch) == Ok(());
        let reopened = reopening(&mut station, slip);
        assert!(rt; open && passes && reopened == Ok(()));
        assert!(rt; !station.is_passed());
        Ok(())
    }

    #[test]
    fn loop_of_five_pages(rt: HostRuntime) -> Result<(), Fail> {
        let cells = LOOP;
        let mut scratch = [9; 10];
        let mut station = Station::new(4, 5, one_channel(&cells, 12), 7);
        assert!(rt; station.check(&mut scratch) == Ok(()));
        assert!(rt; station.survey(&mut scratch) == Ok((5, 1)));
        let slip = station.close(1, 11)?;
        let starves = station.check(&mut scratch) == starving(5, 6);
        let reopened = reopening(&mut station, slip);
        assert!(rt; starves && reopened == Ok(()));
        assert!(rt; closing(&mut station, 1, 0) == Ok(()));
        assert!(rt; station.check(&mut scratch) == starving(1, 0) && all_zero(&scratch));
        Ok(())
    }
}
