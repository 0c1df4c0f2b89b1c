#![tactic(auto)]

// Tests of receivers, feedings and surveys, on a loop of five pages: one channel, delay 4, period 12.
#[cfg(test)]
mod tests {
    use feeding::feed;
    use feeding::viewing::Stop;
    use receiver::refusal::Refusal;
    use receiver::states::Receiver;
    use std::alloc::Global;
    use std::test::Fail;
    use survey::refusal::SurveyRefusal;
    use survey::survey;
    use timetable::grid::Grid;

    const LOOP: [u16; 12] = [1, 3, 2, 4, 1, 5, 2, 3, 1, 4, 2, 5];

    // The lines of nine slots of the loop, from slot 0 or 1 on.
    fn nine_lines(heap: Global, from: usize) -> Result<Vec<Vec<u16>>, Fail> {
        let mut lines = Vec::new(heap);
        for page in LOOP.iter().skip(from).take(9) {
            let mut line = Vec::new(heap);
            line.push(*page)?;
            lines.push(line)?;
        }
        Ok(lines)
    }

    // Room for four pages is enough for a tune-in at slot 0; from slot 1 on the fifth slot is refused.
    #[test]
    fn four_pages_of_room(rt: HostRuntime) -> Result<(), Fail> {
        let heap = rt.alloc();
        let mut store = [9; 5];
        let from_0 = feed(heap, 4, 5, 4, &mut store, nine_lines(heap, 0)?.as_slice())?;
        assert!(rt; from_0.stop == Ok(Stop::FilmWhole) && from_0.peak == 4);
        assert!(rt; from_0.shows.as_slice() == [1, 2, 3, 4, 5].as_slice());
        assert!(rt; from_0.stocks.as_slice() == [1, 2, 3, 4, 4, 4, 3, 2, 1].as_slice());
        let from_1 = feed(heap, 4, 5, 4, &mut store, nine_lines(heap, 1)?.as_slice())?;
        assert!(rt; from_1.stop == Err(Refusal::Full) && from_1.peak == 4);
        assert!(rt; from_1.shows.len() == 0 && from_1.stocks.len() == 4);
        Ok(())
    }

    #[test]
    fn survey_names_the_first_greatest_peak(rt: HostRuntime) {
        let cells = LOOP;
        let grid = Grid {
            cells: &cells,
            channels: 1,
            period: 12,
        };
        let mut scratch = [9; 11];
        assert!(rt; survey(&grid, 4, 5, &mut scratch) == Ok((5, 1)));
        assert!(rt; scratch[0] == 0 && scratch[10] == 0);
    }

    #[test]
    fn survey_refuses(rt: HostRuntime) {
        let cells = LOOP;
        let mut scratch = [9; 10];
        let long = Grid {
            cells: &cells,
            channels: 1,
            period: 4097,
        };
        assert!(rt; survey(&long, 4, 5, &mut scratch) == Err(SurveyRefusal::LongPeriod));
        assert!(rt; scratch[9] == 0);
        let mut short = [9; 9];
        assert!(rt; survey(&long, 4, 5, &mut short) == Err(SurveyRefusal::ShortScratch));
        assert!(rt; short[8] == 0);
    }

    // A repeat, a page that is held and numbers beyond the film add nothing.
    #[test]
    fn hears_and_starts(rt: HostRuntime) -> Result<(), Fail> {
        let mut store = [7; 3];
        let mut waiting = Receiver::tune(1, 2, 2, &mut store)?;
        assert!(rt; store[1] == 0 && store[2] == 7);
        assert!(rt; waiting.hear(&mut store, &[2, 0, 3, 2, 9]).is_ok());
        assert!(rt; waiting.hear(&mut store, &[1]) == Err(Refusal::HeardAll));
        assert!(rt; waiting.finish() == (0, 1));
        Ok(())
    }
}
