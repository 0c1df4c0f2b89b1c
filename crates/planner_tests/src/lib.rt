#![tactic(auto)]

// Tests of timetables and planners: edges of every range, and timetables with absurd numbers.
#[cfg(test)]
mod tests {
    use fast::fast::Fast;
    use nodes::period::tree_period;
    use numbers::{gcd, lcm_within};
    use planner::pagoda::Pagoda;
    use plans::refusal::*;
    use records::kinds::*;
    use rows::period::rows_period;
    use rows::rows::*;
    use std::alloc::Global;
    use std::test::Fail;
    use timetable::grid::*;
    use timetable::interface::Timetable;
    use tree::plan::*;

    fn row(page: u16, channel: u8, start: u32, period: u32) -> Row {
        Row {
            page,
            channel,
            start,
            period,
        }
    }

    fn inner(first_child: u16, degree: u16) -> Node {
        Node::Inner(Inner {
            first_child,
            degree,
        })
    }

    // The pages that a pagoda plan deals, or its refusal.
    fn dealt(heap: Global, delay: u16, counts: &[u8]) -> Result<Result<u16, Refusal>, Fail> {
        let mut channels = Vec::new(heap);
        for count in counts {
            channels.push(Channel {
                subchannels: *count,
            })?;
        }
        Ok(Pagoda::plan(heap, delay, channels.as_slice()).map(|plan| plan.pages()))
    }

    #[test]
    fn pagoda_at_the_edges(rt: HostRuntime) -> Result<(), Fail> {
        let heap = rt.alloc();
        assert_eq!(rt; dealt(heap, 3, &[3])?, Ok(3));
        assert_eq!(rt; dealt(heap, 3, &[4])?, Err(Refusal::WrongSubchannels));
        assert_eq!(rt; dealt(heap, 1024, &[1])?, Ok(1024));
        assert_eq!(rt; dealt(heap, 1024, &[1, 1])?, Err(Refusal::TooManyPages));
        assert_eq!(rt; dealt(heap, 100, &[10])?, Err(Refusal::PeriodTooLong));
        assert_eq!(rt; dealt(heap, 0, &[1])?, Err(Refusal::OutOfRange));
        assert_eq!(rt; dealt(heap, 1025, &[1])?, Err(Refusal::OutOfRange));
        assert_eq!(rt; dealt(heap, 1, &[])?, Err(Refusal::OutOfRange));
        assert_eq!(rt; dealt(heap, 1, &[1; 8])?, Ok(255));
        assert_eq!(rt; dealt(heap, 1, &[1; 9])?, Err(Refusal::OutOfRange));
        assert_eq!(rt; dealt(heap, 33, &[33])?, Err(Refusal::WrongSubchannels));
        assert_eq!(rt; dealt(heap, 1, &[0])?, Err(Refusal::WrongSubchannels));
        Ok(())
    }

    #[test]
    fn numbers_of_refusals(rt: HostRuntime) {
        assert_eq!(rt;
            (
                Refusal::OutOfRange.number(),
                Refusal::WrongSubchannels.number(),
                Refusal::TooManyPages.number(),
                Refusal::PeriodTooLong.number(),
            ),
            (Some(1), Some(2), Some(3), Some(4))
        );
        assert_eq!(rt; Refusal::OutOfMemory.number(), None);
    }

    #[test]
    fn pagoda_questions(rt: HostRuntime) -> Result<(), Fail> {
        let heap = rt.alloc();
        let Ok(plan) = Pagoda::plan(heap, 4, &[Channel { subchannels: 2 }]) else {
            return Err(Fail::new("refused"));
        };
        assert_eq!(rt; plan.period(), 12);
        let mut sent = Vec::new(heap);
        for slot in 0..14 {
            sent.push(plan.page_at(1, slot))?;
        }
        assert!(rt; sent == vec![in heap; 1, 3, 2, 4, 1, 5, 2, 3, 1, 4, 2, 5, 1, 3]?);
        assert_eq!(rt;
            (
                plan.page_at(0, 0),
                plan.page_at(2, 0),
                plan.page_at(1, u32::MAX),
            ),
            (0, 0, 4)
        );
        Ok(())
    }

    // The first channel has the most subchannels that it may have, one page each; the second has one, of 64 pages.
    #[test]
    fn pagoda_with_most_subchannels(rt: HostRuntime) -> Result<(), Fail> {
        let heap = rt.alloc();
        let channels = [Channel { subchannels: 32 }, Channel { subchannels: 1 }];
        let Ok(plan) = Pagoda::plan(heap, 32, &channels) else {
            return Err(Fail::new("refused"));
        };
        assert_eq!(rt; (plan.pages(), plan.period()), (96, 64));
        assert_eq!(rt;
            (
                plan.page_at(1, 0),
                plan.page_at(1, 31),
                plan.page_at(1, 32),
                plan.page_at(1, 63),
            ),
            (1, 32, 1, 32)
        );
        assert_eq!(rt;
            (
                plan.page_at(2, 0),
                plan.page_at(2, 31),
                plan.page_at(2, 63),
                plan.page_at(3, 0),
            ),
            (33, 64, 96, 0)
        );
        Ok(())
    }

    #[test]
    fn fast_at_the_edges(rt: HostRuntime) -> Result<(), Fail> {
        assert!(rt; Fast::plan(0).is_err() && Fast::plan(9).is_err());
        let Ok(plan) = Fast::plan(8) else {
            return Err(Fail::new("refused"));
        };
        assert_eq!(rt;
            (plan.delay(), plan.pages(), plan.channels(), plan.period()),
            (1, 255, 8, 128)
        );
        assert_eq!(rt;
            (
                plan.page_at(1, 5),
                plan.page_at(3, 5),
                plan.page_at(8, 127),
                plan.page_at(9, 0),
            ),
            (1, 5, 255, 0)
        );
        Ok(())
    }

    #[test]
    fn absurd_grids(rt: HostRuntime) {
        let cells = [7u16, 8, 9];
        let empty = Grid {
            cells: &cells,
            channels: 1,
            period: 0,
        };
        assert_eq!(rt; empty.page_at(1, 0), 0);
        let silent = Grid {
            cells: &cells,
            channels: 0,
            period: 3,
        };
        assert_eq!(rt; (silent.page_at(0, 0), silent.page_at(1, 0)), (0, 0));
        let wide = Grid {
            cells: &cells,
            channels: 255,
            period: 2,
        };
        assert_eq!(rt;
            (
                wide.page_at(3, 4),
                wide.page_at(4, 4),
                wide.page_at(255, 1),
                wide.page_at(3, 5),
            ),
            (9, 0, 0, 0)
        );
        let long = Grid {
            cells: &cells,
            channels: 1,
            period: u32::MAX,
        };
        assert_eq!(rt;
            (
                long.page_at(1, 2),
                long.page_at(1, u32::MAX),
                long.page_at(1, u32::MAX - 1),
            ),
            (9, 7, 0)
        );
    }

    #[test]
    fn rows_at_the_edges(rt: HostRuntime) {
        let rows = [
            row(5, 1, 1, 2),
            row(3, 1, 2, 3),
            row(9, 1, 0, 0),
            row(4, 2, 7, 3),
        ];
        let plan = Rows {
            rows: &rows,
            channels: 2,
            period: 6,
        };
        assert_eq!(rt;
            (
                plan.page_at(1, 1),
                plan.page_at(1, 2),
                plan.page_at(1, 5),
                plan.page_at(1, 11),
            ),
            (5, 3, 3, 3)
        );
        assert_eq!(rt;
            (
                plan.page_at(1, 0),
                plan.page_at(2, 1),
                plan.page_at(3, 1),
                plan.page_at(0, 1),
            ),
            (0, 0, 0, 0)
        );
        assert_eq!(rt;
            (
                rows_period(&rows).is_err(),
                rows_period(&rows[0..2]).ok(),
                rows_period(&[]).ok(),
            ),
            (true, Some(6), Some(1))
        );
        let first = row(0, 1, 0, 1);
        let silenced = [first, row(3, 1, 0, 1)];
        assert_eq!(rt;
            Rows {
                rows: &silenced,
                channels: 1,
                period: 1,
            }
            .page_at(1, 0),
            0
        );
    }

    #[test]
    fn absurd_trees(rt: HostRuntime) {
        let heap = rt.alloc();
        let leaf = Node::Leaf(Leaf { page: 6 });
        let nodes = [inner(2, 2), inner(0, 1), leaf, inner(9, 1), inner(5, 0)];
        let plan = Tree {
            nodes: &nodes,
            channels: 255,
            period: u32::MAX,
        };
        assert_eq!(rt;
            (
                plan.page_at(1, 0),
                plan.page_at(1, 1),
                plan.page_at(2, 0),
                plan.page_at(5, 0),
                plan.page_at(6, 0),
            ),
            (6, 0, 0, 0, 0)
        );
        assert_eq!(rt;
            Tree {
                nodes: &nodes,
                channels: 1,
                period: 0,
            }
            .page_at(1, 0),
            0
        );
        assert_eq!(rt; tree_period(heap, &nodes, 1), Err(Refusal::WrongNode(1)));
        assert_eq!(rt;
            (
                tree_period(heap, &[], 1),
                tree_period(heap, &[leaf], 2),
                tree_period(heap, &[leaf; 9], 9),
            ),
            (
                Err(Refusal::OutOfRange),
                Err(Refusal::OutOfRange),
                Err(Refusal::OutOfRange),
            )
        );
        assert_eq!(rt;
            (
                tree_period(heap, &[leaf; 9], 8),
                tree_period(heap, &[leaf; 9], 0),
            ),
            (Ok(1), Err(Refusal::OutOfRange))
        );
    }

    #[test]
    fn divisors_and_multiples(rt: HostRuntime) {
        assert_eq!(rt;
            (gcd(0, 0), gcd(0, 7), gcd(12, 18), gcd(u32::MAX, u32::MAX)),
            (0, 7, 6, u32::MAX)
        );
        assert_eq!(rt;
            (
                lcm_within(4, 6, 12),
                lcm_within(4, 6, 11),
                lcm_within(0, 6, 0),
            ),
            (Some(12), None, Some(0))
        );
        assert_eq!(rt;
            (
                lcm_within(65536, 65537, u32::MAX),
                lcm_within(u32::MAX, u32::MAX - 1, u32::MAX),
            ),
            (None, None)
        );
    }
}
