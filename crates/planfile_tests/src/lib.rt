// Tests of plan files: what is written, what is left alone, and every refusal of writing.
#![tactic(auto)]

#[cfg(test)]
mod tests {
    use format::fault::*;
    use format::plan::*;
    use planfile::reader::read_plan;
    use planwriter::writer::write_plan;
    use records::fault::*;
    use records::kinds::*;
    use std::alloc::{AllocError, Global};
    use std::test::Fail;

    const FILM: Film = Film {
        delay: 4,
        pages: 0x105,
        channels: 2,
    };

    const ROW: Row = Row {
        page: 0x102,
        channel: 3,
        start: 0x4050607,
        period: 0x8090a0b,
    };

    const CLOSED: Closure = Closure {
        channel: 1,
        slot: 0x20000b,
    };

    fn plan(heap: Global, parts: Parts, closures: usize) -> Result<Plan, AllocError> {
        Ok(Plan {
            film: FILM,
            parts,
            closures: vec![in heap; CLOSED; closures]?,
        })
    }

    // Writing a plan of these parts into a list of 300 nines is refused with this fault, and the list stays as it was.
    fn refuses(heap: Global, parts: Parts, closures: usize, fault: WriteFault) -> Result<(), Fail> {
        let mut out = vec![in heap; 9u8; 300]?;
        if write_plan(heap, &plan(heap, parts, closures)?, out.as_mut_slice()) != Err(fault) {
            return Err(Fail::new("another answer"));
        }
        if out != vec![in heap; 9u8; 300]? {
            return Err(Fail::new("the list changed"));
        }
        Ok(())
    }

    #[test]
    fn writes_rows_and_closures(rt: HostRuntime) -> Result<(), Fail> {
        let heap = rt.alloc();
        let mut out = [9u8; 27];
        let rows = Parts::Rows(vec![in heap; ROW]?);
        assert_eq!(rt; write_plan(heap, &plan(heap, rows, 1)?, &mut out), Ok(25));
        assert_eq!(rt;
            out,
            [
                1, 0, 4, 1, 5, 2, 3, 1, 2, 3, 4, 5, 6, 7, 8, 9, 10, 11, 6, 1, 0, 32, 0, 11, 0, 9, 9,
            ]
        );
        Ok(())
    }

    #[test]
    fn writes_channels_and_nodes(rt: HostRuntime) -> Result<(), Fail> {
        let heap = rt.alloc();
        let mut out = [9u8; 12];
        let channels = Parts::Pagoda(vec![in heap;
            Channel { subchannels: 7 },
            Channel { subchannels: 8 },
        ]?);
        assert_eq!(rt;
            write_plan(heap, &plan(heap, channels, 0)?, &mut out),
            Ok(11)
        );
        assert_eq!(rt; out, [1, 0, 4, 1, 5, 2, 2, 7, 2, 8, 0, 9]);
        let mut out = [9u8; 15];
        let nodes = Parts::Tree(vec![in heap;
            Node::Inner(Inner {
                first_child: 258,
                degree: 772
            }),
            Node::Leaf(Leaf { page: 1286 }),
        ]?);
        assert_eq!(rt; write_plan(heap, &plan(heap, nodes, 0)?, &mut out), Ok(15));
        assert_eq!(rt; out, [1, 0, 4, 1, 5, 2, 5, 1, 2, 3, 4, 4, 5, 6, 0]);
        Ok(())
    }

    #[test]
    fn reads_what_it_wrote(rt: HostRuntime) -> Result<(), Fail> {
        let heap = rt.alloc();
        let mut out = [0u8; 25];
        let rows = Parts::Rows(vec![in heap; ROW]?);
        assert_eq!(rt; write_plan(heap, &plan(heap, rows, 1)?, &mut out), Ok(25));
        let back = read_plan(heap, &out)?;
        assert_eq!(rt; back.film, FILM);
        assert!(rt; back.closures == vec![in heap; CLOSED]?);
        let Parts::Rows(rows) = &back.parts else {
            return Err(Fail::new("no rows"));
        };
        assert!(rt; *rows == vec![in heap; ROW]?);
        Ok(())
    }

    #[test]
    fn refuses_no_parts_and_too_many(rt: HostRuntime) -> Result<(), Fail> {
        let heap = rt.alloc();
        let one = Channel { subchannels: 1 };
        let leaf = Node::Leaf(Leaf { page: 1 });
        refuses(
            heap,
            Parts::Tree(Vec::new(heap)),
            0,
            WriteFault::Unfit(Fault::OutOfPlace(6)),
        )?;
        refuses(
            heap,
            Parts::Rows(Vec::new(heap)),
            1,
            WriteFault::Unfit(Fault::OutOfPlace(6)),
        )?;
        refuses(
            heap,
            Parts::Pagoda(vec![in heap; one; 9]?),
            0,
            WriteFault::Unfit(Fault::OutOfPlace(22)),
        )?;
        refuses(
            heap,
            Parts::Rows(vec![in heap; ROW; 1025]?),
            0,
            WriteFault::Unfit(Fault::OutOfPlace(12294)),
        )?;
        refuses(
            heap,
            Parts::Tree(vec![in heap; leaf; 2049]?),
            0,
            WriteFault::Unfit(Fault::OutOfPlace(6150)),
        )?;
        refuses(
            heap,
            Parts::Pagoda(vec![in heap; one]?),
            65,
            WriteFault::Unfit(Fault::OutOfPlace(392)),
        )
    }

    #[test]
    fn refuses_too_long_and_no_room(rt: HostRuntime) -> Result<(), Fail> {
        let heap = rt.alloc();
        let one = Channel { subchannels: 1 };
        refuses(
            heap,
            Parts::Rows(vec![in heap; ROW; 2730]?),
            0,
            WriteFault::Unfit(Fault::OutOfPlace(12294)),
        )?;
        refuses(
            heap,
            Parts::Rows(vec![in heap; ROW; 2731]?),
            0,
            WriteFault::Unfit(Fault::TooLong),
        )?;
        refuses(
            heap,
            Parts::Rows(vec![in heap; ROW; 40000]?),
            0,
            WriteFault::Unfit(Fault::TooLong),
        )?;
        refuses(
            heap,
            Parts::Rows(vec![in heap; ROW; 25]?),
            0,
            WriteFault::NoRoom,
        )?;
        refuses(
            heap,
            Parts::Pagoda(vec![in heap; one; 8]?),
            47,
            WriteFault::NoRoom,
        )
    }
}
