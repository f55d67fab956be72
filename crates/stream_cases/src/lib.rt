// Worked cases: numbers, gaps and rooms at the edge of each rule, and sums of a few streams.
#![tactic(auto)]

#[cfg(test)]
mod tests {
    use std::alloc::{AllocError, Global};
    use std::test::Fail;
    use streams::{check, check_with_room};

    // The number and the place of the refusal, if there is one: these are what callers get and what is printed.
    fn refused(numbers: &[u32], gap: u64, room: &[u32]) -> Option<(u64, usize)> {
        let refusal = check_with_room(numbers, gap, room).err()?;
        Some((refusal.number(), refusal.place()))
    }

    // A stream, a gap, and the number of the refusal, if there is one.
    #[test]
    fn one_stream_at_the_edge_of_each_rule(rt: HostRuntime) {
        let table = [
            // the gap
            ([1, 0, 1, 1], 999, None),
            ([1, 0, 1, 1], 1000, Some(2)),
            ([1, 0, 1, 1], 1001, Some(2)),
            ([0, 0, 1, 1], u64::MAX, Some(2)),
            // the mark
            ([0, 0, 1, 1], 0, None),
            ([1, 0, 1, 1], 0, None),
            ([2, 0, 1, 1], 0, Some(2)),
            ([u32::MAX, 0, 1, 1], 0, Some(2)),
            // low and high
            ([1, 4, 5, 1], 0, None),
            ([1, 5, 5, 1], 0, Some(2)),
            ([0, 6, 5, 1], 0, Some(2)),
            // high and the gap
            ([0, 0, 1000, 1], 0, None),
            ([0, 0, 1001, 1], 0, Some(2)),
            ([0, 0, 990, 1], 10, None),
            ([0, 0, 991, 1], 10, Some(2)),
            ([1, 0, 990, 1], 10, None),
            ([1, 0, 991, 1], 10, Some(2)),
            ([1, 0, u32::MAX, 1], 1000, Some(2)),
            // heat for each degree
            ([1, 0, 1, 0], 0, Some(2)),
            ([1, 0, 1, 1_000_000], 0, None),
            ([1, 0, 1, 1_000_001], 0, Some(2)),
        ];
        for (stream, gap, number) in table {
            let refusal = number.map(|number| (number, 0));
            assert_eq!(rt; refused(&stream, gap, &[0; 6000]), refusal);
        }
    }

    // Two streams, of which the second or both break a rule.
    #[test]
    fn the_first_stream_that_breaks_a_rule(rt: HostRuntime) {
        let room = [0; 6000];
        assert_eq!(rt; refused(&[1, 0, 1, 1, 0, 0, 1, 1], 0, &room), None);
        assert_eq!(rt; refused(&[1, 0, 1, 1, 0, 1, 1, 1], 0, &room), Some((2, 1)));
        assert_eq!(rt; refused(&[1, 0, 1, 0, 2, 0, 1, 1], 0, &room), Some((2, 0)));
        assert_eq!(rt;
            refused(&[1, 0, 1, 1, 2, 0, 1, 1], 1001, &room),
            Some((2, 0))
        );
    }

    // So many sound streams, and numbers that are no whole stream behind them.
    fn many(heap: Global, count: usize, more: &[u32]) -> Result<Option<(u64, usize)>, AllocError> {
        let mut numbers = [1, 0, 1, 1].repeat(heap, count)?;
        numbers.extend_from_slice(more)?;
        Ok(refused(numbers.as_slice(), 0, &[0; 6000]))
    }

    #[test]
    fn how_many_numbers(rt: HostRuntime) -> Result<(), Fail> {
        assert_eq!(rt; refused(&[], 0, &[0; 6000]), None);
        assert_eq!(rt; refused(&[], 1000, &[0; 6000]), None);
        assert_eq!(rt; refused(&[], 1001, &[0; 6000]), Some((2, 0)));
        assert_eq!(rt; many(rt.alloc(), 1, &[1, 0, 1])?, Some((1, 7)));
        assert_eq!(rt; many(rt.alloc(), 64, &[])?, None);
        assert_eq!(rt; many(rt.alloc(), 64, &[1])?, Some((1, 257)));
        assert_eq!(rt; many(rt.alloc(), 65, &[])?, Some((1, 260)));
        Ok(())
    }

    #[test]
    fn how_large_a_room(rt: HostRuntime) {
        let room = [0; 6001];
        assert_eq!(rt; refused(&[1, 0, 1, 1], 0, &room[..5999]), Some((3, 5999)));
        assert_eq!(rt; refused(&[1, 0, 1, 1], 0, &room[..6000]), None);
        assert_eq!(rt; refused(&[1, 0, 1, 1], 0, &room), None);
        assert_eq!(rt; refused(&[1, 0, 1, 1], 0, &[]), Some((3, 0)));
    }

    // The rule with the lower number answers.
    #[test]
    fn two_rules_at_once(rt: HostRuntime) {
        assert_eq!(rt; refused(&[1, 0, 1], 1001, &[]), Some((1, 3)));
        assert_eq!(rt; refused(&[1, 1, 1, 1], 0, &[]), Some((2, 0)));
        assert_eq!(rt; refused(&[1, 0, 1, 1], 1001, &[]), Some((2, 0)));
    }

    // Cold from 20 to 30 with a gap of 10 takes in the degrees 30 to 39, hot from 20 to 30 gives in 20 to 29.
    #[test]
    fn degrees_of_a_stream(rt: HostRuntime) -> Result<(), Fail> {
        let Ok(table) = check(&[0, 20, 30, 2, 1, 20, 30, 3, 0, 0, 21, 5], 10) else {
            return Err(Fail::new("refused"));
        };
        assert_eq!(rt; table.streams().len(), 3);
        let loads = table.loads();
        let wanted = [
            (9, 0, 0),
            (10, 0, 5),
            (19, 0, 5),
            (20, 3, 5),
            (29, 3, 5),
            (30, 0, 7),
            (31, 0, 2),
            (39, 0, 2),
            (40, 0, 0),
            (999, 0, 0),
        ];
        for (degree, supply, demand) in wanted {
            assert_eq!(rt; loads.supply.get(degree).copied(), Some(supply));
            assert_eq!(rt; loads.demand.get(degree).copied(), Some(demand));
        }
        Ok(())
    }
}
