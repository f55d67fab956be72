// Worked cases: rooms that the planner writes, number by number.
#![tactic(auto)]

#[cfg(test)]
mod tests {
    use judge::{Flaw, judge};
    use plans::{Done, plan};

    const UNTOUCHED: u32 = 7;

    // Whether all numbers are those that were there before. The trials have such a line too: a crate for it would be longer.
    fn untouched(room: &[u32]) -> bool {
        room.iter().all(|number| *number == UNTOUCHED)
    }

    // Hot from 60 to 50 with 2 and cold from 45 to 55 with 2, gap 10: the river, then the boiler, then what passes.
    #[test]
    fn fifteen_transfers(rt: HostRuntime) {
        let mut room = [UNTOUCHED; 6000];
        assert_eq!(rt;
            plan(&[1, 50, 60, 2, 0, 45, 55, 2], 10, &mut room),
            Done::Planned(15, 10)
        );
        let wanted = [
            (54, 65535),
            (53, 65535),
            (52, 65535),
            (51, 65535),
            (50, 65535),
            (65535, 64),
            (65535, 63),
            (65535, 62),
            (65535, 61),
            (65535, 60),
            (59, 59),
            (58, 58),
            (57, 57),
            (56, 56),
            (55, 55),
        ];
        let (threes, _) = room.as_chunks::<3>();
        for (transfer, (from, to)) in threes.iter().zip(wanted) {
            assert_eq!(rt; *transfer, [from, to, 2]);
        }
        assert!(rt; untouched(&room[45..]));
    }

    // A thousand degrees that each serve two fill a room of 6,000 numbers. What is left over, 1,000, lies in degree 0, which goes to the river;
    // degree 0 wants 999,999, of which degree 1 still has 999.
    #[test]
    fn two_thousand_transfers(rt: HostRuntime) {
        let mut room = [UNTOUCHED; 6000];
        assert_eq!(rt;
            plan(&[1, 0, 1000, 1_000_000, 0, 0, 1000, 999_999], 0, &mut room),
            Done::Planned(2000, 0)
        );
        let (threes, _) = room.as_chunks::<3>();
        assert_eq!(rt; threes[0], [0, 65535, 1000]);
        assert_eq!(rt; threes[1], [999, 999, 999_999]);
        assert_eq!(rt; threes[2], [999, 998, 1]);
        assert_eq!(rt; threes[1998], [1, 0, 999]);
        assert_eq!(rt; threes[1999], [0, 0, 999_000]);
    }

    #[test]
    fn nothing_to_plan(rt: HostRuntime) {
        let mut room = [UNTOUCHED; 6000];
        assert_eq!(rt; plan(&[], 1000, &mut room), Done::Planned(0, 0));
        assert!(rt; untouched(&room));
    }

    // What is turned away changes nothing.
    #[test]
    fn refusals(rt: HostRuntime) {
        let mut room = [UNTOUCHED; 6000];
        assert_eq!(rt; plan(&[1, 50, 60], 10, &mut room), Done::Refused(1));
        assert_eq!(rt; plan(&[1, 50, 60, 2], 941, &mut room), Done::Refused(2));
        assert!(rt; untouched(&room));
        let mut small = [UNTOUCHED; 5999];
        assert_eq!(rt; plan(&[1, 50, 60, 2], 10, &mut small), Done::Refused(3));
        assert!(rt; untouched(&small));
    }

    // What the judge says of the room that the planner writes.
    fn planned(streams: &[u32], gap: u64) -> Result<(), Flaw> {
        let mut room = [UNTOUCHED; 6000];
        let transfers = match plan(streams, gap, &mut room) {
            Done::Planned(transfers, _) => transfers as usize,
            Done::Refused(_) => return Err(Flaw::Unfit),
        };
        judge(streams, gap, &room, transfers)
    }

    // As in target_cases; a crate of cases stands on no other.
    const FOUR: [u32; 16] = [1, 60, 180, 3, 1, 30, 150, 1, 0, 20, 135, 2, 0, 80, 140, 4];

    // The streams of examples/brewery.txt.
    const BREWERY: [u32; 60] = [
        0, 12, 62, 25, 0, 62, 76, 28, 0, 74, 99, 30, 1, 80, 99, 18, 1, 55, 96, 12, 1, 18, 95, 29,
        0, 12, 80, 16, 0, 45, 85, 9, 1, 35, 80, 7, 1, 25, 65, 10, 1, 8, 22, 14, 1, 1, 8, 26, 0, 4,
        62, 11, 1, 6, 62, 11, 0, 12, 65, 6,
    ];

    #[test]
    fn the_judge_finds_planned_rooms_good(rt: HostRuntime) {
        for gap in [0, 10, 20, 40] {
            assert_eq!(rt; planned(&FOUR, gap), Ok(()));
        }
        assert_eq!(rt; planned(&BREWERY, 6), Ok(()));
        assert_eq!(rt;
            planned(&[1, 0, 1000, 1_000_000, 0, 0, 1000, 999_999], 0),
            Ok(())
        );
        assert_eq!(rt; planned(&[], 0), Ok(()));
    }

    // Another adviser's plan: one number of the fifteen transfers is another.
    fn changed(place: usize, number: u32) -> Result<(), Flaw> {
        let streams = [1, 50, 60, 2, 0, 45, 55, 2];
        let mut room = [UNTOUCHED; 6000];
        let _ = plan(&streams, 10, &mut room);
        if let Some(there) = room.get_mut(place) {
            *there = number;
        }
        judge(&streams, 10, &room, 15)
    }

    #[test]
    fn the_judge_names_what_is_wrong(rt: HostRuntime) {
        // as it was written
        assert_eq!(rt; changed(44, 2), Ok(()));
        // 55 gives and gets less than it has and wants
        assert_eq!(rt; changed(44, 1), Err(Flaw::Unbalanced(55)));
        // the boiler gives more to 62
        assert_eq!(rt; changed(23, 3), Err(Flaw::Unbalanced(62)));
        // a transfer of nothing
        assert_eq!(rt; changed(2, 0), Err(Flaw::OutOfOrder(0)));
        // 54 to the river a second time
        assert_eq!(rt; changed(3, 54), Err(Flaw::OutOfOrder(1)));
        // from a degree that isn't there
        assert_eq!(rt; changed(3, 1000), Err(Flaw::OutOfOrder(1)));
        // 58 to 59, upward
        assert_eq!(rt; changed(30, 58), Err(Flaw::OutOfOrder(10)));
        // what stands behind the fifteen is no part of the plan
        assert_eq!(rt; changed(45, 3), Ok(()));
    }
}
