// Worked cases: four streams whose targets are theorems, and rows that are run.
#![tactic(auto)]

ghost use Rattle.target_cases.specs.Four.{Row};
ghost use Rattle.std.specs.Prelude.{Some, None};

// With no gap the four streams need nothing, and 10 goes to the river. With a gap of 10 they need 20, 30 goes to the river, and nothing passes at 90.
#[tactic(auto, using(crate::proofs::Rows::without_gap, crate::proofs::Rows::with_gap_10))]
pub fn four_streams()
    ensures without_gap { Row 0 0 10 None }
    ensures with_gap_10 { Row 10 20 30 (Some 90) }
{}

#[cfg(test)]
mod tests {
    use streams::check;
    use targets::Targets;

    const FOUR: [u32; 16] = [1, 60, 180, 3, 1, 30, 150, 1, 0, 20, 135, 2, 0, 80, 140, 4];

    // What is bought, what goes to the river, and the pinch; as a tuple, so that a row of the tests stays a line.
    fn found(numbers: &[u32], gap: u64) -> Option<(u64, u64, Option<usize>)> {
        let table = check(numbers, gap).ok()?;
        let t = Targets::of_streams(&table);
        Some((t.heating, t.cooling, t.pinch))
    }

    #[test]
    fn four_streams(rt: HostRuntime) {
        assert_eq!(rt; found(&FOUR, 0), Some((0, 10, None)));
        assert_eq!(rt; found(&FOUR, 10), Some((20, 30, Some(90))));
        assert_eq!(rt; found(&FOUR, 20), Some((60, 70, Some(100))));
        assert_eq!(rt; found(&FOUR, 40), Some((140, 150, Some(120))));
    }

    #[test]
    fn one_and_two_streams(rt: HostRuntime) {
        assert_eq!(rt;
            found(&[1, 50, 60, 2, 0, 20, 30, 2], 10),
            Some((0, 0, None))
        );
        assert_eq!(rt;
            found(&[1, 50, 60, 2, 0, 45, 55, 2], 10),
            Some((10, 10, Some(55)))
        );
        assert_eq!(rt; found(&[0, 20, 30, 2], 10), Some((20, 0, Some(0))));
        assert_eq!(rt; found(&[], 10), Some((0, 0, None)));
    }
}
