// Worked cases: texts, good and bad, beside what is to be said of them.
#![tactic(auto)]

#[cfg(test)]
mod tests {
    use std::alloc::Global;
    use std::test::Fail;

    const FOUR: &str = "hot 180 60 3\nhot 150 30 1\ncold 20 135 2\ncold 80 140 4\n";

    // What is printed, or why the text is turned away.
    fn said(heap: Global, text: &[u8]) -> Result<String, Fail> {
        match text::answer(heap, text) {
            Ok(printed) => Ok(printed),
            Err(turned) => Ok(turned.to_string(heap)?),
        }
    }

    // Each text of the table, behind these first lines, is answered by what stands beside it, or the first that is not is the test's failure.
    fn expect_each(heap: Global, first: &str, table: &[(&str, &str)]) -> Result<(), Fail> {
        for (more, wanted) in table {
            let text = format!(in heap; "{first}{more}")?;
            let answer = said(heap, text.as_bytes())?;
            if answer.as_str() != *wanted {
                return Err(Fail::new(format_args!(
                    "{more:?} is answered by {answer:?}, and not by {wanted:?}"
                )));
            }
        }
        Ok(())
    }

    #[test]
    fn the_four_streams(rt: HostRuntime) -> Result<(), Fail> {
        let table = [
            ("", "boiler 0, river 10, nothing is lacking\n"),
            ("gap 0", "boiler 0, river 10, nothing is lacking\n"),
            ("gap 10", "boiler 20, river 30, nothing passes at 90\n"),
            ("gap 20\n", "boiler 60, river 70, nothing passes at 100\n"),
            (
                "\tgap   40 # wide\r\n\n",
                "boiler 140, river 150, nothing passes at 120\n",
            ),
        ];
        expect_each(rt.alloc(), FOUR, &table)
    }

    // No streams, one, two; blanks, comments, ends of lines; the limits; and plans.
    #[test]
    fn texts_that_are_taken(rt: HostRuntime) -> Result<(), Fail> {
        let table = [
            ("", "boiler 0, river 0, nothing is lacking\n"),
            ("\n\n", "boiler 0, river 0, nothing is lacking\n"),
            (
                "# only a comment",
                "boiler 0, river 0, nothing is lacking\n",
            ),
            ("  \t \r\n", "boiler 0, river 0, nothing is lacking\n"),
            ("gap 10", "boiler 0, river 0, nothing is lacking\n"),
            ("gap 1000", "boiler 0, river 0, nothing is lacking\n"),
            ("plan", "boiler 0, river 0, nothing is lacking\n"),
            (
                "cold 20 30 2\ngap 10",
                "boiler 20, river 0, nothing passes at 0\n",
            ),
            ("hot 60 50 2", "boiler 0, river 20, nothing is lacking\n"),
            (
                "hot 60 50 2\ncold 20 30 2\ngap 10",
                "boiler 0, river 0, nothing is lacking\n",
            ),
            (
                "hot 60 50 2\ngap 10\ncold 45 55 2",
                "boiler 10, river 10, nothing passes at 55\n",
            ),
            (
                "hot\t60\t50\t2\r\ncold 45 55 2\r\ngap 10\r\n",
                "boiler 10, river 10, nothing passes at 55\n",
            ),
            (
                "hot 60 50 2#x\n  cold 45 55 2 # y\n\ngap 10#",
                "boiler 10, river 10, nothing passes at 55\n",
            ),
            (
                "hot 060 50 002\ncold 45 55 2\ngap 10",
                "boiler 10, river 10, nothing passes at 55\n",
            ),
            ("hot 1 0 1", "boiler 0, river 1, nothing is lacking\n"),
            ("cold 0 1 1", "boiler 1, river 0, nothing passes at 0\n"),
            (
                "hot 1000 999 1000000",
                "boiler 0, river 1000000, nothing is lacking\n",
            ),
            (
                "cold 0 1000 1",
                "boiler 1000, river 0, nothing passes at 0\n",
            ),
            (
                "hot 2 1 5\ncold 1 2 5",
                "boiler 0, river 0, nothing is lacking\n",
            ),
            (
                "hot 2 1 5\ncold 0 1 5",
                "boiler 0, river 0, nothing is lacking\n",
            ),
            (
                "hot 1 0 5\ncold 1 2 5",
                "boiler 5, river 5, nothing passes at 1\n",
            ),
            (
                "cold 1 2 3\nplan",
                "boiler 3, river 0, nothing passes at 0\nboiler to 1, 3\n",
            ),
            (
                "hot 2 1 3\nplan",
                "boiler 0, river 3, nothing is lacking\n1 to river, 3\n",
            ),
            (
                "plan\nhot 1 0 5\ncold 1 2 5",
                "boiler 5, river 5, nothing passes at 1\n0 to river, 5\nboiler to 1, 5\n",
            ),
            (
                "hot 3 2 4\ncold 0 2 2\nplan",
                "boiler 0, river 0, nothing is lacking\n2 to 1, 2\n2 to 0, 2\n",
            ),
        ];
        expect_each(rt.alloc(), "", &table)
    }

    // The first line that can't be read is named, whatever the streams are.
    #[test]
    fn lines_that_cannot_be_read(rt: HostRuntime) -> Result<(), Fail> {
        let table = [
            (
                "wram 1 2 3",
                "turned away 4 at 0: line 1 begins with 'wram', and a line begins with hot, cold, gap or plan",
            ),
            (
                "hot 180 60 3\n\nwram",
                "turned away 4 at 2: line 3 begins with 'wram', and a line begins with hot, cold, gap or plan",
            ),
            (
                "HOT 60 50 2",
                "turned away 4 at 0: line 1 begins with 'HOT', and a line begins with hot, cold, gap or plan",
            ),
            (
                "hot60 50 2",
                "turned away 4 at 0: line 1 begins with 'hot60', and a line begins with hot, cold, gap or plan",
            ),
            (
                "hot",
                "turned away 4 at 0: line 1 ends too early: hot and cold are followed by three whole numbers, gap by one",
            ),
            (
                "hot 60 50 # 2",
                "turned away 4 at 0: line 1 ends too early: hot and cold are followed by three whole numbers, gap by one",
            ),
            (
                "gap",
                "turned away 4 at 0: line 1 ends too early: hot and cold are followed by three whole numbers, gap by one",
            ),
            (
                "gap +1",
                "turned away 4 at 0: line 1 has '+1' where a whole number below 4294967296 is wanted",
            ),
            (
                "gap -1",
                "turned away 4 at 0: line 1 has '-1' where a whole number below 4294967296 is wanted",
            ),
            (
                "gap 1.5",
                "turned away 4 at 0: line 1 has '1.5' where a whole number below 4294967296 is wanted",
            ),
            (
                "gap 4294967296",
                "turned away 4 at 0: line 1 has '4294967296' where a whole number below 4294967296 is wanted",
            ),
            (
                "gap 99999999999999999999999",
                "turned away 4 at 0: line 1 has '99999999999999999999999' where a whole number below 4294967296 is wanted",
            ),
            (
                "hot 60 50 two",
                "turned away 4 at 0: line 1 has 'two' where a whole number below 4294967296 is wanted",
            ),
            (
                "hot 60 50 2 2",
                "turned away 4 at 0: line 1 goes on with '2', where nothing more is wanted",
            ),
            (
                "gap 10 10",
                "turned away 4 at 0: line 1 goes on with '10', where nothing more is wanted",
            ),
            (
                "plan now",
                "turned away 4 at 0: line 1 goes on with 'now', where nothing more is wanted",
            ),
            (
                "gap 1\ngap 1",
                "turned away 4 at 1: line 2 gives the gap a second time, and once is enough",
            ),
            (
                "plan\n\nplan",
                "turned away 4 at 2: line 3 asks for the plan a second time, and once is enough",
            ),
            (
                "hot 60 180 3\nnonsense",
                "turned away 4 at 1: line 2 begins with 'nonsense', and a line begins with hot, cold, gap or plan",
            ),
        ];
        expect_each(rt.alloc(), "", &table)
    }

    // The line of the first stream that breaks a rule, or of the gap.
    #[test]
    fn rules_that_are_broken(rt: HostRuntime) -> Result<(), Fail> {
        let table = [
            (
                "# a\nhot 60 180 3",
                "turned away 2 at 0: line 2 ('hot 60 180 3') runs the wrong way or has no width: a hot stream is written from its higher temperature down, a cold one from its lower one up",
            ),
            (
                "cold 55 45 2",
                "turned away 2 at 0: line 1 ('cold 55 45 2') runs the wrong way or has no width: a hot stream is written from its higher temperature down, a cold one from its lower one up",
            ),
            (
                "hot 50 50 2",
                "turned away 2 at 0: line 1 ('hot 50 50 2') runs the wrong way or has no width: a hot stream is written from its higher temperature down, a cold one from its lower one up",
            ),
            (
                "hot 2 1 1\ngap 1001",
                "turned away 2 at 0: line 2 ('gap 1001') has a gap above 1000, and 0 to 1000 is allowed",
            ),
            (
                "gap 4294967295",
                "turned away 2 at 0: line 1 ('gap 4294967295') has a gap above 1000, and 0 to 1000 is allowed",
            ),
            (
                "hot 2 1 1\n\nhot 1000 1 1\ngap 1",
                "turned away 2 at 1: line 3 ('hot 1000 1 1') is too warm: the higher temperature and the gap may come to 1000 together at most",
            ),
            (
                "cold 0 1001 1",
                "turned away 2 at 0: line 1 ('cold 0 1001 1') is too warm: the higher temperature and the gap may come to 1000 together at most",
            ),
            (
                "hot 2 1 0",
                "turned away 2 at 0: line 1 ('hot 2 1 0') has heat for each degree that isn't 1 to 1000000",
            ),
            (
                "hot 2 1 1000001",
                "turned away 2 at 0: line 1 ('hot 2 1 1000001') has heat for each degree that isn't 1 to 1000000",
            ),
        ];
        expect_each(rt.alloc(), "", &table)
    }

    #[test]
    fn one_stream_too_many(rt: HostRuntime) -> Result<(), Fail> {
        let mut text = "hot 2 1 5\n".repeat(rt.alloc(), 64)?;
        assert_eq!(rt;
            said(rt.alloc(), text.as_bytes())?.as_str(),
            "boiler 0, river 320, nothing is lacking\n"
        );
        text.push_str("# one more\nhot 2 1 5\n")?;
        assert_eq!(rt;
            said(rt.alloc(), text.as_bytes())?.as_str(),
            "turned away 1 at 260: line 66 ('hot 2 1 5') is one stream more than the 64 that are taken"
        );
        Ok(())
    }

    // Bytes that are no ASCII stand in comments as they are, and are shown by their numbers in a sentence.
    #[test]
    fn odd_bytes(rt: HostRuntime) -> Result<(), Fail> {
        assert_eq!(rt;
            said(rt.alloc(), b"hot 60 50 2 # W\xfcrze")?.as_str(),
            "boiler 0, river 20, nothing is lacking\n"
        );
        assert_eq!(rt;
            said(rt.alloc(), b"gap 1\n\xff\x00 1")?.as_str(),
            "turned away 4 at 1: line 2 begins with '\\xff\\x00', and a line begins with hot, cold, gap or plan"
        );
        assert_eq!(rt;
            said(rt.alloc(), b"!~\x7f 1")?.as_str(),
            "turned away 4 at 0: line 1 begins with '!~\\x7f', and a line begins with hot, cold, gap or plan"
        );
        Ok(())
    }

    // Of a long word the first forty bytes are shown, and all of one that has no more.
    #[test]
    fn long_words(rt: HostRuntime) -> Result<(), Fail> {
        assert_eq!(rt;
            said(rt.alloc(), b"gap 0123456789012345678901234567890123456789")?.as_str(),
            "turned away 4 at 0: line 1 has '0123456789012345678901234567890123456789' where a whole number below 4294967296 is wanted"
        );
        assert_eq!(rt;
            said(rt.alloc(), b"gap 0123456789012345678901234567890123456789x")?.as_str(),
            "turned away 4 at 0: line 1 has '0123456789012345678901234567890123456789...' where a whole number below 4294967296 is wanted"
        );
        Ok(())
    }
}
