//! The examples of docs/table-text.md, as tests.
#![tactic(auto)]

#[cfg(test)]
mod tests {
    use refusal::cases::{Position, Refusal};
    use std::test::Fail;
    use table::name::name_of;
    use table::read::read;

    const THREE_ROWS: &[u8] =
        b"(table 3)\n(task head (run 8) (due 16) (gap 16))\n(task lens (run 12) (due 28) (gap 28))\n(task fan (run 1) (due 56) (gap 56))\n";

    // What a text is refused for, if it is.
    fn refusal_of(text: &[u8]) -> Option<Refusal> {
        read(text).err()
    }

    #[test]
    fn checks_are_asked_in_turn(rt: HostRuntime) {
        assert_eq!(rt; refusal_of(b""), Some(Refusal::TextLength));
        assert_eq!(rt;
            refusal_of(b"(table 65)\n"),
            Some(Refusal::RowCount(Position { line: 1, place: 0 }))
        );
        assert_eq!(rt;
            refusal_of(b"(table 1)\n(task head (run 9) (due 8) (gap 7))\n"),
            Some(Refusal::RunAboveDue(Position { line: 2, place: 10 }))
        );
        assert_eq!(rt;
            refusal_of(b"(table 1)\n(task head (run 8) (due 9) (gap 7))\n"),
            Some(Refusal::DueAboveGap(Position { line: 2, place: 10 }))
        );
        assert_eq!(rt;
            refusal_of(b"(table 1)\n(task head (run 8) (due 9) (gap 100001))\n"),
            Some(Refusal::GapLimit(Position { line: 2, place: 10 }))
        );
        assert_eq!(rt;
            refusal_of(b"(table 1)\n(task head (run 8) (due 9) (gap 100000))\n"),
            None
        );
        assert_eq!(rt;
            refusal_of(
                b"(table 2)\n(task head (run 8) (due 16) (gap 16))\n(task head (run 8) (due 16) (gap 16))\n",
            ),
            Some(Refusal::NameTaken(Position { line: 3, place: 48 }))
        );
        assert_eq!(rt;
            refusal_of(
                b"(table 2)\n(task head (run 8) (due 16) (gap 16))\n(task head (run 1) (due 2) (gap 1))\n",
            ),
            Some(Refusal::DueAboveGap(Position { line: 3, place: 48 }))
        );
        assert_eq!(rt;
            refusal_of(
                b"(table 2)\n(task a (run 1) (due 1) (gap 1000))\n(task b (run 1) (due 1) (gap 1001))\n",
            ),
            Some(Refusal::CommonLimit(Position { line: 3, place: 46 }))
        );
        assert_eq!(rt;
            refusal_of(
                b"(table 2)\n(task a (run 1) (due 1) (gap 64))\n(task b (run 1) (due 1) (gap 15625))\n",
            ),
            None
        );
        assert_eq!(rt;
            refusal_of(b"(table 2)\n(task a (run 1) (due 1) (gap 100001))\n(tusk"),
            Some(Refusal::GapLimit(Position { line: 2, place: 10 }))
        );
        assert_eq!(rt;
            refusal_of(
                b"(table 1)\n(task head (run 8) (due 16) (gap 16))\n(task head (run 8) (due 16) (gap 16))\n",
            ),
            Some(Refusal::TextAfter(Position { line: 3, place: 48 }))
        );
    }

    #[test]
    fn a_wrong_byte_is_told_by_its_place(rt: HostRuntime) {
        assert_eq!(rt;
            refusal_of(b"(table 1)\n(tusk head (run 8) (due 16) (gap 16))\n"),
            Some(Refusal::LineForm(Position { line: 2, place: 12 }))
        );
        assert_eq!(rt;
            refusal_of(b"(table 1)\n(task Head (run 8) (due 16) (gap 16))\n"),
            Some(Refusal::LineForm(Position { line: 2, place: 16 }))
        );
        assert_eq!(rt;
            refusal_of(b"(table 1)\n(task 3d (run 8) (due 16) (gap 16))\n"),
            Some(Refusal::LineForm(Position { line: 2, place: 16 }))
        );
        assert_eq!(rt;
            refusal_of(b"(table 1)\n(task abcdefghijkl (run 8) (due 16) (gap 16))\n"),
            None
        );
        assert_eq!(rt;
            refusal_of(b"(table 1)\n(task abcdefghijklm (run 8) (due 16) (gap 16))\n"),
            Some(Refusal::LineForm(Position { line: 2, place: 28 }))
        );
        assert_eq!(rt;
            refusal_of(b"(table 1)\n(task head  (run 8) (due 16) (gap 16))\n"),
            Some(Refusal::LineForm(Position { line: 2, place: 21 }))
        );
        assert_eq!(rt;
            refusal_of(b"(table 1)\n(task head (run 08) (due 16) (gap 16))\n"),
            Some(Refusal::LineForm(Position { line: 2, place: 26 }))
        );
        assert_eq!(rt;
            refusal_of(b"(table 1)\n(task head (run 12345678) (due 16) (gap 16))\n"),
            Some(Refusal::LineForm(Position { line: 2, place: 33 }))
        );
        assert_eq!(rt;
            refusal_of(b"(table 0)\n"),
            Some(Refusal::LineForm(Position { line: 1, place: 7 }))
        );
        assert_eq!(rt;
            refusal_of(b"(table 1)\n(task\thead (run 8) (due 16) (gap 16))\n"),
            Some(Refusal::LineForm(Position { line: 2, place: 15 }))
        );
        assert_eq!(rt;
            refusal_of(b"(table 1)\r\n(task head (run 8) (due 16) (gap 16))\n"),
            Some(Refusal::LineForm(Position { line: 1, place: 9 }))
        );
        assert_eq!(rt;
            refusal_of(b"(table 1)\n(task head (due 8) (run 16) (gap 16))\n"),
            Some(Refusal::LineForm(Position { line: 2, place: 22 }))
        );
        assert_eq!(rt;
            refusal_of(b"(tables 3)\n"),
            Some(Refusal::LineForm(Position { line: 1, place: 6 }))
        );
    }

    #[test]
    fn a_text_that_stops_short_is_told_by_its_length(rt: HostRuntime) {
        assert_eq!(rt;
            refusal_of(b"(table 1)\n(task head (run 8) (due 16) (ga"),
            Some(Refusal::LineForm(Position { line: 2, place: 41 }))
        );
        assert_eq!(rt;
            refusal_of(b"(table 1)\n(task head (run 8) (due 16) (gap 16))"),
            Some(Refusal::LineForm(Position { line: 2, place: 47 }))
        );
        assert_eq!(rt;
            refusal_of(b"(table 2)\n(task head (run 8) (due 16) (gap 16))\n"),
            Some(Refusal::LineForm(Position { line: 3, place: 48 }))
        );
        assert_eq!(rt;
            refusal_of(b"(table 1)"),
            Some(Refusal::LineForm(Position { line: 1, place: 9 }))
        );
    }

    #[test]
    fn a_table_has_its_tasks_and_their_common_period(rt: HostRuntime) -> Result<(), Fail> {
        let table = read(THREE_ROWS)?;
        assert_eq!(rt; table.common(), 112);
        let tasks = table.tasks();
        assert!(rt; tasks.len() == 3);
        assert_eq!(rt; tasks[1].run, 12);
        assert_eq!(rt; tasks[1].due, 28);
        assert_eq!(rt; tasks[1].gap, 28);
        Ok(())
    }

    #[test]
    fn a_name_is_the_part_of_the_text(rt: HostRuntime) {
        assert!(rt; THREE_ROWS.len() == 124);
        assert_eq!(rt; name_of(THREE_ROWS, 1), Some(&THREE_ROWS[54..58]));
        assert_eq!(rt; name_of(THREE_ROWS, 3), None);
        assert_eq!(rt; name_of(b"(table 1)\n", 0), None);
    }
}
