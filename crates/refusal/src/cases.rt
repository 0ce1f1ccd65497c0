//! The cases of a refusal, in the order of their numbers.

/// A line of the text and a byte in it: lines count from 1, places are byte offsets from 0.
#[derive(Clone, Copy, PartialEq, Eq, Debug)]
pub struct Position {
    pub line: usize,
    pub place: usize,
}

/// Everything that this project refuses. A case holds the values that its record names.
#[derive(Clone, Copy, PartialEq, Eq, Debug)]
pub enum Refusal {
    /// 1: the text is empty or too long.
    TextLength,
    /// 2: a line has not its form; the place is that of the first byte that no such line could have there.
    LineForm(Position),
    /// 3: the count of rows is outside its limits.
    RowCount(Position),
    /// 4: a row's run is above its due.
    RunAboveDue(Position),
    /// 5: a row's due is above its gap.
    DueAboveGap(Position),
    /// 6: a row's gap is above its limit.
    GapLimit(Position),
    /// 7: a row has the name of an earlier one.
    NameTaken(Position),
    /// 8: the common period of the rows so far is above its limit.
    CommonLimit(Position),
    /// 9: something stands after the last row.
    TextAfter(Position),
    /// 10: the load is above the common period.
    Overload { load: u32 },
    /// 11: a window demands more ticks than it has; the shortest such window.
    Overdemand { window: u32 },
    /// 12: there is no such row.
    NoSuchRow,
    /// 13: a release comes before the row's gap is over.
    TooSoon,
    /// 14: the clock has reached its last tick.
    ClockEnd,
    /// 15: the row has no open job.
    NoOpenJob,
    /// 16: the row's open job has had no tick yet.
    NotBegun,
    /// 17: a warm-up is outside its limits.
    WarmUpLimit,
}
