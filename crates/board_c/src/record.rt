//! An answer as it crosses to C.

// Flags and zeros and no options: C reads it.
/// What is told of an answer. A field that its kind does not name is 0.
#[repr(C)]
#[derive(Clone, Copy, Default)]
pub struct AnswerRecord {
    /// The clock, of a report.
    pub now: u64,
    /// The ticks given to jobs so far, of a report.
    pub ran: u64,
    /// The ticks spent asleep so far, of a report.
    pub slept: u64,
    /// The due tick of the row's open job, of a report.
    pub due: u64,
    /// The row that ran, of a tick.
    pub row: u64,
    /// 0 released, 1 closed, 2 ticked, 3 reported, 4 refused.
    pub kind: u32,
    /// The refusal's number.
    pub number: u32,
    /// 1 where a row ran, of a tick, or has a job open, of a report.
    pub busy: u32,
    /// 1 where the alarm rang, of a tick.
    pub rang: u32,
    /// The ticks that the row's open job was given, of a report.
    pub given: u32,
}
