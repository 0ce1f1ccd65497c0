//! A refusal told to a person, in one sentence.
ghost use Rattle.std.specs.Prelude.{◌≡◌, Some};
ghost use Rattle.refusal.specs.Explained.{reason_of, sentence};

use crate::cases::Refusal;
use crate::record::Record;
use std::fmt;

impl Refusal {
    /// What is wrong, in a few words.
    pub fn reason(self) -> &'static str
        ensures { result.now ≡ reason_of self }
    {
        match self {
            Refusal::TextLength => "the text is empty or has more than 8192 bytes",
            Refusal::LineForm(_) =>
                "here the line leaves the form of a table's line, or the text stops short",
            Refusal::RowCount(_) => "the count of rows is not 1 to 64",
            Refusal::RunAboveDue(_) => "the run is above the due",
            Refusal::DueAboveGap(_) => "the due is above the gap",
            Refusal::GapLimit(_) => "the gap is above 100000 ticks",
            Refusal::NameTaken(_) => "an earlier row has this name",
            Refusal::CommonLimit(_) =>
                "the common period of the rows so far is above 1000000 ticks",
            Refusal::TextAfter(_) => "something stands after the last row",
            Refusal::Overload { load: _ } =>
                "in a common period the rows ask for more ticks than it has: they ask for",
            Refusal::Overdemand { window: _ } =>
                "a window of time can demand more ticks than it has: the shortest has",
            Refusal::NoSuchRow => "there is no such row",
            Refusal::TooSoon => "the row's gap since its last release is not over",
            Refusal::ClockEnd => "the clock has reached its last tick",
            Refusal::NoOpenJob => "the row has no open job",
            Refusal::NotBegun => "the row's job has had no tick yet",
            Refusal::WarmUpLimit => "a warm-up has 1 to 1000 ticks",
        }
    }
}

/// A refusal, to be printed as a sentence.
#[derive(Clone, Copy)]
pub struct Sentence(pub Refusal);

impl fmt::Display for Sentence {
    ghost output = { λ s. Some (sentence s.0) };

    fn fmt<W: fmt::Write>(&self, f: &mut fmt::Formatter<W>) -> fmt::Result {
        let reason = self.0.reason();
        let Record {
            line,
            place,
            value,
            ..
        } = Record::from(self.0);
        if line > 0 {
            return write!(f, "Refused at line {line}, byte {place}: {reason}.");
        }
        if value > 0 {
            return write!(f, "Refused: {reason} {value} ticks.");
        }
        write!(f, "Refused: {reason}.")
    }
}
