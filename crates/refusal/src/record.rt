//! The record of a refusal: five numbers, each 0 unless the case names it.
ghost use Rattle.std.specs.Prelude.{◌≡◌};
ghost use Rattle.refusal.specs.Records.{plain, located, valued, record_of};

use crate::cases::{Position, Refusal};

/// What is told of a refusal: its number, the layer that refused, and the line, place and value that it names.
#[derive(Clone, Copy, PartialEq, Eq, Debug, Default)]
pub struct Record {
    pub number: u32,
    pub layer: u32,
    pub line: usize,
    pub place: usize,
    pub value: u32,
}

// Number and layer are numbers, and what a case does not name is 0, as it is all printed.
/// Of a refusal that names nothing.
fn bare(number: u32, layer: u32) -> Record
    ensures { result ≡ plain number layer }
{
    Record {
        number,
        layer,
        ..Record::default()
    }
}

/// Of a refusal that names a line and a place.
fn in_text(number: u32, layer: u32, at: Position) -> Record
    ensures { result ≡ located number layer at }
{
    Record {
        line: at.line,
        place: at.place,
        ..bare(number, layer)
    }
}

/// Of a refusal that names a value.
fn with_value(number: u32, layer: u32, value: u32) -> Record
    ensures { result ≡ valued number layer value }
{
    Record {
        value,
        ..bare(number, layer)
    }
}

impl From<Refusal> for Record {
    ghost from_gives = { λ refusal told. told ≡ record_of refusal };

    fn from(refusal: Refusal) -> Record {
        match refusal {
            Refusal::TextLength => bare(1, 1),
            Refusal::LineForm(at) => in_text(2, 1, at),
            Refusal::RowCount(at) => in_text(3, 2, at),
            Refusal::RunAboveDue(at) => in_text(4, 2, at),
            Refusal::DueAboveGap(at) => in_text(5, 2, at),
            Refusal::GapLimit(at) => in_text(6, 2, at),
            Refusal::NameTaken(at) => in_text(7, 2, at),
            Refusal::CommonLimit(at) => in_text(8, 2, at),
            Refusal::TextAfter(at) => in_text(9, 2, at),
            Refusal::Overload { load } => with_value(10, 3, load),
            Refusal::Overdemand { window } => with_value(11, 3, window),
            Refusal::NoSuchRow => bare(12, 4),
            Refusal::TooSoon => bare(13, 4),
            Refusal::ClockEnd => bare(14, 4),
            Refusal::NoOpenJob => bare(15, 4),
            Refusal::NotBegun => bare(16, 4),
            Refusal::WarmUpLimit => bare(17, 5),
        }
    }
}

impl Refusal {
    /// The refusal's record.
    pub fn record(self) -> Record
        ensures { result ≡ record_of self }
    {
        Record::from(self)
    }
}
