//! The record of a refusal as it is printed.
ghost use Rattle.std.specs.Prelude.{Some};
ghost use Rattle.refusal.specs.Printed.{record_text};

use crate::cases::Refusal;
use crate::record::Record;
use std::error::Error;
use std::fmt;

impl fmt::Display for Refusal {
    ghost output = { λ e. Some (record_text e) };

    fn fmt<W: fmt::Write>(&self, f: &mut fmt::Formatter<W>) -> fmt::Result {
        let Record {
            number,
            layer,
            line,
            place,
            value,
        } = Record::from(*self);
        write!(
            f,
            "(refused {number} (layer {layer}) (line {line}) (place {place}) (value {value}))"
        )
    }
}

impl Error for Refusal {}
