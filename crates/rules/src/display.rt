//! A call as it is typed.
ghost use Rattle.std.specs.Prelude.{Some};
ghost use Rattle.rules.specs.Printed.{call_text};

use crate::calls::Call;
use std::fmt;

impl fmt::Display for Call {
    ghost output = { λ call. Some (call_text call) };

    fn fmt<W: fmt::Write>(&self, f: &mut fmt::Formatter<W>) -> fmt::Result {
        match self {
            Call::Release(row) => write!(f, "release {row}"),
            Call::Done(row) => write!(f, "done {row}"),
            Call::Tick => write!(f, "tick"),
            Call::Report(row) => write!(f, "report {row}"),
        }
    }
}
