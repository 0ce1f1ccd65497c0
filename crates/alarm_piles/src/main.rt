//! Shows the alarms at work: the waits that each kind chooses, and that piles of kinds ring when they said.
#![tactic(auto)]

mod drive;
mod figures;
mod piles;
mod stepped;

use crate::figures::{figures_hold, show_figures};
use crate::piles::show_piles;
use std::io;

fn main(rt: HostRuntime) -> io::Result<()> {
    figures_hold();
    show_figures(&rt)?;
    show_piles(&rt)
}
