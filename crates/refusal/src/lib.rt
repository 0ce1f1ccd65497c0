//! Why something was refused: one enum for the whole project, and the record by which each case is told.
#![tactic(auto)]

pub mod cases;
pub mod display;
pub mod explain;
pub mod record;
