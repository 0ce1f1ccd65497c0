//! What is printed for a table's text: its plan, or the record of its refusal.
#![tactic(auto)]

mod lines;
pub mod page;
