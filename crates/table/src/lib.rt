//! From the bytes of a table's text to its tasks.
//!
//! `read` judges a text: a table, or the first check that says no. `name` hands out a row's name as the part of the
//! text itself. `rows` and `task` say what a table is once it is read: its tasks within their limits, with their
//! common period. Below them, unseen from outside: tokens, the cursor that moves over them, and the two kinds of line.
#![tactic(auto)]

mod cursor;
mod line;
pub mod name;
mod period;
pub mod read;
pub mod rows;
pub mod task;
mod token;
