//! From a table's tasks to its plan: whether every window has room for what it may be asked, and how long each row
//! may sleep.
//!
//! A window of t ticks can be asked for at most need(t) of them (the demand bound function). A table is accepted when
//! no window, however long, can be asked for more ticks than it has; the sleep of a row is the smallest margin
//! t - need(t) of all windows at least as long as its due. `walk` meets the points at which the need grows in time
//! order, `sleeps` makes all sleeps from one such walk, and `plan` is what a caller gets.
#![tactic(auto)]

mod period;
pub mod plan;
mod point;
mod point_order;
mod sleeps;
mod walk;
