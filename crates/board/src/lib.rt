//! The board: an earliest-deadline-first scheduler that puts its work off while it sleeps, over a plan and any alarm.
//!
//! `jobs` keeps a slot for each row and the queue of the open jobs' turns, `inner` the clock, the counts and the mode
//! over them, and `board` joins a core to its alarm. What a call does is told by the rules of the crate `rules`: each
//! call of a board is one step of them, and the builder carries what they promise of every list of calls.
#![tactic(auto)]

pub mod board;
mod inner;
mod jobs;
pub mod replay;
mod turn;
