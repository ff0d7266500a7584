//! Words, numbers and data in a line of bytes.
#![tactic(auto)]

pub mod data;
pub mod front;
pub mod word;
