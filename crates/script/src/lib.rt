//! Lines of a script: calls of users, moments of ends, doings of the net.
#![tactic(auto)]

mod argument;
pub mod line;
pub mod print;
pub mod read;
mod word;
