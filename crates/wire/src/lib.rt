//! Packets in bytes: the reader, the writer, and what holds of them.
#![tactic(auto)]

pub mod fault;
pub mod format;
pub mod laws;
mod numbers;
