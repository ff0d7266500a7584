//! One connection of an end: between whom it is, and the bytes that it carries both ways.
#![tactic(auto)]

pub mod connection;
pub mod memory;
pub mod pairing;
pub mod phase;
pub mod stream;
