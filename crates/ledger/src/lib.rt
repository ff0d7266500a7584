//! What is written down of the users of one end: of each connection that it ever had, and the bytes that they gave and
//! were given.
#![tactic(auto)]

pub mod book;
pub mod record;
