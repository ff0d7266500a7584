//! The two rings of a connection in memory that is lent: the numbers of a ring stand by value, its bytes in memory that is passed in.
#![tactic(auto)]

pub mod bits;
pub mod inbox;
pub mod incoming;
pub mod receiver;
pub mod ring;
pub mod sender;
pub mod source;
