//! The table of an end's connections: each lives in a lane, and an order of age stands beside.
#![tactic(auto)]

ghost use Rattle.std.specs.Prelude.{◌≡◌, length};
ghost use Rattle.lanes.specs.declared.TheConstants.{LANES};

mod calls;

use connection::connection::Connection;
use lanes::{LANES, Lanes};

#[derive(Drop)]
pub struct Table {
    /// By lane, beside the memory that is lent for each: this is the end's own, and no heap could hold both.
    pub conns: [Connection; LANES],
    pub lanes: Lanes,
    ghost sized: { length conns ≡ LANES },
}

/// The connection that a search is for.
// A name for each search and no closure: contracts above name the search, and a closure would carry its clauses to each call.
#[derive(Clone, Copy, PartialEq, Eq, Debug)]
pub enum Wanted {
    /// It has this tag and is not gone.
    Tag(u64),
    /// It answers this tag of the other end and is not gone.
    Peer(u64),
    /// It had this tag and is gone.
    Gone(u64),
}
