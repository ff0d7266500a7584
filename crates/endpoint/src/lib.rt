//! One end of the transport: its connections, the calls of their users, and the packets that it hears and sends. It has no clock and no socket: whatever happens is a call, and what goes out is an answer.
#![tactic(auto)]

mod calls;
mod hearing;
mod numbers;
mod sending;

use lanes::LANES;
use lent::bits::WORDS;
use lent::inbox::Memory;
use packet::settings::{CAPACITY, Settings};
use table::Table;

/// Bytes of memory that an end is lent, two rings and the bits of one for each connection: it allocates none.
pub const MEMORY: usize = LANES * (2 * CAPACITY + WORDS * 8);

#[derive(Drop)]
pub struct Endpoint<'m> {
    table: Table,
    /// By lane.
    memory: &'m mut [Memory; LANES],
    /// Whether asks open connections.
    listens: bool,
    settings: Settings,
}

/// Why a call or a packet is refused. What is refused changes nothing, and nothing goes out.
#[derive(Clone, Copy, PartialEq, Eq, Debug)]
pub enum Refusal {
    /// More bytes than one text may have.
    TooLong,
    /// A tag of 0 where there must be one.
    ZeroTag,
    /// A place, an acknowledgement or an edge beyond what a stream can have.
    TooFar,
    /// No such connection.
    NotThere,
    /// The user closed.
    Closed,
    /// All lanes have connections that live.
    Full,
    /// A connection has the tag, or had it and is gone.
    TagThere,
    /// The stream has as many bytes as one can have.
    AllGiven,
}
