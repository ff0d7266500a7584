ghost use Rattle.std.specs.Prelude.{◌≡◌};
ghost use Rattle.simulation.specs.Seen.{book_of, sent_to};

use crate::Simulation;
use crate::pair::{Pair, Side};
use ledger::book::Book;
use packet::packet::Packet;

impl<'m> Pair<'m> {
    pub(crate) fn book(&self, side: Side) -> &Book
        ensures { result.now ≡ book_of side self.now }
    {
        self.halves.get(side).party.book()
    }

    pub(crate) fn sent_to(&self, side: Side) -> &[Packet]
        ensures { result.now ≡ sent_to side self.now }
    {
        self.halves.get(side.other()).sent.as_slice()
    }
}

impl<'m> Simulation<'m> {
    /// What is written down of the users of a side.
    pub fn book(&self, side: Side) -> &Book
        ensures { result.now ≡ book_of side self.now.pair }
    {
        self.pair.book(side)
    }

    /// All packets that were ever sent to a side, the oldest first.
    pub fn sent_to(&self, side: Side) -> &[Packet]
        ensures { result.now ≡ sent_to side self.now.pair }
    {
        self.pair.sent_to(side)
    }
}
