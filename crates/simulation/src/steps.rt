ghost use Rattle.ledger.specs.Books.{accounts};
ghost use Rattle.ledger.specs.Sentence.{Sentence};
ghost use Rattle.std.specs.Prelude.{◌≡◌};
ghost use Rattle.simulation.specs.Carry.{BroughtBy};
ghost use Rattle.simulation.specs.Events.{events};
ghost use Rattle.simulation.specs.Shows.{Does, who_of};

use crate::Simulation;
use crate::command::{Answer, Command};
use crate::pair::{Pair, Side};
use lanes::LANES;
use lent::inbox::Memory;
use packet::settings::Settings;
use party::Fault;
use std::alloc::Global;

// The sentence stands on each contract and in no ghost field: that callers read it there is what the crate is for.

impl<'m> Simulation<'m> {
    pub fn new(
        heap: Global,
        settings: Settings,
        left: &'m mut [Memory; LANES],
        right: &'m mut [Memory; LANES],
    ) -> Simulation<'m>
        ensures sentence { Sentence (accounts result.pair.halves.left.party.book) (accounts result.pair.halves.right.party.book) }
    {
        Simulation {
            pair: Pair::new(heap, settings, left, right),
        }
    }

    /// As a new one, over the same memory.
    pub fn restart(self, heap: Global, settings: Settings) -> Simulation<'m>
        ensures sentence { Sentence (accounts result.pair.halves.left.party.book) (accounts result.pair.halves.right.party.book) }
    {
        Simulation {
            pair: self.pair.restart(heap, settings),
        }
    }

    /// One line of a script, whatever it is; where it is refused nothing happens. Whatever was done before, what is written down
    /// of the two users keeps the sentence.
    pub fn step(&mut self, command: Command<'_>) -> Result<Answer, Fault>
        ensures did { Does self.old.pair self.new.pair (events self.old.pair command.entry result) }
        ensures sentence { Sentence (accounts self.new.pair.halves.left.party.book) (accounts self.new.pair.halves.right.party.book) }
    {
        self.pair.obey(command)
    }

    /// Makes the moves which bring over all that was given to the connection of a side with a tag, while it and the other's live:
    /// what is due of those that owe something or open, answers, hearings and takings, nothing else. The answer is how many it
    /// took; afterwards all came, with the end if there is one. So no state is a dead end.
    pub fn carry(&mut self, side: Side, tag: u64) -> Result<u64, Fault>
        ensures brought { BroughtBy self.old.pair self.new.pair (who_of side) tag result }
        ensures sentence { Sentence (accounts self.new.pair.halves.left.party.book) (accounts self.new.pair.halves.right.party.book) }
    {
        self.pair.carry(side, tag)
    }
}
