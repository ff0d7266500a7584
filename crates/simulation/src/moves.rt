// What can happen to a pair. Each function is the event of the model that its contract names, or nothing where it is refused.
ghost use Rattle.std.specs.Prelude.{◌≡◌, [], ◌∷◌, length, take};
ghost use Rattle.hold.specs.World.{Breaks, Closes, Due, Forgets, Gives, Hears, Listens, Opens, Takes, start};
ghost use Rattle.packet.specs.Agreed.{cfg_of};
ghost use Rattle.simulation.specs.Shows.{Does, Placed, Shows, answers, net_to, sends, when_ok, who_of};

use crate::half::Half;
use crate::pair::{Pair, Side, Sides};
use lanes::LANES;
use lent::inbox::Memory;
use packet::packet::Span;
use packet::settings::Settings;
use party::Fault;
use std::alloc::Global;

// A side and a tag stay two parameters here: each function takes them apart at once, the half by the one, its connection by the other.

impl<'m> Pair<'m> {
    pub fn new(
        heap: Global,
        settings: Settings,
        left: &'m mut [Memory; LANES],
        right: &'m mut [Memory; LANES],
    ) -> Pair<'m>
        ensures { Shows (cfg_of settings) result start }
    {
        Pair {
            halves: Sides {
                left: Half::new(heap, settings, left),
                right: Half::new(heap, settings, right),
            },
            drawn: Vec::new(heap),
        }
    }

    /// As a new one, over the same memory.
    pub fn restart(self, heap: Global, settings: Settings) -> Pair<'m>
        ensures { Shows (cfg_of settings) result start }
    {
        Pair {
            halves: Sides {
                left: self.halves.left.restart(heap, settings),
                right: self.halves.right.restart(heap, settings),
            },
            drawn: Vec::new(heap),
        }
    }

    pub fn listen(&mut self, side: Side, on: bool)
        ensures { Does self.old self.new (λ _. Listens (who_of side) on ∷ []) }
    {
        self.halves.get_mut(side).party.listen(on)
    }

    pub fn open(&mut self, side: Side, tag: u64) -> Result<(), Fault>
        ensures { Does self.old self.new (λ _. when_ok (λ _. Opens (who_of side) tag ∷ []) result) }
    {
        self.halves.get_mut(side).open(&mut self.drawn, tag)
    }

    pub fn give(&mut self, side: Side, tag: u64, bytes: &[u8]) -> Result<usize, Fault>
        ensures { Does self.old self.new (λ _. when_ok (λ n. Gives (who_of side) tag (take n bytes.now) ∷ []) result) }
    {
        self.halves.get_mut(side).party.give(tag, bytes)
    }

    pub fn take(&mut self, side: Side, tag: u64, out: &mut [u8]) -> Result<usize, Fault>
        ensures { Does self.old self.new (λ _. when_ok (λ _. Takes (who_of side) tag (length out.old) ∷ []) result) }
    {
        self.halves.get_mut(side).party.take(tag, out)
    }

    pub fn close(&mut self, side: Side, tag: u64) -> Result<(), Fault>
        ensures { Does self.old self.new (λ _. when_ok (λ _. Closes (who_of side) tag ∷ []) result) }
    {
        self.halves.get_mut(side).party.close(tag)
    }

    pub fn forget(&mut self, side: Side, tag: u64) -> Result<(), Fault>
        ensures { Does self.old self.new (λ _. when_ok (λ _. Forgets (who_of side) tag ∷ []) result) }
    {
        self.halves.get_mut(side).party.forget(tag)
    }

    pub fn break_off(&mut self, side: Side, tag: u64) -> Result<(), Fault>
        ensures { Does self.old self.new (λ _. when_ok (λ _. Breaks (who_of side) tag ∷ []) result) }
    {
        self.halves.get_mut(side).break_off(tag)
    }

    pub fn due(&mut self, side: Side, tag: u64) -> Result<(), Fault>
        ensures { Does self.old self.new (λ _. when_ok (λ _. Due (who_of side) tag ∷ []) result) }
    {
        self.halves.get_mut(side).due(tag)
    }

    pub fn answer(&mut self, side: Side, tag: u64) -> Result<(), Fault>
        ensures { Does self.old self.new (λ w. when_ok (λ _. answers self.old (who_of side) tag w) result) }
    {
        self.halves.get_mut(side).answer(tag)
    }

    pub fn send(&mut self, side: Side, tag: u64, span: Span) -> Result<(), Fault>
        ensures { Does self.old self.new (λ w. when_ok (λ _. sends self.old (who_of side) tag span.place span.most w) result) }
    {
        self.halves.get_mut(side).send(tag, span)
    }

    /// The net brings a packet, by its place among all that were ever sent that way; `draws` is the tag of the connection that
    /// it may open, or 0. The answer is its place from the latest.
    pub fn deliver(&mut self, side: Side, i: usize, draws: u64) -> Result<usize, Fault>
        ensures place { Placed (net_to (who_of side) self.old) i result }
        ensures did { Does self.old self.new (λ _. when_ok (λ k. Hears (who_of side) k draws ∷ []) result) }
    {
        let came = self.sent_to(side);
        let p = *came.get(i).ok_or(Fault::Unfit)?;
        let place = came.len() - 1 - i;
        self.halves.get_mut(side).hear(&mut self.drawn, &p, draws)?;
        Ok(place)
    }
}
