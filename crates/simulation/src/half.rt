// What one side does: a party, the net that takes its packets to the other, and the tags that were drawn.
ghost use Rattle.std.specs.Prelude.{◌≡◌, ℕ, not, ◌||◌, ◌-◌, List, [], ◌∷◌, ◌++◌, ◌==◌, length, Some, slice_get};
ghost use Rattle.hold.specs.World.{Breaks, Due, Hears, Opens, is_in};
ghost use Rattle.packet.specs.Packets.{sent};
ghost use Rattle.ledger.specs.Room.{RoomFor};
ghost use Rattle.simulation.specs.Shows.{Begins, HalfDoes, answer_of, net_of, send_of, when_ok};

use lanes::LANES;
use lent::inbox::Memory;
use packet::packet::{Packet, Span};
use packet::settings::Settings;
use party::{Fault, Party};
use std::alloc::Global;

/// What went out goes into the net, in which there is memory for it.
fn post(net: &mut Vec<Packet>, p: Option<Packet>)
    ensures { RoomFor 1 net.old → net_of net.new.items ≡ sent p ++ net_of net.old.items }
{
    if let Some(p) = p {
        // There is memory, so it cannot fail; an error here would come after the step.
        let _ = net.push(p);
    }
}

/// Whether a tag may be drawn: it never was; 0 stands for none.
fn is_fresh(drawn: &[u64], tag: u64) -> bool
    ensures { result ≡ (tag == 0 || not (is_in tag drawn.now)) }
{
    tag == 0 || !drawn.contains(&tag)
}

/// A party, and all packets that it ever sent, the oldest first.
#[derive(Drop)]
pub struct Half<'m> {
    pub party: Party<'m>,
    pub sent: Vec<Packet>,
}

impl<'m> Half<'m> {
    pub(crate) fn new(heap: Global, settings: Settings, memory: &'m mut [Memory; LANES]) -> Half<'m>
        ensures { Begins settings result }
    {
        Half {
            party: Party::new(heap, settings, memory),
            sent: Vec::new(heap),
        }
    }

    /// As a new one, over the same memory.
    pub(crate) fn restart(self, heap: Global, settings: Settings) -> Half<'m>
        ensures { Begins settings result }
    {
        Half {
            party: self.party.restart(heap, settings),
            sent: Vec::new(heap),
        }
    }

    /// A new connection, with a tag that was never drawn before; its ask goes out.
    pub(crate) fn open(&mut self, drawn: &mut Vec<u64>, tag: u64) -> Result<(), Fault>
        ensures { (came : List Packet) → HalfDoes self.old self.new came drawn.old.items drawn.new.items (λ o _. when_ok (λ _. Opens o tag ∷ []) result) }
    {
        if !is_fresh(drawn, tag) {
            return Err(Fault::Unfit);
        }
        drawn.reserve(1)?;
        self.sent.reserve(1)?;
        let p = self.party.open(tag)?;
        // There is memory, so it cannot fail.
        let _ = drawn.push(tag);
        post(&mut self.sent, Some(p));
        Ok(())
    }

    /// A packet of those that came is heard, with a tag that was never drawn before for the connection that it may open.
    pub(crate) fn hear(&mut self, drawn: &mut Vec<u64>, p: &Packet, draws: u64) -> Result<(), Fault>
        ensures { (came : List Packet) (i : ℕ) → slice_get came i ≡ Some p.now → HalfDoes self.old self.new came drawn.old.items drawn.new.items (λ o _. when_ok (λ _. Hears o (length came - 1 - i) draws ∷ []) result) }
    {
        if !is_fresh(drawn, draws) {
            return Err(Fault::Unfit);
        }
        drawn.reserve(1)?;
        self.sent.reserve(1)?;
        let answer = self.party.hear(p, draws)?;
        // There is memory, so it cannot fail.
        let _ = drawn.push(draws);
        post(&mut self.sent, answer);
        Ok(())
    }

    // Three that find memory and post: what they say is a step of its own each, which a closure would have to carry in its clauses.

    /// What is due at a tag goes out.
    pub(crate) fn due(&mut self, tag: u64) -> Result<(), Fault>
        ensures { (came : List Packet) (ts : List ℕ) → HalfDoes self.old self.new came ts ts (λ o _. when_ok (λ _. Due o tag ∷ []) result) }
    {
        self.sent.reserve(1)?;
        post(&mut self.sent, self.party.due(tag));
        Ok(())
    }

    /// The answer to a text that brought bytes or the end goes out.
    pub(crate) fn answer(&mut self, tag: u64) -> Result<(), Fault>
        ensures { (came : List Packet) (ts : List ℕ) → HalfDoes self.old self.new came ts ts (λ o w. when_ok (λ _. answer_of self.old.party o tag w) result) }
    {
        self.sent.reserve(1)?;
        post(&mut self.sent, self.party.answer(tag));
        Ok(())
    }

    /// A text goes out because it may.
    pub(crate) fn send(&mut self, tag: u64, span: Span) -> Result<(), Fault>
        ensures { (came : List Packet) (ts : List ℕ) → HalfDoes self.old self.new came ts ts (λ o w. when_ok (λ _. send_of self.old.party o tag span.place span.most w) result) }
    {
        self.sent.reserve(1)?;
        post(&mut self.sent, self.party.send(tag, span));
        Ok(())
    }

    /// A connection is broken off; its bye goes out.
    pub(crate) fn break_off(&mut self, tag: u64) -> Result<(), Fault>
        ensures { (came : List Packet) (ts : List ℕ) → HalfDoes self.old self.new came ts ts (λ o _. when_ok (λ _. Breaks o tag ∷ []) result) }
    {
        self.sent.reserve(1)?;
        let p = self.party.break_off(tag)?;
        post(&mut self.sent, p);
        Ok(())
    }
}
