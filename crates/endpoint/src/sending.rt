ghost use Rattle.hold.specs.World.{Due};
ghost use Rattle.packet.specs.Packets.{sent};
ghost use Rattle.endpoint.specs.Saying.{Answers, Says};
ghost use Rattle.endpoint.specs.Steps.{Steps};

use crate::Endpoint;
use packet::packet::{Packet, Span};
use table::Wanted;

impl<'m> Endpoint<'m> {
    /// What is due at a tag: an ask again, a yes again, or the text from the first byte that is not confirmed.
    pub fn due(&self, tag: u64) -> Option<Packet>
        ensures { Steps self.now self.now (sent result) (λ o. Due o tag) }
    {
        let lane = self.table.find(Wanted::Tag(tag))?;
        let memory = &*self.memory;
        self.table.conns[lane].due_now(&memory[lane].out, self.settings)
    }

    /// The answer to a text that brought bytes or the end; none of a connection that is not open.
    pub fn answer(&self, tag: u64) -> Option<Packet>
        ensures { Answers self.now tag result }
    {
        let lane = self.table.find(Wanted::Tag(tag))?;
        let c = self.table.conns[lane];
        if !c.pairing.speaks() {
            return None;
        }
        let memory = &*self.memory;
        Some(c.answer(&memory[lane].out, self.settings))
    }

    /// A text that goes out because it may: that of a span. None where its place is confirmed already, or a text may not have so many bytes.
    pub fn send(&self, tag: u64, span: Span) -> Option<Packet>
        ensures { Says self.now tag span.place span.most result }
    {
        let lane = self.table.find(Wanted::Tag(tag))?;
        let c = self.table.conns[lane];
        if span.place < c.stream.sender.upto
            || span.most > self.settings.size
            || !c.pairing.speaks()
        {
            return None;
        }
        let memory = &*self.memory;
        Some(c.says(&memory[lane].out, self.settings, span))
    }
}
