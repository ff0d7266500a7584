ghost use Rattle.std.specs.Prelude.{◌≡◌, ℕ, ◌+◌, ◌≤◌, ◌&&◌, ◌||◌, List, [], length, ◌==◌};
ghost use Rattle.hold.specs.Packet.{Bye, Text, Yes};
ghost use Rattle.packet.specs.Packets.{packet_in, packet_of, sent};
ghost use Rattle.endpoint.specs.Hearing.{Asked, HeardAs, Refuses, needs, zero_tag};
ghost use Rattle.endpoint.specs.Steps.{Heard};

use crate::{Endpoint, Refusal};
use connection::connection::Connection;
use connection::phase::Phase;
use lent::incoming::Incoming;
use packet::packet::{Head, Kind, Packet, PacketRef, SIZE};
use table::Wanted;

/// Whether a tag is 0 that must not be: the sender's, the receiver's unless it is asked, and the drawn one where it is needed.
fn lacks_tag(p: Head, needed: bool, tag: u64) -> bool
    ensures { (ts : List ℕ) → result ≡ (zero_tag (packet_of p ts) || (needed && tag == 0)) }
{
    (needed && tag == 0) || p.from == 0 || (p.kind != Kind::Ask && p.to == 0)
}

impl<'m> Endpoint<'m> {
    /// Whether a packet opens a connection.
    fn needs_connection(&self, p: Head) -> bool
        ensures { (ts : List ℕ) → result ≡ needs self.now (packet_of p ts) }
    {
        p.kind == Kind::Ask && self.listens && self.table.find(Wanted::Peer(p.from)).is_none()
    }

    /// A bye whose tags are those of a connection ends it.
    fn hear_bye(&mut self, p: Head)
        ensures { (ts : List ℕ) (t : ℕ) → Heard self.old self.new [] (packet_of p ts) Bye t }
    {
        let Some(lane) = self.table.find(Wanted::Tag(p.to)) else {
            return;
        };
        let c = self.table.conns[lane];
        if c.pairing.is_partner(p.from) {
            self.table.conns[lane] = c.gone();
        }
    }

    /// A yes opens the connection that asked. A bye goes back to one that nobody asked for.
    fn hear_yes(&mut self, p: Head) -> Option<Packet>
        ensures { (ts : List ℕ) (t : ℕ) → Heard self.old self.new (sent result) (packet_of p ts) Yes t }
    {
        let Some(lane) = self.table.find(Wanted::Tag(p.to)) else {
            return Some(Packet::bare(Kind::Bye, p.to, p.from));
        };
        let c = self.table.conns[lane];
        if c.pairing.is_asked() {
            self.table.conns[lane] = c.open_with(p.from);
            return None;
        }
        if c.pairing.theirs == p.from {
            return None;
        }
        Some(Packet::bare(Kind::Bye, p.to, p.from))
    }

    /// A text is its connection's; a bye goes back where there is none.
    fn hear_text(&mut self, incoming: &Incoming<'_>) -> Option<Packet>
        ensures { (t : ℕ) → Heard self.old self.new (sent result) (packet_in incoming.now.packet) Text t }
    {
        let p = incoming.packet.head;
        let Some(lane) = self.table.find(Wanted::Tag(p.to)) else {
            return Some(Packet::bare(Kind::Bye, p.to, p.from));
        };
        let c = self.table.conns[lane];
        if c.pairing.is_partner(p.from) {
            self.table.conns[lane] = c.hear(&mut self.memory[lane].inbox, self.settings, incoming);
        }
        None
    }

    /// An ask is answered by the yes of its connection, which is a new one if this end listens and has none for it.
    fn hear_ask(&mut self, p: Head, tag: u64) -> Option<Packet>
        ensures { (ts : List ℕ) → Asked self.old self.new (packet_of p ts) tag result }
    {
        if let Some(lane) = self.table.find(Wanted::Peer(p.from)) {
            let q = self.table.conns[lane].pairing;
            return Some(Packet::bare(Kind::Yes, q.mine, q.theirs));
        }
        if !self.listens || tag == 0 {
            return None;
        }
        self.add(Connection::new(Phase::Half, tag, p.from)).ok()?;
        Some(Packet::bare(Kind::Yes, tag, p.from))
    }

    /// Whether a packet is heard, or why it is refused; `tag` is drawn for the connection that it may open.
    fn check(&self, p: PacketRef<'_>, tag: u64) -> Result<(), Refusal>
        ensures { Refuses self.now (packet_in p.entry) tag result }
    {
        if p.text.len() > SIZE {
            return Err(Refusal::TooLong);
        }
        let needed = self.needs_connection(p.head);
        if lacks_tag(p.head, needed, tag) {
            return Err(Refusal::ZeroTag);
        }
        if p.head.is_beyond() {
            return Err(Refusal::TooFar);
        }
        if !needed {
            return Ok(());
        }
        if !self.table.has_room() {
            return Err(Refusal::Full);
        }
        if self.table.has(tag) {
            return Err(Refusal::TagThere);
        }
        Ok(())
    }

    // The drawn tag is a number and no Option: 0 is none, and a caller who hands it in where one is needed is told so by a refusal.

    /// A packet is heard, with a tag drawn for the connection that it may open; and what goes out at once.
    pub fn hear(&mut self, p: PacketRef<'_>, tag: u64) -> Result<Option<Packet>, Refusal>
        ensures { HeardAs self.old self.new (packet_in p.entry) tag result }
    {
        self.check(p, tag)?;
        match p.head.kind {
            Kind::Ask => Ok(self.hear_ask(p.head, tag)),
            Kind::Yes => Ok(self.hear_yes(p.head)),
            Kind::Text => Ok(self.hear_text(&Incoming { packet: p })),
            Kind::Bye => {
                self.hear_bye(p.head);
                Ok(None)
            }
        }
    }
}
