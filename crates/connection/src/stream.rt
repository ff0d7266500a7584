ghost use Rattle.std.specs.Prelude.{◌≡◌, ℕ, ◌+◌, ◌≤◌, min, not, ◌&&◌, ◌||◌, List, length, take, if◌then◌else◌, ◌==◌};
ghost use Rattle.hold.specs.Conn.{gives, closes, takes, heard, advance, hears};
ghost use Rattle.hold.specs.Packet as m;
ghost use Rattle.packet.specs.Agreed.{cfg_of};
ghost use Rattle.packet.specs.Packets.{packet_in};
ghost use Rattle.lent.specs.Rings.{Holds};
ghost use Rattle.lent.specs.Sending.{free};
ghost use Rattle.connection.specs.Stand.{Flows, Began, Moved, Rings, beside, rings};
ghost use Rattle.connection.specs.Fields.{stream_owes};

use lent::bits::WORDS;
use lent::inbox::Inbox;
use lent::incoming::Incoming;
use lent::receiver::Receiver;
use lent::sender::Sender;
use packet::packet::PacketRef;
use packet::settings::{CAPACITY, Settings};

/// The bytes of a connection, both ways: their numbers. The bytes themselves stand in memory that is passed in.
#[derive(Clone, Copy, PartialEq, Eq, Debug)]
pub struct Stream {
    pub sender: Sender,
    pub receiver: Receiver,
    /// The user gives no more.
    pub closed: bool,
    /// The largest edge heard: bytes below it may be sent.
    pub sees: u64,
    /// The other said that it has all, with the end.
    pub all: bool,
    /// Where the other's bytes end, once it said so.
    pub end: Option<u64>,
    /// That end is reached.
    pub ended: bool,
}

impl Stream {
    pub fn new() -> Stream
        ensures { Began result }
    {
        Stream {
            sender: Sender::new(),
            receiver: Receiver::new(),
            closed: false,
            sees: 0,
            all: false,
            end: None,
            ended: false,
        }
    }

    pub fn close(mut self) -> Stream
        ensures { (cfg : m.Settings) (mem : Rings) → Flows cfg self mem result mem closes }
    {
        self.closed = true;
        self
    }

    /// As many of the bytes as have room, and how many; none once closed.
    pub fn give(mut self, ring: &mut [u8; CAPACITY], bytes: &[u8]) -> (Stream, usize)
        ensures acts { (cfg : m.Settings) (into bits : List ℕ) → Flows cfg self (rings ring.old into bits) result.0 (rings ring.new into bits) (gives (take result.1 bytes.now)) }
        ensures count { result.1 ≡ (if self.closed then 0 else min (length bytes.now) (free self.sender.given self.sender.upto)) }
    {
        if self.closed {
            return (self, 0);
        }
        let (sender, n) = self.sender.give(ring, bytes);
        self.sender = sender;
        (self, n)
    }

    // A ring or an inbox, the settings, and what is taken or came stay apart: the one is lent, the others are the end's and the
    // caller's.

    /// Moves bytes that the user got and has not taken into `out`, and says how many.
    pub fn take(mut self, ring: &[u8; CAPACITY], out: &mut [u8]) -> (Stream, usize)
        ensures acts { (cfg : m.Settings) (mem : Rings) → Flows cfg self mem result.0 mem (takes (length out.old)) }
        ensures kept { (window : ℕ) (ring bits g : List ℕ) (ks : List m.Piece) → Holds window self.receiver ring bits g ks → Holds window result.0.receiver ring bits g ks }
        ensures ended { result.0.ended ≡ self.ended }
        ensures moved { Moved self ring.now out.old out.new result.1 }
    {
        let (receiver, n) = self.receiver.take(ring, out);
        self.receiver = receiver;
        (self, n)
    }

    /// What a text says, and its bytes, before any is handed on.
    fn heard(mut self, inbox: &mut Inbox, settings: Settings, incoming: &Incoming<'_>) -> Stream
        ensures { (out : List ℕ) → Flows (cfg_of settings) self (beside out inbox.old) result (beside out inbox.new) (heard (cfg_of settings) (packet_in incoming.now.packet)) }
    {
        let PacketRef { head, text } = incoming.packet;
        self.sees = self.sees.max(head.edge);
        self.sender = self.sender.confirm(head.upto);
        self.all |= head.all;
        self.end = self
            .end
            .or(head.last.then_some(head.place + text.len() as u64));
        self.receiver.keep_all(inbox, settings.room, incoming);
        self
    }

    /// Bytes whose turn has come are handed on, and the user is told the end where it is reached.
    fn advance(mut self, bits: &mut [u64; WORDS], settings: Settings) -> Stream
        ensures { (out into : List ℕ) → Flows (cfg_of settings) self (rings out into bits.old) result (rings out into bits.new) advance }
    {
        self.receiver = self.receiver.advance(bits, settings.room);
        self.ended |= self.end == Some(self.receiver.got);
        self
    }

    /// A text from the other.
    pub fn hear(self, inbox: &mut Inbox, settings: Settings, incoming: &Incoming<'_>) -> Stream
        ensures { (out : List ℕ) → Flows (cfg_of settings) self (beside out inbox.old) result (beside out inbox.new) (hears (cfg_of settings) (packet_in incoming.now.packet)) }
    {
        self.heard(inbox, settings, incoming)
            .advance(&mut inbox.bits, settings)
    }

    /// Whether a text that ends at a place is the last.
    pub fn is_last(&self, place: u64) -> bool
        ensures { result ≡ (self.now.closed && not self.now.all && place == self.now.sender.given) }
    {
        self.closed && !self.all && place == self.sender.given
    }

    /// Whether something was given, or the end said, that the other has not confirmed.
    pub fn owes(&self) -> bool
        ensures { result ≡ stream_owes self.now }
    {
        self.sender.upto < self.sender.given || (self.closed && !self.all)
    }
}
