ghost use Rattle.std.specs.Prelude.{◌≡◌, ℕ, ◌+◌, ◌≤◌, min, max, List, length, take, if◌then◌else◌};
ghost use Rattle.hold.specs.Code.{owes};
ghost use Rattle.hold.specs.Conn.{Conn, new, in_phase, open_with, gives, closes, takes, hears, says, due, Gone};
ghost use Rattle.hold.specs.Packet as m;
ghost use Rattle.hold.specs.World.{due_by, bye_if, There};
ghost use Rattle.packet.specs.Agreed.{cfg_of};
ghost use Rattle.packet.specs.Packets.{packet, packet_in, sent};
ghost use Rattle.packet.specs.Sizes.{capacity, text_size};
ghost use Rattle.lent.specs.Sending.{free};
ghost use Rattle.connection.specs.Phases.{phase_of};
ghost use Rattle.connection.specs.Stand.{ActsAs, Stand1, LeftOver, Took, Drained, Fresh, Rings, beside, rings, text_at};

use crate::pairing::Pairing;
use crate::phase::Phase;
use crate::stream::Stream;
use lent::inbox::Inbox;
use lent::incoming::Incoming;
use packet::packet::{Head, Kind, Packet, SIZE, Span};
use packet::settings::{CAPACITY, Settings};

#[derive(Clone, Copy, PartialEq, Eq, Debug)]
pub struct Connection {
    pub pairing: Pairing,
    pub stream: Stream,
}

impl Connection {
    pub fn new(phase: Phase, mine: u64, theirs: u64) -> Connection
        ensures { (cfg : m.Settings) (mem : Rings) → cfg.room ≤ capacity → Fresh mem → Stand1 cfg result mem (new (phase_of phase) mine theirs) }
    {
        Connection {
            pairing: Pairing {
                mine,
                theirs,
                phase,
            },
            stream: Stream::new(),
        }
    }

    pub fn open_with(mut self, theirs: u64) -> Connection
        ensures { (cfg : m.Settings) (mem : Rings) → ActsAs cfg self mem result mem (open_with theirs) }
    {
        self.pairing = self.pairing.open_with(theirs);
        self
    }

    pub fn gone(mut self) -> Connection
        ensures acts { (cfg : m.Settings) (mem : Rings) → ActsAs cfg self mem result mem (in_phase Gone) }
        ensures left { (cfg : m.Settings) (mem : Rings) (c : Conn) → LeftOver cfg self mem c → LeftOver cfg result mem c }
    {
        self.pairing = self.pairing.gone();
        self
    }

    pub fn close(mut self) -> Connection
        ensures { (cfg : m.Settings) (mem : Rings) → ActsAs cfg self mem result mem closes }
    {
        self.stream = self.stream.close();
        self
    }

    /// As many of the bytes as have room, and how many; none once closed.
    pub fn give(mut self, ring: &mut [u8; CAPACITY], bytes: &[u8]) -> (Connection, usize)
        ensures acts { (cfg : m.Settings) (into bits : List ℕ) → ActsAs cfg self (rings ring.old into bits) result.0 (rings ring.new into bits) (gives (take result.1 bytes.now)) }
        ensures count { result.1 ≡ (if self.stream.closed then 0 else min (length bytes.now) (free self.stream.sender.given self.stream.sender.upto)) }
    {
        let (stream, n) = self.stream.give(ring, bytes);
        self.stream = stream;
        (self, n)
    }

    /// Moves bytes that the user got and has not taken into `out`, and says how many. Of a connection that is gone too.
    pub fn take(mut self, ring: &[u8; CAPACITY], out: &mut [u8]) -> (Connection, usize)
        ensures acts { (cfg : m.Settings) (mem : Rings) → ActsAs cfg self mem result.0 mem (takes (length out.old)) }
        ensures took { (cfg : m.Settings) (given bits : List ℕ) (c : Conn) → Stand1 cfg self (rings given ring.now bits) c → Took c out.old out.new result.1 }
        ensures drained { (cfg : m.Settings) (given bits : List ℕ) (c : Conn) → LeftOver cfg self (rings given ring.now bits) c → Drained cfg self result.0 (rings given ring.now bits) c out.old out.new result.1 }
    {
        let (stream, n) = self.stream.take(ring, out);
        self.stream = stream;
        (self, n)
    }

    /// A text from the other's tag, which opens the connection if it was half open.
    pub fn hear(self, inbox: &mut Inbox, settings: Settings, incoming: &Incoming<'_>) -> Connection
        ensures { (out : List ℕ) → ActsAs (cfg_of settings) self (beside out inbox.old) result (beside out inbox.new) (λ d. hears (cfg_of settings) (packet_in incoming.now.packet) (open_with incoming.now.packet.head.from d)) }
    {
        let mut opened = self.open_with(incoming.packet.head.from);
        opened.stream = opened.stream.hear(inbox, settings, incoming);
        opened
    }

    // The ring is lent and the settings are the end's: a struct of both would be made for each call, and taken apart in it.

    /// The text of a span, of which nothing is confirmed.
    fn text(&self, ring: &[u8; CAPACITY], settings: Settings, span: Span) -> Packet
        ensures { (into bits : List ℕ) (c : Conn) → Stand1 (cfg_of settings) self.now (rings ring.now into bits) c → self.now.stream.sender.upto ≤ span.place → packet result ≡ text_at (cfg_of settings) span.place (min span.most text_size) c }
    {
        let mut text = [0; SIZE];
        let count = self.stream.sender.read(ring, span, &mut text);
        let last = self.stream.is_last(span.place.saturating_add(count as u64));
        let head = Head {
            kind: Kind::Text,
            from: self.pairing.mine,
            to: self.pairing.theirs,
            place: span.place,
            last,
            upto: self.stream.receiver.got,
            all: self.stream.ended,
            edge: self.stream.receiver.taken.saturating_add(settings.room),
        };
        Packet { head, text, count }
    }

    /// The text that is due: a retransmission of what is not confirmed, or a probe of one byte at a closed window.
    pub fn due(&self, ring: &[u8; CAPACITY], settings: Settings) -> Packet
        ensures { (into bits : List ℕ) (c : Conn) → Stand1 (cfg_of settings) self.now (rings ring.now into bits) c → packet result ≡ due (cfg_of settings) c }
    {
        let place = self.stream.sender.upto;
        let seen = self.stream.sees.saturating_sub(place);
        let most = settings.size.min(seen).max(1);
        self.text(ring, settings, Span { place, most })
    }

    /// A text of what the other sees of a span, with no more bytes than the settings allow. What is confirmed is not said again.
    pub fn says(&self, ring: &[u8; CAPACITY], settings: Settings, span: Span) -> Packet
        ensures { (into bits : List ℕ) (c : Conn) → Stand1 (cfg_of settings) self.now (rings ring.now into bits) c → packet result ≡ says (cfg_of settings) (max c.upto span.place) (min span.most settings.size) c }
    {
        let place = self.stream.sender.upto.max(span.place);
        let seen = self.stream.sees.saturating_sub(place);
        let most = span.most.min(settings.size).min(seen);
        self.text(ring, settings, Span { place, most })
    }

    /// What answers a text that brought bytes or the end: an acknowledgement, with what may be sent from the first byte that
    /// is not confirmed.
    pub fn answer(&self, ring: &[u8; CAPACITY], settings: Settings) -> Packet
        ensures { (into bits : List ℕ) (c : Conn) → Stand1 (cfg_of settings) self.now (rings ring.now into bits) c → packet result ≡ says (cfg_of settings) c.upto settings.size c }
    {
        let (place, most) = (self.stream.sender.upto, settings.size);
        self.says(ring, settings, Span { place, most })
    }

    /// What is due by the clock: an ask, a yes, or a text.
    pub fn due_now(&self, ring: &[u8; CAPACITY], settings: Settings) -> Option<Packet>
        ensures { (into bits : List ℕ) (c : Conn) → Stand1 (cfg_of settings) self.now (rings ring.now into bits) c → sent result ≡ due_by (cfg_of settings) c c.phase }
    {
        let Pairing {
            mine,
            theirs,
            phase,
        } = self.pairing;
        match phase {
            Phase::Asked => Some(Packet::bare(Kind::Ask, mine, 0)),
            Phase::Half => Some(Packet::bare(Kind::Yes, mine, theirs)),
            Phase::Open => Some(self.due(ring, settings)),
            Phase::Gone => None,
        }
    }

    /// The bye of a connection that its user breaks; none while it only asked.
    pub fn farewell(&self) -> Option<Packet>
        ensures { (cfg : m.Settings) (mem : Rings) (c : Conn) → Stand1 cfg self.now mem c → sent result ≡ bye_if (There c) }
    {
        let Pairing {
            mine,
            theirs,
            phase,
        } = self.pairing;
        (phase != Phase::Asked).then(|| Packet::bare(Kind::Bye, mine, theirs))
    }

    /// Whether it is open, and something was given, or the end said, that the other has not confirmed.
    pub fn owes(&self) -> bool
        ensures { (cfg : m.Settings) (mem : Rings) (c : Conn) → Stand1 cfg self.now mem c → result ≡ owes c }
    {
        self.pairing.speaks() && self.stream.owes()
    }
}
