ghost use Rattle.std.specs.Prelude.{◌≡◌, ℕ, ◌+◌, ◌-◌, ◌≤◌, min, false, List, [], ◌++◌, length, take, drop};
ghost use Rattle.hold.specs.Packet.{Piece};
ghost use Rattle.hold.specs.Conn.{keep, turn, from};
ghost use Rattle.packet.specs.Sizes.{capacity};
ghost use Rattle.lent.specs.Sending.{limit};
ghost use Rattle.lent.specs.Bits.{AllAre};
ghost use Rattle.lent.specs.Rings.{Holds};

use crate::bits::{WORDS, mark, run};
use crate::inbox::Inbox;
use crate::incoming::Incoming;
use crate::ring::get;
use packet::packet::PacketRef;
use packet::settings::CAPACITY;

/// The numbers of the bytes that came: those got and not taken, and those kept before their turn, stand in one ring, with bits
/// that say which places are kept.
#[derive(Clone, Copy, PartialEq, Eq, Debug)]
pub struct Receiver {
    /// How many bytes came in order.
    pub got: u64,
    /// How many of them the user took.
    pub taken: u64,
}

impl Receiver {
    /// For a ring that may hold anything, with all bits down.
    pub fn new() -> Receiver
        ensures holds { (window : ℕ) (ring bits : List ℕ) → window ≤ capacity → length ring ≡ capacity → AllAre 0 capacity false bits → Holds window result ring bits [] [] }
        ensures taken { result.taken ≡ 0 }
    {
        Receiver { got: 0, taken: 0 }
    }

    /// How many bytes there are for the user to take.
    pub fn available(&self) -> u64
        ensures { result ≡ self.now.got - self.now.taken }
    {
        self.got.saturating_sub(self.taken)
    }

    /// Moves bytes that were got and not taken into `out`, as many as there are or as it takes, and says how many.
    pub fn take(mut self, ring: &[u8; CAPACITY], out: &mut [u8]) -> (Receiver, usize)
        ensures holds { (window : ℕ) (ring bits g : List ℕ) (ks : List Piece) → Holds window self ring bits g ks → Holds window result.0 ring bits g ks }
        ensures count { result.1 ≡ min (length out.old) (self.got - self.taken) }
        ensures got { result.0.got ≡ self.got }
        ensures taken { result.0.taken ≡ self.taken + result.1 }
        ensures bytes { (window : ℕ) (bits g : List ℕ) (ks : List Piece) → Holds window self ring.now bits g ks → out.new ≡ take result.1 (drop self.taken g) ++ drop result.1 out.old }
    {
        let n = (out.len() as u64).min(self.available()) as usize;
        get(ring, self.taken, &mut out[..n]);
        self.taken += n as u64;
        (self, n)
    }

    /// Keeps what it may of a text that came: no byte whose turn has passed, for which there is no room, or whose place is kept
    /// already.
    pub fn keep_all(self, inbox: &mut Inbox, window: u64, incoming: &Incoming)
        ensures { (g : List ℕ) (ks : List Piece) → Holds window self inbox.old.ring inbox.old.bits g ks → Holds window self inbox.new.ring inbox.new.bits g (keep (length g) (self.taken + window) incoming.now.packet.head.place incoming.now.packet.text.now ks) }
    {
        let PacketRef { head, text } = incoming.packet;
        let place = head.place;
        let edge = self
            .taken
            .saturating_add(window)
            .min(self.got.saturating_add(CAPACITY as u64));
        let from = place.max(self.got);
        let to = edge.min(place + text.len() as u64);
        if from < to {
            let part = &text[(from - place) as usize..(to - place) as usize];
            inbox.fill_gaps(from, part);
        }
    }

    /// Hands bytes on as long as the next one is kept.
    pub fn advance(mut self, bits: &mut [u64; WORDS], window: u64) -> Receiver
        ensures holds { (ring g : List ℕ) (ks : List Piece) → Holds window self ring bits.old g ks → Holds window result ring bits.new (g ++ turn (length ks) (length g) ks) (from (length (g ++ turn (length ks) (length g) ks)) ks) }
        ensures taken { result.taken ≡ self.taken }
    {
        let room = self
            .taken
            .saturating_add(window)
            .saturating_sub(self.got)
            .min(CAPACITY as u64);
        let n = run(bits, self.got, room, true);
        mark(bits, self.got, n, false);
        self.got += n;
        self
    }
}
