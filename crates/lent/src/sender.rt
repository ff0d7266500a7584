ghost use Rattle.std.specs.Prelude.{◌≡◌, ℕ, ◌+◌, ◌-◌, ◌≤◌, min, IsTrue, List, [], ◌++◌, length, take, drop, nat_lt};
ghost use Rattle.hold.specs.Packet.{larger};
ghost use Rattle.packet.specs.Sizes.{capacity};
ghost use Rattle.lent.specs.Sending.{free};
ghost use Rattle.lent.specs.Rings.{Waits};

use crate::ring::{get, put};
use crate::source::{Source, fill_from};
use packet::packet::{MOST_PLACE, Span};
use packet::settings::CAPACITY;

/// No stream has more bytes than these.
pub const MOST: u64 = MOST_PLACE;

/// The numbers of the bytes to be sent: those given and not confirmed stand in the ring.
#[derive(Clone, Copy, PartialEq, Eq, Debug)]
pub struct Sender {
    /// How many bytes the user gave.
    pub given: u64,
    /// How many of them the other said that it has.
    pub upto: u64,
}

impl Sender {
    /// For a ring that may hold anything.
    pub fn new() -> Sender
        ensures waits { (ring : List ℕ) → length ring ≡ capacity → Waits result ring [] }
        ensures upto { result.upto ≡ 0 }
    {
        Sender { given: 0, upto: 0 }
    }

    /// For how many bytes more there is room.
    pub fn free(&self) -> u64
        ensures { result ≡ free self.now.given self.now.upto }
    {
        let ring = self
            .upto
            .saturating_add(CAPACITY as u64)
            .saturating_sub(self.given);
        ring.min(MOST.saturating_sub(self.given))
    }

    pub fn has_room(&self) -> bool
        ensures { result ≡ nat_lt 0 (free self.now.given self.now.upto) }
    {
        self.free() > 0
    }

    /// As many of the bytes as have room, and how many. Where the other confirmed more than was given, that may be more than a
    /// ring holds: then the last of them are written, as no other is ever read.
    pub fn give(mut self, ring: &mut [u8; CAPACITY], bytes: &[u8]) -> (Sender, usize)
        ensures waits { (g : List ℕ) → Waits self ring.old g → Waits result.0 ring.new (g ++ take result.1 bytes.now) }
        ensures count { result.1 ≡ min (length bytes.now) (free self.given self.upto) }
        ensures upto { result.0.upto ≡ self.upto }
    {
        let n = (bytes.len() as u64).min(self.free()) as usize;
        let skip = n.saturating_sub(CAPACITY);
        put(ring, self.given + skip as u64, &bytes[skip..n]);
        self.given += n as u64;
        (self, n)
    }

    /// As `give`, of at most `most` bytes that a source writes into the free part of the ring.
    pub fn give_from<S: Source>(
        mut self,
        ring: &mut [u8; CAPACITY],
        most: u64,
        source: &mut S,
    ) -> (Sender, usize)
        ensures waits { (g : List ℕ) → Waits self ring.old g → Waits result.0 ring.new (g ++ take result.1 (S.Source.rest source.old)) }
        ensures count { result.1 ≤ min most (free self.given self.upto) }
        ensures all { IsTrue S.Source.eager → result.1 ≡ min (min most (free self.given self.upto)) (min capacity (length (S.Source.rest source.old))) }
        ensures rest { S.Source.rest source.new ≡ drop result.1 (S.Source.rest source.old) }
        ensures upto { result.0.upto ≡ self.upto }
    {
        let room = most.min(self.free()).min(CAPACITY as u64) as usize;
        let n = fill_from(ring, self.given, room, source);
        self.given += n as u64;
        (self, n)
    }

    /// The other has so many bytes.
    pub fn confirm(mut self, upto: u64) -> Sender
        ensures waits { (ring g : List ℕ) → Waits self ring g → Waits result ring g }
        ensures given { result.given ≡ self.given }
        ensures upto { result.upto ≡ larger self.upto upto }
    {
        self.upto = self.upto.max(upto);
        self
    }

    /// Copies the bytes of a span into `out`, and says how many. Only from `upto` on does the ring have them: what is confirmed is
    /// overwritten.
    pub fn read(&self, ring: &[u8; CAPACITY], span: Span, out: &mut [u8]) -> usize
        ensures text { (g : List ℕ) → Waits self.now ring.now g → self.now.upto ≤ span.place → take result out.new ≡ take (min span.most (length out.old)) (drop span.place g) }
        ensures count { result ≡ min (min span.most (length out.old)) (self.now.given - span.place) }
        ensures rest { drop result out.new ≡ drop result out.old }
    {
        let n = span
            .most
            .min(out.len() as u64)
            .min(self.given.saturating_sub(span.place)) as usize;
        get(ring, span.place, &mut out[..n]);
        n
    }
}
