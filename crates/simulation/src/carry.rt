// The moves that ends make by themselves, when the net brings the latest packet and users take.
ghost use Rattle.std.specs.Prelude.{◌≡◌};
ghost use Rattle.hold.specs.Code.{wants_answer};
ghost use Rattle.hold.specs.Drive.{round_moves, speaks_in};
ghost use Rattle.hold.specs.Packet as m;
ghost use Rattle.hold.specs.Self.{Brings, Clock, Take, is_yes};
ghost use Rattle.hold.specs.World.{World, by_tag, end};
ghost use Rattle.packet.specs.Packets.{packet};
ghost use Rattle.packet.specs.Sizes.{capacity};
ghost use Rattle.simulation.specs.Carry.{AtMost, Carried, Driven, HeardLatest, Made1, MadeAll, Seen};
ghost use Rattle.simulation.specs.Shows.{Shows, who_of};

use crate::pair::{Pair, Side};
use endpoint::Refusal;
use ledger::record::View;
use packet::packet::{Kind, Packet};
use packet::settings::CAPACITY;
use party::Fault;

/// Whether a packet wants an answer: a text that brings bytes or the end.
fn wants_answer(p: &Packet) -> bool
    ensures { result ≡ wants_answer (packet p.now) }
{
    p.head.kind == Kind::Text && (p.head.last || p.count > 0)
}

fn is_yes(p: &Packet) -> bool
    ensures { result ≡ is_yes (packet p.now).kind }
{
    p.head.kind == Kind::Yes
}

impl<'m> Pair<'m> {
    /// The connection of a side with a tag that is not gone, as it is to be seen.
    pub fn look(&self, side: Side, tag: u64) -> Option<View>
        ensures { Seen self.now (who_of side) tag result }
    {
        self.halves.get(side).party.look(tag)
    }

    /// Whether a connection's clock has something to say: it asks, or is half open, or owes something.
    fn speaks(&self, side: Side, tag: u64) -> bool
        ensures { (cfg : m.Settings) (w : World) → Shows cfg self.now w → result ≡ speaks_in (by_tag tag (end (who_of side) w).conns) }
    {
        self.look(side, tag).is_some_and(|v| !v.opened || v.owes)
    }

    fn take_some(&mut self, side: Side, tag: u64) -> Result<usize, Fault>
        ensures few { AtMost 2 result }
        ensures made { Made1 self.old self.new (Take (who_of side) tag capacity) result }
    {
        self.take(side, tag, &mut [0; CAPACITY])?;
        Ok(1)
    }

    fn clock(&mut self, side: Side, tag: u64) -> Result<usize, Fault>
        ensures few { AtMost 2 result }
        ensures made { Made1 self.old self.new (Clock (who_of side) tag) result }
    {
        if !self.speaks(side, tag) {
            return Ok(0);
        }
        self.due(side, tag)?;
        Ok(1)
    }

    /// The latest packet comes to a side, and is handed out.
    fn hear_latest(&mut self, side: Side) -> Result<Packet, Fault>
        ensures { HeardLatest self.old self.new (who_of side) result }
    {
        let came = self.sent_to(side);
        let p = *came.last().ok_or(Fault::Unfit)?;
        let latest = came.len() - 1;
        self.deliver(side, latest, 0)?;
        Ok(p)
    }

    /// The latest packet comes to a side, and what its connection says to it goes out: to a text that brought bytes or the end its
    /// answer, to a yes what is due.
    fn bring(&mut self, side: Side) -> Result<usize, Fault>
        ensures few { AtMost 2 result }
        ensures made { Made1 self.old self.new (Brings (who_of side) 0 0) result }
    {
        let p = self.hear_latest(side)?;
        let tag = p.head.to;
        let Some(v) = self.look(side, tag) else {
            return Ok(1);
        };
        if v.partner() != Some(p.head.from) {
            return Ok(1);
        }
        if wants_answer(&p) {
            self.answer(side, tag)?;
        } else if is_yes(&p) && v.opened {
            self.due(side, tag)?;
        } else {
            return Ok(1);
        }
        Ok(2)
    }

    /// A round: the user of a side takes, the clock of the other's connection says something, it comes over, and what is said to it
    /// comes back. The answer is how many moves it took.
    fn round(&mut self, side: Side, tag: u64, peer: u64) -> Result<usize, Fault>
        ensures few { AtMost 8 result }
        ensures made { MadeAll self.old self.new (round_moves (who_of side) tag peer capacity) result }
    {
        let taken = self.take_some(side, tag)?;
        let said = self.clock(side.other(), peer)?;
        let brought = self.bring(side)?;
        Ok(taken + said + brought + self.bring(side.other())?)
    }

    /// Rounds as long as the other's connection has something to say, and so many at most; how many moves they took.
    fn rounds(&mut self, side: Side, tag: u64, peer: u64, most: u64) -> Result<u64, Fault>
        ensures { Driven self.old self.new most (who_of side) tag peer result }
    {
        let mut moves: u64 = 0;
        for _ in 0..most {
            if !self.speaks(side.other(), peer) {
                break;
            }
            moves = moves.saturating_add(self.round(side, tag, peer)? as u64);
        }
        Ok(moves)
    }

    /// The moves that bring over all that was given to the connection of a side with a tag, as long as it and the other's live.
    pub fn carry(&mut self, side: Side, tag: u64) -> Result<u64, Fault>
        ensures { Carried self.old self.new (who_of side) tag result }
    {
        let c = self.look(side, tag).ok_or(Refusal::NotThere)?;
        let peer = c.partner().ok_or(Refusal::NotThere)?;
        let d = self.look(side.other(), peer).ok_or(Refusal::NotThere)?;
        if d.partner() != Some(tag) {
            return Err(Fault::Unfit);
        }
        let most = d.given.saturating_sub(c.arrived).saturating_add(2);
        self.rounds(side, tag, peer, most)
    }
}
