ghost use Rattle.std.specs.Prelude.{◌≡◌, true, false, ◌&&◌, [], length, nat_le, nat_lt};
ghost use Rattle.hold.specs.Code.{living};
ghost use Rattle.hold.specs.Promise.{tags};
ghost use Rattle.hold.specs.World.{End, Listens, Who, end, is_in, start};
ghost use Rattle.lent.specs.Sending.{most};
ghost use Rattle.table.specs.Search.{finds, has_room, is_there, lane_of};
ghost use Rattle.table.specs.declared.Wanted.TheVariants.{Tag};
ghost use Rattle.packet.specs.Agreed.{cfg_of};
ghost use Rattle.endpoint.specs.AsCode.{Agrees, CodeTaking};
ghost use Rattle.endpoint.specs.Calls.{Broken, Finished, Forgotten, Gave, InLaneOf, Joined, Opened, Taken};
ghost use Rattle.endpoint.specs.Stands.{Stands};
ghost use Rattle.endpoint.specs.Steps.{Steps};

use crate::{Endpoint, Refusal};
use connection::connection::Connection;
use connection::memory::ready;
use connection::phase::Phase;
use lanes::LANES;
use lent::inbox::Memory;
use lent::sender::MOST;
use packet::packet::{Kind, Packet};
use packet::settings::Settings;
use table::{Table, Wanted};

/// Whether there are bytes for a stream that has all that one can have.
fn is_beyond(given: u64, bytes: &[u8]) -> bool
    ensures { result ≡ (nat_le most given && nat_lt 0 (length bytes.now)) }
{
    given >= MOST && !bytes.is_empty()
}

impl<'m> Endpoint<'m> {
    /// An end with no connection, which takes no asks, over memory that may hold anything.
    pub fn new(settings: Settings, memory: &'m mut [Memory; LANES]) -> Endpoint<'m>
        ensures stands { (o : Who) → Stands result (end o start) }
        ensures settings { result.settings ≡ settings }
    {
        Endpoint {
            table: Table::new(),
            memory,
            listens: false,
            settings,
        }
    }

    /// An end as a new one, over the same memory.
    pub fn restart(self, settings: Settings) -> Endpoint<'m>
        ensures stands { (o : Who) → Stands result (end o start) }
        ensures settings { result.settings ≡ settings }
    {
        Endpoint::new(settings, self.memory)
    }

    /// The table of connections, to look at.
    pub fn table(&self) -> &Table
        ensures { result.now ≡ self.now.table }
    {
        &self.table
    }

    /// The lane of the connection that has a tag.
    fn living(&self, tag: u64) -> Result<usize, Refusal>
        ensures { InLaneOf (finds (Tag tag) self.now.table) result }
    {
        self.table.find(Wanted::Tag(tag)).ok_or(Refusal::NotThere)
    }

    /// The same, or else the lane of one that is gone and had it.
    fn kept(&self, tag: u64) -> Result<usize, Refusal>
        ensures { InLaneOf (lane_of tag self.now.table) result }
    {
        self.table.lane_of(tag).ok_or(Refusal::NotThere)
    }

    /// A connection more, over memory that is made ready for it.
    pub(crate) fn add(&mut self, c: Connection) -> Result<(), Refusal>
        ensures { Joined self.old self.new c result }
    {
        let lane = self.table.add(c).ok_or(Refusal::Full)?;
        let memory = &mut self.memory[lane];
        ready(&memory.out, &memory.inbox.ring, &mut memory.inbox.bits);
        Ok(())
    }

    /// Whether asks open connections from now on.
    pub fn listen(&mut self, on: bool)
        ensures { Steps self.old self.new [] (λ o. Listens o on) }
    {
        self.listens = on;
    }

    /// A new connection, with a tag drawn for it, and the ask that goes out.
    pub fn open(&mut self, tag: u64) -> Result<Packet, Refusal>
        ensures { Opened self.old self.new tag result }
    {
        if tag == 0 {
            return Err(Refusal::ZeroTag);
        }
        if !self.table.has_room() {
            return Err(Refusal::Full);
        }
        if self.table.has(tag) {
            return Err(Refusal::TagThere);
        }
        self.add(Connection::new(Phase::Asked, tag, 0))?;
        Ok(Packet::bare(Kind::Ask, tag, 0))
    }

    /// The user gives no more.
    pub fn close(&mut self, tag: u64) -> Result<(), Refusal>
        ensures { Finished self.old self.new tag result }
    {
        let lane = self.living(tag)?;
        let c = self.table.conns[lane];
        if c.stream.closed {
            return Err(Refusal::Closed);
        }
        self.table.conns[lane] = c.close();
        Ok(())
    }

    /// Takes as many of the bytes as have room, and says how many.
    pub fn give(&mut self, tag: u64, bytes: &[u8]) -> Result<usize, Refusal>
        ensures { Gave self.old self.new tag bytes.now result }
    {
        let lane = self.living(tag)?;
        let c = self.table.conns[lane];
        if c.stream.closed {
            return Err(Refusal::Closed);
        }
        if is_beyond(c.stream.sender.given, bytes) {
            return Err(Refusal::AllGiven);
        }
        let (given, n) = c.give(&mut self.memory[lane].out, bytes);
        self.table.conns[lane] = given;
        Ok(n)
    }

    /// The user breaks a connection off, and it is forgotten; a bye goes out unless it only asked.
    pub fn break_off(&mut self, tag: u64) -> Result<Option<Packet>, Refusal>
        ensures { Broken self.old self.new tag result }
    {
        let lane = self.living(tag)?;
        let c = self.table.conns[lane];
        let bye = c.farewell();
        self.table.conns[lane] = c.gone();
        self.table.remove(lane);
        Ok(bye)
    }

    /// Moves bytes that were got and not taken to the front of `out`, and says how many. What is left of a connection that is gone can be taken until it is forgotten.
    pub fn take(&mut self, tag: u64, out: &mut [u8]) -> Result<usize, Refusal>
        ensures { Taken self.old self.new tag out.old out.new result }
    {
        let lane = self.kept(tag)?;
        let (drained, n) = self.table.conns[lane].take(&self.memory[lane].inbox.ring, out);
        self.table.conns[lane] = drained;
        Ok(n)
    }

    /// Forgets a connection, whether it lives or is gone; nothing goes out.
    pub fn forget(&mut self, tag: u64) -> Result<(), Refusal>
        ensures { Forgotten self.old self.new tag result }
    {
        let lane = self.kept(tag)?;
        let left = self.table.conns[lane];
        self.table.conns[lane] = left.gone();
        self.table.remove(lane);
        Ok(())
    }

    /// Whether one more connection can be opened. Where it can not, sixteen live.
    pub fn has_room(&self) -> bool
        ensures is { result ≡ has_room self.now.table }
        ensures full { result ≡ false → (e : End) → Stands self.now e → living e.conns ≡ 16 }
    {
        self.table.has_room()
    }

    /// Whether a connection has a tag, or had it and is not forgotten.
    pub fn has(&self, tag: u64) -> bool
        ensures is { result ≡ is_there tag self.now.table }
        ensures had { result ≡ true → (e : End) → Stands self.now e → is_in tag (tags e.conns) ≡ true }
    {
        self.table.has(tag)
    }

    /// What an end takes and refuses makes it a code in the model's sense, with room for sixteen connections.
    pub fn is_code(settings: Settings)
        ensures code { CodeTaking (cfg_of settings) }
        ensures agrees { Agrees }
    {}
}
