ghost use Rattle.std.specs.Prelude.{◌≡◌, [], ◌∷◌, map, length};
ghost use Rattle.hold.specs.World.{Closes, Due, End, Forgets, Listens, Takes, Who, by_tag, end, start};
ghost use Rattle.endpoint.specs.Stands.{Stands};
ghost use Rattle.packet.specs.Packets.{packet, sent};
ghost use Rattle.ledger.specs.Books.{Met, noted_in, view_of};
ghost use Rattle.ledger.specs.Room.{RoomFor};
ghost use Rattle.party.specs.Plays.{Acts, Answered, Broken, Plays, Said, Gave, Heard, Opened, Seen, Tried};

use crate::look::look;
use crate::{Fault, Party};
use endpoint::{Endpoint, Refusal};
use lanes::LANES;
use ledger::book::Book;
use ledger::record::{Record, View};
use lent::inbox::Memory;
use packet::packet::{Packet, Span};
use packet::settings::Settings;
use std::alloc::Global;

/// A look at the connection of a record, if that is there, is written down.
fn note(end: &Endpoint<'_>, account: &mut Record)
    ensures { (e : End) → Stands end.now e → account.new ≡ noted_in e.conns account.old }
{
    if let Some(v) = look(end.table(), account.tag) {
        *account = account.note(v);
    }
}

/// Every connection of the end is looked at, and what is seen is written down.
fn note_all(end: &Endpoint<'_>, records: &mut Vec<Record>)
    ensures { (e : End) → Stands end.now e → records.new.items ≡ map (noted_in e.conns) records.old.items }
{
    for account in records.iter_mut() {
        note(end, account);
    }
}

// A tag is the first argument of a call at every layer, as memory and settings are of what makes an end: a struct of it and the bytes
// beside it would be made for each call only to be taken apart.

impl<'m> Party<'m> {
    fn look_around(&mut self)
        ensures end { self.new.end ≡ self.old.end }
        ensures seen { Seen self.old self.new }
    {
        note_all(&self.end, &mut self.book.records);
    }

    /// An end with no connection, over memory that may hold anything, and nothing written down.
    pub fn new(heap: Global, settings: Settings, memory: &'m mut [Memory; LANES]) -> Party<'m>
        ensures plays { (o : Who) → Plays result (end o start) }
        ensures settings { result.end.settings ≡ settings }
    {
        Party {
            end: Endpoint::new(settings, memory),
            book: Book::new(heap),
        }
    }

    /// As a new one, over the same memory.
    pub fn restart(self, heap: Global, settings: Settings) -> Party<'m>
        ensures plays { (o : Who) → Plays result (end o start) }
        ensures settings { result.end.settings ≡ settings }
    {
        Party {
            end: self.end.restart(settings),
            book: Book::new(heap),
        }
    }

    /// What is written down of the users.
    pub fn book(&self) -> &Book
        ensures { result.now ≡ self.now.book }
    {
        &self.book
    }

    /// The connection with a tag that is not gone, as it is to be seen.
    pub fn look(&self, tag: u64) -> Option<View>
        ensures { (e : End) → Stands self.now.end e → result ≡ view_of (by_tag tag e.conns) }
    {
        look(self.end.table(), tag)
    }

    /// What is due at a tag.
    pub fn due(&self, tag: u64) -> Option<Packet>
        ensures { Acts self.now self.now (sent result) (λ o. Due o tag) }
    {
        self.end.due(tag)
    }

    /// The answer to a text that brought bytes or the end.
    pub fn answer(&self, tag: u64) -> Option<Packet>
        ensures { Answered self.now tag result }
    {
        self.end.answer(tag)
    }

    /// A text that goes out because it may.
    pub fn send(&self, tag: u64, span: Span) -> Option<Packet>
        ensures { Said self.now tag span.place span.most result }
    {
        self.end.send(tag, span)
    }

    pub fn listen(&mut self, on: bool)
        ensures { Acts self.old self.new [] (λ o. Listens o on) }
    {
        self.end.listen(on);
    }

    /// A new connection, with a tag that was never drawn before, and the ask that goes out.
    pub fn open(&mut self, tag: u64) -> Result<Packet, Fault>
        ensures { Opened self.old self.new tag result }
    {
        self.book.reserve(0)?;
        let ask = self.end.open(tag)?;
        self.book.begin(tag);
        self.look_around();
        Ok(ask)
    }

    /// As many of the bytes as have room are given, and written down.
    pub fn give(&mut self, tag: u64, bytes: &[u8]) -> Result<usize, Fault>
        ensures { Gave self.old self.new tag bytes.now result }
    {
        self.book.reserve(bytes.len())?;
        let count = self.end.give(tag, bytes)?;
        self.book.give(tag, &bytes[..count.min(bytes.len())]);
        self.look_around();
        Ok(count)
    }

    /// The user gives no more.
    pub fn close(&mut self, tag: u64) -> Result<(), Fault>
        ensures { Tried self.old self.new (λ o. Closes o tag) result }
    {
        self.end.close(tag)?;
        self.look_around();
        Ok(())
    }

    /// The user breaks a connection off; a bye goes out unless it only asked.
    pub fn break_off(&mut self, tag: u64) -> Result<Option<Packet>, Fault>
        ensures { Broken self.old self.new tag result }
    {
        let bye = self.end.break_off(tag)?;
        self.look_around();
        Ok(bye)
    }

    /// Bytes that were got and not taken go to the front of `out`, and are written down; how many.
    pub fn take(&mut self, tag: u64, out: &mut [u8]) -> Result<usize, Fault>
        ensures { Tried self.old self.new (λ o. Takes o tag (length out.old)) result }
    {
        self.book.reserve(out.len())?;
        look(self.end.table(), tag).ok_or(Refusal::NotThere)?;
        let count = self.end.take(tag, out)?;
        self.book.take(tag, &out[..count.min(out.len())]);
        self.look_around();
        Ok(count)
    }

    /// A connection that is there with a tag gets a record.
    fn meet(&mut self, tag: u64)
        ensures end { self.new.end ≡ self.old.end }
        ensures met { (e : End) → Stands self.old.end e → RoomFor 1 self.old.book.records → Met tag (by_tag tag e.conns) self.old.book self.new.book }
    {
        if look(self.end.table(), tag).is_some() {
            self.book.begin(tag);
        }
    }

    /// A packet is heard, with a tag that was never drawn before for the connection that it may open; what goes out.
    pub fn hear(&mut self, p: &Packet, draws: u64) -> Result<Option<Packet>, Fault>
        ensures { Heard self.old self.new (packet p.now) draws result }
    {
        let view = p.view().ok_or(Fault::Unfit)?;
        self.book.reserve(0)?;
        let reply = self.end.hear(view, draws)?;
        self.meet(draws);
        self.look_around();
        Ok(reply)
    }

    /// A connection is forgotten: nothing more is heard or said of it.
    pub fn forget(&mut self, tag: u64) -> Result<(), Fault>
        ensures { Tried self.old self.new (λ o. Forgets o tag) result }
    {
        self.end.forget(tag)?;
        self.look_around();
        Ok(())
    }
}
