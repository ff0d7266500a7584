ghost use Rattle.std.specs.Prelude.{◌≡◌, ◌+◌, ◌<◌, ◌≤◌, [], ◌∷◌, ◌++◌, length, OnOk};
ghost use Rattle.ledger.specs.Room.{RoomFor};
ghost use Rattle.ledger.specs.Ready.{SameBook, Ready};
ghost use Rattle.ledger.specs.Books.{entries, fresh};

use crate::record::{Entry, Record};
use std::alloc::{AllocError, Global};

/// The records of an end's connections and the bytes of all of them, the oldest first.
#[derive(Drop)]
pub struct Book {
    pub records: Vec<Record>,
    // The bytes of all connections stand in one list each, so that `reserve` finds room for bytes of any connection, before a call. Tried
    // with bytes in each record: room could be promised at one tag only, which is less than a caller has now.
    pub given: Vec<Entry>,
    pub taken: Vec<Entry>,
}

/// Bytes of a connection are written down, for which there is memory.
fn write(book: &mut Vec<Entry>, tag: u64, bytes: &[u8])
    ensures { RoomFor (length bytes.now) book.old → book.new.items ≡ book.old.items ++ entries tag bytes.now }
{
    for &byte in bytes {
        // There is memory, so it cannot fail.
        let _ = book.push(Entry { tag, byte });
    }
}

impl Book {
    pub fn new(heap: Global) -> Book
        ensures records { result.records.items ≡ [] }
        ensures given { result.given.items ≡ [] }
        ensures taken { result.taken.items ≡ [] }
    {
        Book {
            records: Vec::new(heap),
            given: Vec::new(heap),
            taken: Vec::new(heap),
        }
    }

    /// Finds memory for one record, and for so many bytes given and taken.
    pub fn reserve(&mut self, bytes: usize) -> Result<(), AllocError>
        ensures same { SameBook self.old self.new }
        ensures ready { OnOk result (Ready bytes self.new) }
    {
        self.records.reserve(1)?;
        self.given.reserve(bytes)?;
        self.taken.reserve(bytes)
    }

    /// A new connection, for whose record there is memory.
    pub fn begin(&mut self, tag: u64)
        ensures records_after { RoomFor 1 self.old.records → (self.new.records.items ≡ self.old.records.items ++ fresh tag ∷ []) }
        ensures given { self.new.given ≡ self.old.given }
        ensures taken { self.new.taken ≡ self.old.taken }
    {
        // There is memory, so it cannot fail.
        let _ = self.records.push(Record::new(tag));
    }

    /// Bytes that a user gave, for which there is memory.
    pub fn give(&mut self, tag: u64, bytes: &[u8])
        ensures given_after { RoomFor (length bytes.now) self.old.given → self.new.given.items ≡ self.old.given.items ++ entries tag bytes.now }
        ensures records { self.new.records ≡ self.old.records }
        ensures taken { self.new.taken ≡ self.old.taken }
    {
        write(&mut self.given, tag, bytes);
    }

    /// Bytes that a user was given, for which there is memory.
    pub fn take(&mut self, tag: u64, bytes: &[u8])
        ensures taken_after { RoomFor (length bytes.now) self.old.taken → self.new.taken.items ≡ self.old.taken.items ++ entries tag bytes.now }
        ensures records { self.new.records ≡ self.old.records }
        ensures given { self.new.given ≡ self.old.given }
    {
        write(&mut self.taken, tag, bytes);
    }
}
