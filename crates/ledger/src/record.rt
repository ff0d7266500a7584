ghost use Rattle.std.specs.Prelude.{◌≡◌};
ghost use Rattle.ledger.specs.Books.{fresh, noted, partner_of};

/// What is to be seen of a connection at some moment.
#[derive(Clone, Copy, PartialEq, Eq, Debug)]
pub struct View {
    /// The other's tag, once it is known.
    // A number with a flag and no Option: a connection that only asked has a number there too, which a look tells as it is.
    pub peer: u64,
    /// It is half open or open, so that the other's tag is known.
    pub settled: bool,
    /// It is open now.
    pub opened: bool,
    /// So many bytes its user gave.
    pub given: u64,
    pub closed: bool,
    /// So many bytes came in order.
    pub arrived: u64,
    /// It was heard where the other's stream ends.
    pub heard: bool,
    /// The user was told the end.
    pub told: bool,
    /// So many bytes are confirmed by the other.
    pub upto: u64,
    /// The end is confirmed too.
    pub all: bool,
    /// Something was given, or the end said, that the other has not confirmed.
    pub owes: bool,
}

/// What is written down of a connection, but for its bytes.
#[derive(Clone, Copy, PartialEq, Eq, Debug)]
pub struct Record {
    pub tag: u64,
    /// The other's tag, once it is known; before that, what its connection has there. 0 in a new record.
    // A number and no Option: an account of the sentence has a number here, and no connection has the tag 0.
    pub peer: u64,
    /// It was ever open.
    pub opened: bool,
    pub closed: bool,
    pub arrived: u64,
    pub heard: bool,
    pub told: bool,
    pub upto: u64,
    pub all: bool,
}

/// A byte that the user of a connection gave, or was given.
#[derive(Clone, Copy, PartialEq, Eq, Debug)]
pub struct Entry {
    pub tag: u64,
    pub byte: u8,
}

impl View {
    /// The other's tag, once it is known.
    pub fn partner(self) -> Option<u64>
        ensures { result ≡ partner_of self }
    {
        self.settled.then_some(self.peer)
    }
}

impl Record {
    pub fn new(tag: u64) -> Record
        ensures { result ≡ fresh tag }
    {
        Record {
            tag,
            peer: 0,
            opened: false,
            closed: false,
            arrived: 0,
            heard: false,
            told: false,
            upto: 0,
            all: false,
        }
    }

    /// The record after a look at its connection.
    pub fn note(self, v: View) -> Record
        ensures { result ≡ noted v self }
    {
        Record {
            tag: self.tag,
            peer: v.peer,
            opened: self.opened || v.opened,
            closed: v.closed,
            arrived: v.arrived,
            heard: v.heard,
            told: v.told,
            upto: v.upto,
            all: v.all,
        }
    }
}
