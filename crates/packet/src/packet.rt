ghost use Rattle.std.specs.Prelude.{◌≡◌, ◌++◌, codes, decimal, Some};
ghost use Rattle.hold.specs.Packet.{bare};
ghost use Rattle.packet.specs.Kinds.{KindIn, kind_name, kind_number};
ghost use Rattle.packet.specs.Packets.{Viewed, packet, kind_of};
ghost use Rattle.packet.specs.Places.{beyond};

use crate::settings::CAPACITY;
use std::error::Error;
use std::fmt;

/// Most bytes of one text.
pub const SIZE: usize = 1024;

/// No place of a stream is beyond this.
pub const MOST_PLACE: u64 = 1 << 62;

/// No edge is beyond this.
pub const MOST_EDGE: u64 = MOST_PLACE + CAPACITY as u64;

/// What a packet is: an ask opens a connection (a SYN), a yes answers it (a SYN-ACK), a text brings bytes and
/// acknowledgements, a bye ends a connection (a RST).
#[derive(Clone, Copy, PartialEq, Eq, Debug)]
pub enum Kind {
    Ask,
    Yes,
    Text,
    Bye,
}

/// A byte that stands for no kind.
#[derive(Clone, Copy, PartialEq, Eq, Debug)]
pub struct UnknownKind(pub u8);

/// The byte that stands for a kind.
impl From<Kind> for u8 {
    ghost from_gives = { λ kind byte. byte ≡ kind_number (kind_of kind) };

    fn from(kind: Kind) -> u8 {
        match kind {
            Kind::Ask => 1,
            Kind::Yes => 2,
            Kind::Text => 3,
            Kind::Bye => 4,
        }
    }
}

impl TryFrom<u8> for Kind {
    type Error = UnknownKind;

    ghost try_from_gives = { KindIn };

    fn try_from(byte: u8) -> Result<Kind, UnknownKind> {
        match byte {
            1 => Ok(Kind::Ask),
            2 => Ok(Kind::Yes),
            3 => Ok(Kind::Text),
            4 => Ok(Kind::Bye),
            _ => Err(UnknownKind(byte)),
        }
    }
}

impl fmt::Display for Kind {
    ghost output = { λ kind. Some (kind_name kind) };

    fn fmt<W: fmt::Write>(&self, f: &mut fmt::Formatter<W>) -> fmt::Result {
        f.write_str(match self {
            Kind::Ask => "ask",
            Kind::Yes => "yes",
            Kind::Text => "text",
            Kind::Bye => "bye",
        })
    }
}

impl fmt::Display for UnknownKind {
    ghost output = { λ kind. Some (codes "no kind of packet has the number " ++ decimal kind.0) };

    fn fmt<W: fmt::Write>(&self, f: &mut fmt::Formatter<W>) -> fmt::Result {
        write!(f, "no kind of packet has the number {}", self.0)
    }
}

impl Error for UnknownKind {}

/// All of a packet but its text.
#[derive(Clone, Copy, PartialEq, Eq, Debug)]
pub struct Head {
    pub kind: Kind,
    /// The sender's tag, its number of the connection.
    pub from: u64,
    /// The receiver's tag.
    pub to: u64,
    /// Sequence number of the text's first byte.
    pub place: u64,
    /// The stream ends where the text does.
    pub last: bool,
    /// Cumulative acknowledgement: so many bytes came in order.
    pub upto: u64,
    /// The end of the other's stream came too.
    pub all: bool,
    /// Right edge of the advertised window.
    pub edge: u64,
}

impl Head {
    /// Whether its place, upto or edge is one that no stream has.
    pub fn is_beyond(self) -> bool
        ensures { result ≡ beyond self.place self.upto self.edge }
    {
        self.place > MOST_PLACE || self.upto > MOST_PLACE || self.edge > MOST_EDGE
    }
}

/// A part of a stream: the bytes from a place on, at most so many.
#[derive(Clone, Copy, PartialEq, Eq, Debug)]
pub struct Span {
    pub place: u64,
    pub most: u64,
}

/// A packet whose text stands in memory of someone else.
#[derive(Clone, Copy, PartialEq, Eq, Debug)]
pub struct PacketRef<'a> {
    pub head: Head,
    pub text: &'a [u8],
}

/// A packet to be sent; its text is the first `count` bytes of `text`.
// A buffer with a count beside it, since the project has no heap. The type doesn't hold that `count` is at most SIZE: that would ask more of
// whoever makes one. No `==` is derived: it would compare what stands behind the text too; compare what `view` gives.
#[derive(Clone, Copy, Debug)]
pub struct Packet {
    pub head: Head,
    pub text: [u8; SIZE],
    pub count: usize,
}

impl Packet {
    /// A packet with nothing but its kind and its tags.
    pub fn bare(kind: Kind, from: u64, to: u64) -> Packet
        ensures { packet result ≡ bare (kind_of kind) from to }
    {
        let head = Head {
            kind,
            from,
            to,
            place: 0,
            last: false,
            upto: 0,
            all: false,
            edge: 0,
        };
        Packet {
            head,
            text: [0; SIZE],
            count: 0,
        }
    }

    /// The packet with its text as a slice. None where `count` is more than the buffer has.
    pub fn view(&self) -> Option<PacketRef<'_>>
        ensures { Viewed self.now result }
    {
        let text = self.text.get(..self.count)?;
        Some(PacketRef {
            head: self.head,
            text,
        })
    }
}
