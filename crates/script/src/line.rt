ghost use Rattle.std.specs.Prelude.{◌≡◌, ◌++◌, codes, decimal, Some};

use std::error::Error;
use std::fmt;

/// One of two ends.
#[derive(Clone, Copy, Debug, PartialEq, Eq)]
pub enum Side {
    L,
    R,
}

/// What is done at one end: a call of its user, or a moment of its own.
#[derive(Clone, Copy, Debug, PartialEq, Eq)]
pub enum Call<'a> {
    Listen { on: bool },
    Open { tag: u64 },
    Accept,
    /// `encoded` is a word of data as it stands in the line; empty for no bytes.
    Give { tag: u64, encoded: &'a [u8] },
    Take { tag: u64, count: u64 },
    Close { tag: u64 },
    Break { tag: u64 },
    State { tag: u64 },
    /// Its clock says that something is due.
    Due { tag: u64 },
    Answer { tag: u64 },
    Send { tag: u64, place: u64, count: u64 },
    Forget { tag: u64 },
}

#[derive(Clone, Copy, Debug, PartialEq, Eq)]
pub enum Line<'a> {
    /// An empty line or a comment.
    Blank,
    Settings {
        room: u64,
        size: u64,
    },
    /// At the end of that side, or at the only end.
    Act {
        side: Option<Side>,
        call: Call<'a>,
    },
    /// The net brings the `which`-th packet, from 1, ever sent to that side; `tag` is drawn for the connection that
    /// it may open.
    Bring {
        to: Side,
        which: u64,
        tag: u64,
    },
    /// The same, with the `byte`-th byte, from 0, XORed with `mask`.
    Damage {
        to: Side,
        which: u64,
        byte: u64,
        mask: u8,
        tag: u64,
    },
    /// All that the connection has still to get is brought over.
    Drive {
        side: Side,
        tag: u64,
    },
    Tick {
        count: u64,
    },
}

/// A line that isn't one of the format.
#[derive(Clone, Copy, Debug, PartialEq, Eq)]
pub struct Fault {
    /// From 1: the first byte at which no line of the format can go on.
    pub column: usize,
}

/// The number of every fault of a line.
const FAULT: u8 = 1;

impl From<Fault> for u8 {
    ghost from_gives = { λ _ number. number ≡ 1 };

    fn from(_fault: Fault) -> u8 {
        FAULT
    }
}

impl fmt::Display for Fault {
    ghost output = { λ fault. Some (codes "column " ++ decimal fault.column) };

    fn fmt<W: fmt::Write>(&self, f: &mut fmt::Formatter<W>) -> fmt::Result {
        write!(f, "column {}", self.column)
    }
}

impl Error for Fault {}
