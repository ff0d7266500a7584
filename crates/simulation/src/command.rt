use crate::pair::Side;
use packet::packet::Span;

/// A line of a script: a call of a user, a due moment, or a packet that the net brings.
#[derive(Clone, Copy, PartialEq, Eq, Debug)]
pub enum Command<'a> {
    Listen(Side, bool),
    /// With a tag that was never drawn before.
    Open(Side, u64),
    Give(Side, u64, &'a [u8]),
    /// All that was got and not taken.
    Take(Side, u64),
    Close(Side, u64),
    Break(Side, u64),
    Forget(Side, u64),
    /// The clock of a connection says that something is due.
    Due(Side, u64),
    /// The answer to a text that was heard.
    Answer(Side, u64),
    /// A text that goes out because it may: that of a span.
    Send(Side, u64, Span),
    /// The packet at a place among all that were ever sent to a side, the oldest first, with a tag drawn for the connection that it
    /// may open, or 0.
    Deliver(Side, usize, u64),
}

/// What a line was answered by.
#[derive(Clone, Copy, PartialEq, Eq, Debug)]
pub enum Answer {
    Done,
    /// So many bytes were given.
    Gave(usize),
    /// So many bytes were taken.
    Took(usize),
    /// The packet that was brought, by its place from the latest.
    Heard(usize),
}
