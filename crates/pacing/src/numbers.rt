ghost use Rattle.std.specs.Prelude.{◌≡◌};
ghost use Rattle.pacing.specs.Text as spec;

/// How far a connection is: asked or half, open, or gone.
#[derive(Clone, Copy, PartialEq, Eq, Debug)]
pub enum Stage {
    Opening,
    Open,
    Gone,
}

/// Why a text goes out: it answers a text that came; it has something not sent yet; it is owed (a yes came, or edge or all
/// has grown since the last text); or the waiting time has passed.
#[derive(Clone, Copy, PartialEq, Eq, Debug)]
pub enum Why {
    Answer,
    New,
    Due,
    Clock,
}

/// A text to be sent: the bytes given from a place on, at most so many.
#[derive(Clone, Copy, PartialEq, Eq, Debug)]
pub struct Choice {
    pub place: u64,
    pub most: u64,
    pub why: Why,
}

/// What a connection's texts are chosen by.
#[derive(Clone, Copy, PartialEq, Eq, Debug)]
pub struct Numbers {
    pub stage: Stage,
    /// How many bytes its user gave, and whether no more will come.
    pub given: u64,
    pub closed: bool,
    /// The largest edge and upto heard, and whether all was heard.
    pub sees: u64,
    pub upto: u64,
    pub all: bool,
    /// How many bytes came in order, and how many its user took.
    pub got: u64,
    pub taken: u64,
    /// Whether the other's end is reached, and whether its user was told so.
    pub reached: bool,
    pub told: bool,
    /// The place up to which there is room.
    pub edge: u64,
    /// The most bytes of one text.
    pub size: u64,
}

impl Numbers {
    /// Whether something is given, or closed, and not confirmed.
    pub fn owes(self) -> bool
        ensures { result ≡ spec.owes self }
    {
        self.stage == Stage::Open && (self.upto < self.given || self.closed && !self.all)
    }

    /// Whether both ways are at their ends and its user knows.
    pub fn finished(self) -> bool
        ensures { result ≡ spec.finished self }
    {
        let came = self.reached && self.taken == self.got && self.told;
        self.stage == Stage::Open && came && self.closed && self.all
    }

    /// The place after the last byte of a text.
    pub fn end_of(self, text: Choice) -> u64
        ensures { result ≡ spec.end_of self text }
    {
        text.place + text.most.min(self.given.saturating_sub(text.place))
    }

    /// Whether a text says that its end is the end of all.
    pub fn is_last(self, text: Choice) -> bool
        ensures { result ≡ spec.is_last self text }
    {
        self.closed && !self.all && self.end_of(text) == self.given
    }

    /// An answer begins with the first byte that isn't confirmed, and has no byte at or beyond what it sees.
    pub fn answer(self) -> Choice
        ensures { result ≡ spec.answer self }
    {
        Choice {
            place: self.upto,
            most: self.size.min(self.sees.saturating_sub(self.upto)),
            why: Why::Answer,
        }
    }

    /// A due text begins where an answer does; where nothing may be sent it has one byte all the same.
    pub fn due(self, why: Why) -> Choice
        ensures { result ≡ spec.due self why }
    {
        let answer = self.answer();
        Choice {
            most: answer.most.max(1),
            why,
            ..answer
        }
    }
}
