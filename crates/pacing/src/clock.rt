ghost use Rattle.std.specs.Prelude.{◌≡◌};
ghost use Rattle.pacing.specs.Clock as spec;

use crate::numbers::Numbers;
use timer::flight::Flight;
use timer::measures::{Measures, SHORTEST, doubled, waiting_time};

/// What a text says of the way to its sender.
#[derive(Clone, Copy, PartialEq, Eq, Debug)]
pub struct Said {
    pub edge: u64,
    pub all: bool,
}

/// A connection's clock: what it sent, and when. Times are ticks of its end.
#[derive(Clone, Copy, PartialEq, Eq, Debug)]
pub struct Clock {
    /// When its first ask or yes was sent.
    pub first: u64,
    /// When the last packet for it came.
    pub touched: u64,
    /// Bytes below this, or below upto, count as sent.
    pub sent: u64,
    /// The largest end of a text with bytes.
    pub high: u64,
    /// Whether a text with last was sent.
    pub ended: bool,
    /// What the last text said.
    pub said: Option<Said>,
    pub flight: Flight,
    pub measures: Option<Measures>,
    /// The waiting time, and since when it runs.
    pub wait: u64,
    pub since: u64,
}

impl Clock {
    /// The clock of a connection that is made now.
    pub fn new(now: u64) -> Clock
        ensures { result ≡ spec.made now }
    {
        Clock {
            first: now,
            touched: now,
            sent: 0,
            high: 0,
            ended: false,
            said: None,
            flight: Flight::new(),
            measures: None,
            wait: SHORTEST,
            since: now,
        }
    }

    /// A packet for the connection came.
    pub fn came(self, now: u64) -> Clock
        ensures { result ≡ spec.came now self }
    {
        Clock {
            touched: now,
            ..self
        }
    }

    /// It opened by a yes.
    pub fn opened(self, now: u64) -> Clock
        ensures { result ≡ spec.restarted now self }
    {
        Clock { since: now, ..self }
    }

    /// Its user gave or closed: the waiting time runs from now if it comes to owe by that.
    pub fn owing(self, before: Numbers, after: Numbers, now: u64) -> Clock
        ensures { result ≡ spec.owing before after now self }
    {
        if before.owes() || !after.owes() {
            return self;
        }
        Clock { since: now, ..self }
    }

    /// A text came by which upto is what it is now. If it grew, what it confirms is measured and the waiting time is set anew.
    pub fn heard(self, before: u64, upto: u64, now: u64) -> Clock
        ensures { result ≡ spec.heard before upto now self }
    {
        if upto <= before {
            return self;
        }
        let measures = self.flight.measured(upto, now, self.measures);
        Clock {
            flight: self.flight.settled(upto),
            measures,
            wait: waiting_time(measures),
            since: now,
            ..self
        }
    }

    /// A text goes out by the clock: nothing is under way any more, and the waiting time is doubled.
    pub(crate) fn by_clock(self) -> Clock
        ensures { result ≡ spec.by_clock self }
    {
        Clock {
            flight: Flight::new(),
            wait: doubled(self.wait),
            ..self
        }
    }

    /// A text with the bytes from `place` to `end` goes out; the bytes below `sees` may be sent.
    pub(crate) fn with_bytes(self, sees: u64, place: u64, end: u64, now: u64) -> Clock
        ensures { result ≡ spec.with_bytes sees place end now self }
    {
        Clock {
            sent: self.sent.max(end.min(sees)),
            high: self.high.max(end),
            flight: self.flight.sent(self.high, place, end, now),
            since: now,
            ..self
        }
    }

    /// A text with last goes out.
    pub(crate) fn with_last(self, now: u64) -> Clock
        ensures { result ≡ spec.with_last now self }
    {
        Clock {
            ended: true,
            since: now,
            ..self
        }
    }
}
