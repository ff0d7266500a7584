ghost use Rattle.std.specs.Prelude.{◌≡◌, map, replicate};
ghost use Rattle.timer.specs.Flight as spec;

use crate::measures::{Measures, measured};

/// A text with bytes that was sent.
#[derive(Clone, Copy, PartialEq, Eq, Debug, Default)]
pub struct Row {
    pub place: u64,
    pub end: u64,
    /// When it was sent.
    pub time: u64,
    /// None of its bytes was ever sent in another text, and it isn't measured yet.
    pub clean: bool,
}

/// The texts under way: of those sent, the sixteen with the largest ends, the lowest first. One is under way if its end isn't confirmed.
#[derive(Clone, Copy, PartialEq, Eq, Debug)]
pub struct Flight {
    pub rows: [Row; 16],
}

impl Flight {
    /// Nothing is under way.
    pub fn new() -> Flight
        ensures { result.rows ≡ replicate 16 spec.blank }
    {
        Flight {
            rows: [Row::default(); 16],
        }
    }

    /// Whether sixteen texts are under way, so much being confirmed.
    pub fn full(self, upto: u64) -> bool
        ensures { result ≡ spec.full upto self.rows }
    {
        upto < self.rows[0].end
    }

    // `place` and `end` stay two numbers: a `Range` would be taken apart again where a `Row` is made of it.

    /// The rows when the bytes from `place` to `end` are sent: those that have one of them aren't clean any more.
    pub fn resent(self, place: u64, end: u64) -> Flight
        ensures { result.rows ≡ map (spec.resent place end) self.rows }
    {
        let mut rows = self.rows;
        for row in &mut rows {
            *row = row.resent(place, end);
        }
        Flight { rows }
    }

    /// The rows when so much is confirmed: those that are confirmed aren't measured again.
    pub fn settled(self, upto: u64) -> Flight
        ensures { result.rows ≡ map (spec.settled upto) self.rows }
    {
        let mut rows = self.rows;
        for row in &mut rows {
            *row = row.settled(upto);
        }
        Flight { rows }
    }

    /// A row more, in its place by its end; the one with the lowest end is left out.
    fn pushed(self, row: Row) -> Flight
        ensures { result.rows ≡ spec.pushed row self.rows }
    {
        let mut rows = self.rows;
        let above = rows.iter().position(|r| row.end < r.end).unwrap_or(16);
        if above > 0 {
            rows.copy_within(1..above, 0);
            rows[above - 1] = row;
        }
        Flight { rows }
    }

    /// A text with the bytes from `place` to `end` is sent now; the bytes below `high` were sent before.
    pub fn sent(self, high: u64, place: u64, end: u64, now: u64) -> Flight
        ensures { result.rows ≡ spec.sent_rows high place end now self.rows }
    {
        let row = Row {
            place,
            end,
            time: now,
            clean: place >= high,
        };
        self.resent(place, end).pushed(row)
    }

    /// The measures after so much is confirmed now: each clean row that is confirmed is measured.
    pub fn measured(self, upto: u64, now: u64, before: Option<Measures>) -> Option<Measures>
        ensures { result ≡ spec.measured_by upto now before self.rows }
    {
        self.rows
            .iter()
            .fold(before, |measures, row| row.measured(upto, now, measures))
    }
}

impl Row {
    fn resent(self, place: u64, end: u64) -> Row
        ensures { result ≡ spec.resent place end self }
    {
        let shares = self.place < end && place < self.end;
        Row {
            clean: self.clean && !shares,
            ..self
        }
    }

    fn settled(self, upto: u64) -> Row
        ensures { result ≡ spec.settled upto self }
    {
        Row {
            clean: self.clean && upto < self.end,
            ..self
        }
    }

    fn measured(self, upto: u64, now: u64, before: Option<Measures>) -> Option<Measures>
        ensures { result ≡ spec.measured_one upto now before self }
    {
        if !self.clean || upto < self.end {
            return before;
        }
        measured(before, now.saturating_sub(self.time))
    }
}
