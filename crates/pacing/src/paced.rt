ghost use Rattle.std.specs.Prelude.{◌≡◌};
ghost use Rattle.pacing.specs.Clock.{late, sent_text};
ghost use Rattle.pacing.specs.Next.{up_to_date};

use crate::clock::{Clock, Said};
use crate::numbers::{Choice, Numbers, Why};

/// A connection as its texts are chosen: its numbers and its clock. What it sends is in `next`, what it does at a tick in `tick`.
#[derive(Clone, Copy, PartialEq, Eq, Debug)]
pub struct Paced {
    pub numbers: Numbers,
    pub clock: Clock,
}

impl Paced {
    /// What a text says now.
    fn says(self) -> Said
        ensures edge { result.edge ≡ self.numbers.edge }
        ensures all { result.all ≡ self.numbers.reached }
    {
        Said {
            edge: self.numbers.edge,
            all: self.numbers.reached,
        }
    }

    /// Whether its last text said its edge and all as they are.
    pub fn up_to_date(self) -> bool
        ensures { result ≡ up_to_date self.numbers self.clock }
    {
        self.clock.said == Some(self.says())
    }

    /// A text goes out. One by the clock leaves nothing under way but itself, and doubles the waiting time.
    pub fn sent(self, text: Choice, now: u64) -> Paced
        ensures numbers { result.numbers ≡ self.numbers }
        ensures clock { result.clock ≡ sent_text self.numbers text now self.clock }
    {
        let mut clock = Clock {
            said: Some(self.says()),
            ..self.clock
        };
        if text.why == Why::Clock {
            clock = clock.by_clock();
        }
        let end = self.numbers.end_of(text);
        if text.place < end {
            clock = clock.with_bytes(self.numbers.sees, text.place, end, now);
        }
        if self.numbers.is_last(text) {
            clock = clock.with_last(now);
        }
        Paced { clock, ..self }
    }

    /// Whether the waiting time has passed for one that owes.
    pub fn late(self, now: u64) -> bool
        ensures { result ≡ late self.numbers now self.clock }
    {
        self.numbers.owes() && now.saturating_sub(self.clock.since) >= self.clock.wait
    }
}
