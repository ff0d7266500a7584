ghost use Rattle.std.specs.Prelude.{◌≡◌};
ghost use Rattle.pacing.specs.Tick as spec;

use crate::numbers::Stage;
use crate::paced::Paced;
use timer::opening::{gives_up, next_moment, repeats, tick_after};

/// So many ticks after the last packet for it, a finished connection is forgotten.
pub const QUIET: u64 = 250000;

/// What a connection does at a tick; where it does nothing there is none.
#[derive(Clone, Copy, PartialEq, Eq, Debug)]
pub enum Act {
    /// Its ask or yes is sent again.
    Repeat,
    /// Nothing came that opens it: it is gone.
    GiveUp,
    /// It is finished, and forgotten.
    Forget,
    /// A due text by the clock goes out.
    Speak,
}

impl Paced {
    /// What a connection does at the tick `now`.
    pub fn at_tick(self, now: u64) -> Option<Act>
        ensures { result ≡ spec.at_tick self.numbers self.clock now }
    {
        match self.numbers.stage {
            Stage::Opening => opening_tick(self.clock.first, now),
            Stage::Open => self.open_tick(now),
            Stage::Gone => None,
        }
    }

    fn open_tick(self, now: u64) -> Option<Act>
        ensures { result ≡ spec.open_tick self.numbers self.clock now }
    {
        if self.numbers.finished() && now.saturating_sub(self.clock.touched) >= QUIET {
            return Some(Act::Forget);
        }
        self.late(now).then_some(Act::Speak)
    }

    /// The next tick at which a connection does something, unless something else happens before; none, if it is silent for ever.
    pub fn wake(self, now: u64) -> Option<u64>
        ensures { result ≡ spec.wake self.numbers self.clock now }
    {
        match self.numbers.stage {
            Stage::Opening => Some(next_moment(self.clock.first, now)),
            Stage::Open => self.open_wake(now),
            Stage::Gone => None,
        }
    }

    fn open_wake(self, now: u64) -> Option<u64>
        ensures { result ≡ spec.open_wake self.numbers self.clock now }
    {
        let next = tick_after(now, 1);
        let forget = tick_after(self.clock.touched, QUIET).max(next);
        let speak = tick_after(self.clock.since, self.clock.wait).max(next);
        let forget = self.numbers.finished().then_some(forget);
        let speak = self.numbers.owes().then_some(speak);
        match (forget, speak) {
            (Some(forget), Some(speak)) => Some(forget.min(speak)),
            _ => forget.or(speak),
        }
    }
}

fn opening_tick(first: u64, now: u64) -> Option<Act>
    ensures { result ≡ spec.opening_tick first now }
{
    if gives_up(first, now) {
        return Some(Act::GiveUp);
    }
    repeats(first, now).then_some(Act::Repeat)
}
