ghost use Rattle.std.specs.Prelude.{◌≡◌};
ghost use Rattle.timer.specs.Measure as spec;

/// The shortest waiting time, in ticks.
pub const SHORTEST: u64 = 1000;

/// The longest waiting time, in ticks.
pub const LONGEST: u64 = 60000;

/// Measures of round trips: the mean in eighths of a tick, the deviation in quarters.
#[derive(Clone, Copy, PartialEq, Eq, Debug)]
pub struct Measures {
    pub mean: u64,
    pub deviation: u64,
}

impl Measures {
    /// The measures after the first round trip.
    pub fn first(round: u32) -> Measures
        ensures { result ≡ spec.first round }
    {
        let round = u64::from(round);
        Measures {
            mean: 8 * round,
            deviation: 2 * round,
        }
    }

    /// The measures after one more round trip.
    pub fn later(self, round: u32) -> Measures
        ensures { result ≡ spec.later self round }
    {
        let round = u64::from(round);
        let error = (self.mean / 8).abs_diff(round);
        Measures {
            mean: self.mean - self.mean / 8 + round,
            deviation: self.deviation - self.deviation / 4 + error,
        }
    }

    /// The waiting time.
    pub fn time(self) -> u64
        ensures { result ≡ spec.time self }
    {
        (self.mean / 8)
            .saturating_add(self.deviation.max(1))
            .clamp(SHORTEST, LONGEST)
    }
}

/// The measures after a round trip of so many ticks, which counts as 32 bits at most.
pub fn measured(before: Option<Measures>, ticks: u64) -> Option<Measures>
    ensures { result ≡ spec.measured before ticks }
{
    let round = u32::try_from(ticks).unwrap_or(u32::MAX);
    Some(before.map_or_else(|| Measures::first(round), |m| m.later(round)))
}

/// The waiting time set anew; before the first measure, the shortest.
pub fn waiting_time(measures: Option<Measures>) -> u64
    ensures exact { result ≡ spec.waiting measures }
    ensures within { spec.Timely result }
{
    measures.map_or(SHORTEST, |m| m.time())
}

/// The waiting time after a text by the clock.
pub fn doubled(wait: u64) -> u64
    ensures exact { result ≡ spec.doubled wait }
    ensures within { spec.Timely wait → spec.Timely result }
{
    wait.saturating_mul(2).min(LONGEST)
}
