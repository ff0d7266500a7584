//! What the rules of time come to. Nothing here runs: each function is there for its contract, a theorem over specs/.
ghost use Rattle.timer.specs.Enough.{SixteenSuffice};
ghost use Rattle.timer.specs.Measure.{WorkedMeasures, WorkedDoubling};
ghost use Rattle.timer.specs.Opening.{EightMoments};

/// Round trips of 100 and 140 ticks, worked out; and the times of texts by the clock where nothing is confirmed.
pub fn worked_times()
    ensures measures { WorkedMeasures }
    ensures doubling { WorkedDoubling }
{}

/// Asks and yeses go out at eight moments.
pub fn eight_moments()
    ensures { EightMoments }
{}

/// The sixteen rows with the largest ends tell whether fewer than sixteen texts are under way, and give the same measures,
/// as all rows would: one that is left out is never clean.
pub fn sixteen_suffice()
    ensures { SixteenSuffice }
{}
