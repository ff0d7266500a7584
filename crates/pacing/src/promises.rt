//! What the rules of sending come to. Nothing here runs: each function is there for its contract, a theorem over specs/.
ghost use Rattle.pacing.specs.Promises.{AlwaysTimely, OwesSpeaks, ClockCarries, ClockRestarts, Answered, SaysAll, Silent, BelowSees, Sleeps, Wakes, Finished, OpeningMoments};
ghost use Rattle.pacing.specs.Moment.{OneMoment, AtMostSeventeen};
ghost use Rattle.pacing.specs.UnderWay.{RowsEnough, NewWhenFew};

/// Waiting times lie between 1,000 and 60,000 ticks, whatever happened. One that owes speaks within 60,000 ticks; that text
/// has bytes or last, and starts the waiting time again, doubled.
pub fn waiting_promise()
    ensures always { AlwaysTimely }
    ensures speaks { OwesSpeaks }
    ensures carries { ClockCarries }
    ensures restarts { ClockRestarts }
{}

/// A text that had bytes or last is answered at once. Every text tells edge and all as they are. One that owes nothing and is asked nothing sends nothing. Answers and new texts
/// have no byte at or beyond what is seen; a due text has at most one.
pub fn text_promise()
    ensures answered { Answered }
    ensures says { SaysAll }
    ensures silent { Silent }
    ensures below { BelowSees }
{}

/// At one moment the answer goes out first, then at most sixteen new texts, and a due text only where nothing else does;
/// never more than seventeen.
pub fn moment_promise()
    ensures order { OneMoment }
    ensures few { AtMostSeventeen }
{}

/// Fewer than sixteen texts are under way when a new one goes out; the rows that a clock holds tell that, and give the same
/// measures, as all rows would.
pub fn flight_promise()
    ensures enough { RowsEnough }
    ensures few { NewWhenFew }
{}

/// Until it wants to be woken a connection does nothing at any tick, and then it does something. A finished one is forgotten
/// 250,000 ticks after the last packet for it, and not before. Asks and yeses are repeated at their moments and no others.
pub fn tick_promise()
    ensures sleeps { Sleeps }
    ensures wakes { Wakes }
    ensures finished { Finished }
    ensures opening { OpeningMoments }
{}
