ghost use Rattle.std.specs.Prelude.{◌≡◌, ◌-◌, not, nat_lt};
ghost use Rattle.timer.specs.Opening as spec;

/// So many ticks after the first, an ask or yes is sent again.
pub const AGAIN: [u64; 7] = [1000, 3000, 7000, 15000, 31000, 63000, 127000];

/// So many ticks after its first ask or yes, a connection that didn't open is given up.
pub const PATIENCE: u64 = 160000;

/// A tick later by so many; the clock's last tick, where there is none.
pub fn tick_after(tick: u64, more: u64) -> u64
    ensures { result ≡ spec.tick_after tick more }
{
    tick.saturating_add(more)
}

// `start` and `now` stay two ticks below: a struct of both would be made anew for each call.

/// Whether an ask or yes that was first sent at `start` is sent again now.
pub fn repeats(start: u64, now: u64) -> bool
    ensures { result ≡ spec.repeats start now }
{
    AGAIN.contains(&now.saturating_sub(start))
}

/// Whether a connection that first asked or said yes at `start`, and isn't open, is given up now.
pub fn gives_up(start: u64, now: u64) -> bool
    ensures { result ≡ not (nat_lt (now - start) spec.patience) }
{
    now.saturating_sub(start) >= PATIENCE
}

/// The next moment at which an ask or yes is sent again, or given up.
pub fn next_moment(start: u64, now: u64) -> u64
    ensures { result ≡ spec.next_moment start now }
{
    let elapsed = now.saturating_sub(start);
    let last = PATIENCE.max(elapsed.saturating_add(1));
    let moment = AGAIN.iter().find(|&&moment| elapsed < moment);
    tick_after(start, moment.copied().unwrap_or(last))
}
