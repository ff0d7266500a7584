//! Which of sixteen lanes are in use, and which of them longest. Whatever lives in a lane stays in it as long as it lives; age is kept apart, in an order of lanes.
#![tactic(auto)]

ghost use Rattle.std.specs.Prelude.{◌≡◌, ◌≤◌, length};
ghost use Rattle.lanes.specs.Order.{Apart, Low};
ghost use Rattle.lanes.specs.declared.TheConstants.{LANES};

mod calls;

/// How many lanes there are.
pub const LANES: usize = 16;

// An array with a length beside it, for nothing is on a heap here; the free lanes stand behind those in use, so that one is found at once.
/// The lanes in some order: the first `count` are in use, the oldest first, and the others are free.
#[derive(Clone, Copy, PartialEq, Eq, Debug)]
pub struct Lanes {
    order: [u8; LANES],
    count: usize,
    ghost few: { count ≤ LANES },
    ghost sized: { length order ≡ LANES },
    ghost low: { Low order },
    ghost apart: { Apart order },
}
