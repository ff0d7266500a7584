ghost use Rattle.std.specs.Prelude.{◌≡◌, ℕ, ◌+◌, ◌-◌, ◌*◌, ◌^◌, ◌<◌, ◌≤◌, true, false, not, ◌&&◌, if◌then◌else◌, nat_le, nat_lt};
ghost use Rattle.packet.specs.Sizes.{capacity};
ghost use Rattle.lent.specs.Bits.{bit, up, Marked, AllAre};

use crate::ring::slot;
use packet::settings::CAPACITY;

/// Words with a bit for each byte of a ring.
pub const WORDS: usize = CAPACITY / 64;

/// Whether the bit of a place is up.
pub fn is_up(bits: &[u64; WORDS], place: u64) -> bool
    ensures { result ≡ up bits.now place }
{
    let at = slot(place);
    (bits[at / 64] >> (at % 64)) & 1 == 1
}

/// The word with its bits from `from` up to `to` put up or down.
fn marked(word: u64, from: u64, to: u64, value: bool) -> u64
    requires { (from < 64) × (0 < to) × (to ≤ 64) }
    ensures { (j : ℕ) → j < 64 → bit result j ≡ (if nat_le from j && nat_lt j to then value else bit word j) }
{
    let mask = (u64::MAX << from) & (u64::MAX >> (64 - to));
    if value { word | mask } else { word & !mask }
}

/// Up to which bit those of a word are as `value` says, from the bit `from` on: 64 where all of them are.
fn run_end(word: u64, from: u64, value: bool) -> u64
    requires { from < 64 }
    ensures within { (from ≤ result) × (result ≤ 64) }
    ensures all { (j : ℕ) → from ≤ j → j < result → bit word j ≡ value }
    ensures gap { result < 64 → bit word result ≡ not value }
{
    let others = if value { !word } else { word };
    (from + u64::from((others >> from).trailing_zeros())).min(64)
}

/// Puts the bits of `n` places up or down, from a place on.
pub fn mark(bits: &mut [u64; WORDS], place: u64, n: u64, value: bool)
    requires { (n ≤ capacity) × (place + n < 2 ^ 64) }
    ensures { Marked place n value bits.old bits.new }
{
    let end = place + n;
    for word in place / 64..end.div_ceil(64) {
        let from = place.saturating_sub(64 * word);
        let to = (end - 64 * word).min(64);
        let at = (word % WORDS as u64) as usize;
        bits[at] = marked(bits[at], from, to, value);
    }
}

/// How many bits in a row are as `value` says, at most `most`, from a place on.
pub fn run(bits: &[u64; WORDS], place: u64, most: u64, value: bool) -> u64
    requires { place + most < 2 ^ 64 }
    ensures within { result ≤ most }
    ensures all { AllAre place result value bits.now }
    ensures gap { result < most → up bits.now (place + result) ≡ not value }
{
    let mut end = place + most;
    // A loop over words that a label leaves at the first gap: the project asks for this form here.
    'gap: for word in place / 64..end.div_ceil(64) {
        let from = place.saturating_sub(64 * word);
        let at = (word % WORDS as u64) as usize;
        let stop = run_end(bits[at], from, value);
        if stop < 64 {
            end = end.min(64 * word + stop);
            break 'gap;
        }
    }
    end - place
}
