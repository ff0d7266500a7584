ghost use Rattle.std.specs.Prelude.{◌≡◌, ℕ, ◌+◌, ◌-◌, ◌≤◌, min, Bool, false, IsTrue, List, ◌++◌, length, take, drop};
ghost use Rattle.packet.specs.Sizes.{capacity};
ghost use Rattle.lent.specs.Ring.{written};

use crate::ring::slot;
use packet::settings::CAPACITY;

/// What writes bytes into memory that it is lent, as a decoder does.
pub trait Source {
    /// The bytes that it has yet to write.
    ghost rest: { Self → List ℕ };

    /// Whether it writes all that it may: until the part is full, or it has no more.
    ghost eager: { Bool } = { false };

    /// Writes to the front of a part, and says how many bytes.
    fn fill(&mut self, part: &mut [u8]) -> usize
        ensures within { (result ≤ length part.old) × (result ≤ length (rest self.old)) }
        ensures all { IsTrue eager → result ≡ min (length part.old) (length (rest self.old)) }
        ensures part { part.new ≡ take result (rest self.old) ++ drop result part.old }
        ensures rest { rest self.new ≡ drop result (rest self.old) };
}

/// Lends the part of a ring of `n` bytes from a place on to a source, in one part or two, and says how many bytes it wrote.
pub fn fill_from<S: Source>(
    ring: &mut [u8; CAPACITY],
    place: u64,
    n: usize,
    source: &mut S,
) -> usize
    requires { n ≤ capacity }
    ensures ring { ring.new ≡ written place (take result (S.Source.rest source.old)) ring.old }
    ensures rest { S.Source.rest source.new ≡ drop result (S.Source.rest source.old) }
    ensures within { (result ≤ n) × (result ≤ length (S.Source.rest source.old)) }
    ensures all { IsTrue S.Source.eager → result ≡ min n (length (S.Source.rest source.old)) }
{
    let at = slot(place);
    let first = n.min(CAPACITY - at);
    let wrote = source.fill(&mut ring[at..at + first]);
    if wrote < first || first == n {
        return wrote;
    }
    wrote + source.fill(&mut ring[..n - first])
}
