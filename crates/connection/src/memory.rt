ghost use Rattle.connection.specs.Stand.{Fresh, rings};

use lent::bits::WORDS;
use packet::settings::CAPACITY;

/// Readies memory for a new connection. Its rings, for the bytes to be sent and for those that came, may hold anything; the
/// bits of what is kept are put down.
pub fn ready(out: &[u8; CAPACITY], into: &[u8; CAPACITY], bits: &mut [u64; WORDS])
    ensures { Fresh (rings out.now into.now bits.new) }
{
    bits.fill(0);
}
