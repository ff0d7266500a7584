ghost use Rattle.std.specs.Prelude.{◌≡◌, ◌+◌, ◌%◌, ◌^◌, ◌<◌, ◌≤◌, length};
ghost use Rattle.packet.specs.Sizes.{capacity};
ghost use Rattle.lent.specs.Ring.{written, held};

use packet::settings::CAPACITY;

/// Where the byte at a place stands in a ring.
pub fn slot(place: u64) -> usize
    ensures at { result ≡ place % capacity }
    ensures within { result < capacity }
{
    (place % CAPACITY as u64) as usize
}

/// Writes a text from a place on, in at most two copies.
pub fn put(ring: &mut [u8; CAPACITY], place: u64, text: &[u8])
    requires { length text.now ≤ capacity }
    ensures { ring.new ≡ written place text.now ring.old }
{
    let at = slot(place);
    let (front, back) = text.split_at(text.len().min(CAPACITY - at));
    ring[at..at + front.len()].copy_from_slice(front);
    if !back.is_empty() {
        ring[..back.len()].copy_from_slice(back);
    }
}

/// Reads as many bytes as `out` has, from a place on; no more than two copies for what a ring holds.
pub fn get(ring: &[u8; CAPACITY], place: u64, out: &mut [u8])
    requires { place + length out.old < 2 ^ 64 }
    ensures { out.new ≡ held place (length out.old) ring.now }
{
    let mut done = 0;
    // Parts end where the ring does: of `chunks_mut` a proof knows no byte afterwards, and a call of itself for the rest would
    // take a stack as deep as `out` is long.
    while done < out.len() {
        let at = slot(place + done as u64);
        let n = (CAPACITY - at).min(out.len() - done);
        out[done..done + n].copy_from_slice(&ring[at..at + n]);
        done += n;
    }
}
