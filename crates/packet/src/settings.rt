ghost use Rattle.std.specs.Prelude.{◌<◌, ◌≤◌};
ghost use Rattle.packet.specs.Sizes.{capacity, text_size};

use crate::packet::SIZE;

/// Bytes of a ring, in which the byte at a place p stands at p % CAPACITY.
pub const CAPACITY: usize = 65536;

/// What both ends agree on.
#[derive(Clone, Copy, PartialEq, Eq, Debug)]
pub struct Settings {
    /// The receive window: for so many bytes beyond what its user took a connection has room.
    pub room: u64,
    /// The most bytes of one text.
    pub size: u64,
    ghost some: { 0 < room },
    ghost held: { room ≤ capacity },
    ghost short: { size ≤ text_size },
}

impl Settings {
    ghost use Rattle.packet.specs.Agreed.{Made};

    /// None where there is no room, or more than a ring or a text can hold.
    pub fn new(room: u64, size: u64) -> Option<Settings>
        ensures { Made room size result }
    {
        if room == 0 || room > CAPACITY as u64 || size > SIZE as u64 {
            return None;
        }
        Some(Settings { room, size })
    }
}
