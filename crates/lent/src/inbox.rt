ghost use Rattle.std.specs.Prelude.{◌≡◌, ◌+◌, ◌^◌, ◌<◌, ◌≤◌, false, length, replicate};
ghost use Rattle.packet.specs.Sizes.{capacity};
ghost use Rattle.lent.specs.Bits.{AllAre};
ghost use Rattle.lent.specs.Gaps.{Filled};

use crate::bits::{WORDS, mark, run};
use crate::ring::put;
use packet::settings::CAPACITY;

/// Memory for the bytes that came.
#[derive(Clone, Copy)]
pub struct Inbox {
    pub ring: [u8; CAPACITY],
    /// Of each place of the ring, whether its byte is kept before its turn.
    pub bits: [u64; WORDS],
}

impl Inbox {
    /// All bytes are 0, and all bits are down.
    pub fn new() -> Inbox
        ensures ring { result.ring ≡ replicate capacity 0 }
        ensures bits { AllAre 0 capacity false result.bits }
    {
        Inbox {
            ring: [0; CAPACITY],
            bits: [0; WORDS],
        }
    }

    /// Puts all bits down; the ring stays as it is.
    pub fn clear(&mut self)
        ensures ring { self.new.ring ≡ self.old.ring }
        ensures sized { length self.new.ring ≡ capacity }
        ensures bits { AllAre 0 capacity false self.new.bits }
    {
        self.bits.fill(0);
    }

    /// Writes a text from a place on, but not over bytes whose bits are up, and puts its bits up: one copy for each gap between
    /// bytes that are there.
    pub fn fill_gaps(&mut self, place: u64, text: &[u8])
        requires { (length text.now ≤ capacity) × (place + length text.now < 2 ^ 64) }
        ensures { Filled place (length text.now) text.now self.old.ring self.old.bits self.new.ring self.new.bits }
    {
        let n = text.len() as u64;
        let mut done: u64 = 0;
        // No range has these steps, each of a gap and the kept bytes after it; an iterator over the gaps would hold the bits
        // that each step puts up.
        while done < n {
            let gap = run(&self.bits, place + done, n - done, false);
            let new = &text[done as usize..(done + gap) as usize];
            put(&mut self.ring, place + done, new);
            mark(&mut self.bits, place + done, gap, true);
            done += gap;
            done += run(&self.bits, place + done, n - done, true);
        }
    }
}

/// Memory that one connection is lent.
#[derive(Clone, Copy)]
pub struct Memory {
    /// The ring of the bytes to be sent.
    pub out: [u8; CAPACITY],
    pub inbox: Inbox,
}

impl Memory {
    /// All bytes are 0, and all bits are down.
    pub fn new() -> Memory
        ensures out { result.out ≡ replicate capacity 0 }
        ensures ring { result.inbox.ring ≡ replicate capacity 0 }
        ensures bits { AllAre 0 capacity false result.inbox.bits }
    {
        Memory {
            out: [0; CAPACITY],
            inbox: Inbox::new(),
        }
    }
}
