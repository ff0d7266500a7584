ghost use Rattle.std.specs.Prelude.{◌≡◌, ◌<◌, [], reverse, slice_index};
ghost use Rattle.std.specs.List.{All};
ghost use Rattle.lanes.specs.Used.{Added, Placed, used, without};

use crate::{LANES, Lanes};
use std::array;

impl Lanes {
    /// No lane in use.
    pub fn new() -> Lanes
        ensures { used result ≡ [] }
    {
        Lanes {
            order: array::from_fn(|i| i as u8),
            count: 0,
        }
    }

    /// How many are in use.
    pub fn count(&self) -> usize
        ensures { result ≡ self.now.count }
    {
        self.count
    }

    /// The lanes in use, the oldest first.
    pub fn in_use(&self) -> &[u8]
        ensures order { reverse result.now ≡ used self.now }
        ensures low { All (λ l. l < LANES) result.now }
    {
        &self.order[..self.count]
    }

    /// The lane of the i-th in use, the oldest being 0.
    pub fn lane(&self, i: usize) -> usize
        ensures is { result ≡ slice_index self.now.order i }
        ensures low { result < LANES }
    {
        self.order.get(i).map_or(0, |&lane| lane as usize)
    }

    /// A free lane comes into use, as the youngest; None where all sixteen are in use.
    pub fn add(&mut self) -> Option<usize>
        ensures { Added self.old self.new result }
    {
        let lane = *self.order.get(self.count)?;
        self.count += 1;
        Some(lane as usize)
    }

    /// Where a lane in use stands by age.
    fn position(&self, lane: usize) -> Option<usize>
        ensures { Placed self.now lane result }
    {
        self.in_use().iter().position(|&l| l as usize == lane)
    }

    /// A lane is free again, and those younger move down; nothing changes where it is not in use.
    pub fn remove(&mut self, lane: usize)
        ensures { used self.new ≡ without lane (used self.old) }
    {
        if let Some(i) = self.position(lane) {
            self.order[i..self.count].rotate_left(1);
            self.count -= 1;
        }
    }
}
