ghost use Rattle.std.specs.Prelude.{◌≡◌};
ghost use Rattle.std.specs.Borrow.{sem};
ghost use Rattle.simulation.specs.Lending.{LendsSide};
ghost use Rattle.simulation.specs.Sides.{of_side, other_side};

use crate::half::Half;

#[derive(Clone, Copy, PartialEq, Eq, Debug)]
pub enum Side {
    Left,
    Right,
}

impl Side {
    pub fn other(self) -> Side
        ensures { result ≡ other_side self }
    {
        match self {
            Side::Left => Side::Right,
            Side::Right => Side::Left,
        }
    }
}

/// One of each side.
#[derive(Drop)]
pub struct Sides<T> {
    pub left: T,
    pub right: T,
}

impl<T> Sides<T> {
    pub fn get(&self, side: Side) -> &T
        ensures { result.now ≡ of_side side self.now }
    {
        match side {
            Side::Left => &self.left,
            Side::Right => &self.right,
        }
    }

    pub fn get_mut(&mut self, side: Side) -> &mut T
        ensures* writes_back { sem 𝓛 (LendsSide T.row self.entry side result) }
        ensures value { result.now ≡ of_side side self.old }
    {
        match side {
            Side::Left => &mut self.left,
            Side::Right => &mut self.right,
        }
    }
}

/// Two halves, and all tags that were ever drawn, the oldest first.
#[derive(Drop)]
pub struct Pair<'m> {
    pub halves: Sides<Half<'m>>,
    pub drawn: Vec<u64>,
}
