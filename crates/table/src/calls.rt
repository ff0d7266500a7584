ghost use Rattle.std.specs.Prelude.{◌≡◌, []};
ghost use Rattle.lanes.specs.Used.{used, without};
ghost use Rattle.table.specs.Search.{finds, Within, has_room, is_there, lane_of, meets, oldest_gone};
ghost use Rattle.table.specs.Grows.{Grown};

use crate::{Table, Wanted};
use connection::connection::Connection;
use connection::phase::Phase;
use lanes::{LANES, Lanes};

impl Wanted {
    fn fits(self, c: &Connection) -> bool
        ensures { result ≡ meets self c.now }
    {
        match self {
            Wanted::Tag(tag) => c.pairing.has_tag(tag),
            Wanted::Peer(tag) => c.pairing.has_peer(tag),
            Wanted::Gone(tag) => c.pairing.is_gone() && c.pairing.mine == tag,
        }
    }
}

impl Table {
    pub fn new() -> Table
        ensures { used result.lanes ≡ [] }
    {
        let nobody = Connection::new(Phase::Gone, 0, 0);
        Table {
            conns: [nobody; LANES],
            lanes: Lanes::new(),
        }
    }

    /// The lane of the youngest connection that is wanted.
    pub fn find(&self, wanted: Wanted) -> Option<usize>
        ensures is { result ≡ finds wanted self.now }
        ensures within { Within result }
    {
        self.lanes
            .in_use()
            .iter()
            .rev()
            .map(|&lane| lane as usize)
            .find(|&lane| wanted.fits(&self.conns[lane]))
    }

    /// The lane of the connection that has a tag, or else of the youngest that had it and is gone.
    pub fn lane_of(&self, tag: u64) -> Option<usize>
        ensures is { result ≡ lane_of tag self.now }
        ensures within { Within result }
    {
        self.find(Wanted::Tag(tag))
            .or_else(|| self.find(Wanted::Gone(tag)))
    }

    /// Whether a connection has a tag, or had it and is gone.
    pub fn has(&self, tag: u64) -> bool
        ensures { result ≡ is_there tag self.now }
    {
        self.lane_of(tag).is_some()
    }

    /// The lane of the oldest connection that is gone.
    fn oldest_gone(&self) -> Option<usize>
        ensures { result ≡ oldest_gone self.now }
    {
        self.lanes
            .in_use()
            .iter()
            .map(|&lane| lane as usize)
            .find(|&lane| self.conns[lane].pairing.is_gone())
    }

    /// Whether one more can be added.
    pub fn has_room(&self) -> bool
        ensures { result ≡ has_room self.now }
    {
        self.lanes.count() < LANES || self.oldest_gone().is_some()
    }

    /// A lane is free again.
    pub fn remove(&mut self, lane: usize)
        ensures lanes { used self.new.lanes ≡ without lane (used self.old.lanes) }
        ensures conns { self.new.conns ≡ self.old.conns }
    {
        self.lanes.remove(lane);
    }

    /// A connection more, in a lane that was free, as the youngest. Where none is free the oldest connection that is gone is forgotten for it, and if none is gone nothing changes.
    pub fn add(&mut self, c: Connection) -> Option<usize>
        ensures { Grown self.old self.new c result }
    {
        if self.lanes.count() == LANES {
            let oldest = self.oldest_gone()?;
            self.lanes.remove(oldest);
        }
        let lane = self.lanes.add()?;
        self.conns[lane] = c;
        Some(lane)
    }
}
