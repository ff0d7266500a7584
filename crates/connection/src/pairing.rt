ghost use Rattle.std.specs.Prelude.{◌≡◌};
ghost use Rattle.hold.specs.World.{gone, is_asked, is_open};
ghost use Rattle.connection.specs.Phases.{phase_of};
ghost use Rattle.connection.specs.Fields.{has_tag, has_peer, partner, opened_with, over};

use crate::phase::Phase;

/// Between whom a connection is, by the tags of its two ends, and how far it is.
#[derive(Clone, Copy, PartialEq, Eq, Debug)]
pub struct Pairing {
    pub mine: u64,
    /// The other's tag; 0 as long as this end only asked.
    // Not an Option: it would be unwrapped to 0 for each packet that goes out and each test of a tag, and one that is gone keeps its tag too.
    pub theirs: u64,
    pub phase: Phase,
}

impl Pairing {
    /// Whether a tag is this end's, and the connection is not gone.
    pub fn has_tag(self, tag: u64) -> bool
        ensures { result ≡ has_tag tag self }
    {
        self.phase != Phase::Gone && self.mine == tag
    }

    /// Whether this end answers a tag of the other, and the connection is not gone.
    pub fn has_peer(self, tag: u64) -> bool
        ensures { result ≡ has_peer tag self }
    {
        !matches!(self.phase, Phase::Gone | Phase::Asked) && self.theirs == tag
    }

    /// Whether a packet from a tag of the other is this connection's.
    pub fn is_partner(self, tag: u64) -> bool
        ensures { result ≡ partner tag self }
    {
        self.phase != Phase::Asked && self.theirs == tag
    }

    // The three below differ in a phase alone: each says one test of the model by its name, which a function of any phase could not.

    pub fn is_gone(self) -> bool
        ensures { result ≡ gone (phase_of self.phase) }
    {
        self.phase == Phase::Gone
    }

    pub fn is_asked(self) -> bool
        ensures { result ≡ is_asked (phase_of self.phase) }
    {
        self.phase == Phase::Asked
    }

    /// Whether texts may be sent: it is open.
    pub fn speaks(self) -> bool
        ensures { result ≡ is_open (phase_of self.phase) }
    {
        self.phase == Phase::Open
    }

    pub fn open_with(self, theirs: u64) -> Pairing
        ensures { result ≡ opened_with theirs self }
    {
        Pairing {
            phase: Phase::Open,
            theirs,
            ..self
        }
    }

    pub fn gone(self) -> Pairing
        ensures { result ≡ over self }
    {
        Pairing {
            phase: Phase::Gone,
            ..self
        }
    }
}
