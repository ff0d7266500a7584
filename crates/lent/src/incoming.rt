ghost use Rattle.std.specs.Prelude.{◌+◌, ◌≤◌, length};
ghost use Rattle.lent.specs.Sending.{limit};

use packet::packet::PacketRef;

/// A packet that came, with no byte beyond the limit of all places.
#[derive(Clone, Copy)]
pub struct Incoming<'a> {
    pub packet: PacketRef<'a>,
    pub ghost within: { packet.head.place + length packet.text.now ≤ limit },
}
