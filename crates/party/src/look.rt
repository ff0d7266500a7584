ghost use Rattle.std.specs.Prelude.{◌≡◌, Some};
ghost use Rattle.hold.specs.Conn.{Conn};
ghost use Rattle.hold.specs.Packet.{Settings};
ghost use Rattle.hold.specs.World.{There};
ghost use Rattle.connection.specs.Stand.{Rings, Stand1};
ghost use Rattle.ledger.specs.Books.{view_of};
ghost use Rattle.party.specs.Looks.{SeenIn};

use connection::connection::Connection;
use ledger::record::View;
use table::{Table, Wanted};

/// What is to be seen of a connection.
fn view(c: &Connection) -> View
    ensures { (cfg : Settings) (mem : Rings) (d : Conn) → Stand1 cfg c.now mem d → Some result ≡ view_of (There d) }
{
    View {
        peer: c.pairing.theirs,
        settled: !c.pairing.is_asked(),
        opened: c.pairing.speaks(),
        given: c.stream.sender.given,
        closed: c.stream.closed,
        arrived: c.stream.receiver.got,
        heard: c.stream.end.is_some(),
        told: c.stream.ended,
        upto: c.stream.sender.upto,
        all: c.stream.all,
        owes: c.owes(),
    }
}

/// The connection with a tag that is not gone, as it is to be seen.
pub fn look(table: &Table, tag: u64) -> Option<View>
    ensures { SeenIn table.now tag result }
{
    let lane = table.find(Wanted::Tag(tag))?;
    Some(view(&table.conns[lane]))
}
