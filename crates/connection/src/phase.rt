/// How far a connection is: it asked and waits for a yes; it was asked and said yes, but has not heard a text since;
/// it is open; it is over.
#[derive(Clone, Copy, PartialEq, Eq, Debug)]
pub enum Phase {
    Asked,
    Half,
    Open,
    Gone,
}
