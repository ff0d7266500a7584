use ledger::book::Book;
use ledger::record::Entry;
use packet::packet::{Kind, Packet};
use text::data::encode;

/// Bytes as a word of data.
fn word(rt: &HostRuntime, bytes: &[u8]) -> anyhow::Result<String> {
    let encoded = encode(rt.alloc(), bytes)?;
    Ok(String::from_utf8_lossy(rt.alloc(), encoded.as_slice())?)
}

/// A packet, with its number among all that were ever sent to a side.
fn print_packet(rt: &HostRuntime, to: &str, number: usize, p: &Packet) -> anyhow::Result<()> {
    let (kind, from, tag) = (p.head.kind, p.head.from, p.head.to);
    match kind {
        Kind::Text => {
            let text = word(rt, p.view().map_or(p.text.as_slice(), |view| view.text))?;
            let (place, upto, edge) = (p.head.place, p.head.upto, p.head.edge);
            let last = if p.head.last { " last" } else { "" };
            let all = if p.head.all { " all" } else { "" };
            println!(rt;
                "  {to} {number}: {kind} {from} to {tag} place {place} [{text}]{last} upto {upto}{all} edge {edge}"
            )?
        }
        Kind::Ask | Kind::Yes | Kind::Bye => {
            println!(rt; "  {to} {number}: {kind} {from} to {tag}")?
        }
    }
    Ok(())
}

/// The packets that were sent to a side since there were `before` of them.
pub fn print_packets(
    rt: &HostRuntime,
    to: &str,
    sent: &[Packet],
    before: usize,
) -> anyhow::Result<()> {
    for (i, packet) in sent.iter().enumerate().skip(before) {
        print_packet(rt, to, i.saturating_add(1), packet)?;
    }
    Ok(())
}

/// The bytes of one connection among those of all.
fn bytes_of(rt: &HostRuntime, entries: &[Entry], tag: u64) -> anyhow::Result<String> {
    let mut bytes = Vec::new(rt.alloc());
    for entry in entries.iter().filter(|entry| entry.tag == tag) {
        bytes.push(entry.byte)?;
    }
    word(rt, bytes.as_slice())
}

// No `Display`: a `bool` has one already, which says `true` and `false`.
fn yes_no(b: bool) -> &'static str {
    if b { "yes" } else { "no" }
}

/// What the users of a side gave, were given and were told.
pub fn print_book(rt: &HostRuntime, side: &str, book: &Book) -> anyhow::Result<()> {
    for r in book.records.as_slice() {
        let given = bytes_of(rt, book.given.as_slice(), r.tag)?;
        let taken = bytes_of(rt, book.taken.as_slice(), r.tag)?;
        let (tag, peer, upto) = (r.tag, r.peer, r.upto);
        let (opened, closed, told, all) = (
            yes_no(r.opened),
            yes_no(r.closed),
            yes_no(r.told),
            yes_no(r.all),
        );
        println!(rt; "{side} {tag}, with {peer}: was open {opened}")?;
        println!(rt; "  gave [{given}], closed {closed}; confirmed {upto} bytes, all {all}")?;
        println!(rt; "  was given [{taken}]; told the end {told}")?;
    }
    Ok(())
}
