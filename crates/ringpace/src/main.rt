//! Carries texts through a sending ring and a receiving ring, so that what they cost can be measured.
#![tactic(auto)]

ghost use Rattle.std.specs.Prelude.{◌≤◌};

use lent::inbox::Memory;
use lent::incoming::Incoming;
use lent::receiver::Receiver;
use lent::sender::{MOST, Sender};
use packet::packet::{Kind, Packet, PacketRef, SIZE, Span};
use packet::settings::CAPACITY;

const TEXT: usize = SIZE;

const WINDOW: u64 = CAPACITY as u64;

/// Carries so many texts, and says how many came as they were given.
fn carry(texts: u64) -> u64
    ensures { result ≤ texts }
{
    let mut memory = Memory::new();
    let mut sender = Sender::new();
    let mut receiver = Receiver::new();
    let mut head = Packet::bare(Kind::Text, 1, 1).head;
    let mut text = [0u8; TEXT];
    let mut packet = [0u8; TEXT];
    let mut out = [0u8; TEXT];
    let mut right = 0;
    for i in 0..texts {
        let at = (i % TEXT as u64) as usize;
        text[at] = text[at].wrapping_add(1);
        let (given, _) = sender.give(&mut memory.out, &text);
        let place = given.upto;
        if place > MOST {
            return right;
        }
        let span = Span {
            place,
            most: TEXT as u64,
        };
        let n = given.read(&memory.out, span, &mut packet);
        head.place = place;
        let text_ref = &packet[..n];
        let incoming = Incoming {
            packet: PacketRef {
                head,
                text: text_ref,
            },
        };
        receiver.keep_all(&mut memory.inbox, WINDOW, &incoming);
        let (taken, count) = receiver
            .advance(&mut memory.inbox.bits, WINDOW)
            .take(&memory.inbox.ring, &mut out);
        sender = given.confirm(taken.got);
        receiver = taken;
        if count == TEXT && out[at] == text[at] {
            right += 1;
        }
    }
    right
}

fn run(rt: &HostRuntime) -> anyhow::Result<()> {
    for line in rt.lines(rt.alloc()) {
        let texts = line?.parse()?;
        let right = carry(texts);
        println!(rt; "{right} of {texts} texts came as they were given")?;
    }
    Ok(())
}

fn main(rt: HostRuntime) -> anyhow::Result<()> {
    run(&rt)
}
