//! Prints the checks of published vectors and that of 16 MiB, for which its speed is measured; then a packet of each kind in bytes, and the
//! numbers by which damaged ones are refused.
#![tactic(auto)]

use crc32c::{crc32c, extend};
use packet::packet::{Head, Kind, Packet, PacketRef};
use std::{array, fmt};
use wire::fault::WriteError;
use wire::format::{FRAME, read, write};

/// A read command of iSCSI.
const READ: [u8; 48] = [
    0x01, 0xc0, 0, 0, 0, 0, 0, 0, 0, 0, 0, 0, 0, 0, 0, 0, 0x14, 0, 0, 0, 0, 0, 0x04, 0, 0, 0, 0,
    0x14, 0, 0, 0, 0x18, 0x28, 0, 0, 0, 0, 0, 0, 0, 0x02, 0, 0, 0, 0, 0, 0, 0,
];

/// The bytes from 0 up.
fn rising() -> [u8; 32] {
    array::from_fn(|i| i as u8)
}

/// The bytes down to 0.
fn falling() -> [u8; 32] {
    let mut bytes = rising();
    bytes.reverse();
    bytes
}

/// The register after so many times 4,096 bytes that are all one.
fn many(count: u32, byte: u8) -> u32 {
    let block = [byte; 4096];
    (0..count).fold(0xffff_ffff, |register, _| extend(register, &block))
}

fn text_head() -> Head {
    Head {
        kind: Kind::Text,
        from: 7,
        to: 9,
        place: 2,
        last: true,
        upto: 5,
        all: false,
        edge: 65541,
    }
}

/// Bytes, printed as 0 where they are a packet, and else as the number of their fault.
#[derive(Clone, Copy)]
struct Verdict<'a>(&'a [u8]);

impl fmt::Display for Verdict<'_> {
    fn fmt<W: fmt::Write>(&self, f: &mut fmt::Formatter<W>) -> fmt::Result {
        match read(self.0) {
            Ok(_) => f.write_str("0"),
            Err(fault) => write!(f, "{}", u8::from(fault)),
        }
    }
}

fn show(rt: &HostRuntime, head: Head, text: &[u8]) -> anyhow::Result<()> {
    let mut out = [0u8; 64];
    let Ok(count) = write(PacketRef { head, text }, &mut out) else {
        println!(rt; "not written")?;
        return Ok(());
    };
    let bytes = out.get(..count).unwrap_or(&out);
    for b in bytes {
        print!(rt; "{:02x}", *b)?;
    }
    println!(rt; " {}", Verdict(bytes))?;
    Ok(())
}

/// A packet of 51 bytes with one of them changed.
fn damaged(at: usize, byte: u8) -> Result<[u8; 51], WriteError> {
    let mut out = [0u8; 51];
    let p = PacketRef {
        head: text_head(),
        text: b"abc",
    };
    write(p, &mut out)?;
    if let Some(b) = out.get_mut(at) {
        *b = byte;
    }
    Ok(out)
}

/// A packet without text, with a byte changed and the check made anew.
fn forged(head: Head, at: usize, byte: u8) -> Result<[u8; FRAME], WriteError> {
    let mut out = [0u8; FRAME];
    write(PacketRef { head, text: b"" }, &mut out)?;
    let (body, check) = out.split_at_mut(FRAME - 4);
    if let Some(b) = body.get_mut(at) {
        *b = byte;
    }
    check.copy_from_slice(&crc32c(body).to_be_bytes());
    Ok(out)
}

fn checks(rt: &HostRuntime) -> anyhow::Result<()> {
    println!(rt; "digits {:08x}", crc32c(b"123456789"))?;
    println!(rt; "zeros {:08x}", crc32c(&[0u8; 32]))?;
    println!(rt; "ones {:08x}", crc32c(&[0xffu8; 32]))?;
    println!(rt; "rising {:08x}", crc32c(&rising()))?;
    println!(rt; "falling {:08x}", crc32c(&falling()))?;
    println!(rt; "read {:08x}", crc32c(&READ))?;
    println!(rt; "none {:08x}", crc32c(b""))?;
    println!(rt; "many {:08x}", many(4096, 0x5a) ^ 0xffff_ffff)?;
    Ok(())
}

fn main(rt: HostRuntime) -> anyhow::Result<()> {
    checks(&rt)?;
    show(&rt, Packet::bare(Kind::Ask, 7, 0).head, b"")?;
    show(&rt, Packet::bare(Kind::Yes, 9, 7).head, b"")?;
    show(&rt, text_head(), b"abc")?;
    show(&rt, Packet::bare(Kind::Bye, 9, 7).head, b"")?;
    show(&rt, Packet::bare(Kind::Bye, 9, 0).head, b"")?;
    println!(rt; "kind {}", Verdict(&damaged(0, 5)?))?;
    println!(rt; "count {}", Verdict(&damaged(3, 4)?))?;
    println!(rt; "text {}", Verdict(&damaged(45, 0)?))?;
    println!(rt; "none {}", Verdict(b""))?;
    println!(rt; "flags {}", Verdict(&forged(text_head(), 1, 4)?))?;
    let yes = Packet::bare(Kind::Yes, 9, 7).head;
    println!(rt; "stray {}", Verdict(&forged(yes, 43, 1)?))?;
    println!(rt; "place {}", Verdict(&forged(text_head(), 20, 0x41)?))?;
    println!(rt; "same {}", Verdict(&forged(text_head(), 0, 3)?))?;
    Ok(())
}
