ghost use Rattle.std.specs.Prelude.{◌≡◌, ℕ, ◌+◌, ◌^◌, ◌<◌, ◌≤◌, true, false, ◌++◌, length, take, drop, Some, None, MatchResult};
ghost use Rattle.crc32c.specs.Crc.{Bytes};
ghost use Rattle.packet.specs.Packets.{kind_of, packet_in};
ghost use Rattle.packet.specs.Sizes.{text_size};
ghost use Rattle.wire.specs.Format.{Written, check_fits, decode, decode_fields, encode, fault_in, fields_of, flags_of, frame, header_of, length_fits, stray_field, tag_fault};
ghost use Rattle.wire.specs.Laws.{Fits, ReadsBack, WasWritten};
ghost use Rattle.wire.specs.Numbers.{number16};
ghost use Rattle.wire.specs.Reading.{read_of};
ghost use Rattle.wire.specs.declared.fault.Fault.TheVariants.{Shape};

use crate::fault::{Fault, WriteError};
use crate::numbers::{array_at, number_at};
use crc32c::crc32c;
use packet::packet::{Head, Kind, PacketRef, SIZE};

/// Bytes before the text.
const HEADER: usize = 44;

/// Bytes of a packet without text: the header and the check.
pub const FRAME: usize = HEADER + 4;

/// Whether a packet that is no text has more than its tags.
fn stray_field(p: PacketRef<'_>) -> bool
    ensures { result ≡ stray_field (packet_in p.entry) }
{
    let head = p.head;
    head.kind != Kind::Text
        && (head.last
            || head.all
            || !p.text.is_empty()
            || head.place != 0
            || head.upto != 0
            || head.edge != 0)
}

fn tag_fault(head: Head) -> bool
    ensures { result ≡ tag_fault (kind_of head.kind) head.from head.to }
{
    head.from == 0
        || match head.kind {
            Kind::Ask => head.to != 0,
            Kind::Yes | Kind::Text | Kind::Bye => head.to == 0,
        }
}

/// The first fault of a packet's fields, which neither is written nor taken.
fn check_fields(p: PacketRef<'_>) -> Result<(), Fault>
    ensures { MatchResult result (λ _. None ≡ fault_in (packet_in p.entry)) (λ fault. Some fault ≡ fault_in (packet_in p.entry)) }
{
    if stray_field(p) || tag_fault(p.head) {
        return Err(Fault::Zero);
    }
    if p.head.is_beyond() {
        return Err(Fault::Range);
    }
    Ok(())
}

/// Bytes of the length that their count says.
#[derive(Clone, Copy)]
struct Frame<'a> {
    bytes: &'a [u8],
    /// How many of them are text.
    count: usize,
    ghost counted: { count ≡ number16 bytes.now 2 },
    ghost long: { length bytes.now ≡ frame + count },
}

impl<'a> Frame<'a> {
    fn new(bytes: &'a [u8]) -> Result<Self, Fault>
        ensures { MatchResult result (λ f. (f.bytes.now ≡ bytes.now) × (length_fits bytes.now ≡ true)) (λ fault. (fault ≡ Shape) × (length_fits bytes.now ≡ false)) }
    {
        if bytes.len() < FRAME {
            return Err(Fault::Shape);
        }
        let count = usize::from(u16::from_be_bytes(array_at(bytes, 2)));
        if count > SIZE || bytes.len() != FRAME + count {
            return Err(Fault::Shape);
        }
        Ok(Frame { bytes, count })
    }

    fn check_fits(self) -> bool
        ensures { result ≡ check_fits self.entry.bytes.now }
    {
        let end = self.bytes.len() - 4;
        u32::from_be_bytes(array_at(self.bytes, end)) == crc32c(&self.bytes[..end])
    }

    /// The fields as they stand.
    fn fields_of(self, kind: Kind) -> PacketRef<'a>
        ensures { packet_in result ≡ fields_of kind self.entry.bytes.now }
    {
        let bytes = self.bytes;
        let head = Head {
            kind,
            from: number_at(bytes, 4),
            to: number_at(bytes, 12),
            place: number_at(bytes, 20),
            last: bytes[1] & 1 == 1,
            upto: number_at(bytes, 28),
            all: (bytes[1] >> 1) & 1 == 1,
            edge: number_at(bytes, 36),
        };
        let end = HEADER + self.count;
        PacketRef {
            head,
            text: &bytes[HEADER..end],
        }
    }

    fn read_fields(self, kind: Kind) -> Result<PacketRef<'a>, Fault>
        ensures { read_of result ≡ decode_fields kind self.entry.bytes.now }
    {
        if self.bytes[1] > 3 {
            return Err(Fault::Zero);
        }
        let p = self.fields_of(kind);
        check_fields(p)?;
        Ok(p)
    }
}

/// The packet that bytes are, with its text as a part of them, or their first fault.
pub fn read(bytes: &[u8]) -> Result<PacketRef<'_>, Fault>
    ensures read { read_of result ≡ decode bytes.now }
    ensures written { WasWritten bytes.now (read_of result) }
{
    let Some(first) = bytes.first() else {
        return Err(Fault::Shape);
    };
    let kind = Kind::try_from(*first)?;
    let frame = Frame::new(bytes)?;
    if !frame.check_fits() {
        return Err(Fault::Check);
    }
    frame.read_fields(kind)
}

fn flags_of(last: bool, all: bool) -> u8
    ensures { result ≡ flags_of last all }
{
    u8::from(last) | (u8::from(all) << 1)
}

fn put(out: &mut [u8], at: usize, bytes: &[u8])
    requires { at + length bytes.now ≤ length out.old }
    ensures put { out.new ≡ take at out.old ++ (bytes.now ++ drop (at + length bytes.now) out.old) }
    ensures bytes { Bytes bytes.now }
{
    let end = at + bytes.len();
    out[at..end].copy_from_slice(bytes);
}

// The packet and where it goes are the two sides of each writer below: a struct of both would be taken apart in each.

/// Writes all before the text.
fn write_header(p: PacketRef<'_>, out: &mut [u8])
    requires size { length p.text.now ≤ text_size }
    requires room { frame ≤ length out.old }
    ensures bytes { out.new ≡ header_of (packet_in p.entry) ++ drop 44 out.old }
    ensures tags { (p.entry.head.from < 2 ^ 64) × (p.entry.head.to < 2 ^ 64) }
{
    let head = p.head;
    put(out, 0, &[head.kind.into(), flags_of(head.last, head.all)]);
    put(out, 2, &(p.text.len() as u16).to_be_bytes());
    put(out, 4, &head.from.to_be_bytes());
    put(out, 12, &head.to.to_be_bytes());
    put(out, 20, &head.place.to_be_bytes());
    put(out, 28, &head.upto.to_be_bytes());
    put(out, 36, &head.edge.to_be_bytes());
}

/// Writes a packet to the front of `out`, which has room for it.
fn write_all(p: PacketRef<'_>, out: &mut [u8]) -> usize
    requires size { length p.text.now ≤ text_size }
    requires room { frame + length p.text.now ≤ length out.old }
    ensures count { result ≡ frame + length p.entry.text.now }
    ensures bytes { out.new ≡ encode (packet_in p.entry) ++ drop result out.old }
    ensures fits { Fits (packet_in p.entry) }
{
    let end = HEADER + p.text.len();
    write_header(p, out);
    put(out, HEADER, p.text);
    let check = crc32c(&out[..end]).to_be_bytes();
    put(out, end, &check);
    end + 4
}

/// Writes a packet to the front of `out` and says how many bytes it has. An error leaves `out` as it was.
pub fn write(p: PacketRef<'_>, out: &mut [u8]) -> Result<usize, WriteError>
    ensures written { Written (packet_in p.entry) out.old out.new result }
    ensures back { ReadsBack (packet_in p.entry) out.new result }
{
    if p.text.len() > SIZE {
        return Err(WriteError::LongText);
    }
    check_fields(p)?;
    if out.len() < FRAME + p.text.len() {
        return Err(WriteError::ShortRoom);
    }
    Ok(write_all(p, out))
}
