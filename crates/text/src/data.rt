ghost use Rattle.std.specs.Prelude.{◌≡◌, ◌<◌, ◌≤◌, ◌++◌, length, drop, IfOk, OnOk};
ghost use Rattle.text.specs.Fronts.{left, seen};
ghost use Rattle.text.specs.Data.{is_plain, hex_of, nibble, escape, octet, run, most, whole, written, encode};
ghost use Rattle.text.specs.Back.{Decoded};

use std::alloc::{AllocError, Global};

/// Most bytes that one word of data stands for.
pub const MOST: usize = 1024;

/// Such a byte stands for itself.
fn is_plain(byte: u8) -> bool
    ensures { result ≡ is_plain byte }
{
    byte.is_ascii_graphic() && byte != b'%'
}

/// The hex digit at the front of `line`, and what stands behind it; else `line`.
fn nibble<'a>(line: &'a [u8]) -> Result<(u8, &'a [u8]), &'a [u8]>
    ensures digit { seen result ≡ nibble line.now }
    ensures small { IfOk result (λ x. x.0 < 16) }
{
    match line {
        [byte @ b'0'..=b'9', rest @ ..] => Ok((*byte - b'0', rest)),
        [byte @ b'A'..=b'F', rest @ ..] => Ok((*byte - b'A' + 10, rest)),
        _ => Err(line),
    }
}

/// The byte that the two hex digits behind a `%` stand for: none that stands for itself.
fn escape<'a>(line: &'a [u8]) -> Result<(u8, &'a [u8]), &'a [u8]>
    ensures { seen result ≡ escape line.now }
{
    let (high, rest) = nibble(line)?;
    if 2 < high && high < 7 {
        return Err(line);
    }
    let (low, behind) = nibble(rest)?;
    let byte = 16 * high + low;
    if is_plain(byte) {
        return Err(rest);
    }
    Ok((byte, behind))
}

/// The byte of data at the front of `line`, and what stands behind it; else the part of `line` from the first byte
/// at which it can't go on.
pub fn octet<'a>(line: &'a [u8]) -> Result<(u8, &'a [u8]), &'a [u8]>
    ensures { seen result ≡ octet line.now }
{
    match line {
        [b'%', rest @ ..] => escape(rest),
        [byte, rest @ ..] if is_plain(*byte) => Ok((*byte, rest)),
        _ => Err(line),
    }
}

/// Writes the bytes that the front of `word` stands for, at most 1,024, to the front of `out`; says how many, and what
/// of `word` stands behind them.
// A count beside a buffer, and no `Vec`: an allocation could fail, which this and `decode` can't.
pub fn unescape<'a>(word: &'a [u8], out: &mut [u8; MOST]) -> (usize, &'a [u8])
    ensures count { result.0 ≡ length (run most word.now).0 }
    ensures rest { result.1.now ≡ (run most word.now).1 }
    ensures bytes { out.new ≡ (run most word.now).0 ++ drop result.0 out.old }
{
    let mut rest = word;
    for (n, slot) in out.iter_mut().enumerate() {
        let Ok((byte, behind)) = octet(rest) else {
            return (n, rest);
        };
        *slot = byte;
        rest = behind;
    }
    (MOST, rest)
}

/// Decodes a word of data into the front of `out`, and says how many bytes it was.
pub fn decode(word: &[u8], out: &mut [u8; MOST]) -> usize
    ensures count { result ≡ length (run most word.now).0 }
    ensures few { result ≤ MOST }
    ensures bytes { out.new ≡ (run most word.now).0 ++ drop result out.old }
    ensures back { Decoded word.now result out.old out.new }
{
    unescape(word, out).0
}

/// `line` where it is one word of data, of some bytes and at most 1,024; else the part of it from the first byte at
/// which it can't go on.
pub fn whole<'a>(line: &'a [u8]) -> Result<&'a [u8], &'a [u8]>
    ensures { left result ≡ whole line.now }
{
    let mut bytes = [0; MOST];
    let (count, rest) = unescape(line, &mut bytes);
    if rest.is_empty() && count > 0 {
        return Ok(line);
    }
    if count == MOST {
        return Err(rest);
    }
    match octet(rest) {
        Ok((_, at)) | Err(at) => Err(at),
    }
}

fn hex(digit: u8) -> u8
    requires { digit < 16 }
    ensures { result ≡ hex_of digit }
{
    b"0123456789ABCDEF"[digit as usize]
}

/// Appends one byte of data.
fn push_octet(byte: u8, out: &mut Vec<u8>) -> Result<(), AllocError>
    ensures { OnOk result (out.new.items ≡ out.old.items ++ written byte) }
{
    if is_plain(byte) {
        return out.extend_from_slice(&[byte]);
    }
    out.extend_from_slice(&[b'%', hex(byte / 16), hex(byte % 16)])
}

/// `bytes` as a word of data.
pub fn encode(heap: Global, bytes: &[u8]) -> Result<Vec<u8>, AllocError>
    ensures { IfOk result (λ word. word.items ≡ encode bytes.now) }
{
    let mut word = Vec::new(heap);
    for byte in bytes {
        push_octet(*byte, &mut word)?;
    }
    Ok(word)
}
