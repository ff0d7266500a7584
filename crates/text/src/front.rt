ghost use Rattle.std.specs.Prelude.{◌==◌, ◌≡◌, ◌≤◌, ◌++◌, length, zip, is_ok, IfOk, if◌then◌else◌, decimal};
ghost use Rattle.std.specs.List.{prefix_len};
ghost use Rattle.text.specs.Fronts.{strip, number, digits, split_line, left, seen};

use std::alloc::AllocError;

/// How many bytes at the front of `line` are those of `word`.
fn same_len(line: &[u8], word: &[u8]) -> usize
    ensures value { result ≡ prefix_len (λ p. p.0 == p.1) (zip line.now word.now) }
    ensures within { result ≤ length line.now }
{
    line.iter()
        .zip(word)
        .take_while(|(byte, letter)| byte == letter)
        .count()
}

/// What stands behind `word` at the front of `line`; else the part of `line` from the first byte that differs.
pub fn strip<'a>(line: &'a [u8], word: &[u8]) -> Result<&'a [u8], &'a [u8]>
    ensures { left result ≡ strip word.now line.now }
{
    let same = same_len(line, word);
    let rest = &line[same..];
    if same == word.len() {
        Ok(rest)
    } else {
        Err(rest)
    }
}

// A line and the largest number that may stand there are two arguments of one reader; the fact that the answer is at most that is two words.

/// The number of the digits at the front of `line`, and what stands behind them; else the part of `line` from the
/// digit by which the number passes `most`.
fn digits<'a>(line: &'a [u8], most: u64) -> Result<(u64, &'a [u8]), &'a [u8]>
    ensures value { seen result ≡ digits most 0 line.now }
    ensures small { IfOk result (λ x. x.0 ≤ most) }
{
    let mut n: u64 = 0;
    for (i, byte) in line.iter().enumerate() {
        if !byte.is_ascii_digit() {
            return Ok((n, &line[i..]));
        }
        let next = 10 * u128::from(n) + u128::from(byte - b'0');
        if next > u128::from(most) {
            return Err(&line[i..]);
        }
        n = next as u64;
    }
    Ok((n, &[]))
}

/// A number without a leading zero at the front of `line`, at most `most`, and what stands behind it; else the part
/// of `line` from the first byte at which no such number can go on.
pub fn number<'a>(line: &'a [u8], most: u64) -> Result<(u64, &'a [u8]), &'a [u8]>
    ensures value { seen result ≡ number most line.now }
    ensures small { IfOk result (λ x. x.0 ≤ most) }
{
    match line {
        [b'0', rest @ ..] => Ok((0, rest)),
        [b'0'..=b'9', ..] => digits(line, most),
        _ => Err(line),
    }
}

/// Appends the digits of `number`, or nothing.
pub fn push_number(number: u64, out: &mut Vec<u8>) -> Result<(), AllocError>
    ensures { out.new.items ≡ (if is_ok result then out.old.items ++ decimal number else out.old.items) }
{
    let digits = format!(in *out.allocator(); "{number}")?;
    out.extend_from_slice(digits.as_bytes())
}

/// The first line of a script, without its line feed, and what stands behind that.
pub fn split_line<'a>(script: &'a [u8]) -> (&'a [u8], &'a [u8])
    ensures line { result.0.now ≡ (split_line script.now).0 }
    ensures rest { result.1.now ≡ (split_line script.now).1 }
{
    match script.iter().position(|byte| *byte == b'\n') {
        Some(i) => (&script[..i], &script[i + 1..]),
        None => (script, &[]),
    }
}
