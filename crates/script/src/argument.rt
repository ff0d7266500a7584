ghost use Rattle.std.specs.Prelude.{◌≡◌, ◌≤◌, [], ◌∷◌, IfOk};
ghost use Rattle.text.specs.Fronts.{number, seen};
ghost use Rattle.text.specs.Words.{choose};
ghost use Rattle.script.specs.Parse.{any, behind_space, bytes, rest};
ghost use Rattle.script.specs.Lines.{bytes_seen, ended, one_seen, two_seen};

use text::data::whole;
use text::front::{number, strip};
use text::word::{Keyword, choose};

/// The number behind the space at the front of `line`.
pub fn next_number<'a>(line: &'a [u8], most: u64) -> Result<(u64, &'a [u8]), &'a [u8]>
    ensures value { seen result ≡ behind_space line.now (number most) }
    ensures small { IfOk result (λ x. x.0 ≤ most) }
{
    number(strip(line, b" ")?, most)
}

/// The first of `words` that stands behind the space at the front of `line`.
pub fn next_word<'a, K: Keyword>(words: &[K], line: &'a [u8]) -> Result<(K, &'a [u8]), &'a [u8]>
    ensures { seen result ≡ behind_space line.now (choose K.spelt words.now) }
{
    choose(words, strip(line, b" ")?)
}

/// The end of the line.
pub fn end<'a>(line: &'a [u8]) -> Result<(), &'a [u8]>
    ensures { ended result ≡ rest [] line.now }
{
    if line.is_empty() { Ok(()) } else { Err(line) }
}

/// The line's last number.
pub fn last_number<'a>(line: &'a [u8]) -> Result<u64, &'a [u8]>
    ensures { one_seen result ≡ rest (any ∷ []) line.now }
{
    let (n, behind) = next_number(line, u64::MAX)?;
    end(behind)?;
    Ok(n)
}

/// The line's last two numbers.
pub fn last_two<'a>(line: &'a [u8]) -> Result<(u64, u64), &'a [u8]>
    ensures { two_seen result ≡ rest (any ∷ any ∷ []) line.now }
{
    let (m, behind) = next_number(line, u64::MAX)?;
    let n = last_number(behind)?;
    Ok((m, n))
}

/// The word of data that ends the line, or none.
pub fn last_data<'a>(line: &'a [u8]) -> Result<&'a [u8], &'a [u8]>
    ensures { bytes_seen result ≡ rest (bytes ∷ []) line.now }
{
    if line.is_empty() {
        return Ok(line);
    }
    whole(strip(line, b" ")?)
}
