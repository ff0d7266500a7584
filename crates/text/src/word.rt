ghost use Rattle.std.specs.Prelude.{◌≡◌, ℕ, List};
ghost use Rattle.text.specs.Fronts.{seen};
ghost use Rattle.text.specs.Words.{choose};

use crate::front::strip;

/// A word of a format.
pub trait Keyword: Copy {
    ghost spelt: { Self → List ℕ };

    fn spelling(self) -> &'static [u8]
        ensures { result.now ≡ spelt self };
}

/// The first of `words` that stands at the front of `line`, and what stands behind it; else the part of `line` from
/// the first byte at which none of them goes on.
pub fn choose<'a, K: Keyword>(words: &[K], line: &'a [u8]) -> Result<(K, &'a [u8]), &'a [u8]>
    ensures { seen result ≡ choose K.spelt words.now line.now }
{
    let mut far = line;
    for word in words {
        match strip(line, word.spelling()) {
            Ok(rest) => return Ok((*word, rest)),
            Err(at) if at.len() < far.len() => far = at,
            Err(_) => {}
        }
    }
    Err(far)
}
