ghost use Rattle.std.specs.Prelude.{◌≡◌, ◌<◌, length, IfOk};
ghost use Rattle.script.specs.Parse.{Begins, after, behind_head, behind_verb, parse, rest, words};
ghost use Rattle.script.specs.Lines.{beside, call_seen, line_read, line_seen, words_of};
ghost use Rattle.script.specs.Show.{shown};

use crate::argument::*;
use crate::line::{Call, Fault, Line};
use crate::word::{HEADS, Head, SIDES, SWITCHES, VERBS, Verb};
use text::word::choose;

/// What a verb calls for, of what stands behind it.
fn call<'a>(verb: Verb, line: &'a [u8]) -> Result<Call<'a>, &'a [u8]>
    ensures { call_seen result ≡ beside verb (rest (behind_verb verb) line.now) }
{
    match verb {
        Verb::Listen => listen(line),
        Verb::Open => last_number(line).map(|tag| Call::Open { tag }),
        Verb::Accept => end(line).map(|()| Call::Accept),
        Verb::Give => give(line),
        Verb::Take => last_two(line).map(|(tag, count)| Call::Take { tag, count }),
        Verb::Close => last_number(line).map(|tag| Call::Close { tag }),
        Verb::Break => last_number(line).map(|tag| Call::Break { tag }),
        Verb::State => last_number(line).map(|tag| Call::State { tag }),
        Verb::Due => last_number(line).map(|tag| Call::Due { tag }),
        Verb::Answer => last_number(line).map(|tag| Call::Answer { tag }),
        Verb::Send => send(line),
        Verb::Forget => last_number(line).map(|tag| Call::Forget { tag }),
    }
}

fn listen<'a>(line: &'a [u8]) -> Result<Call<'a>, &'a [u8]>
    ensures { call_seen result ≡ beside Verb.Listen (rest (behind_verb Verb.Listen) line.now) }
{
    let (switch, behind) = next_word(&SWITCHES, line)?;
    end(behind)?;
    Ok(Call::Listen { on: switch.into() })
}

fn give<'a>(line: &'a [u8]) -> Result<Call<'a>, &'a [u8]>
    ensures { call_seen result ≡ beside Verb.Give (rest (behind_verb Verb.Give) line.now) }
{
    let (tag, behind) = next_number(line, u64::MAX)?;
    let encoded = last_data(behind)?;
    Ok(Call::Give { tag, encoded })
}

fn send<'a>(line: &'a [u8]) -> Result<Call<'a>, &'a [u8]>
    ensures { call_seen result ≡ beside Verb.Send (rest (behind_verb Verb.Send) line.now) }
{
    let (tag, behind) = next_number(line, u64::MAX)?;
    let (place, count) = last_two(behind)?;
    Ok(Call::Send { tag, place, count })
}

fn damage<'a>(line: &'a [u8]) -> Result<Line<'a>, &'a [u8]>
    ensures { line_seen result ≡ after (Begins Head.Damage) (behind_head Head.Damage line.now) }
{
    let (to, behind) = next_word(&SIDES, line)?;
    let (which, behind) = next_number(behind, u64::MAX)?;
    let (byte, behind) = next_number(behind, u64::MAX)?;
    let (mask, behind) = next_number(behind, 255)?;
    let tag = last_number(behind)?;
    let mask = mask as u8;
    Ok(Line::Damage {
        to,
        which,
        byte,
        mask,
        tag,
    })
}

/// The line that begins with `head`, of what stands behind that.
fn headed<'a>(head: Head, line: &'a [u8]) -> Result<Line<'a>, &'a [u8]>
    ensures { line_seen result ≡ after (Begins head) (behind_head head line.now) }
{
    match head {
        Head::At(side) => {
            let (verb, behind) = next_word(&VERBS, line)?;
            let call = call(verb, behind)?;
            Ok(Line::Act {
                side: Some(side),
                call,
            })
        }
        Head::Do(verb) => {
            let call = call(verb, line)?;
            Ok(Line::Act { side: None, call })
        }
        Head::Settings => last_two(line).map(|(room, size)| Line::Settings { room, size }),
        Head::Bring => {
            let (to, behind) = next_word(&SIDES, line)?;
            let (which, tag) = last_two(behind)?;
            Ok(Line::Bring { to, which, tag })
        }
        Head::Damage => damage(line),
        Head::Drive => {
            let (side, behind) = next_word(&SIDES, line)?;
            let tag = last_number(behind)?;
            Ok(Line::Drive { side, tag })
        }
        Head::Tick => last_number(line).map(|count| Line::Tick { count }),
    }
}

/// A line; else the part of it from the first byte at which no line can go on.
fn front<'a>(line: &'a [u8]) -> Result<Line<'a>, &'a [u8]>
    ensures { line_seen result ≡ words line.now }
{
    if let [] | [b'#', ..] = line {
        return Ok(Line::Blank);
    }
    let (head, behind) = choose(&HEADS, line)?;
    headed(head, behind)
}

/// The line that `line`, without its line feed, is; or its fault. A line that isn't blank is printed as it was read.
pub fn read<'a>(line: &'a [u8]) -> Result<Line<'a>, Fault>
    ensures words { line_read result ≡ parse line.now }
    ensures printed { IfOk result (λ l. 0 < length (words_of l) → shown l ≡ line.now) }
{
    front(line).map_err(|rest| Fault {
        column: line.len().saturating_sub(rest.len()) + 1,
    })
}
