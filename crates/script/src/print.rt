ghost use Rattle.std.specs.Prelude.{◌≡◌, [], ◌∷◌, ◌++◌, map, IfOk, Ok, OnOk};
ghost use Rattle.script.specs.Parse.{Begins, Brings, Counts, Names, parse};
ghost use Rattle.script.specs.Lines.{arguments_of, at_side, verb_of, words_of};
ghost use Rattle.script.specs.Back.{LineFits};
ghost use Rattle.script.specs.Show.{Appends, counted, shown, shown_behind, shown_words};

use crate::line::{Call, Line, Side};
use crate::word::{Head, Switch, Verb};
use std::alloc::{AllocError, Global};
use text::front::push_number;
use text::word::Keyword;

// Bytes in a `Vec` and no `Display`: a word of data is whatever bytes stood there, and they needn't be text.

/// Appends a space and `word`.
fn push_word(word: &[u8], out: &mut Vec<u8>) -> Result<(), AllocError>
    ensures { Appends result out.old.items out.new.items (32 ∷ word.now) }
{
    out.push(b' ')?;
    out.extend_from_slice(word)
}

/// Appends each of `numbers`, a space before it.
fn push_numbers(numbers: &[u64], out: &mut Vec<u8>) -> Result<(), AllocError>
    ensures { Appends result out.old.items out.new.items (counted numbers.now) }
{
    for number in numbers {
        out.push(b' ')?;
        push_number(*number, out)?;
    }
    Ok(())
}

/// Appends a word of data, a space before it; nothing if it is empty.
fn push_data(word: &[u8], out: &mut Vec<u8>) -> Result<(), AllocError>
    ensures { Appends result out.old.items out.new.items (shown_behind (Brings word.now ∷ [])) }
{
    if word.is_empty() {
        return Ok(());
    }
    push_word(word, out)
}

/// Appends what stands behind a call's verb.
fn push_arguments(call: Call, out: &mut Vec<u8>) -> Result<(), AllocError>
    ensures { Appends result out.old.items out.new.items (shown_behind (arguments_of call.entry)) }
{
    match call {
        Call::Listen { on } => push_word(Switch::from(on).spelling(), out),
        Call::Accept => Ok(()),
        Call::Give { tag, encoded } => {
            push_numbers(&[tag], out)?;
            push_data(encoded, out)
        }
        Call::Take { tag, count } => push_numbers(&[tag, count], out),
        Call::Send { tag, place, count } => push_numbers(&[tag, place, count], out),
        Call::Open { tag }
        | Call::Close { tag }
        | Call::Break { tag }
        | Call::State { tag }
        | Call::Due { tag }
        | Call::Answer { tag }
        | Call::Forget { tag } => push_numbers(&[tag], out),
    }
}

/// Appends a line of one end.
fn push_act(side: Option<Side>, call: Call, out: &mut Vec<u8>) -> Result<(), AllocError>
    ensures { Appends result out.old.items out.new.items (shown_words (at_side side call.entry)) }
{
    match side {
        None => {
            out.extend_from_slice(Verb::from(call).spelling())?;
            push_arguments(call, out)
        }
        Some(side) => {
            out.extend_from_slice(side.spelling())?;
            push_word(Verb::from(call).spelling(), out)?;
            push_arguments(call, out)
        }
    }
}

/// Appends a line that begins with `head` and a side.
fn push_sided(head: Head, side: Side, numbers: &[u64], out: &mut Vec<u8>) -> Result<(), AllocError>
    ensures { Appends result out.old.items out.new.items (shown_words (Begins head ∷ Names side ∷ map Counts numbers.now)) }
{
    out.extend_from_slice(head.spelling())?;
    push_word(side.spelling(), out)?;
    push_numbers(numbers, out)
}

fn push_line(line: Line, out: &mut Vec<u8>) -> Result<(), AllocError>
    ensures { Appends result out.old.items out.new.items (shown line.entry) }
{
    match line {
        Line::Blank => Ok(()),
        Line::Settings { room, size } => {
            out.extend_from_slice(Head::Settings.spelling())?;
            push_numbers(&[room, size], out)
        }
        Line::Act { side, call } => push_act(side, call, out),
        Line::Bring { to, which, tag } => push_sided(Head::Bring, to, &[which, tag], out),
        Line::Damage {
            to,
            which,
            byte,
            mask,
            tag,
        } => { push_sided(Head::Damage, to, &[which, byte, u64::from(mask), tag], out) }
        Line::Drive { side, tag } => push_sided(Head::Drive, side, &[tag], out),
        Line::Tick { count } => {
            out.extend_from_slice(Head::Tick.spelling())?;
            push_numbers(&[count], out)
        }
    }
}

/// The bytes of a line, without a line feed. They are read back as that line.
pub fn print(heap: Global, line: Line) -> Result<Vec<u8>, AllocError>
    ensures bytes { IfOk result (λ bytes. bytes.items ≡ shown line.entry) }
    ensures back { IfOk result (λ bytes. LineFits line.entry → parse bytes.items ≡ Ok (words_of line.entry)) }
{
    let mut bytes = Vec::new(heap);
    push_line(line, &mut bytes)?;
    Ok(bytes)
}
