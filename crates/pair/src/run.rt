use crate::report::{print_book, print_packets};
use lanes::LANES;
use lent::inbox::Memory;
use packet::packet::{SIZE, Span};
use packet::settings::{CAPACITY, Settings};
use party::Fault;
use script::line::{Call, Line, Side as Named};
use script::read::read;
use simulation::Simulation;
use simulation::command::{Answer, Command};
use simulation::pair::{Side, Sides};
use text::data::{MOST, decode};

// No `From`: both types are other crates'.
fn side_of(side: Named) -> Side {
    match side {
        Named::L => Side::Left,
        Named::R => Side::Right,
    }
}

/// How many packets were sent to each side.
fn sent_so_far(pair: &Simulation<'_>) -> Sides<usize> {
    Sides {
        left: pair.sent_to(Side::Left).len(),
        right: pair.sent_to(Side::Right).len(),
    }
}

/// Prints what was sent to each side since.
fn print_later(
    rt: &HostRuntime,
    pair: &Simulation<'_>,
    before: Sides<usize>,
) -> anyhow::Result<()> {
    print_packets(rt, "L", pair.sent_to(Side::Left), before.left)?;
    print_packets(rt, "R", pair.sent_to(Side::Right), before.right)
}

fn print_refused(rt: &HostRuntime, fault: Fault) -> anyhow::Result<()> {
    let n = u8::from(fault);
    println!(rt; "  refused {n}")?;
    Ok(())
}

fn print_answer(rt: &HostRuntime, answer: Result<Answer, Fault>) -> anyhow::Result<()> {
    match answer {
        Ok(Answer::Done) => println!(rt; "  done")?,
        Ok(Answer::Gave(n)) => println!(rt; "  gave {n}")?,
        Ok(Answer::Took(n)) => println!(rt; "  took {n}")?,
        Ok(Answer::Heard(_)) => println!(rt; "  heard")?,
        Err(fault) => print_refused(rt, fault)?,
    }
    Ok(())
}

/// What a call asks of a side; nothing for calls that ends do not have yet.
fn command_of<'a>(side: Side, call: Call<'_>, bytes: &'a [u8]) -> Option<Command<'a>> {
    match call {
        Call::Listen { on } => Some(Command::Listen(side, on)),
        Call::Open { tag } => Some(Command::Open(side, tag)),
        Call::Give { tag, .. } => Some(Command::Give(side, tag, bytes)),
        Call::Take { tag, .. } => Some(Command::Take(side, tag)),
        Call::Close { tag } => Some(Command::Close(side, tag)),
        Call::Break { tag } => Some(Command::Break(side, tag)),
        Call::Due { tag } => Some(Command::Due(side, tag)),
        Call::Answer { tag } => Some(Command::Answer(side, tag)),
        Call::Send { tag, place, count } => {
            let span = Span { place, most: count };
            Some(Command::Send(side, tag, span))
        }
        Call::Forget { tag } => Some(Command::Forget(side, tag)),
        Call::Accept | Call::State { .. } => None,
    }
}

// The runtime is handed down beside the pair: a struct of both could not give the pair away to be begun anew.

/// Makes one step, and prints its answer and what went out.
fn make(rt: &HostRuntime, pair: &mut Simulation<'_>, command: Command<'_>) -> anyhow::Result<()> {
    let before = sent_so_far(pair);
    print_answer(rt, pair.step(command))?;
    print_later(rt, pair, before)
}

fn act(
    rt: &HostRuntime,
    pair: &mut Simulation<'_>,
    side: Side,
    call: Call<'_>,
) -> anyhow::Result<()> {
    // What a word of data stands for, in a fixed buffer: `decode` fills one, and so cannot fail.
    let mut bytes = [0; MOST];
    let count = match call {
        Call::Give { encoded, .. } => decode(encoded, &mut bytes),
        _ => 0,
    };
    match command_of(side, call, &bytes[..count]) {
        Some(command) => make(rt, pair, command),
        None => print_refused(rt, Fault::Unfit),
    }
}

/// Makes the moves that bring over all that a connection has still to get, and prints how many and what went out.
fn carry(rt: &HostRuntime, pair: &mut Simulation<'_>, side: Side, tag: u64) -> anyhow::Result<()> {
    let before = sent_so_far(pair);
    match pair.carry(side, tag) {
        Ok(n) => println!(rt; "  all is there after {n} moves")?,
        Err(fault) => print_refused(rt, fault)?,
    }
    print_later(rt, pair, before)
}

/// Does what a line says.
fn obey(rt: &HostRuntime, pair: &mut Simulation<'_>, line: Line<'_>) -> anyhow::Result<()> {
    match line {
        Line::Act {
            side: Some(side),
            call,
        } => act(rt, pair, side_of(side), call),
        Line::Bring { to, which, tag } => {
            let at = which.saturating_sub(1) as usize;
            make(rt, pair, Command::Deliver(side_of(to), at, tag))
        }
        Line::Drive { side, tag } => carry(rt, pair, side_of(side), tag),
        Line::Blank => Ok(()),
        Line::Act { side: None, .. }
        | Line::Settings { .. }
        | Line::Damage { .. }
        | Line::Tick { .. } => print_refused(rt, Fault::Unfit),
    }
}

/// The settings that an opening line asks for.
fn settings_of(line: Line<'_>) -> Option<Settings> {
    let Line::Settings { room, size } = line else {
        return None;
    };
    Settings::new(room, size)
}

/// Reads a script to its end or its first fault, and does each line as it comes.
pub fn run(rt: &HostRuntime) -> anyhow::Result<()> {
    // What the script does not say otherwise: room for a whole ring, and the longest texts.
    let Some(settings) = Settings::new(CAPACITY as u64, SIZE as u64) else {
        return Ok(());
    };
    let (mut left, mut right) = ([Memory::new(); LANES], [Memory::new(); LANES]);
    let mut pair = Simulation::new(rt.alloc(), settings, &mut left, &mut right);
    let mut begun = false;
    for (at, text) in rt.lines(rt.alloc()).enumerate() {
        let text = text?;
        let line = match read(text.as_bytes()) {
            Ok(line) => line,
            Err(fault) => {
                let (n, number) = (at.saturating_add(1), u8::from(fault));
                println!(rt; "line {n}, {fault}: refused {number}")?;
                break;
            }
        };
        println!(rt; "{text}")?;
        match settings_of(line) {
            Some(s) if !begun => pair = pair.restart(rt.alloc(), s),
            _ => obey(rt, &mut pair, line)?,
        }
        begun |= matches!(line, Line::Act { .. } | Line::Bring { .. });
    }
    print_book(rt, "L", pair.book(Side::Left))?;
    print_book(rt, "R", pair.book(Side::Right))
}
