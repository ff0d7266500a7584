ghost use Rattle.std.specs.Prelude.{◌≡◌};
ghost use Rattle.script.specs.Lines.{switch_of, verb_of};
ghost use Rattle.script.specs.Words.{spelled_head, spelled_side, spelled_switch, spelled_verb};

use crate::line::{Call, Side};
use text::word::Keyword;

/// The word that begins a call.
#[derive(Clone, Copy, Debug, PartialEq, Eq)]
pub enum Verb {
    Listen,
    Open,
    Accept,
    Give,
    Take,
    Close,
    Break,
    State,
    Due,
    Answer,
    Send,
    Forget,
}

/// The word that begins a line.
#[derive(Clone, Copy, Debug, PartialEq, Eq)]
pub enum Head {
    At(Side),
    Do(Verb),
    Settings,
    Bring,
    Damage,
    Drive,
    Tick,
}

/// Whether users may open connections.
#[derive(Clone, Copy, Debug, PartialEq, Eq)]
pub enum Switch {
    On,
    Off,
}

impl From<Call<'_>> for Verb {
    ghost from_gives = { λ call verb. verb ≡ verb_of call };

    fn from(call: Call<'_>) -> Verb {
        match call {
            Call::Listen { .. } => Verb::Listen,
            Call::Open { .. } => Verb::Open,
            Call::Accept => Verb::Accept,
            Call::Give { .. } => Verb::Give,
            Call::Take { .. } => Verb::Take,
            Call::Close { .. } => Verb::Close,
            Call::Break { .. } => Verb::Break,
            Call::State { .. } => Verb::State,
            Call::Due { .. } => Verb::Due,
            Call::Answer { .. } => Verb::Answer,
            Call::Send { .. } => Verb::Send,
            Call::Forget { .. } => Verb::Forget,
        }
    }
}

impl From<bool> for Switch {
    ghost from_gives = { λ on switch. switch ≡ switch_of on };

    fn from(on: bool) -> Switch {
        if on { Switch::On } else { Switch::Off }
    }
}

impl From<Switch> for bool {
    ghost from_gives = { λ switch on. switch ≡ switch_of on };

    fn from(switch: Switch) -> bool {
        matches!(switch, Switch::On)
    }
}

pub const SIDES: [Side; 2] = [Side::L, Side::R];

pub const SWITCHES: [Switch; 2] = [Switch::On, Switch::Off];

pub const VERBS: [Verb; 12] = [
    Verb::Listen,
    Verb::Open,
    Verb::Accept,
    Verb::Give,
    Verb::Take,
    Verb::Close,
    Verb::Break,
    Verb::State,
    Verb::Due,
    Verb::Answer,
    Verb::Send,
    Verb::Forget,
];

pub const HEADS: [Head; 19] = [
    Head::At(Side::L),
    Head::At(Side::R),
    Head::Do(Verb::Listen),
    Head::Do(Verb::Open),
    Head::Do(Verb::Accept),
    Head::Do(Verb::Give),
    Head::Do(Verb::Take),
    Head::Do(Verb::Close),
    Head::Do(Verb::Break),
    Head::Do(Verb::State),
    Head::Do(Verb::Due),
    Head::Do(Verb::Answer),
    Head::Do(Verb::Send),
    Head::Do(Verb::Forget),
    Head::Settings,
    Head::Bring,
    Head::Damage,
    Head::Drive,
    Head::Tick,
];

impl Keyword for Side {
    ghost spelt = { spelled_side };

    fn spelling(self) -> &'static [u8] {
        match self {
            Side::L => b"L",
            Side::R => b"R",
        }
    }
}

impl Keyword for Switch {
    ghost spelt = { spelled_switch };

    fn spelling(self) -> &'static [u8] {
        match self {
            Switch::On => b"on",
            Switch::Off => b"off",
        }
    }
}

impl Keyword for Verb {
    ghost spelt = { spelled_verb };

    fn spelling(self) -> &'static [u8] {
        match self {
            Verb::Listen => b"listen",
            Verb::Open => b"open",
            Verb::Accept => b"accept",
            Verb::Give => b"give",
            Verb::Take => b"take",
            Verb::Close => b"close",
            Verb::Break => b"break",
            Verb::State => b"state",
            Verb::Due => b"due",
            Verb::Answer => b"answer",
            Verb::Send => b"send",
            Verb::Forget => b"forget",
        }
    }
}

impl Keyword for Head {
    ghost spelt = { spelled_head };

    fn spelling(self) -> &'static [u8] {
        match self {
            Head::At(side) => side.spelling(),
            Head::Do(verb) => verb.spelling(),
            Head::Settings => b"settings",
            Head::Bring => b"bring",
            Head::Damage => b"damage",
            Head::Drive => b"drive",
            Head::Tick => b"tick",
        }
    }
}
