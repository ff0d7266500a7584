ghost use Rattle.std.specs.Prelude.{◌≡◌, Some};
ghost use Rattle.pacing.specs.Next as spec;

use crate::numbers::{Choice, Stage, Why};
use crate::paced::Paced;

/// What a moment asks of a connection's texts; where it asks nothing there is none.
#[derive(Clone, Copy, PartialEq, Eq, Debug)]
pub enum Pending {
    /// A text with bytes or last came, which brought no larger edge or upto.
    Answer,
    /// A text with bytes or last came, which brought one.
    AnswerThenSpeak,
    /// Its user gave, took or closed, or a bare text brought a larger edge or upto.
    Speak,
    /// A yes came.
    Due,
    /// The clock went on.
    Tick,
}

impl Pending {
    /// What a text that came asks for: whether it had bytes or last, and whether it brought a larger edge or upto.
    pub fn heard(answer: bool, grew: bool) -> Option<Pending>
        ensures { result ≡ spec.asked answer grew }
    {
        match (answer, grew) {
            (true, true) => Some(Pending::AnswerThenSpeak),
            (true, false) => Some(Pending::Answer),
            (false, true) => Some(Pending::Speak),
            (false, false) => None,
        }
    }

    /// What is left of it after a text went out.
    pub fn after(self) -> Option<Pending>
        ensures { result ≡ spec.after (Some self) }
    {
        matches!(self, Pending::AnswerThenSpeak | Pending::Speak).then_some(Pending::Speak)
    }
}

impl Paced {
    /// A text with something not sent yet: the lowest bytes below what it sees, or else the end. None while sixteen are under way.
    pub fn new_text(self) -> Option<Choice>
        ensures { result ≡ spec.new_text self.numbers self.clock }
    {
        let Paced { numbers, clock } = self;
        if clock.flight.full(numbers.upto) {
            return None;
        }
        let place = clock.sent.max(numbers.upto);
        let left = numbers.given.saturating_sub(place);
        let most = numbers
            .size
            .min(numbers.sees.saturating_sub(place))
            .min(left);
        let last = place == numbers.given && numbers.closed && !numbers.all && !clock.ended;
        (most > 0 || last).then_some(Choice {
            place,
            most,
            why: Why::New,
        })
    }

    /// One that speaks sends new texts as long as it may, and a due text if its edge or all has grown since its last text.
    pub fn speaks(self) -> Option<Choice>
        ensures { result ≡ spec.speaks self.numbers self.clock }
    {
        let due = (!self.up_to_date()).then_some(self.numbers.due(Why::Due));
        self.new_text().or(due)
    }

    /// The next text to go out at this moment, and why. The caller sends it, tells the clock (`Paced::sent`), and asks again with
    /// what is left (`Pending::after`) until there is none.
    pub fn next_text(self, pending: Option<Pending>, now: u64) -> Option<Choice>
        ensures { result ≡ spec.next_text self.numbers self.clock pending now }
    {
        if self.numbers.stage != Stage::Open {
            return None;
        }
        match pending? {
            Pending::Answer | Pending::AnswerThenSpeak => Some(self.numbers.answer()),
            Pending::Speak => self.speaks(),
            Pending::Due => Some(self.numbers.due(Why::Due)),
            Pending::Tick => self.late(now).then_some(self.numbers.due(Why::Clock)),
        }
    }
}
