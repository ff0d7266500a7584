ghost use Rattle.std.specs.Prelude.{◌≡◌, [], ◌∷◌};
ghost use Rattle.hold.specs.World.{Takes};
ghost use Rattle.packet.specs.Sizes.{capacity};
ghost use Rattle.simulation.specs.Events.{done_by, events};
ghost use Rattle.simulation.specs.Shows.{Does, when_ok, who_of};

use crate::command::{Answer, Command};
use crate::pair::{Pair, Side};
use packet::settings::CAPACITY;
use party::Fault;

fn done(r: Result<(), Fault>) -> Result<Answer, Fault>
    ensures { result ≡ done_by r }
{
    r.map(|()| Answer::Done)
}

impl<'m> Pair<'m> {
    /// The user takes all there is.
    // A function of its own: among the arms of `obey` the buffer would be put to 0 by a line of any kind.
    fn take_all(&mut self, side: Side, tag: u64) -> Result<usize, Fault>
        ensures { Does self.old self.new (λ _. when_ok (λ _. Takes (who_of side) tag capacity ∷ []) result) }
    {
        self.take(side, tag, &mut [0; CAPACITY])
    }

    /// One line of a script.
    pub fn obey(&mut self, command: Command<'_>) -> Result<Answer, Fault>
        ensures { Does self.old self.new (events self.old command.entry result) }
    {
        match command {
            Command::Listen(side, on) => {
                self.listen(side, on);
                Ok(Answer::Done)
            }
            Command::Open(side, tag) => done(self.open(side, tag)),
            Command::Give(side, tag, bytes) => self.give(side, tag, bytes).map(Answer::Gave),
            Command::Take(side, tag) => self.take_all(side, tag).map(Answer::Took),
            Command::Close(side, tag) => done(self.close(side, tag)),
            Command::Break(side, tag) => done(self.break_off(side, tag)),
            Command::Forget(side, tag) => done(self.forget(side, tag)),
            Command::Due(side, tag) => done(self.due(side, tag)),
            Command::Answer(side, tag) => done(self.answer(side, tag)),
            Command::Send(side, tag, span) => done(self.send(side, tag, span)),
            Command::Deliver(side, i, draws) => self.deliver(side, i, draws).map(Answer::Heard),
        }
    }
}
