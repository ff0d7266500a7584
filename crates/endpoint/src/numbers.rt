ghost use Rattle.std.specs.Prelude.{◌≡◌};
ghost use Rattle.endpoint.specs.Refusals.{number};

use crate::Refusal;

/// The number under which the protocol knows a refusal.
impl From<Refusal> for u8 {
    ghost from_gives = { λ f n. n ≡ number f };

    fn from(refusal: Refusal) -> u8 {
        match refusal {
            Refusal::TooLong => 1,
            Refusal::ZeroTag => 3,
            Refusal::TooFar => 4,
            Refusal::NotThere => 5,
            Refusal::Closed => 6,
            Refusal::Full => 7,
            Refusal::TagThere => 8,
            Refusal::AllGiven => 9,
        }
    }
}
