//! An end with what is written down of its users: each call, packet and due moment is a step of the model's end, and the
//! book keeps what users see of it.
#![tactic(auto)]

ghost use Rattle.std.specs.Prelude.{◌≡◌};
ghost use Rattle.party.specs.Faults.{fault_number};
ghost use Rattle.party.specs.declared.Fault.TheVariants.{Refused, Memory};

mod calls;
mod look;

use endpoint::{Endpoint, Refusal};
use ledger::book::Book;
use std::alloc::AllocError;

#[derive(Drop)]
pub struct Party<'m> {
    pub end: Endpoint<'m>,
    pub book: Book,
}

/// Why nothing was done.
#[derive(Clone, Copy, PartialEq, Eq, Debug)]
pub enum Fault {
    /// The end refused.
    Refused(Refusal),
    /// There is no such packet, a tag was drawn before, or two connections are not one.
    Unfit,
    /// There is no memory to write it down.
    Memory,
}

/// The number of a fault: that of the refusal, or 1.
impl From<Fault> for u8 {
    ghost from_gives = { λ fault number. number ≡ fault_number fault };

    fn from(fault: Fault) -> u8 {
        match fault {
            Fault::Refused(refusal) => refusal.into(),
            Fault::Unfit | Fault::Memory => 1,
        }
    }
}

impl From<Refusal> for Fault {
    ghost from_gives = { λ refusal fault. fault ≡ Refused refusal };

    fn from(refusal: Refusal) -> Fault {
        Self::Refused(refusal)
    }
}

impl From<AllocError> for Fault {
    ghost from_gives = { λ _ fault. fault ≡ Memory };

    fn from(_error: AllocError) -> Fault {
        Self::Memory
    }
}
