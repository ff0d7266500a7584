ghost use Rattle.std.specs.Prelude.{◌≡◌, Some};
ghost use Rattle.wire.specs.Format.{fault_number};
ghost use Rattle.wire.specs.declared.fault.Fault.TheVariants.{Shape};

use packet::packet::UnknownKind;
use std::error::Error;
use std::fmt;

/// Why bytes are not a packet: the first that applies.
#[derive(Clone, Copy, PartialEq, Eq, Debug)]
pub enum Fault {
    /// No known kind, or a length that is not that of the kind and count.
    Shape,
    /// The check is not that of the bytes before it.
    Check,
    /// Bits or a field that must be 0 and are not, or a tag that is 0 and must not be.
    Zero,
    /// A place or an edge that no stream has.
    Range,
}

/// The number of a fault.
impl From<Fault> for u8 {
    ghost from_gives = { λ fault number. number ≡ fault_number fault };

    fn from(fault: Fault) -> u8 {
        match fault {
            Fault::Shape => 1,
            Fault::Check => 2,
            Fault::Zero => 3,
            Fault::Range => 4,
        }
    }
}

impl From<UnknownKind> for Fault {
    ghost from_gives = { λ _ fault. fault ≡ Shape };

    fn from(_kind: UnknownKind) -> Fault {
        Self::Shape
    }
}

impl fmt::Display for Fault {
    ghost use Rattle.wire.specs.Texts.{fault_text};

    ghost output = { λ fault. Some (fault_text fault) };

    fn fmt<W: fmt::Write>(&self, f: &mut fmt::Formatter<W>) -> fmt::Result {
        f.write_str(match self {
            Fault::Shape => "no known kind, or another length than the count says",
            Fault::Check => "the check is wrong",
            Fault::Zero => "what must be 0 is not, or a tag is 0",
            Fault::Range => "a place or an edge that no stream has",
        })
    }
}

impl Error for Fault {}

/// Why a packet is not written: the first that applies.
#[derive(Clone, Copy, PartialEq, Eq, Debug)]
pub enum WriteError {
    /// The text has more bytes than one text may have.
    LongText,
    /// The reader would refuse the packet for this.
    Refused(Fault),
    /// The packet has more bytes than there is room for.
    ShortRoom,
}

impl From<Fault> for WriteError {
    ghost use Rattle.wire.specs.declared.fault.WriteError.TheVariants.{Refused};

    ghost from_gives = { λ fault error. error ≡ Refused fault };

    fn from(fault: Fault) -> WriteError {
        Self::Refused(fault)
    }
}

impl fmt::Display for WriteError {
    ghost use Rattle.wire.specs.Texts.{error_text};

    ghost output = { λ error. Some (error_text error) };

    fn fmt<W: fmt::Write>(&self, f: &mut fmt::Formatter<W>) -> fmt::Result {
        match self {
            WriteError::LongText => write!(f, "the text is too long"),
            WriteError::Refused(fault) => write!(f, "the reader would refuse it: {fault}"),
            WriteError::ShortRoom => write!(f, "too little room"),
        }
    }
}

impl Error for WriteError {}
