// Why a call gives no answer.
ghost use Rattle.std.specs.Prelude.{◌≡◌};
ghost use Rattle.replay.specs.declared.errors.NotMade.TheVariants.{OutOfMemory};
ghost use Rattle.replay.specs.declared.errors.Failure.TheVariants.{Refused, Unmade};

use refusals::Refusal;
use std::alloc::AllocError;
use std::fmt;

// Why a call is not made.
#[derive(Clone, Copy)]
pub enum NotMade {
    // the call that it names is no earlier get, or send, of the key
    NoSuchGet { call: u64, key: u64 },
    NoSuchSend { call: u64, key: u64 },
    OutOfMemory(AllocError),
}

// A call that is refused is made all the same, and has a number.
#[derive(Clone, Copy)]
pub enum Failure {
    Refused(Refusal),
    Unmade(NotMade),
}

impl fmt::Display for NotMade {
    fn fmt<W: fmt::Write>(&self, f: &mut fmt::Formatter<W>) -> fmt::Result {
        match *self {
            NotMade::NoSuchGet { call, key } => {
                write!(f, "call {call} is no earlier get of key {key}")
            }
            NotMade::NoSuchSend { call, key } => {
                write!(f, "call {call} is no earlier send of key {key}")
            }
            NotMade::OutOfMemory(_) => f.write_str("out of memory"),
        }
    }
}

impl From<Refusal> for Failure {
    ghost from_gives = { λ e r. r ≡ Refused e };

    fn from(refusal: Refusal) -> Failure {
        Failure::Refused(refusal)
    }
}

impl From<NotMade> for Failure {
    ghost from_gives = { λ e r. r ≡ Unmade e };

    fn from(why: NotMade) -> Failure {
        Failure::Unmade(why)
    }
}

impl From<AllocError> for Failure {
    ghost from_gives = { λ e r. r ≡ Unmade (OutOfMemory e) };

    fn from(error: AllocError) -> Failure {
        Failure::Unmade(NotMade::OutOfMemory(error))
    }
}
