// Calls, and how they are answered.
use std::alloc::{AllocError, AllocFailed};
use tdl_answer::Unmade;
use tdl_control::NoMemory;
use tdl_core::Refusal;

/// What was called.
#[derive(Clone, Copy)]
pub enum Called {
    /// A performer said this.
    Line { who: u32, text: &'static str },
    /// A tick to so many units.
    Tick { to: u64 },
    Finish,
}

/// An accepted call, and the place of its entry in the history.
#[derive(Clone, Copy)]
pub struct Accepted {
    pub place: u32,
    pub called: Called,
}

/// Why a caller stops before its end.
#[derive(Clone, Copy)]
pub enum Fault {
    NoMemory,
    /// A call was refused, or answered by a reply to another kind of call.
    OtherReply,
}

/// How a caller ended.
pub type Ended = Result<(), Fault>;

impl From<AllocError> for Fault {
    ghost from_gives = { λ _ fault. Unit {0} };

    fn from(_error: AllocError) -> Fault {
        Fault::NoMemory
    }
}

impl<T: Drop> From<AllocFailed<T>> for Fault {
    ghost from_gives = { λ _ fault. Unit {0} };

    fn from(_error: AllocFailed<T>) -> Fault {
        Fault::NoMemory
    }
}

impl From<NoMemory> for Fault {
    ghost from_gives = { λ _ fault. Unit {0} };

    fn from(_error: NoMemory) -> Fault {
        Fault::NoMemory
    }
}

impl From<Refusal> for Fault {
    ghost from_gives = { λ refusal fault. Unit {0} };

    fn from(refusal: Refusal) -> Fault {
        match refusal {
            Refusal::NoMemory => Fault::NoMemory,
            _ => Fault::OtherReply,
        }
    }
}

impl From<Unmade> for Fault {
    ghost from_gives = { λ unmade fault. Unit {0} };

    fn from(unmade: Unmade) -> Fault {
        match unmade {
            Unmade::NoMemory => Fault::NoMemory,
            _ => Fault::OtherReply,
        }
    }
}
