// Why a token is not taken.
use std::alloc::{AllocError, AllocFailed};
use tdl_control::NoMemory;
use tdl_line_machine::LineKind;

/// A token by its index, and an offset in it.
#[derive(Clone, Copy, PartialEq, Eq)]
pub struct Place {
    pub token: u32,
    pub offset: u16,
}

/// Why a token is not taken: out of memory, or a fault at a place.
#[derive(Clone, Copy)]
pub enum Fault {
    NoMemory,
    At { kind: LineKind, place: Place },
}

impl From<NoMemory> for Fault {
    ghost use Rattle.std.specs.Prelude.{◌≡◌};
    ghost use Rattle.tdl_line_reader.specs.declared.faults.Fault.TheVariants.{NoMemory};

    ghost from_gives = { λ _ fault. fault ≡ NoMemory };

    fn from(_error: NoMemory) -> Fault {
        Fault::NoMemory
    }
}

impl From<AllocError> for Fault {
    ghost use Rattle.std.specs.Prelude.{◌≡◌};
    ghost use Rattle.tdl_line_reader.specs.declared.faults.Fault.TheVariants.{NoMemory};

    ghost from_gives = { λ _ fault. fault ≡ NoMemory };

    fn from(_error: AllocError) -> Fault {
        Fault::NoMemory
    }
}

impl<T: Drop> From<AllocFailed<T>> for Fault {
    ghost use Rattle.std.specs.Prelude.{◌≡◌};
    ghost use Rattle.tdl_line_reader.specs.declared.faults.Fault.TheVariants.{NoMemory};

    ghost from_gives = { λ _ fault. fault ≡ NoMemory };

    fn from(_error: AllocFailed<T>) -> Fault {
        Fault::NoMemory
    }
}
