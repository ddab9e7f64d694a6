use std::alloc::{AllocError, AllocFailed};

/// Out of memory.
#[derive(Clone, Copy, Debug, PartialEq, Eq)]
pub struct NoMemory;

impl From<AllocError> for NoMemory {
    ghost use Rattle.std.specs.Prelude.{◌≡◌};

    ghost from_gives = { λ _ fault. fault ≡ record {} };

    fn from(_error: AllocError) -> NoMemory {
        NoMemory
    }
}

impl<T: Drop> From<AllocFailed<T>> for NoMemory {
    ghost use Rattle.std.specs.Prelude.{◌≡◌};

    ghost from_gives = { λ _ fault. fault ≡ record {} };

    fn from(_error: AllocFailed<T>) -> NoMemory {
        NoMemory
    }
}

/// Why a text was refused: out of memory, or a fault of a kind at a byte offset, counted from 0.
#[derive(Clone, Copy, Debug, PartialEq, Eq)]
pub enum Faulted<K> {
    NoMemory,
    At { kind: K, at: u32 },
}

impl<K> From<NoMemory> for Faulted<K> {
    ghost use Rattle.std.specs.Prelude.{◌≡◌};
    ghost use Rattle.tdl_control.specs.declared.faults.Faulted.TheVariants.{NoMemory};

    ghost from_gives = { λ _ fault. fault ≡ NoMemory };

    fn from(_error: NoMemory) -> Faulted<K> {
        Faulted::NoMemory
    }
}

impl<K> From<AllocError> for Faulted<K> {
    ghost use Rattle.std.specs.Prelude.{◌≡◌};
    ghost use Rattle.tdl_control.specs.declared.faults.Faulted.TheVariants.{NoMemory};

    ghost from_gives = { λ _ fault. fault ≡ NoMemory };

    fn from(_error: AllocError) -> Faulted<K> {
        Faulted::NoMemory
    }
}

impl<K, T: Drop> From<AllocFailed<T>> for Faulted<K> {
    ghost use Rattle.std.specs.Prelude.{◌≡◌};
    ghost use Rattle.tdl_control.specs.declared.faults.Faulted.TheVariants.{NoMemory};

    ghost from_gives = { λ _ fault. fault ≡ NoMemory };

    fn from(_error: AllocFailed<T>) -> Faulted<K> {
        Faulted::NoMemory
    }
}
