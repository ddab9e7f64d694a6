use tdl_control::NoMemory;
use thiserror::Error;

/// Why a row is no program. The numbers are `u64::MAX` where they are greater.
#[derive(Clone, Copy, Debug, PartialEq, Eq, Error)]
pub enum CompileFault {
    #[error("out of memory")]
    NoMemory,
    /// A cycle of the tree asks for so many visits, more than 131,072.
    #[error("the pattern asks for {load} visits in a cycle")]
    TooDense { load: u64 },
    /// Its times have denominators up to this, above 2^44.
    #[error("the pattern has times as fine as 1/{grid} cycle")]
    TooFine { grid: u64 },
    /// Its times have sizes up to this, above 2^36 cycles.
    #[error("the pattern has times as far as {reach} cycles")]
    TooFar { reach: u64 },
}

impl From<NoMemory> for CompileFault {
    ghost use Rattle.std.specs.Prelude.{◌≡◌};
    ghost use Rattle.tdl_compile.specs.declared.faults.CompileFault.TheVariants.{NoMemory};

    ghost from_gives = { λ _ fault. fault ≡ NoMemory };

    fn from(_error: NoMemory) -> CompileFault {
        CompileFault::NoMemory
    }
}
