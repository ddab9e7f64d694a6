use tdl_compile::CompileFault;
use tdl_control::NoMemory;
use tdl_expr::PushFault;
use thiserror::Error;

/// Why an expression is no program. The numbers of 64 bits are `u64::MAX` where they are greater.
#[derive(Clone, Copy, Debug, PartialEq, Eq, Error)]
pub enum PrepareFault {
    #[error("out of memory")]
    NoMemory,
    /// A table with so many of its rows would have more than 2,048 rows, or more than 8,192 links.
    #[error("the pattern needs {rows} rows and {links} links")]
    TooLarge { rows: u32, links: u32 },
    /// A cycle of its tree asks for so many visits, more than 131,072.
    #[error("the pattern asks for {load} visits in a cycle")]
    TooDense { load: u64 },
    /// Its times have denominators up to this, above 2^44.
    #[error("the pattern has times as fine as 1/{grid} cycle")]
    TooFine { grid: u64 },
    /// Its times have sizes up to this, above 2^36 cycles.
    #[error("the pattern has times as far as {reach} cycles")]
    TooFar { reach: u64 },
}

impl From<NoMemory> for PrepareFault {
    ghost use Rattle.std.specs.Prelude.{◌≡◌};
    ghost use Rattle.tdl_prepare.specs.declared.faults.PrepareFault.TheVariants.{NoMemory};

    ghost from_gives = { λ _ made. made ≡ NoMemory };

    fn from(_fault: NoMemory) -> PrepareFault {
        PrepareFault::NoMemory
    }
}

impl From<PushFault> for PrepareFault {
    ghost use Rattle.std.specs.Prelude.{◌≡◌};
    ghost use Rattle.tdl_prepare.specs.Prepared.{pushed};

    ghost from_gives = { λ fault made. made ≡ pushed fault };

    fn from(fault: PushFault) -> PrepareFault {
        match fault {
            PushFault::NoMemory => PrepareFault::NoMemory,
            PushFault::TooLarge { rows, links } => PrepareFault::TooLarge { rows, links },
        }
    }
}

impl From<CompileFault> for PrepareFault {
    ghost use Rattle.std.specs.Prelude.{◌≡◌};
    ghost use Rattle.tdl_prepare.specs.Prepared.{compiled};

    ghost from_gives = { λ fault made. made ≡ compiled fault };

    fn from(fault: CompileFault) -> PrepareFault {
        match fault {
            CompileFault::NoMemory => PrepareFault::NoMemory,
            CompileFault::TooDense { load } => PrepareFault::TooDense { load },
            CompileFault::TooFine { grid } => PrepareFault::TooFine { grid },
            CompileFault::TooFar { reach } => PrepareFault::TooFar { reach },
        }
    }
}
