use tdl_control::NoMemory;
use tdl_io::Failed;
use tdl_lines::ReadFault;

// Why a run of `play` ends before its script does.
#[derive(Clone, Copy, PartialEq, Eq)]
pub(crate) enum Stop {
    // Out of memory, in the run's own work.
    Memory,
    // A put or a send failed.
    Fault,
    // The input failed.
    Input,
}

impl From<NoMemory> for Stop {
    ghost use Rattle.std.specs.Prelude.{◌≡◌};
    ghost use Rattle.tdl_app.specs.declared.stops.Stop.TheVariants.{Memory};

    ghost from_gives = { λ _ stop. stop ≡ Memory };

    fn from(_error: NoMemory) -> Stop {
        Stop::Memory
    }
}

impl From<Failed> for Stop {
    ghost use Rattle.std.specs.Prelude.{◌≡◌};
    ghost use Rattle.tdl_app.specs.declared.stops.Stop.TheVariants.{Fault};

    ghost from_gives = { λ _ stop. stop ≡ Fault };

    // A put or a send that failed; the input fails by `ReadFault`.
    fn from(_error: Failed) -> Stop {
        Stop::Fault
    }
}

impl From<ReadFault> for Stop {
    ghost use Rattle.std.specs.Prelude.{◌≡◌};
    ghost use Rattle.tdl_app.specs.inside.Stops.{stop_of_fault};

    ghost from_gives = { λ fault stop. stop ≡ stop_of_fault fault };

    fn from(fault: ReadFault) -> Stop {
        match fault {
            ReadFault::NoMemory => Stop::Memory,
            ReadFault::Failed => Stop::Input,
        }
    }
}
