use crate::refusals::Refusal;
use tdl_control::Faulted;
use tdl_prepare::PrepareFault;
use tdl_script::LineKind;

/// Why a text is not played: out of memory, or it is refused.
pub enum TextFault {
    NoMemory,
    Refused { why: Refusal },
}

impl From<Refusal> for TextFault {
    ghost use Rattle.std.specs.Prelude.{◌≡◌};
    ghost use Rattle.tdl_answer.specs.declared.text_faults.TextFault.TheVariants.{Refused};

    ghost from_gives = { λ why fault. fault ≡ Refused why };

    fn from(why: Refusal) -> TextFault {
        TextFault::Refused { why }
    }
}

impl From<Faulted<LineKind>> for TextFault {
    ghost use Rattle.std.specs.Prelude.{◌≡◌};
    ghost use Rattle.tdl_answer.specs.TextFaults.{of_reading};

    ghost from_gives = { λ from fault. fault ≡ of_reading from };

    fn from(fault: Faulted<LineKind>) -> TextFault {
        match fault {
            Faulted::NoMemory => TextFault::NoMemory,
            Faulted::At { kind, at } => Refusal::Unread { kind, at }.into(),
        }
    }
}

impl From<PrepareFault> for TextFault {
    ghost use Rattle.std.specs.Prelude.{◌≡◌};
    ghost use Rattle.tdl_answer.specs.TextFaults.{of_preparing};

    ghost from_gives = { λ from fault. fault ≡ of_preparing from };

    fn from(fault: PrepareFault) -> TextFault {
        match fault {
            PrepareFault::NoMemory => TextFault::NoMemory,
            PrepareFault::TooLarge { rows, links } => Refusal::TooLarge { rows, links }.into(),
            PrepareFault::TooDense { load } => Refusal::TooDense { load }.into(),
            PrepareFault::TooFine { grid } => Refusal::TooFine { grid }.into(),
            PrepareFault::TooFar { reach } => Refusal::TooFar { reach }.into(),
        }
    }
}
