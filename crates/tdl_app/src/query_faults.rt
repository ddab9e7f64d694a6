ghost use Rattle.std.specs.Prelude.{◌≡◌, IfOk};
ghost use Rattle.tdl_app.specs.QueryRefusals.{arc_line, arc_words, query_refusal_line};

use crate::arcs::ArcFault;
use std::alloc::Global;
use tdl_answer::{Refusal, TextFault};
use tdl_control::{Faulted, NoMemory, Text};
use tdl_prepare::PrepareFault;
use tdl_script::LineKind;

// Why a query has no answer.
#[derive(Clone, Copy, PartialEq, Eq)]
pub(crate) enum QueryRefusal {
    // Its pattern is refused.
    Pattern { why: Refusal },
    // The words name no arc.
    Arc { fault: ArcFault },
}

impl QueryRefusal {
    // The line that says so.
    pub fn line(self, alloc: Global) -> Result<Text, NoMemory>
        ensures { IfOk result (λ text. text ≡ query_refusal_line self) }
    {
        match self {
            QueryRefusal::Pattern { why } => why.line(alloc),
            QueryRefusal::Arc { fault } => arc_line(alloc, fault),
        }
    }
}

fn arc_line(alloc: Global, fault: ArcFault) -> Result<Text, NoMemory>
    ensures { IfOk result (λ text. text ≡ arc_line fault) }
{
    let mut text = Text::new(alloc);
    text.add(b"refused ")?;
    text.add(arc_words(fault))?;
    text.add(b"\n")?;
    Ok(text)
}

fn arc_words(fault: ArcFault) -> &'static [u8]
    ensures { result.now ≡ arc_words fault }
{
    match fault {
        ArcFault::From => b"Fraction from",
        ArcFault::To => b"Fraction to",
        ArcFault::Order => b"Order",
        ArcFault::Last => b"Last",
        ArcFault::TickGrid => b"TickGrid",
    }
}

// Why a query has no events.
pub(crate) enum QueryFault {
    NoMemory,
    Refused { why: QueryRefusal },
}

impl From<TextFault> for QueryFault {
    ghost use Rattle.std.specs.Prelude.{◌≡◌};
    ghost use Rattle.tdl_app.specs.inside.QueryFaults.{of_text};

    ghost from_gives = { λ from fault. fault ≡ of_text from };

    fn from(fault: TextFault) -> QueryFault {
        match fault {
            TextFault::NoMemory => QueryFault::NoMemory,
            TextFault::Refused { why } => QueryFault::Refused {
                why: QueryRefusal::Pattern { why },
            },
        }
    }
}

impl From<Faulted<LineKind>> for QueryFault {
    ghost use Rattle.std.specs.Prelude.{◌≡◌};
    ghost use Rattle.tdl_answer.specs.TextFaults.{of_reading};
    ghost use Rattle.tdl_app.specs.inside.QueryFaults.{of_text};

    ghost from_gives = { λ from fault. fault ≡ of_text (of_reading from) };

    fn from(fault: Faulted<LineKind>) -> QueryFault {
        TextFault::from(fault).into()
    }
}

impl From<PrepareFault> for QueryFault {
    ghost use Rattle.std.specs.Prelude.{◌≡◌};
    ghost use Rattle.tdl_answer.specs.TextFaults.{of_preparing};
    ghost use Rattle.tdl_app.specs.inside.QueryFaults.{of_text};

    ghost from_gives = { λ from fault. fault ≡ of_text (of_preparing from) };

    fn from(fault: PrepareFault) -> QueryFault {
        TextFault::from(fault).into()
    }
}

impl From<ArcFault> for QueryFault {
    ghost use Rattle.std.specs.Prelude.{◌≡◌};
    ghost use Rattle.tdl_app.specs.declared.query_faults.QueryFault.TheVariants.{Refused};
    ghost use Rattle.tdl_app.specs.declared.query_faults.QueryRefusal.TheVariants.{Arc as NoArc};

    ghost from_gives = { λ from fault. fault ≡ Refused (NoArc from) };

    fn from(fault: ArcFault) -> QueryFault {
        QueryFault::Refused {
            why: QueryRefusal::Arc { fault },
        }
    }
}
