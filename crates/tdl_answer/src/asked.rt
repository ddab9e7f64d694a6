ghost use Rattle.std.specs.Prelude.{IfErr, IfOk};
ghost use Rattle.tdl_answer.specs.Asked.{IsAsked, IsUnmade};

use crate::refusals::Refusal;
use crate::text_faults::TextFault;
use crate::texts::read_text;
use std::alloc::Global;
use tdl_core::Call;
use tdl_line_changes::prepared_lines_are_read;
use tdl_prepare::Prepared;

/// Why a performer's text makes no call.
#[derive(Clone, Copy, PartialEq, Eq)]
pub enum Unmade {
    /// It asks for nothing.
    Nothing,
    /// It is refused.
    Refused { why: Refusal },
    /// Out of memory.
    NoMemory,
}

/// The call that a performer's text asks for. No history is looked at: each performer may make it, whatever was called
/// before.
pub fn asked_call(alloc: Global, text: &[u8]) -> Result<Call, Unmade>
    ensures ok { IfOk result (IsAsked text.now) }
    ensures err { IfErr result (IsUnmade text.now) }
{
    prepared_lines_are_read();
    match read_text(alloc, text) {
        Ok(Prepared::Nothing) => Err(Unmade::Nothing),
        Ok(Prepared::Look) => Ok(Call::Look),
        Ok(
            Prepared::Swap {
                text,
                every,
                change,
            },
        ) => Ok(Call::Swap {
            text,
            every,
            change,
        }),
        Err(TextFault::Refused { why }) => Err(Unmade::Refused { why }),
        Err(TextFault::NoMemory) => Err(Unmade::NoMemory),
    }
}
