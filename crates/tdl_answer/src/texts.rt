ghost use Rattle.std.specs.Prelude.{IfErr, IfOk};
ghost use Rattle.tdl_answer.specs.inside.PreparedTexts.{IsPreparedText};
ghost use Rattle.tdl_answer.specs.TextFaults.{IsFaultOfText};

use crate::text_faults::TextFault;
use std::alloc::Global;
use tdl_prepare::{Prepared, prepare};
use tdl_script::read_line;

// What a performer's text asks for, or why it makes no call. The text is read first, and then the limits of its
// pattern are looked at.
pub(crate) fn read_text(alloc: Global, text: &[u8]) -> Result<Prepared, TextFault>
    ensures ok { IfOk result (IsPreparedText text.now) }
    ensures err { IfErr result (IsFaultOfText text.now) }
{
    let line = read_line(alloc, text)?;
    Ok(prepare(alloc, &line)?)
}
