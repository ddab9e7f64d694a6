ghost use Rattle.std.specs.Prelude.{◌≡◌, ℕ, List, IfOk};
ghost use Rattle.tdl_answer.specs.EndLine.{IsEndLine};

use itoa::Buffer;
use std::alloc::Global;
use tdl_control::{NoMemory, Text};
use tdl_core::Core;
use tdl_fraction::print_units;

/// The last line of a run: where it ended, after how many entries, and how many packets and messages it called for.
pub fn end_line(alloc: Global, core: &Core) -> Result<Text, NoMemory>
    ensures { (line : List ℕ) → IsEndLine core.now.tempo core.now.history line → IfOk result (λ text. text ≡ line) }
{
    let mut line = Text::new(alloc);
    line.add(b"end ")?;
    line.add(print_units(core.frontier()).bytes())?;
    line.add(b" entries ")?;
    line.add(Buffer::new().format(core.history().len()).as_bytes())?;
    line.add(b" osc ")?;
    line.add(Buffer::new().format(core.packets()).as_bytes())?;
    line.add(b" midi ")?;
    line.add(Buffer::new().format(core.messages()).as_bytes())?;
    line.add(b"\n")?;
    Ok(line)
}
