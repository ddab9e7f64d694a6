// The texts of histories, read.
ghost use Rattle.std.specs.Prelude.{◌≡◌, IfNone, IfSome};
ghost use Rattle.tdl_core.specs.Said.{Says};

use crate::asked::{Unmade, asked_call};
use std::alloc::Global;
use tdl_control::{NoMemory, Text};
use tdl_core::{Call, Lines};
use tdl_line_texts::lines_are_read_in_one_way;
use tdl_score::{Reader, TextReader};

/// Performers' lines without outer blanks, read as those of performers are.
pub struct SaidLines;

impl Reader for SaidLines {
    ghost reads = { Says };

    fn reading_law() {
        Lines::reading_law();
    }
}

impl TextReader for SaidLines {
    fn every(alloc: Global, text: &[u8]) -> Result<Option<u32>, NoMemory> {
        lines_are_read_in_one_way();
        match asked_call(alloc, text) {
            Ok(
                Call::Swap {
                    text: kept,
                    every,
                    ..
                },
            ) => Ok(if_same(&kept, text, every)),
            Ok(Call::Look) => Ok(None),
            Ok(Call::Tick { .. } | Call::Finish) => Ok(None),
            Err(Unmade::Nothing) => Ok(None),
            Err(Unmade::Refused { .. }) => Ok(None),
            Err(Unmade::NoMemory) => Err(NoMemory),
        }
    }
}

// A number, where the texts are the same.
fn if_same(kept: &Text, text: &[u8], number: u32) -> Option<u32>
    ensures some { IfSome result (λ n. (n ≡ number) × (kept.now ≡ text.now)) }
    ensures none { IfNone result (kept.now ≡ text.now → ⊥) }
{
    if kept.bytes() == text {
        Some(number)
    } else {
        None
    }
}
