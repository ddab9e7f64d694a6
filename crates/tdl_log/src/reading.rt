// The sheet of a log.
ghost use Rattle.std.specs.Prelude.{◌≡◌, ◌≤◌, ◌<◌, ◌^◌, ◌++◌, ℕ, length, codes, IfErr, IfNone, IfOk, IfSome};
ghost use Rattle.std.specs.Fmt.{decimal};
ghost use Rattle.tdl_control.specs.declared.faults.Faulted.TheVariants.{At};
ghost use Rattle.tdl_score.specs.Readings.{IsReading};
ghost use Rattle.tdl_tempo.specs.Tempo.{IsCps};
ghost use Rattle.tdl_log.specs.declared.kinds.LogKind.TheVariants.{Head as head};
ghost use Rattle.tdl_log.specs.Log.{log_of};
ghost use Rattle.tdl_log.specs.LogGrammar.{IsSheet, RefusesLog};
ghost use Rattle.tdl_log.specs.LogText.{log_text, origin_line};
ghost use Rattle.tdl_log.specs.inside.Walks.{IsReadTo, begun_lines, empty_log};

use crate::cuts::next_line;
use crate::heads::{read_cps, read_origin};
use crate::kinds::LogKind;
use crate::sheets::Sheet;
use crate::walks::Walk;
use std::alloc::Global;
use tdl_control::Faulted;
use tdl_fraction::Frac;
use tdl_score::TextReader;
use tdl_tempo::Tempo;

// The first line.
const HEAD_LINE: &[u8] = b"tidal-log 1";

// The tempo in the first three lines of a log, and the offset behind them.
#[derive(Clone, Copy)]
struct Head {
    tempo: Tempo,
    end: u32,
}

/// Reads the log of a run, a text of at most 2^30 bytes: the sheet whose log it is. The history is legal, where `R` reads
/// the texts of its swaps; ports rise, and there are at most eight. It refuses a text at the first line that has a fault,
/// at its first byte; a text that ends too early is refused at its end, and one with bytes behind a whole log at the first
/// of them. It goes once over the bytes, and takes the memory of the history.
pub fn read_log<R: TextReader>(alloc: Global, text: &[u8]) -> Result<Sheet, Faulted<LogKind>>
    requires { length text.now ≤ 2 ^ 30 }
    ensures ok { IfOk result (λ sheet. IsSheet R.reads (log_of sheet) × (text.now ≡ log_text (log_of sheet))) }
    ensures err { IfErr result (λ fault. RefusesLog R.reads text.now fault) }
{
    R::reading_law();
    let head = read_head::<R>(text)?;
    let mut walk = Walk::new::<R>(alloc, head.tempo, head.end);
    let mut ended = false;
    while !ended {
        ended = walk.read_line::<R>(alloc, text)?;
    }
    walk.end::<R>(text)
}

// Reads the first three lines.
fn read_head<R: TextReader>(text: &[u8]) -> Result<Head, Faulted<LogKind>>
    requires reading { IsReading R.reads }
    requires fits { length text.now ≤ 2 ^ 30 }
    ensures ok { IfOk result (λ head. IsReadTo (begun_lines (empty_log head.tempo)) text.now head.end) }
    ensures tempo { IfOk result (λ head. IsCps head.tempo.cps) }
    ensures err { IfErr result (λ fault. RefusesLog R.reads text.now fault) }
{
    let first = next_line::<R>(text, 0)?;
    if first != HEAD_LINE {
        return Err(head_fault(0));
    }
    let at = first.len() as u32 + 1;
    let second = next_line::<R>(text, at)?;
    let Some(cps) = read_cps(second) else {
        return Err(head_fault(at));
    };
    let then = at + second.len() as u32 + 1;
    let third = next_line::<R>(text, then)?;
    let Some(tempo) = read_tempo(cps, third) else {
        return Err(head_fault(then));
    };
    Ok(Head {
        tempo,
        end: then + third.len() as u32 + 1,
    })
}

// The tempo of so many cycles a second that begins at the second of a line.
fn read_tempo(cps: Frac, line: &[u8]) -> Option<Tempo>
    requires { IsCps cps }
    ensures some { IfSome result (λ tempo. line.now ≡ origin_line tempo) }
    ensures cps { IfSome result (λ tempo. tempo.cps ≡ cps) }
    ensures none { IfNone result ((origin : ℕ) → origin < 2 ^ 32 → line.now ≡ codes "origin " ++ decimal origin → ⊥) }
{
    let origin = read_origin(line)?;
    Tempo::of(cps, origin)
}

fn head_fault(at: u32) -> Faulted<LogKind>
    ensures { result ≡ At head at }
{
    Faulted::At {
        kind: LogKind::Head,
        at,
    }
}
