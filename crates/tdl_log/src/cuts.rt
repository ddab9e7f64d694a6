// Texts that are cut at line feeds.
ghost use Rattle.std.specs.Prelude.{◌≡◌, ◌+◌, ◌≤◌, ◌^◌, ℕ, List, [], ◌∷◌, ◌++◌, length, drop, IfErr, IfNone, IfOk, IfSome};
ghost use Rattle.tdl_score.specs.Readings.{IsReading};
ghost use Rattle.tdl_log.specs.Log.{Log};
ghost use Rattle.tdl_log.specs.LogGrammar.{IsSheet, RefusesLog};
ghost use Rattle.tdl_log.specs.Pieces.{cut, line, rest};
ghost use Rattle.tdl_log.specs.inside.Walks.{IsReadTo, begun_lines};

use crate::kinds::LogKind;
use memchr::memchr;
use tdl_control::Faulted;
use tdl_score::TextReader;

// The next line of a text that was read up to an offset, in front of the last line of a log.
pub(crate) fn next_line<R: TextReader>(text: &[u8], at: u32) -> Result<&[u8], Faulted<LogKind>>
    requires reading { IsReading R.reads }
    requires fits { length text.now ≤ 2 ^ 30 }
    requires inside { at ≤ length text.now }
    ensures ok { IfOk result (λ bytes. cut (drop at text.now) ≡ line bytes.now ∷ cut (drop (at + length bytes.now + 1) text.now)) }
    ensures within { IfOk result (λ bytes. at + length bytes.now + 1 ≤ length text.now) }
    ensures err { IfErr result (λ fault. (log : Log) (lines later : List (List ℕ)) → IsSheet R.reads log → begun_lines log ≡ lines ++ later
        → IsReadTo lines text.now at → RefusesLog R.reads text.now fault) }
{
    match line_at(text, at as usize) {
        Some(line) => Ok(line),
        None => Err(Faulted::At {
            kind: LogKind::Form,
            at: text.len() as u32,
        }),
    }
}

// The line at an offset, up to its line feed. None where no line feed follows.
fn line_at(text: &[u8], at: usize) -> Option<&[u8]>
    requires { at ≤ length text.now }
    ensures some { IfSome result (λ bytes. cut (drop at text.now) ≡ line bytes.now ∷ cut (drop (at + length bytes.now + 1) text.now)) }
    ensures within { IfSome result (λ bytes. at + length bytes.now + 1 ≤ length text.now) }
    ensures none { IfNone result (cut (drop at text.now) ≡ rest (drop at text.now) ∷ []) }
{
    let left = &text[at..];
    match memchr(b'\n', left) {
        Some(count) => Some(&left[..count]),
        None => None,
    }
}
