// What a log tells.
ghost use Rattle.std.specs.Prelude.{◌≡◌, ◌↔◌, ℕ, List};
ghost use Rattle.tdl_control.specs.declared.faults.Faulted.{Faulted};
ghost use Rattle.tdl_control.specs.declared.faults.Faulted.TheVariants.{NoMemory};
ghost use Rattle.tdl_grammar.specs.Faults.{IsText};
ghost use Rattle.tdl_log.specs.declared.kinds.LogKind.{LogKind};
ghost use Rattle.tdl_log.specs.Log.{IsRunLog, Log};
ghost use Rattle.tdl_log.specs.LogGrammar.{IsSheet, RefusesLog, log_grammar};
ghost use Rattle.tdl_log.specs.LogText.{log_text};
ghost use Rattle.tdl_log.specs.Pieces.{cut};

use tdl_score::{Reader, TextReader};

/// A log tells its tempo, its history and how the ports ended: two of legal histories with one text are the same.
pub fn logs_tell_their_sheets<R: Reader>()
    ensures { (one other : Log) → IsRunLog R.reads one → IsRunLog R.reads other → log_text one ≡ log_text other → one ≡ other }
{
    R::reading_law();
}

/// What `read_log` answers on what `put_log` put is the sheet, or that memory ran out: no such text is refused, and none is
/// that of another sheet. The texts of the grammar of logs are just the logs of sheets.
pub fn logs_are_read_back<R: TextReader>()
    ensures texts { (text : List ℕ) (log : Log) → IsText (log_grammar R.reads) (cut text) log ↔ (IsSheet R.reads log × (text ≡ log_text log)) }
    ensures no_fault { (log : Log) (fault : Faulted LogKind) → IsSheet R.reads log → RefusesLog R.reads (log_text log) fault → fault ≡ NoMemory }
    ensures no_other { (log other : Log) → IsSheet R.reads log → IsSheet R.reads other → log_text log ≡ log_text other → log ≡ other }
{
    R::reading_law();
}
