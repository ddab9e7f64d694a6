// The value that a token is in a text of a kind.
ghost use Rattle.std.specs.Prelude.{◌≡◌, ◌<◌, IsTrue, MatchOption, option_map, true, false, not, ◌&&◌, ◌||◌, nat_le, nat_lt, length, if◌then◌else◌};
ghost use Rattle.std.specs.List.{list_all};
ghost use Rattle.std.specs.Char.{is_ascii_digit};
ghost use Rattle.tdl_control.specs.Word.{word_bytes};
ghost use Rattle.tdl_control.specs.Limits.{max_word};
ghost use Rattle.tdl_mini_machine.specs.Tokens.{value_of, word_value, whole_value, truth_of, has_sharp, same_text, letters, digits};
ghost use Rattle.tdl_mini_reader.specs.TokenView.{tok_value};
ghost use Rattle.tdl_mini_machine.specs.Readable.{is_readable, is_short};
ghost use Rattle.tdl_mini_tree.specs.View.{value_of as value_tree};
ghost use Rattle.tdl_mini_tree.specs.Tree.{sound};
ghost use Rattle.tdl_mini_tree.specs.Numbers.{is_whole};

use crate::notes::note_of;
use crate::tokens::Tok;
use tdl_control::Word;
use tdl_mini_tree::{Kind, Number, Value};

/// The value that a token may be. A number with `.` or `%` is one in every kind.
pub(crate) fn value_of(kind: Kind, tok: &Tok) -> Option<Value>
    requires { IsTrue (is_readable (tok_value tok.now)) }
    ensures { option_map value_tree result ≡ value_of kind (tok_value tok.now) }
{
    match *tok {
        Tok::Number { is_count: true, .. } | Tok::Word { is_count: true, .. } => None,
        Tok::Mark(_) | Tok::End => None,
        Tok::Number { number, text, .. } => {
            if number.is_whole() {
                whole_value(kind, number, text)
            } else {
                Some(Value::Number(number))
            }
        }
        Tok::Word { text, .. } => word_value(kind, text),
    }
}

fn word_value(kind: Kind, text: &[u8]) -> Option<Value>
    requires { IsTrue (is_readable (letters text.now false)) }
    ensures { option_map value_tree result ≡ word_value kind text.now }
{
    match kind {
        Kind::Sound => match plain_word(text) {
            Some(word) => Some(Value::Sound { word, number: None }),
            None => None,
        },
        Kind::Word { .. } => match plain_word(text) {
            Some(word) => Some(Value::Name(word)),
            None => None,
        },
        Kind::Note { .. } => match note_of(text) {
            Some(note) => Some(Value::Note(note)),
            None => None,
        },
        Kind::Bool => truth_of(text),
        Kind::Int { .. } | Kind::Count | Kind::Ratio => None,
    }
}

// The word of a text without `#`.
fn plain_word(text: &[u8]) -> Option<Word>
    requires { IsTrue (is_readable (letters text.now false)) }
    ensures { MatchOption result (has_sharp text.now ≡ true) (λ word. (word_bytes word ≡ text.now) × (has_sharp text.now ≡ false)) }
{
    Word::of(text)
}

// The word of digits that are not too many.
fn digit_word(text: &[u8]) -> Option<Word>
    requires plain { IsTrue (list_all is_ascii_digit text.now) }
    requires filled { 0 < length text.now }
    ensures { MatchOption result (is_short text.now ≡ false) (λ word. (word_bytes word ≡ text.now) × (is_short text.now ≡ true)) }
{
    Word::of(text)
}

fn same_text(left: &[u8], right: &[u8]) -> bool
    ensures { result ≡ same_text left.now right.now }
{
    left == right
}

fn truth_of(text: &[u8]) -> Option<Value>
    ensures { option_map value_tree result ≡ truth_of text.now }
{
    if same_text(text, b"t") || same_text(text, b"true") {
        return Some(Value::Truth(true));
    }
    if same_text(text, b"f") || same_text(text, b"false") {
        return Some(Value::Truth(false));
    }
    None
}

// A number without `.` and `%`.
fn whole_value(kind: Kind, number: Number, text: &[u8]) -> Option<Value>
    requires whole { IsTrue (is_whole number) }
    requires plain { IsTrue (is_readable (digits number text.now false)) }
    ensures { option_map value_tree result ≡ whole_value kind number text.now }
{
    match kind {
        Kind::Sound => digit_sound(number.is_negative, text),
        Kind::Word { .. } => None,
        Kind::Bool => {
            if same_text(text, b"1") {
                return Some(Value::Truth(true));
            }
            if same_text(text, b"0") {
                return Some(Value::Truth(false));
            }
            None
        }
        Kind::Note { .. } | Kind::Int { .. } | Kind::Count | Kind::Ratio => {
            Some(Value::Number(number))
        }
    }
}

// Digits without a sign are a word.
fn digit_sound(is_negative: bool, text: &[u8]) -> Option<Value>
    requires { IsTrue (is_negative || (list_all is_ascii_digit text.now && nat_lt 0 (length text.now))) }
    ensures { option_map value_tree result ≡ (if not is_negative && nat_le (length text.now) max_word then Some (sound text.now None) else None) }
{
    if is_negative {
        return None;
    }
    match digit_word(text) {
        Some(word) => Some(Value::Sound { word, number: None }),
        None => None,
    }
}
