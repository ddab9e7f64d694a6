// Note names.
ghost use Rattle.std.specs.Prelude.{◌≡◌, ◌≤◌, length, unsigned_abs, IfSome, IsTrue};
ghost use Rattle.tdl_control.specs.Limits.{max_word};
ghost use Rattle.tdl_mini_machine.specs.Notes.{note_of, letter_note, altered_note, octave_note};
ghost use Rattle.tdl_mini_reader.specs.inside.NoteView.{is_octave, raise_of};
ghost use Rattle.std.specs.Str.Parse.{digits_value};

const OCTAVE: i32 = 12;

// The octave of a name without one.
const MIDDLE_OCTAVE: i32 = 5;

// The note of a name, where a word is one: a letter, then `s`, `#`, `f` and `n`, and then an octave.
pub(crate) fn note_of(text: &[u8]) -> Option<i32>
    requires { length text.now ≤ max_word }
    ensures { result ≡ note_of text.now }
{
    let [letter, rest @ ..] = text else {
        return None;
    };
    altered(letter_note(*letter)?, rest)
}

fn letter_note(letter: u8) -> Option<i32>
    ensures value { result ≡ letter_note letter }
    ensures small { IfSome result (λ note. unsigned_abs note ≤ 11) }
{
    match letter {
        b'c' => Some(0),
        b'd' => Some(2),
        b'e' => Some(4),
        b'f' => Some(5),
        b'g' => Some(7),
        b'a' => Some(9),
        b'b' => Some(11),
        _ => None,
    }
}

// What the signs and the octave make of a note.
fn altered(letter: i32, signs: &[u8]) -> Option<i32>
    requires short { length signs.now ≤ max_word }
    requires small { unsigned_abs letter ≤ 11 }
    ensures { result ≡ altered_note letter signs.now }
{
    let mut note = letter;
    for (i, sign) in signs.iter().enumerate() {
        match raise_of(*sign) {
            Some(by) => note += by,
            None => return octave(note, &signs[i..]),
        }
    }
    Some(note)
}

// By how much a sign raises a note.
fn raise_of(sign: u8) -> Option<i32>
    ensures value { result ≡ raise_of sign }
    ensures small { IfSome result (λ by. unsigned_abs by ≤ 1) }
{
    match sign {
        b's' | b'#' => Some(1),
        b'f' => Some(-1),
        b'n' => Some(0),
        _ => None,
    }
}

// Whether these are the one or two digits of an octave.
fn is_octave(digits: &[u8]) -> bool
    ensures { result ≡ is_octave digits.now }
{
    (digits.len() == 1 || digits.len() == 2) && digits.iter().all(|byte| byte.is_ascii_digit())
}

// The number that the digits of an octave write.
fn digits_value(digits: &[u8]) -> u32
    requires { IsTrue (is_octave digits.now) }
    ensures { result ≡ digits_value 10 digits.now }
{
    match digits {
        [ones] => u32::from(*ones - b'0'),
        [tens, ones] => u32::from(*tens - b'0') * 10 + u32::from(*ones - b'0'),
        _ => unreachable!(),
    }
}

// A note in an octave of one or two digits.
fn octave(note: i32, digits: &[u8]) -> Option<i32>
    requires { unsigned_abs note ≤ 100 }
    ensures { result ≡ octave_note note digits.now }
{
    if !is_octave(digits) {
        return None;
    }
    let octave = digits_value(digits) as i32;
    Some(note + OCTAVE * (octave - MIDDLE_OCTAVE))
}
