// Classes of bytes, and the pieces that they make.
ghost use Rattle.std.specs.Prelude.{◌≡◌, ◌≤◌, ◌==◌, length, nat_eq, codes};
ghost use Rattle.std.specs.List.{list_all, list_any, starts_with, take_while};
ghost use Rattle.std.specs.Char.{is_ascii_digit, is_ascii_alphabetic};
ghost use Rattle.tdl_lexer.specs.Bytes.{is_run_byte, is_plain_mark, is_name_byte, begins};
ghost use Rattle.tdl_lexer.specs.MiniForms.{is_word};
ghost use Rattle.tdl_lexer.specs.LineForms.{blanks_of, first_line, comment_of};
ghost use Rattle.tdl_lexer.specs.Tokens.{byte_before};
ghost use Rattle.tdl_lexer.specs.inside.FindNumber.{run_of, digits_of};
ghost use Rattle.tdl_lexer.specs.inside.FindLine.{name_of, text_of};

// Each byte of a run stands at its own place, and a point at every other.
static RUN_BYTES: [u8; 256] = *b"\
    ................................\
    ...#............0123456789......\
    .ABCDEFGHIJKLMNOPQRSTUVWXYZ...._\
    .abcdefghijklmnopqrstuvwxyz.....\
    ................................\
    ................................\
    ................................\
    ................................";

// Each byte of a name stands at its own place, and a point at every other.
static NAME_BYTES: [u8; 256] = *b"\
    ................................\
    .......'........0123456789......\
    .ABCDEFGHIJKLMNOPQRSTUVWXYZ...._\
    .abcdefghijklmnopqrstuvwxyz.....\
    ................................\
    ................................\
    ................................\
    ................................";

pub fn is_run_byte(byte: u8) -> bool
    ensures { result ≡ is_run_byte byte }
{
    RUN_BYTES[byte as usize] != b'.'
}

pub fn is_plain_mark(byte: u8) -> bool
    ensures { result ≡ is_plain_mark byte }
{
    match byte {
        b'[' | b']' | b'<' | b'>' | b'{' | b'}' | b'(' | b')' => true,
        b'~' | b',' | b'!' | b'*' | b'/' | b'@' | b':' | b'%' | b'?' | b'|' | b'^' => true,
        _ => false,
    }
}

fn is_name_byte(byte: u8) -> bool
    ensures { result ≡ is_name_byte byte }
{
    NAME_BYTES[byte as usize] != b'.'
}

/// The byte before an offset of the text; a blank stands before the first.
pub fn byte_before(text: &[u8], at: usize) -> u8
    requires { at ≤ length text.now }
    ensures { result ≡ byte_before text.now at }
{
    if at == 0 { b' ' } else { text[at - 1] }
}

/// How many blanks a text begins with.
pub fn blanks_len(text: &[u8]) -> usize
    ensures { result ≡ length (blanks_of text.now) }
{
    text.iter().take_while(|byte| **byte == b' ').count()
}

/// How many bytes stand before the first line feed of a text, or in it where it has none.
fn line_len(text: &[u8]) -> usize
    ensures { result ≡ length (first_line text.now) }
{
    text.iter().take_while(|byte| **byte != b'\n').count()
}

/// How many bytes the comment has that a text begins with.
pub fn comment_len(text: &[u8]) -> usize
    ensures { result ≡ length (comment_of text.now) }
{
    if text.starts_with(b"--") {
        line_len(text)
    } else {
        0
    }
}

/// How many bytes the name has that a text begins with.
pub fn name_len(text: &[u8]) -> usize
    ensures { result ≡ length (name_of text.now) }
{
    text.iter().take_while(|byte| is_name_byte(**byte)).count()
}

/// How many bytes stand before the first `"` of a text, or in it where it has none.
pub fn text_len(text: &[u8]) -> usize
    ensures is { result ≡ length (text_of text.now) }
    ensures within { result ≤ length text.now }
{
    text.iter().take_while(|byte| **byte != b'"').count()
}

/// How many bytes the run has that a text begins with.
fn run_len(text: &[u8]) -> usize
    ensures { result ≡ length (run_of text.now) }
{
    text.iter().take_while(|byte| is_run_byte(**byte)).count()
}

/// The run that a text begins with.
pub fn run_of(text: &[u8]) -> &[u8]
    ensures { result.now ≡ run_of text.now }
{
    &text[..run_len(text)]
}

/// How many digits a text begins with.
pub fn digits_len(text: &[u8]) -> usize
    ensures { result ≡ length (digits_of text.now) }
{
    text.iter().take_while(|byte| byte.is_ascii_digit()).count()
}

pub fn is_all_digits(bytes: &[u8]) -> bool
    ensures { result ≡ list_all is_ascii_digit bytes.now }
{
    bytes.iter().all(|byte| byte.is_ascii_digit())
}

fn has_letter(run: &[u8]) -> bool
    ensures { result ≡ list_any is_ascii_alphabetic run.now }
{
    run.iter().any(|byte| byte.is_ascii_alphabetic())
}

/// Whether a run is a word: it has a letter and does not begin with `#`.
pub fn is_word(run: &[u8]) -> bool
    ensures { result ≡ is_word run.now }
{
    has_letter(run) && !begins_with(run, b'#')
}

/// Whether a text begins with this byte.
pub fn begins_with(text: &[u8], first: u8) -> bool
    ensures { result ≡ begins (λ byte. byte == first) text.now }
{
    matches!(text, [byte, ..] if *byte == first)
}

pub fn begins_with_digit(text: &[u8]) -> bool
    ensures { result ≡ begins is_ascii_digit text.now }
{
    matches!(text, [byte, ..] if byte.is_ascii_digit())
}

pub fn begins_with_run(text: &[u8]) -> bool
    ensures { result ≡ begins is_run_byte text.now }
{
    matches!(text, [byte, ..] if is_run_byte(*byte))
}
