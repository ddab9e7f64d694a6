// The marks of performers' lines.
ghost use Rattle.std.specs.Prelude.{◌≡◌};
ghost use Rattle.tdl_lexer.specs.LineForms.{mark_of};
ghost use Rattle.tdl_lexer.specs.inside.FindLine.{mark_len};

/// How many bytes the longest mark has that a text begins with. Marks that are met most come first.
pub fn mark_len(text: &[u8]) -> Option<usize>
    ensures { result ≡ mark_len (mark_of text.now) }
{
    match text {
        [
            b'$' | b'(' | b')' | b'[' | b']' | b',' | b'.' | b'/' | b'#',
            ..
        ] => Some(1),
        [b'|', b'+' | b'-' | b'*', b'|', ..] => Some(3),
        [b'|', b'+' | b'-' | b'*', ..] | [b'+' | b'-' | b'*', b'|', ..] => Some(2),
        [b'<', b'~', ..] | [b'~', b'>', ..] => Some(2),
        [b'-', ..] => Some(1),
        _ => None,
    }
}
