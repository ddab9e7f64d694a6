ghost use Rattle.std.specs.Prelude.{◌≡◌, IfSome, IfNone};
ghost use Rattle.tdl_fraction.specs.Rational.{Rational};
ghost use Rattle.tdl_app.specs.Script.{ReadsTime, class_of};
ghost use Rattle.tdl_app.specs.inside.ScriptLines.{class_kept};

use tdl_fraction::Frac;
use tdl_line_texts::MAX_LINE;

// What a line of a script is: too long, or by its front one of the others.
#[derive(Clone, Copy)]
pub(crate) enum LineClass<'a> {
    // A performer's, from 1 to 8, and what follows `pK `.
    Performer { who: u32, text: &'a [u8] },
    // A tick, and what follows `tick `.
    Tick { text: &'a [u8] },
    Finish,
    Other,
    TooLong,
}

// The class of a line.
pub(crate) fn classify(line: &[u8]) -> LineClass<'_>
    ensures { class_kept result ≡ class_of line.now }
{
    if line.len() > MAX_LINE {
        return LineClass::TooLong;
    }
    if let [b'p', digit @ b'1'..=b'8', b' ', text @ ..] = line {
        let who = u32::from(*digit - b'0');
        return LineClass::Performer { who, text };
    }
    if let Some(text) = line.strip_prefix(b"tick ") {
        return LineClass::Tick { text };
    }
    if line == b"finish".as_slice() {
        LineClass::Finish
    } else {
        LineClass::Other
    }
}

// A time from 0 on.
pub(crate) fn read_time(text: &[u8]) -> Option<Frac>
    ensures some { IfSome result (ReadsTime text.now) }
    ensures none { IfNone result ((time : Rational) → ReadsTime text.now time → ⊥) }
{
    let time = Frac::read(text)?;
    if time.is_less(Frac::whole(0)) {
        return None;
    }
    Some(time)
}
