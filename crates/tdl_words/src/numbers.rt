// Numbers of the words.
ghost use Rattle.std.specs.Prelude.{◌≡◌, ◌≤◌, ℕ, IfSome, IfNone};
ghost use Rattle.tdl_fraction.specs.Rational.{Rational};
ghost use Rattle.tdl_words.specs.Modes.{IsCpsText, IsWholeText};

use tdl_fraction::Frac;
use tdl_tempo::Tempo;

// How many digits a whole number has at most.
const MAX_DIGITS: usize = 10;

// The whole number from `least` to `most` that a text writes in digits alone.
pub(crate) fn read_whole(text: &str, least: u32, most: u32) -> Option<u32>
    ensures value { IfSome result (λ n. IsWholeText least most text.now n) }
    ensures none { IfNone result ((n : ℕ) → IsWholeText least most text.now n → ⊥) }
{
    if text.len() > MAX_DIGITS || text.as_bytes().first() == Some(&b'+') {
        return None;
    }
    let number = text.parse::<u32>().ok()?;
    (least..=most).contains(&number).then_some(number)
}

// The number of cycles a second that a text writes.
pub(crate) fn read_cps(text: &str) -> Option<Frac>
    ensures value { IfSome result (λ cps. IsCpsText text.now cps) }
    ensures none { IfNone result ((q : Rational) → IsCpsText text.now q → ⊥) }
{
    let cps = Frac::read(text.as_bytes())?;
    let _allowed = Tempo::of(cps, 0)?;
    Some(cps)
}
