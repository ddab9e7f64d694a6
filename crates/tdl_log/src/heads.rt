// The lines of a log that tell its tempo, and the numbers in lines.
ghost use Rattle.std.specs.Prelude.{◌≡◌, ◌<◌, ◌^◌, ℕ, ◌++◌, codes, IfNone, IfSome};
ghost use Rattle.std.specs.Fmt.{decimal};
ghost use Rattle.tdl_fraction.specs.Printing.{print_of};
ghost use Rattle.tdl_fraction.specs.Rational.{Rational};
ghost use Rattle.tdl_tempo.specs.Tempo.{IsCps};

use crate::fronts::after;
use itoa::Buffer;
use tdl_fraction::Frac;
use tdl_tempo::Tempo;

// The cycles a second of the second line.
pub(crate) fn read_cps(line: &[u8]) -> Option<Frac>
    ensures some { IfSome result (λ cps. line.now ≡ codes "cps " ++ print_of cps) }
    ensures allowed { IfSome result IsCps }
    ensures none { IfNone result ((cps : Rational) → IsCps cps → line.now ≡ codes "cps " ++ print_of cps → ⊥) }
{
    let text = after(line, b"cps ")?;
    let cps = Tempo::of(Frac::read(text)?, 0)?.cps();
    if cps.print().bytes() == text {
        Some(cps)
    } else {
        None
    }
}

// The second of the third line at which cycle 0 begins.
pub(crate) fn read_origin(line: &[u8]) -> Option<u32>
    ensures some { IfSome result (λ origin. line.now ≡ codes "origin " ++ decimal origin) }
    ensures none { IfNone result ((origin : ℕ) → origin < 2 ^ 32 → line.now ≡ codes "origin " ++ decimal origin → ⊥) }
{
    read_number(after(line, b"origin ")?)
}

// The number below 2^32 whose decimal a text is.
pub(crate) fn read_number(text: &[u8]) -> Option<u32>
    ensures some { IfSome result (λ n. text.now ≡ decimal n) }
    ensures none { IfNone result ((n : ℕ) → n < 2 ^ 32 → text.now ≡ decimal n → ⊥) }
{
    let number = str::from_utf8(text).ok()?.parse().ok()?;
    let is_decimal = Buffer::new().format(number).as_bytes() == text;
    is_decimal.then_some(number)
}
