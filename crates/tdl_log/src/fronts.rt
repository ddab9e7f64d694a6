// Texts that are read by their fronts: what has to stand there is known, and is compared.
ghost use Rattle.std.specs.Prelude.{◌≡◌, ◌≤◌, ℕ, false, List, ◌++◌, codes, IfNone, IfSome};
ghost use Rattle.std.specs.Fmt.{decimal};
ghost use Rattle.tdl_log.specs.LineKinds.{has};
ghost use Rattle.tdl_log.specs.inside.Fronts.{IsCutAt, front_of};

use memchr::memchr;

// What stands behind a front.
pub(crate) fn after<'a>(text: &'a [u8], front: &[u8]) -> Option<&'a [u8]>
    ensures some { IfSome result (λ left. text.now ≡ front.now ++ left.now) }
    ensures none { IfNone result ((left : List ℕ) → text.now ≡ front.now ++ left → ⊥) }
{
    text.strip_prefix(front)
}

// What stands behind a field and the blank that ends it.
fn field<'a>(text: &'a [u8], front: &[u8]) -> Option<&'a [u8]>
    ensures some { IfSome result (λ left. text.now ≡ front.now ++ (codes " " ++ left.now)) }
    ensures none { IfNone result ((left : List ℕ) → text.now ≡ front.now ++ (codes " " ++ left) → ⊥) }
{
    after(after(text, front)?, b" ")
}

// A caller's number, and what stands behind the blank that ends it.
fn caller(text: &[u8]) -> Option<(u32, &[u8])>
    ensures some { IfSome result (λ read. text.now ≡ decimal read.0 ++ (codes " " ++ read.1.now)) }
    ensures few { IfSome result (λ read. read.0 ≤ 8) }
    ensures none { IfNone result ((who : ℕ) (left : List ℕ) → who ≤ 8 → text.now ≡ decimal who ++ (codes " " ++ left) → ⊥) }
{
    let (digit, rest) = text.split_first()?;
    if *digit < b'0' || *digit > b'8' {
        return None;
    }
    Some((u32::from(*digit - b'0'), after(rest, b" ")?))
}

// Who made an entry, and what was done, where its line begins with these texts of its place and its time.
pub(crate) fn entry_front<'a>(
    line: &'a [u8],
    place: &[u8],
    frontier: &[u8],
) -> Option<(u32, &'a [u8])>
    ensures some { IfSome result (λ read. line.now ≡ front_of place.now read.0 frontier.now read.1.now) }
    ensures few { IfSome result (λ read. read.0 ≤ 8) }
    ensures none { IfNone result ((who : ℕ) (said : List ℕ) → who ≤ 8 → line.now ≡ front_of place.now who frontier.now said → ⊥) }
{
    let (who, called) = caller(field(line, place)?)?;
    Some((who, field(called, frontier)?))
}

// What stands before and behind the first byte of a kind.
pub(crate) fn cut_at(mark: u8, text: &[u8]) -> Option<(&[u8], &[u8])>
    ensures some { IfSome result (λ parts. IsCutAt mark text.now parts.0.now parts.1.now) }
    ensures none { IfNone result (has mark text.now ≡ false) }
{
    let at = memchr(mark, text)?;
    Some((&text[..at], &text[at + 1..]))
}
