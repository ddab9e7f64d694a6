ghost use Rattle.std.specs.Prelude.{◌≡◌, length, IfOk, IfErr, MatchResult, None, Some};
ghost use Rattle.tdl_euclid.specs.Euclid.{euclid};
ghost use Rattle.tdl_euclid.specs.Refusal.{refusal};

use crate::bits::{Bits, MAX_LEN};
use crate::grouping::spread;

/// Why there is no rhythm.
#[derive(Clone, Copy, Debug, PartialEq, Eq)]
pub enum EuclidFault {
    /// There are no steps.
    ZeroSteps,
    /// There are more than 128 steps.
    TooManySteps { n: u32 },
    /// There are more hits, or more rests, than steps.
    TooManyHits { k: i32, n: u32 },
}

/// The Euclidean rhythm of `k` hits in `n` steps, from the step `r` on, as `bd(k,n,r)` of TidalCycles
/// plays it. Where `k` is below 0, the rhythm of `-k` hits with hits and rests exchanged. `r` goes
/// around, and may be below 0.
pub fn rhythm(k: i32, n: u32, r: i32) -> Result<Bits, EuclidFault>
    ensures taken { IfOk result (λ bits. (refusal k n ≡ None) × (bits ≡ euclid k n r)) }
    ensures steps { IfOk result (λ bits. length bits ≡ n) }
    ensures refused { IfErr result (λ fault. refusal k n ≡ Some fault) }
{
    if n == 0 {
        return Err(EuclidFault::ZeroSteps);
    }
    if n > MAX_LEN {
        return Err(EuclidFault::TooManySteps { n });
    }
    let size = k.unsigned_abs();
    if size > n {
        return Err(EuclidFault::TooManyHits { k, n });
    }
    let spread = spread(size, n);
    let unrotated = if k < 0 { spread.complement() } else { spread };
    let by = r.rem_euclid(n as i32).unsigned_abs();
    Ok(unrotated.rotate_left(by))
}
