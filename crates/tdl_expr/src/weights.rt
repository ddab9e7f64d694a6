ghost use Rattle.std.specs.Prelude.{◌≡◌, ◌<◌, ◌^◌, length, map, IfOk};
ghost use Rattle.std.specs.List.{All};
ghost use Rattle.tdl_fraction.specs.Divisor.{gcd, lcm};
ghost use Rattle.tdl_expr.specs.Weights.{AreWeights, scaled, common_denominator, common_divisor};

use std::alloc::Global;
use tdl_control::NoMemory;
use tdl_fraction::{Frac, greatest_divisor_of_words};

// Weights as whole counts of parts, of which so many make 1 as their least common denominator says.
pub(crate) fn counts_of(alloc: Global, weights: &[Frac]) -> Result<Vec<u64>, NoMemory>
    requires { AreWeights weights.now }
    ensures { IfOk result (λ counts. counts.items ≡ map (scaled (common_denominator weights.now)) weights.now) }
{
    all_scaled(alloc, weights, common_denominator(weights))
}

fn common_denominator(weights: &[Frac]) -> u64
    requires { AreWeights weights.now }
    ensures { result ≡ common_denominator weights.now }
{
    let mut common = 1;
    for weight in weights {
        common = least_multiple(common, weight.denominator());
    }
    common
}

// The weights as whole counts of parts, of which so many make 1.
fn all_scaled(alloc: Global, weights: &[Frac], parts: u64) -> Result<Vec<u64>, NoMemory>
    requires { All (λ weight. scaled parts weight < 2 ^ 64) weights.now }
    ensures { IfOk result (λ counts. counts.items ≡ map (scaled parts) weights.now) }
{
    Ok(
        weights
            .iter()
            .map(|weight| scaled(*weight, parts))
            .collect(alloc)?,
    )
}

fn scaled(weight: Frac, parts: u64) -> u64
    requires { scaled parts weight < 2 ^ 64 }
    ensures { result ≡ scaled parts weight }
{
    let count = weight.numerator().unsigned_abs() * (parts / weight.denominator()) as u128;
    count as u64
}

// The greatest number that divides all counts.
pub(crate) fn common_divisor(counts: &[u64]) -> u64
    ensures { result ≡ common_divisor counts.now }
{
    counts
        .iter()
        .fold(0, |divisor, count| shared_divisor(divisor, *count))
}

// The greatest common divisor. Counts are mostly equal, which takes no division.
fn shared_divisor(a: u64, b: u64) -> u64
    ensures { result ≡ gcd a b }
{
    if a == b {
        return a;
    }
    greatest_divisor_of_words(a, b)
}

fn least_multiple(a: u64, b: u64) -> u64
    requires positive { 0 < b }
    requires fits { lcm a b < 2 ^ 64 }
    ensures { result ≡ lcm a b }
{
    a * (b / greatest_divisor_of_words(a, b))
}
