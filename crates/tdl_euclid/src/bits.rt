ghost use Rattle.std.specs.Prelude.{◌≡◌, ◌+◌, ◌*◌, ◌<◌, ◌≤◌, [], ◌∷◌, ◌++◌, length, take, drop, map, not, replicate, slice_get, Some};
ghost use Rattle.tdl_euclid.specs.Euclid.{flat, rotated};

use std::marker::Model;

pub(crate) const MAX_LEN: u32 = 128;

/// A list of 1 to 128 truth values.
#[derive(Clone, Copy)]
pub struct Bits {
    // The first value is the lowest bit. No bit is set past the last value.
    word: u128,
    len: u32,
}

impl Model for Bits {
    ghost use Rattle.std.specs.Prelude.{Bool, List, length};
    ghost use Rattle.tdl_euclid.specs.Bits.{bits, IsBitWord};
    ghost use Rattle.tdl_euclid.specs.Stored.{word_of, stored};

    ghost Value = { List Bool };

    ghost view = { λ b. bits b.len b.word };

    ghost invariant = { λ b. IsBitWord b.word b.len };

    ghost inverse = { λ values. record { word = word_of values; len = length values } };

    ghost inverse_ok = { λ b h. stored (λ word len. record { word = word; len = len }) b.word b.len h.within };
}

impl Bits {
    /// How many values the list has.
    pub fn len(self) -> u32
        ensures value { result ≡ length self }
        ensures some { 0 < result }
        ensures short { result ≤ 128 }
    {
        self.len
    }

    /// The value at a place, counted from 0.
    pub fn get(self, i: u32) -> bool
        requires { i < length self }
        ensures { slice_get self i ≡ Some result }
    {
        self.word >> i & 1 == 1
    }

    pub(crate) fn one(value: bool) -> Bits
        ensures { result ≡ value ∷ [] }
    {
        Bits {
            word: u128::from(value),
            len: 1,
        }
    }

    pub(crate) fn append(self, next: Bits) -> Bits
        requires { length self + length next ≤ 128 }
        ensures { result ≡ self ++ next }
    {
        Bits {
            word: next.word << self.len | self.word,
            len: self.len + next.len,
        }
    }

    // The list so many times, one after the other.
    pub(crate) fn repeat(self, count: u32) -> Bits
        requires some { 0 < count }
        requires fits { count * length self ≤ 128 }
        ensures { result ≡ flat (replicate count self) }
    {
        let mut all = self;
        for _ in 1..count {
            all = all.append(self);
        }
        all
    }

    pub(crate) fn complement(self) -> Bits
        ensures { result ≡ map not self }
    {
        Bits {
            word: (u128::MAX >> (MAX_LEN - self.len)) - self.word,
            len: self.len,
        }
    }

    // Begins with the value at a place, and ends with what stood before it.
    pub(crate) fn rotate_left(self, by: u32) -> Bits
        requires { by < length self }
        ensures { result ≡ rotated by self }
    {
        if by == 0 {
            self
        } else {
            self.after(by).append(self.first(by))
        }
    }

    fn first(self, count: u32) -> Bits
        requires some { 0 < count }
        requires fewer { count < length self }
        ensures { result ≡ take count self }
    {
        Bits {
            word: self.word % (1 << count),
            len: count,
        }
    }

    fn after(self, count: u32) -> Bits
        requires { count < length self }
        ensures { result ≡ drop count self }
    {
        Bits {
            word: self.word >> count,
            len: self.len - count,
        }
    }
}
