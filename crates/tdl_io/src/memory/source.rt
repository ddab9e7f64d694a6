ghost use Rattle.std.specs.Prelude.{◌≡◌, ◌↔◌, ◌<◌, ◌≤◌, [], length, take, drop, ◌++◌, IfOk, OnErr, IsErr};
ghost use Rattle.tdl_io.specs.Faults.{HasCause};
ghost use Rattle.tdl_io.specs.Memory.{full_source, source_in_pieces, at_most, next_size, FailsNext, source_after, source_failed};

use super::calls::Calls;
use crate::outside::{Failed, Source};
use std::alloc::Global;
use std::io::Read;
use std::marker::Model;
use tdl_control::NoMemory;

/// A source in memory, whose listed calls fail, and whose calls may give a few bytes each. Both its
/// counts, of calls and of faults, stay at the last value of a `u64`.
#[derive(Drop)]
pub struct MemSource {
    bytes: Vec<u8>,
    given: usize,
    most: Option<u32>,
    calls: Calls,
}

impl Model for MemSource {
    ghost use Rattle.std.specs.Prelude.{◌≤◌, drop, vec_len, IfSome};
    ghost use Rattle.tdl_io.specs.Memory.{SourceState};

    ghost Value = { SourceState };

    ghost view = { λ s. record {
      left = drop s.given s.bytes.items;
      most = s.most;
      calls = s.calls.made;
      fails = s.calls.fails.items;
      faults = s.calls.faults;
    } };

    ghost invariant = { λ s. record {
      given_from : s.given ≤ vec_len s.bytes;
      gives : IfSome s.most (λ most. 1 ≤ most);
    } };
}

// The front of the bytes, or all of them, where one call gives so many at most.
fn piece_of(bytes: &[u8], most: Option<u32>) -> &[u8]
    ensures { result.now ≡ take (at_most most (length bytes.now)) bytes.now }
{
    let size = most.map_or(bytes.len(), |most| bytes.len().min(most as usize));
    &bytes[..size]
}

impl MemSource {
    /// A source of these bytes. Its calls are counted from 1, and those in `fails` fail. It takes its
    /// memory here, and none later.
    pub fn of(alloc: Global, bytes: &[u8], fails: &[u32]) -> Result<MemSource, NoMemory>
        ensures { IfOk result (λ source. source ≡ full_source bytes.now fails.now) }
    {
        Ok(MemSource {
            bytes: Vec::from_slice(alloc, bytes)?,
            given: 0,
            most: None,
            calls: Calls::of(alloc, fails)?,
        })
    }

    /// The same, with calls that give so many bytes at most.
    pub fn pieces(
        alloc: Global,
        bytes: &[u8],
        most: u32,
        fails: &[u32],
    ) -> Result<MemSource, NoMemory>
        requires { 1 ≤ most }
        ensures { IfOk result (λ source. source ≡ source_in_pieces bytes.now most fails.now) }
    {
        let mut source = MemSource::of(alloc, bytes, fails)?;
        source.most = Some(most);
        Ok(source)
    }

    /// The bytes that are left.
    pub fn left(&self) -> &[u8]
        ensures { result.now ≡ self.now.left }
    {
        &self.bytes[self.given..]
    }
}

impl Source for MemSource {
    ghost use Rattle.std.specs.Prelude.{Some};

    ghost left = { λ s. Some s.left };

    ghost faults = { λ s. s.faults };

    /// Fails exactly where the call is listed. Nothing is taken and the buffer stays then. Else it
    /// gives as many bytes as are left and fit into the buffer, and no more than a call gives at most.
    /// The rest of the buffer stays.
    fn pull(&mut self, into: &mut [u8]) -> Result<usize, Failed>
        ensures fails { IsErr result ↔ FailsNext self.old }
        ensures count { IfOk result (λ count. count ≡ next_size self.old (length into.old)) }
        ensures end { IfOk result (λ count. count ≡ 0 → 0 < length into.new → self.old.left ≡ []) }
        ensures given { IfOk result (λ count. into.new ≡ take count self.old.left ++ drop count into.old) }
        ensures ok { IfOk result (λ count. self.new ≡ source_after self.old count) }
        ensures err { OnErr result (self.new ≡ source_failed self.old) }
        ensures untouched { OnErr result (into.new ≡ into.old) }
        ensures cause { HasCause self.old.faults self.new.faults result }
    {
        if self.calls.count() {
            return Err(self.calls.fail());
        }
        let mut piece = piece_of(&self.bytes[self.given..], self.most);
        let count = piece.read(into).unwrap();
        self.given += count;
        Ok(count)
    }
}
