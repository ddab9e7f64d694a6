ghost use Rattle.std.specs.Prelude.{◌≡◌, IfOk, OnOk};
ghost use Rattle.tdl_control.specs.Combine.{number_of, combined, onto, combine};
ghost use Rattle.tdl_control.specs.CombineLaws.{CombineLaws};
ghost use Rattle.tdl_control.specs.Key.{takes_word};
ghost use Rattle.tdl_control.specs.Map.{lookup, put};
ghost use Rattle.tdl_control.specs.Setting.{is_spelling};
ghost use Rattle.tdl_control.specs.Value.{setting_of};

use super::{INLINE, KeyValue, Map};
use crate::faults::NoMemory;
use crate::keys::Key;
use crate::ops::MapOp;
use crate::values::Value;
use smallvec::SmallVec;
use std::alloc::Global;

// For how many entries more a map takes room at once, where it gains one by a join: those joined again find room.
const ROOM: usize = 3;

impl Map {
    /// The keys of both maps with their values. Where both have a key, `Union` takes the right
    /// value; the others compute left, operator, right, or the nearest number of 32 bits where
    /// that is none, and keep the left word. Memory comes from the allocator.
    pub fn combine(alloc: Global, op: MapOp, left: &Map, right: &Map) -> Result<Map, NoMemory>
        ensures { IfOk result (λ map. map ≡ combine op left.now right.now) }
    {
        left.roomy_copy(alloc)?.joined(op, right)
    }

    /// The same, where the left map is given up: its memory becomes the join's, and more is taken for keys that it
    /// lacks alone.
    pub fn joined(mut self, op: MapOp, right: &Map) -> Result<Map, NoMemory>
        ensures { IfOk result (λ map. map ≡ combine op self right.now) }
    {
        for i in (0..right.len()).rev() {
            let (key, value) = right.entry(i);
            self.join_key(op, key, value)?;
        }
        Ok(self)
    }

    /// What each key has in a join, and that maps make a map.
    pub fn combine_laws()
        ensures { CombineLaws }
    {}

    // The same keys with the same values, with room for more where they lie in an allocation.
    fn roomy_copy(&self, alloc: Global) -> Result<Map, NoMemory>
        ensures { IfOk result (λ copy. copy ≡ self.now) }
    {
        let len = self.len();
        let room = if len <= INLINE {
            len
        } else {
            len.saturating_add(ROOM)
        };
        let mut entries = SmallVec::with_capacity(alloc, room)?;
        entries.extend_from_slice(&self.entries)?;
        Ok(Map { entries })
    }

    // Joins a value to what its key has.
    fn join_key(&mut self, op: MapOp, key: Key, value: Value) -> Result<(), NoMemory>
        requires { takes_word key ≡ is_spelling (setting_of value) }
        ensures { OnOk result (self.new ≡ put self.old key (onto op (lookup self.old key) (setting_of value))) }
    {
        match self.place(key) {
            Ok(at) => {
                let value = combined(op, self.entries[at].value, value);
                self.write(at, KeyValue { key, value });
                Ok(())
            }
            Err(at) => {
                self.make_room()?;
                self.insert(at, KeyValue { key, value })
            }
        }
    }

    // Makes room for more entries, where there is none.
    fn make_room(&mut self) -> Result<(), NoMemory>
        ensures { self.new ≡ self.old }
    {
        if self.entries.len() == self.entries.capacity() {
            self.entries.reserve(ROOM)?;
        }
        Ok(())
    }
}

// The two values of a key that both maps have.
fn combined(op: MapOp, left: Value, right: Value) -> Value
    ensures { setting_of result ≡ combined op (setting_of left) (setting_of right) }
{
    match (left, right) {
        (Value::Int(x), Value::Int(y)) => Value::Int(number_of(op, x, y)),
        _ if op == MapOp::Union => right,
        _ => left,
    }
}

fn number_of(op: MapOp, x: i32, y: i32) -> i32
    ensures { result ≡ number_of op x y }
{
    match op {
        MapOp::Union => y,
        MapOp::Add => x.saturating_add(y),
        MapOp::Sub => x.saturating_sub(y),
        MapOp::Mul => x.saturating_mul(y),
    }
}
