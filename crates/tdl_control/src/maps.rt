ghost use Rattle.std.specs.Prelude.{◌≡◌, ◌↔◌, ◌<◌, [], ◌++◌, length, map, option_map, slice_get, IsTrue, IfOk, IfErr, OnOk, OnErr};
ghost use Rattle.tdl_control.specs.Key.{takes_word};
ghost use Rattle.tdl_control.specs.Setting.{is_spelling};
ghost use Rattle.tdl_control.specs.Map.{lookup, put, print_of, entry_text, spaced_text, IsMap};
ghost use Rattle.tdl_control.specs.KeyValue.{key_value_of};
ghost use Rattle.tdl_control.specs.inside.Search.{IsAt, IsGapFor};
ghost use Rattle.tdl_control.specs.PutLaws.{PutLaws};
ghost use Rattle.tdl_control.specs.Text.{AddsPrefix};
ghost use Rattle.tdl_control.specs.Value.{setting_of};

mod combining;
mod reading;

use crate::faults::NoMemory;
use crate::keys::Key;
use crate::texts::Text;
use crate::values::Value;
pub use reading::MapKind;
use smallvec::SmallVec;
use std::alloc::Global;
use std::marker::Model;

// How many entries a map keeps in itself: most maps have one. More of them lie in an allocation.
const INLINE: usize = 1;

/// Values of keys, at most one for each key.
#[derive(Drop)]
pub struct Map {
    entries: SmallVec<KeyValue, INLINE>,
}

// A key with its value.
#[derive(Clone, Copy)]
struct KeyValue {
    key: Key,
    value: Value,
}

// What an unused place holds.
impl Default for KeyValue {
    fn default() -> KeyValue {
        KeyValue {
            key: Key::Accelerate,
            value: Value::Int(0),
        }
    }
}

impl Model for Map {
    ghost use Rattle.std.specs.Prelude.{map};
    ghost use Rattle.tdl_control.specs.Map.{KeyValues, IsMap};

    ghost Value = { KeyValues };

    ghost use Rattle.tdl_control.specs.KeyValue.{key_value_of};

    ghost view = { λ m. map key_value_of m.entries.items };

    ghost invariant = { λ m. IsMap (map key_value_of m.entries.items) };
}

impl Map {
    /// The map in which no key has a value.
    pub fn new(alloc: Global) -> Map
        ensures { result ≡ [] }
    {
        Map {
            entries: SmallVec::new(alloc),
        }
    }

    /// The same keys with the same values. Memory for more than one of them comes from the allocator.
    pub fn copy(&self, alloc: Global) -> Result<Map, NoMemory>
        ensures { IfOk result (λ copy. copy ≡ self.now) }
    {
        Ok(Map {
            entries: SmallVec::from_slice(alloc, &self.entries)?,
        })
    }

    /// Gives the key this value, in place of the one that it had.
    pub fn set(&mut self, key: Key, value: Value) -> Result<(), NoMemory>
        requires { takes_word key ≡ is_spelling (setting_of value) }
        ensures ok { OnOk result (self.new ≡ put self.old key (setting_of value)) }
        ensures err { OnErr result (self.new ≡ self.old) }
    {
        let entry = KeyValue { key, value };
        match self.place(key) {
            Ok(at) => {
                self.write(at, entry);
                Ok(())
            }
            Err(at) => self.insert(at, entry),
        }
    }

    /// The value of a key, where it has one.
    pub fn get(&self, key: Key) -> Option<Value>
        ensures found { option_map setting_of result ≡ lookup self.now key }
        ensures valid { IsMap self.now }
    {
        match self.place(key) {
            Ok(at) => Some(self.entries[at].value),
            Err(_) => None,
        }
    }

    /// How many keys have a value.
    pub fn len(&self) -> usize
        ensures { result ≡ length self.now }
    {
        self.entries.len()
    }

    /// Whether no key has a value.
    pub fn is_empty(&self) -> bool
        ensures { IsTrue result ↔ (self.now ≡ []) }
    {
        self.entries.is_empty()
    }

    /// The key at index `i` in byte order of the keys, from 0, with its value.
    pub fn entry(&self, i: usize) -> (Key, Value)
        requires { i < length self.now }
        ensures found { slice_get self.now i ≡ Some (result.0, setting_of result.1) }
        ensures valid { IsMap self.now }
    {
        let entry = self.entries[i];
        (entry.key, entry.value)
    }

    /// Adds `key=value` of each key, in byte order of the keys, with one space between, or `-` for
    /// the empty map.
    pub fn print(&self, out: &mut Text) -> Result<(), NoMemory>
        ensures ok { OnOk result (out.new ≡ out.old ++ print_of self.now) }
        ensures err { OnErr result (AddsPrefix (print_of self.now) out.old out.new) }
    {
        match self.entries.as_slice() {
            [] => out.add(b"-"),
            [first, others @ ..] => {
                first.print(out)?;
                print_others(others, out)
            }
        }
    }

    /// What a put changes and what it keeps, and that a map is told by what its keys have.
    pub fn put_laws()
        ensures { PutLaws }
    {}

    // Where the key's entry is, or where it would go.
    fn place(&self, key: Key) -> Result<usize, usize>
        ensures found { IfOk result (IsAt self.now key) }
        ensures absent { IfErr result (IsGapFor self.now key) }
    {
        self.entries
            .binary_search_by_key(&key.rank(), |entry| entry.key.rank())
    }

    // Writes over the entry here, which is the key's.
    fn write(&mut self, at: usize, entry: KeyValue)
        requires here { IsAt self.old entry.key at }
        requires fits { takes_word entry.key ≡ is_spelling (setting_of entry.value) }
        ensures { self.new ≡ put self.old entry.key (setting_of entry.value) }
    {
        self.entries[at] = entry;
    }

    // Adds the entry here, in the gap for its key.
    fn insert(&mut self, at: usize, entry: KeyValue) -> Result<(), NoMemory>
        requires gap { IsGapFor self.old entry.key at }
        requires fits { takes_word entry.key ≡ is_spelling (setting_of entry.value) }
        ensures ok { OnOk result (self.new ≡ put self.old entry.key (setting_of entry.value)) }
        ensures err { OnErr result (self.new ≡ self.old) }
    {
        Ok(self.entries.insert(at, entry)?)
    }
}

impl KeyValue {
    fn print(&self, out: &mut Text) -> Result<(), NoMemory>
        ensures ok { OnOk result (out.new ≡ out.old ++ entry_text (key_value_of self.now)) }
        ensures err { OnErr result (AddsPrefix (entry_text (key_value_of self.now)) out.old out.new) }
    {
        out.add(self.key.name())?;
        out.push(b'=')?;
        self.value.print(out)
    }
}

// Adds each entry after a space.
fn print_others(others: &[KeyValue], out: &mut Text) -> Result<(), NoMemory>
    ensures ok { OnOk result (out.new ≡ out.old ++ spaced_text (map key_value_of others.now)) }
    ensures err { OnErr result (AddsPrefix (spaced_text (map key_value_of others.now)) out.old out.new) }
{
    for entry in others {
        out.push(b' ')?;
        entry.print(out)?;
    }
    Ok(())
}
