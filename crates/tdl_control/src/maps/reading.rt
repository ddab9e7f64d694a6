ghost use Rattle.std.specs.Prelude.{◌≡◌, ◌≢◌, ◌↔◌, ℤ, codes, FitsSigned, IsTrue, IfOk, IfErr, IfSome, IfNone, MatchResult};
ghost use Rattle.std.specs.Fmt.{signed_decimal};
ghost use Rattle.std.specs.Int.{w32};
ghost use Rattle.std.specs.Option.{option_copied};
ghost use Rattle.tdl_control.specs.declared.faults.Faulted.TheVariants.{NoMemory};
ghost use Rattle.tdl_control.specs.Map.{KeyValues, print_of, entry_text, IsMap};
ghost use Rattle.tdl_control.specs.Reading.{IsCutAt, IsAbove, IsNoValue, IsItemFault, Refuses};
ghost use Rattle.tdl_control.specs.ReadLaws.{ReadLaws};
ghost use Rattle.tdl_control.specs.Setting.{Setting, setting_text, IsSettingOf};
ghost use Rattle.tdl_control.specs.Value.{setting_of};

use super::Map;
use crate::faults::Faulted;
use crate::keys::Key;
use crate::values::Value;
use crate::words::Word;
use itoa::Buffer;
use std::alloc::Global;
use std::str;

/// Why a text is no map's.
#[derive(Clone, Copy, Debug, PartialEq, Eq)]
pub enum MapKind {
    /// An item is not `key=value`.
    Form,
    /// No key has the name of an item.
    UnknownKey,
    /// A key takes no such value.
    BadValue,
    /// A key is not above the one before.
    Order,
}

// What is wrong with an item, and at which of its bytes.
#[derive(Clone, Copy)]
struct ItemFault {
    kind: MapKind,
    offset: usize,
}

impl Map {
    /// The map that prints this text: items `key=value` with one space between, in byte order of the
    /// keys, or `-` alone. The first item that is no entry decides: the fault stands at its first byte,
    /// but at the first byte of the value where the key takes no such value. Offsets count from 0.
    /// Memory for more than one entry comes from the allocator.
    pub fn read(alloc: Global, text: &[u8]) -> Result<Map, Faulted<MapKind>>
        ensures text { IfOk result (λ map. print_of map ≡ text.now) }
        ensures valid { IfOk result IsMap }
        ensures refused { IfErr result (Refuses text.now) }
        ensures only { (entries : KeyValues) → IsMap entries → print_of entries ≡ text.now
            → MatchResult result (λ map. map ≡ entries) (λ fault. fault ≡ NoMemory) }
    {
        if text == b"-".as_slice() {
            return Ok(Map::new(alloc));
        }
        read_items(alloc, text)
    }

    /// A print tells its map, and a text that no map prints has one fault at most.
    pub fn read_laws()
        ensures { ReadLaws }
    {}

    // Whether the key is above those of the map.
    fn is_below(&self, key: Key) -> bool
        ensures { IsTrue result ↔ IsAbove self.now key }
    {
        self.is_empty() || self.entry(self.len() - 1).0.rank() < key.rank()
    }
}

// The map of the items that this text has.
fn read_items(alloc: Global, text: &[u8]) -> Result<Map, Faulted<MapKind>>
    requires { text.now ≢ codes "-" }
    ensures text { IfOk result (λ map. print_of map ≡ text.now) }
    ensures valid { IfOk result IsMap }
    ensures refused { IfErr result (Refuses text.now) }
{
    let mut map = Map::new(alloc);
    let mut rest = Some(text);
    while let Some(left) = rest {
        let (item, after) = cut(left, b' ');
        match read_item(&map, item) {
            Ok((key, value)) => map.set(key, value)?,
            Err(fault) => {
                return Err(Faulted::At {
                    kind: fault.kind,
                    at: (text.len() - left.len() + fault.offset) as u32,
                });
            }
        }
        rest = after;
    }
    Ok(map)
}

// What stands before the first such byte of a text, and what behind it, if it is there.
fn cut(text: &[u8], byte: u8) -> (&[u8], Option<&[u8]>)
    ensures { IsCutAt byte text.now result.0.now (option_copied result.1) }
{
    match text.iter().position(|other| *other == byte) {
        Some(at) => (&text[..at], Some(&text[at + 1..])),
        None => (text, None),
    }
}

// The key and the value of an item that comes after the entries of a map.
fn read_item(before: &Map, item: &[u8]) -> Result<(Key, Value), ItemFault>
    ensures text { IfOk result (λ entry. entry_text (entry.0, setting_of entry.1) ≡ item.now) }
    ensures above { IfOk result (λ entry. IsAbove before.now entry.0) }
    ensures fits { IfOk result (λ entry. IsSettingOf entry.0 (setting_of entry.1)) }
    ensures fault { IfErr result (λ fault. IsItemFault before.now item.now fault.kind fault.offset) }
{
    let (name, text) = cut(item, b'=');
    let Some(text) = text else {
        return Err(at_start(MapKind::Form));
    };
    let Some(key) = Key::of_name(name) else {
        return Err(at_start(MapKind::UnknownKey));
    };
    if !before.is_below(key) {
        return Err(at_start(MapKind::Order));
    }
    match read_value(key, text) {
        Some(value) => Ok((key, value)),
        None => Err(ItemFault {
            kind: MapKind::BadValue,
            offset: name.len() + 1,
        }),
    }
}

// The fault at an item's first byte.
fn at_start(kind: MapKind) -> ItemFault
    ensures { result ≡ record { kind = kind; offset = 0 } }
{
    ItemFault { kind, offset: 0 }
}

// The value with this text that the key may have.
fn read_value(key: Key, text: &[u8]) -> Option<Value>
    ensures text { IfSome result (λ value. setting_text (setting_of value) ≡ text.now) }
    ensures fits { IfSome result (λ value. IsSettingOf key (setting_of value)) }
    ensures none { IfNone result (IsNoValue key text.now) }
{
    if key.takes_word() {
        Word::of(text).map(Value::Word)
    } else {
        read_number(text).map(Value::Int)
    }
}

// The number of 32 bits with this decimal.
fn read_number(text: &[u8]) -> Option<i32>
    ensures text { IfSome result (λ number. signed_decimal number ≡ text.now) }
    ensures none { IfNone result ((number : ℤ) → FitsSigned w32 number → signed_decimal number ≢ text.now) }
{
    let number = str::from_utf8(text).ok()?.parse().ok()?;
    let is_decimal = Buffer::new().format(number).as_bytes() == text;
    is_decimal.then_some(number)
}
