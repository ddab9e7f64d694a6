// Control maps, and what they are made of.
use std::alloc::Global;
use std::test::Fail;
use tdl_control::{
    Faulted, KEY_COUNT, Key, Leaf, List, Map, MapKind, MapOp, NoMemory, Text, Value, Word,
};

fn prints(alloc: Global, map: &Map, text: &str) -> Result<bool, NoMemory> {
    let mut print = Text::new(alloc);
    map.print(&mut print)?;
    Ok(print.bytes() == text.as_bytes())
}

// Entries that are set one after the other, and the map's text after each.
static ENTRIES: [(&str, &str); 5] = [
    ("s=bd", "s=bd"),
    ("n=1", "n=1 s=bd"),
    ("n=-3", "n=-3 s=bd"),
    ("pan=-2147483648", "n=-3 pan=-2147483648 s=bd"),
    ("cut=-1", "cut=-1 n=-3 pan=-2147483648 s=bd"),
];

// Sets the first entry of the other map. Whether the map has it then.
fn is_set(map: &mut Map, other: &Map) -> Result<bool, NoMemory> {
    if other.is_empty() {
        return Ok(false);
    }
    let (key, value) = other.entry(0);
    map.set(key, value)?;
    Ok(map.get(key) == Some(value))
}

#[test]
fn maps_keep_what_is_set_in_order(rt: HostRuntime) -> Result<(), Fail> {
    let alloc = rt.alloc();
    let mut map = Map::new(alloc);
    assert!(rt; map.is_empty() && map.get(Key::Pan).is_none());
    assert!(rt; prints(alloc, &map, "-")?);
    for (entry, text) in &ENTRIES {
        assert!(rt; is_set(&mut map, &Map::read(alloc, entry.as_bytes())?)?);
        assert!(rt; prints(alloc, &map.copy(alloc)?, text)?);
    }
    assert!(rt; map.len() == 4 && map.get(Key::Note).is_none());
    assert!(rt; map.entry(0) == (Key::Cut, Value::Int(-1)));
    Ok(())
}

static READ: [&str; 4] = ["n=1 s=bd", "-", "n=-2147483648", "cut=0 unit=r vowel=_a"];

#[test]
fn reads_what_maps_print(rt: HostRuntime) -> Result<(), Fail> {
    let alloc = rt.alloc();
    for text in &READ {
        assert!(rt; prints(alloc, &Map::read(alloc, text.as_bytes())?, text)?);
    }
    let map = Map::read(alloc, b"n=1 s=bd")?;
    assert!(rt; map.len() == 2 && map.get(Key::N) == Some(Value::Int(1)));
    assert!(rt;
        matches!(map.get(Key::S), Some(Value::Word(word)) if word.bytes() == b"bd".as_slice())
    );
    Ok(())
}

static REFUSED: [(&str, MapKind, u32); 18] = [
    ("", MapKind::Form, 0),
    ("- n=1", MapKind::Form, 0),
    ("n=1 -", MapKind::Form, 4),
    ("n=1 ", MapKind::Form, 4),
    ("n=1  s=bd", MapKind::Form, 4),
    ("x=1", MapKind::UnknownKey, 0),
    ("n=1 =2", MapKind::UnknownKey, 4),
    ("s=bd n=1", MapKind::Order, 5),
    ("n=1 n=2", MapKind::Order, 4),
    ("n=01", MapKind::BadValue, 2),
    ("n=-0", MapKind::BadValue, 2),
    ("n=+1", MapKind::BadValue, 2),
    ("n=", MapKind::BadValue, 2),
    ("n=2147483648", MapKind::BadValue, 2),
    ("n=bd", MapKind::BadValue, 2),
    ("n=1=2", MapKind::BadValue, 2),
    ("s=", MapKind::BadValue, 2),
    ("n=1 s=b-d", MapKind::BadValue, 6),
];

fn fault_of(alloc: Global, text: &str) -> Option<(MapKind, u32)> {
    match Map::read(alloc, text.as_bytes()) {
        Err(Faulted::At { kind, at }) => Some((kind, at)),
        _ => None,
    }
}

#[test]
fn refuses_other_texts(rt: HostRuntime) {
    for (text, kind, at) in &REFUSED {
        assert!(rt; fault_of(rt.alloc(), text) == Some((*kind, *at)));
    }
}

// Operators, two maps, and what they make.
static JOINED: [(MapOp, &str, &str, &str); 10] = [
    (MapOp::Add, "n=2147483647", "n=1", "n=2147483647"),
    (MapOp::Add, "s=bd", "s=sn", "s=bd"),
    (MapOp::Union, "s=bd", "s=sn", "s=sn"),
    (MapOp::Sub, "n=-2147483648", "n=1", "n=-2147483648"),
    (MapOp::Sub, "n=1", "n=3", "n=-2"),
    (MapOp::Mul, "n=3", "n=-4 pan=1", "n=-12 pan=1"),
    (MapOp::Union, "n=1 s=bd", "n=2", "n=2 s=bd"),
    (MapOp::Mul, "n=-4 s=bd", "-", "n=-4 s=bd"),
    (MapOp::Sub, "-", "n=-4 s=bd", "n=-4 s=bd"),
    (MapOp::Add, "-", "-", "-"),
];

#[test]
fn joins_maps(rt: HostRuntime) -> Result<(), Fail> {
    let alloc = rt.alloc();
    for (op, left, right, text) in &JOINED {
        let left = Map::read(alloc, left.as_bytes())?;
        let right = Map::read(alloc, right.as_bytes())?;
        assert!(rt; prints(alloc, &Map::combine(alloc, *op, &left, &right)?, text)?);
    }
    Ok(())
}

static KEYS: [(&str, Key); KEY_COUNT] = [
    ("accelerate", Key::Accelerate),
    ("attack", Key::Attack),
    ("bandf", Key::Bandf),
    ("begin", Key::Begin),
    ("channel", Key::Channel),
    ("crush", Key::Crush),
    ("cut", Key::Cut),
    ("cutoff", Key::Cutoff),
    ("delay", Key::Delay),
    ("end", Key::End),
    ("gain", Key::Gain),
    ("hold", Key::Hold),
    ("legato", Key::Legato),
    ("midichan", Key::Midichan),
    ("n", Key::N),
    ("note", Key::Note),
    ("pan", Key::Pan),
    ("release", Key::Release),
    ("room", Key::Room),
    ("s", Key::S),
    ("speed", Key::Speed),
    ("unit", Key::Unit),
    ("velocity", Key::Velocity),
    ("vowel", Key::Vowel),
];

static OTHER_NAMES: [&str; 3] = ["sound", "", "S"];

#[test]
fn keys_have_names(rt: HostRuntime) {
    for (name, key) in &KEYS {
        assert!(rt; Key::of_name(name.as_bytes()) == Some(*key));
        assert!(rt; key.name() == name.as_bytes());
    }
    for name in &OTHER_NAMES {
        assert!(rt; Key::of_name(name.as_bytes()).is_none());
    }
    assert!(rt; Key::Vowel.takes_word() && !Key::Velocity.takes_word());
}

static WORDS: [&str; 5] = ["bd", "a_", "12", "_x", "abcdefghijklmnopqrstuvwxyz_12345"];

static OTHER_TEXTS: [&str; 6] = [
    "",
    "_",
    "__",
    "a-b",
    "a b",
    "abcdefghijklmnopqrstuvwxyz_123456",
];

fn is_word(text: &str) -> bool {
    match Word::of(text.as_bytes()) {
        Some(word) => word.bytes() == text.as_bytes(),
        None => false,
    }
}

#[test]
fn words_keep_their_bytes(rt: HostRuntime) {
    for text in &WORDS {
        assert!(rt; is_word(text));
    }
    for text in &OTHER_TEXTS {
        assert!(rt; Word::of(text.as_bytes()).is_none());
    }
    assert!(rt; Word::of(b"bd") == Word::of(b"bd"));
    assert!(rt; Word::of(b"bd") != Word::of(b"bd2"));
}

#[test]
fn lists_and_texts_grow_at_their_ends(rt: HostRuntime) -> Result<(), Fail> {
    let mut numbers: List<u8> = List::new(rt.alloc());
    assert!(rt; numbers.is_empty());
    numbers.push(3)?;
    numbers.push(5)?;
    assert!(rt; numbers.len() == 2 && !numbers.is_empty());
    assert!(rt; *numbers.get(0) == 3 && numbers.as_slice() == [3, 5].as_slice());
    assert!(rt; numbers.into_vec().as_slice() == [3, 5].as_slice());
    let mut text = Text::new(rt.alloc());
    text.add(b"n")?;
    text.push(b'=')?;
    text.add(b"1")?;
    assert!(rt; text.bytes() == b"n=1".as_slice());
    text.clear();
    text.add(b"s")?;
    assert!(rt; text.bytes() == b"s".as_slice());
    Ok(())
}

#[test]
fn leaves_copy_each_kind(rt: HostRuntime) -> Result<(), Fail> {
    let alloc = rt.alloc();
    let controls = Leaf::Controls(Map::new(alloc));
    assert!(rt; matches!(controls.copy(alloc)?, Leaf::Controls(_)));
    assert!(rt; matches!(Leaf::Truth(true).copy(alloc)?, Leaf::Truth(true)));
    assert!(rt; matches!(Leaf::Index(5).copy(alloc)?, Leaf::Index(5)));
    Ok(())
}
