// What the bytes of names mean.
ghost use Rattle.std.specs.Prelude.{◌≡◌, map, IsTrue};
ghost use Rattle.std.specs.List.{filter, list_all};
ghost use Rattle.std.specs.Char.{is_ascii_digit};
ghost use Rattle.tdl_mini_machine.specs.Tokens.{same_text};
ghost use Rattle.tdl_line_texts.specs.Names.{meanings, name_of, named_among, orbit_of, other_name};
ghost use Rattle.tdl_line_texts.specs.inside.NamesView.{begins_with, meaning_of};

use tdl_command::{BareFun, BoolsFun, CountFun, CycleFun, Flag, LayerFun, Order, RatioFun, Shape};
use tdl_control::{Key, MAX_ORBIT};
use tdl_line_machine::Name;

// A name by its bytes.
#[derive(Clone, Copy)]
struct Meaning(&'static [u8], Name);

// Every name but those of orbits, by its first letter.
static NAMES: [&[Meaning]; 26] = [
    &[
        Meaning(b"accelerate", Name::Key(Key::Accelerate)),
        Meaning(b"attack", Name::Key(Key::Attack)),
        Meaning(b"almostNever", Name::Random),
        Meaning(b"almostAlways", Name::Random),
    ],
    &[
        Meaning(b"brak", Name::Bare(BareFun::Brak)),
        Meaning(b"bandf", Name::Key(Key::Bandf)),
        Meaning(b"begin", Name::Key(Key::Begin)),
    ],
    &[
        Meaning(b"cat", Name::List(Shape::Cat)),
        Meaning(b"const", Name::Const),
        Meaning(b"channel", Name::Key(Key::Channel)),
        Meaning(b"crush", Name::Key(Key::Crush)),
        Meaning(b"cut", Name::Key(Key::Cut)),
        Meaning(b"cutoff", Name::Key(Key::Cutoff)),
        Meaning(b"choose", Name::Random),
    ],
    &[
        Meaning(b"delay", Name::Key(Key::Delay)),
        Meaning(b"degrade", Name::Random),
        Meaning(b"degradeBy", Name::Random),
    ],
    &[
        Meaning(b"every", Name::Every),
        Meaning(b"every'", Name::Cycle(CycleFun::EveryAt)),
        Meaning(b"euclid", Name::Euclid),
        Meaning(b"euclidOff", Name::EuclidOff),
        Meaning(b"end", Name::Key(Key::End)),
    ],
    &[
        Meaning(b"fastcat", Name::List(Shape::Fastcat)),
        Meaning(b"fast", Name::OfRatio(RatioFun::Fast)),
    ],
    &[Meaning(b"gain", Name::Key(Key::Gain))],
    &[
        Meaning(b"hush", Name::Order(Order::Hush)),
        Meaning(b"hold", Name::Key(Key::Hold)),
    ],
    &[
        Meaning(b"id", Name::Bare(BareFun::Same)),
        Meaning(b"iter", Name::OfCount(CountFun::Iter)),
        Meaning(b"irand", Name::Random),
    ],
    &[
        Meaning(b"jumpMod", Name::JumpMod),
        Meaning(b"jux", Name::Layer(LayerFun::Jux)),
    ],
    &[],
    &[
        Meaning(b"look", Name::Order(Order::Look)),
        Meaning(b"legato", Name::Key(Key::Legato)),
    ],
    &[
        Meaning(b"mute", Name::Flag(Flag::Mute)),
        Meaning(b"mask", Name::OfBools(BoolsFun::Mask)),
        Meaning(b"midichan", Name::Key(Key::Midichan)),
    ],
    &[
        Meaning(b"n", Name::Key(Key::N)),
        Meaning(b"note", Name::Key(Key::Note)),
    ],
    &[Meaning(b"off", Name::Off), Meaning(b"often", Name::Random)],
    &[
        Meaning(b"palindrome", Name::Bare(BareFun::Palindrome)),
        Meaning(b"ply", Name::OfCount(CountFun::Ply)),
        Meaning(b"pan", Name::Key(Key::Pan)),
    ],
    &[],
    &[
        Meaning(b"rev", Name::Bare(BareFun::Rev)),
        Meaning(b"rotL", Name::OfRatio(RatioFun::Earlier)),
        Meaning(b"rotR", Name::OfRatio(RatioFun::Later)),
        Meaning(b"release", Name::Key(Key::Release)),
        Meaning(b"room", Name::Key(Key::Room)),
        Meaning(b"rand", Name::Random),
        Meaning(b"randcat", Name::Random),
        Meaning(b"rarely", Name::Random),
    ],
    &[
        Meaning(b"solo", Name::Flag(Flag::Solo)),
        Meaning(b"silence", Name::Silence),
        Meaning(b"stack", Name::List(Shape::Stack)),
        Meaning(b"slow", Name::OfRatio(RatioFun::Slow)),
        Meaning(b"superimpose", Name::Layer(LayerFun::Superimpose)),
        Meaning(b"segment", Name::OfCount(CountFun::Segment)),
        Meaning(b"struct", Name::OfBools(BoolsFun::Struct)),
        Meaning(b"s", Name::Key(Key::S)),
        Meaning(b"speed", Name::Key(Key::Speed)),
        Meaning(b"sound", Name::Key(Key::S)),
        Meaning(b"sometimes", Name::Random),
        Meaning(b"sometimesBy", Name::Random),
        Meaning(b"somecycles", Name::Random),
        Meaning(b"somecyclesBy", Name::Random),
        Meaning(b"shuffle", Name::Random),
        Meaning(b"scramble", Name::Random),
    ],
    &[Meaning(b"timecat", Name::Timecat)],
    &[
        Meaning(b"unmuteAll", Name::Order(Order::UnmuteAll)),
        Meaning(b"unsoloAll", Name::Order(Order::UnsoloAll)),
        Meaning(b"unmute", Name::Flag(Flag::Unmute)),
        Meaning(b"unsolo", Name::Flag(Flag::Unsolo)),
        Meaning(b"unit", Name::Key(Key::Unit)),
        Meaning(b"unDegradeBy", Name::Random),
    ],
    &[
        Meaning(b"velocity", Name::Key(Key::Velocity)),
        Meaning(b"vowel", Name::Key(Key::Vowel)),
    ],
    &[
        Meaning(b"whenmod", Name::Cycle(CycleFun::WhenMod)),
        Meaning(b"within", Name::Within),
        Meaning(b"wchoose", Name::Random),
        Meaning(b"wrandcat", Name::Random),
    ],
    &[],
    &[],
    &[],
];

fn same_bytes(left: &[u8], right: &[u8]) -> bool
    ensures { result ≡ same_text left.now right.now }
{
    left == right
}

// The first name with these bytes among some.
fn named_among(meanings: &[Meaning], bytes: &[u8]) -> Option<Name>
    ensures { result ≡ named_among (map meaning_of meanings.now) bytes.now }
{
    for Meaning(text, name) in meanings {
        if same_bytes(text, bytes) {
            return Some(*name);
        }
    }
    None
}

// The entries whose names begin with a byte.
fn entries_under(first: u8) -> &'static [Meaning]
    ensures { map meaning_of result.now ≡ filter (begins_with first) meanings }
{
    if first.is_ascii_lowercase() {
        NAMES[(first - b'a') as usize]
    } else {
        &[]
    }
}

// What a name means that is in the table.
fn table_name(bytes: &[u8]) -> Option<Name>
    ensures { result ≡ named_among meanings bytes.now }
{
    match bytes {
        [first, ..] => named_among(entries_under(*first), bytes),
        [] => None,
    }
}

// The orbit that digits name; none outside 1 to 16.
fn orbit_of(digits: &[u8]) -> Option<u8>
    requires { IsTrue (list_all is_ascii_digit digits.now) }
    ensures { result ≡ orbit_of digits.now }
{
    let mut value: u8 = 0;
    for digit in digits {
        value = value * 10 + (*digit - b'0');
        if value > MAX_ORBIT {
            return None;
        }
    }
    if value > 0 { Some(value) } else { None }
}

fn is_all_digits(bytes: &[u8]) -> bool
    ensures { result ≡ list_all is_ascii_digit bytes.now }
{
    bytes.iter().all(|byte| byte.is_ascii_digit())
}

// What a name means that is not in the table: `d` and digits, or nothing.
fn other_name(bytes: &[u8]) -> Name
    ensures { result ≡ other_name bytes.now }
{
    match bytes {
        [b'd', digits @ ..] if !digits.is_empty() && is_all_digits(digits) => {
            Name::Orbit(orbit_of(digits))
        }
        _ => Name::Unknown,
    }
}

/// What the bytes of a name mean.
pub fn name_of(bytes: &[u8]) -> Name
    ensures { result ≡ name_of bytes.now }
{
    match table_name(bytes) {
        Some(name) => name,
        None => other_name(bytes),
    }
}
