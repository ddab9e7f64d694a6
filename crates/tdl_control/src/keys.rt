ghost use Rattle.std.specs.Prelude.{◌≡◌, ◌≢◌, IfSome, IfNone};
ghost use Rattle.std.specs.List.{find};
ghost use Rattle.std.specs.Cmp.Lexicographic.{slice_cmp};
ghost use Rattle.std.specs.Ordering.{nat_cmp};
ghost use Rattle.std.specs.Str.{bytes_eq};
ghost use Rattle.tdl_control.specs.Key.{name_of, rank, takes_word};

/// A control of the sound engine, in the byte order of the names.
#[derive(Clone, Copy, PartialEq, Eq, PartialOrd, Ord)]
pub enum Key {
    Accelerate,
    Attack,
    Bandf,
    Begin,
    Channel,
    Crush,
    Cut,
    Cutoff,
    Delay,
    End,
    Gain,
    Hold,
    Legato,
    Midichan,
    N,
    Note,
    Pan,
    Release,
    Room,
    S,
    Speed,
    Unit,
    Velocity,
    Vowel,
}

/// How many keys there are.
pub const KEY_COUNT: usize = 24;

// Every key, in order.
const ALL_KEYS: [Key; KEY_COUNT] = [
    Key::Accelerate,
    Key::Attack,
    Key::Bandf,
    Key::Begin,
    Key::Channel,
    Key::Crush,
    Key::Cut,
    Key::Cutoff,
    Key::Delay,
    Key::End,
    Key::Gain,
    Key::Hold,
    Key::Legato,
    Key::Midichan,
    Key::N,
    Key::Note,
    Key::Pan,
    Key::Release,
    Key::Room,
    Key::S,
    Key::Speed,
    Key::Unit,
    Key::Velocity,
    Key::Vowel,
];

// The name of every key, in order.
static KEY_NAMES: [&[u8]; KEY_COUNT] = [
    b"accelerate",
    b"attack",
    b"bandf",
    b"begin",
    b"channel",
    b"crush",
    b"cut",
    b"cutoff",
    b"delay",
    b"end",
    b"gain",
    b"hold",
    b"legato",
    b"midichan",
    b"n",
    b"note",
    b"pan",
    b"release",
    b"room",
    b"s",
    b"speed",
    b"unit",
    b"velocity",
    b"vowel",
];

impl Key {
    /// The key of this name, if there is one.
    pub fn of_name(name: &[u8]) -> Option<Key>
        ensures known { IfSome result (λ key. name_of key ≡ name.now) }
        ensures unknown { IfNone result ((key : Key) → name_of key ≢ name.now) }
    {
        first_named(name)
    }

    /// The variant's name in lower case.
    pub fn name(self) -> &'static [u8]
        ensures { result.now ≡ name_of self }
    {
        KEY_NAMES[usize::from(self.rank())]
    }

    /// Whether the key's values are words; all other keys have whole numbers.
    pub fn takes_word(self) -> bool
        ensures { result ≡ takes_word self }
    {
        matches!(self, Key::S | Key::Unit | Key::Vowel)
    }

    /// No two keys have one name, and the keys stand in the byte order of their names.
    pub fn names_law(self, other: Key)
        ensures distinct { name_of self ≡ name_of other → self ≡ other }
        ensures ordered { slice_cmp nat_cmp (name_of self) (name_of other) ≡ nat_cmp (rank self) (rank other) }
    {}

    // The key's index among all keys.
    pub(crate) fn rank(self) -> u8
        ensures { result ≡ rank self }
    {
        self as u8
    }
}

// The first key of this name, which is the only one.
fn first_named(name: &[u8]) -> Option<Key>
    ensures { result ≡ find (λ key. bytes_eq (name_of key) name.now) ALL_KEYS }
{
    ALL_KEYS.iter().copied().find(|key| key.name() == name)
}
