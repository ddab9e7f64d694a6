// Tempos, and what times and lengths come to on a wire.
use tdl_fraction::Frac;
use tdl_tempo::Tempo;

const NEW_YEAR_1970: u32 = 2_208_988_800;

fn tempo(cps: &str, origin: u32) -> Option<Tempo> {
    Tempo::of(Frac::read(cps.as_bytes())?, origin)
}

// Cycles a second, and those of the tempo, if there is one.
static PACES: [(&str, Option<&str>); 8] = [
    ("9/16", Some("9/16")),
    ("65535", Some("65535")),
    ("1/65535", Some("1/65535")),
    ("131070/2", Some("65535")),
    ("65536", None),
    ("1/65536", None),
    ("0", None),
    ("-9/16", None),
];

fn has_pace(tempo: Option<Tempo>, pace: Option<&str>) -> bool {
    match (tempo, pace) {
        (Some(tempo), Some(pace)) => {
            tempo.origin() == NEW_YEAR_1970 && tempo.cps().print().bytes() == pace.as_bytes()
        }
        (None, None) => true,
        _ => false,
    }
}

#[test]
fn takes_a_tempo_above_zero_of_short_parts(rt: HostRuntime) {
    for (cps, pace) in &PACES {
        assert!(rt; has_pace(tempo(cps, NEW_YEAR_1970), *pace));
    }
}

// Cycles a second, the second of cycle 0, a time, and its tag.
static TAGS: [(&str, u32, &str, u64); 6] = [
    ("1/2", NEW_YEAR_1970, "0", 0x83aa_7e80_0000_0000),
    ("1/2", NEW_YEAR_1970, "1/2", 0x83aa_7e81_0000_0000),
    ("9/16", NEW_YEAR_1970, "1", 0x83aa_7e81_c71c_71c7),
    ("9/16", NEW_YEAR_1970, "1/3", 0x83aa_7e80_97b4_25ed),
    ("1", u32::MAX, "1", 0),
    ("1/65535", 0, "1048576", 0xfff0_0000_0000_0000),
];

fn tag(tempo: Tempo, at: Frac) -> Option<u64> {
    if at.is_less(Frac::whole(0)) || Frac::whole(1 << 20).is_less(at) {
        return None;
    }
    Some(tempo.timetag(at))
}

fn has_tags() -> Option<bool> {
    for (cps, origin, at, wanted) in &TAGS {
        let at = Frac::read(at.as_bytes())?;
        if tag(tempo(cps, *origin)?, at)? != *wanted {
            return Some(false);
        }
    }
    Some(true)
}

// Cycles a second, a length, and its microseconds.
static LENGTHS: [(&str, &str, i32); 7] = [
    ("1/2", "1/2", 1_000_000),
    ("9/16", "1", 1_777_777),
    ("9/16", "1/2", 888_888),
    ("65535", "1/46080", 0),
    ("1", "2147483647/1000000", i32::MAX),
    ("1", "2147483648/1000000", i32::MAX),
    ("1/65535", "1048576", i32::MAX),
];

fn length(tempo: Tempo, length: Frac) -> Option<i32> {
    if Frac::whole(0).is_less(length) {
        Some(tempo.micros(length))
    } else {
        None
    }
}

fn has_lengths() -> Option<bool> {
    for (cps, text, wanted) in &LENGTHS {
        let text = Frac::read(text.as_bytes())?;
        if length(tempo(cps, 0)?, text)? != *wanted {
            return Some(false);
        }
    }
    Some(true)
}

#[test]
fn tags_times_and_gives_microseconds(rt: HostRuntime) {
    assert!(rt; has_tags() == Some(true));
    assert!(rt; has_lengths() == Some(true));
}
