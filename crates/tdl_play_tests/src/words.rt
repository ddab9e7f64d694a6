use std::alloc::{AllocError, Global};
use tdl_tempo::Tempo;
use tdl_words::{DrillWords, ModeWords, QueryWords, ServeWords, WordsFault, cps_of, mode_words};

// The words after the program's name.
type Words = &'static [&'static str];

pub(crate) fn words_of(alloc: Global, words: &[&str]) -> Result<Vec<String>, AllocError> {
    let mut all = Vec::new(alloc);
    for word in words {
        all.push(String::from_str(alloc, word)?)?;
    }
    Ok(all)
}

// What words ask for: a query of a pattern and the two ends of an arc, to play at a tempo, of cycles over seconds, from a
// second on, to serve so many performers for so many cycles at a tempo, or a drill of so many lines from a number on.
enum Asked {
    Query(&'static str, &'static str, &'static str),
    Play(i128, u64, u32),
    Serve(u32, u32, (i128, u64, u32)),
    Drill(u32, u32),
}

static TAKEN: [(Words, Asked); 45] = [
    (&["query", "bd", "0", "1"], Asked::Query("bd", "0", "1")),
    (
        &["query", "bd sn", "1/2", "3/4"],
        Asked::Query("bd sn", "1/2", "3/4"),
    ),
    (
        &["query", "query", "query", "query"],
        Asked::Query("query", "query", "query"),
    ),
    // `--`, which is itself no positional word the first time
    (
        &["query", "--", "bd", "0", "1"],
        Asked::Query("bd", "0", "1"),
    ),
    (
        &["query", "bd", "--", "0", "1"],
        Asked::Query("bd", "0", "1"),
    ),
    (
        &["query", "bd", "0", "--", "1"],
        Asked::Query("bd", "0", "1"),
    ),
    (
        &["query", "bd", "0", "1", "--"],
        Asked::Query("bd", "0", "1"),
    ),
    (
        &["query", "--", "--", "0", "1"],
        Asked::Query("--", "0", "1"),
    ),
    (
        &["query", "bd", "--", "--", "1"],
        Asked::Query("bd", "--", "1"),
    ),
    // words that look like options
    (
        &["query", "--", "-x", "0", "1"],
        Asked::Query("-x", "0", "1"),
    ),
    (
        &["query", "--", "bd", "-1", "-2"],
        Asked::Query("bd", "-1", "-2"),
    ),
    (
        &["query", "bd", "0", "--", "-1"],
        Asked::Query("bd", "0", "-1"),
    ),
    (
        &["query", "--", "--cps", "0", "1"],
        Asked::Query("--cps", "0", "1"),
    ),
    // words that do not
    (&["query", "-", "0", "1"], Asked::Query("-", "0", "1")),
    (&["query", "", "0", "1"], Asked::Query("", "0", "1")),
    (&["query", "=", "0", "1"], Asked::Query("=", "0", "1")),
    (&["query", "é", "0", "x"], Asked::Query("é", "0", "x")),
    // tempos
    (&["play"], Asked::Play(9, 16, 2_208_988_800)),
    (&["play", "--"], Asked::Play(9, 16, 2_208_988_800)),
    (&["play", "--cps", "1/2"], Asked::Play(1, 2, 2_208_988_800)),
    (&["play", "--cps=1/2"], Asked::Play(1, 2, 2_208_988_800)),
    (&["play", "--cps=2/4"], Asked::Play(1, 2, 2_208_988_800)),
    (
        &["play", "--cps", "1", "--"],
        Asked::Play(1, 1, 2_208_988_800),
    ),
    (&["play", "--cps=0000001"], Asked::Play(1, 1, 2_208_988_800)),
    (
        &["play", "--cps", "65535"],
        Asked::Play(65_535, 1, 2_208_988_800),
    ),
    (
        &["play", "--cps", "1/65535"],
        Asked::Play(1, 65_535, 2_208_988_800),
    ),
    (
        &["play", "--cps", "131070/131070"],
        Asked::Play(1, 1, 2_208_988_800),
    ),
    (&["play", "--origin", "0"], Asked::Play(9, 16, 0)),
    (&["play", "--origin", "00"], Asked::Play(9, 16, 0)),
    (&["play", "--origin", "0000000007"], Asked::Play(9, 16, 7)),
    (
        &["play", "--origin=4294967295"],
        Asked::Play(9, 16, 4_294_967_295),
    ),
    (
        &["play", "--cps", "1/2", "--origin", "5"],
        Asked::Play(1, 2, 5),
    ),
    (&["play", "--origin=5", "--cps", "3"], Asked::Play(3, 1, 5)),
    // performers and cycles
    (
        &["serve", "--performers=2", "--cycles=4"],
        Asked::Serve(2, 4, (9, 16, 2_208_988_800)),
    ),
    (
        &["serve", "--performers", "8", "--cycles", "4"],
        Asked::Serve(8, 4, (9, 16, 2_208_988_800)),
    ),
    (
        &["serve", "--cycles", "65536", "--performers", "1"],
        Asked::Serve(1, 65_536, (9, 16, 2_208_988_800)),
    ),
    (
        &["serve", "--performers", "1", "--cycles", "1", "--"],
        Asked::Serve(1, 1, (9, 16, 2_208_988_800)),
    ),
    (
        &["serve", "--performers=2", "--cycles", "00004"],
        Asked::Serve(2, 4, (9, 16, 2_208_988_800)),
    ),
    (
        &["serve", "--performers=0000000008", "--cycles", "0000000004"],
        Asked::Serve(8, 4, (9, 16, 2_208_988_800)),
    ),
    (
        &[
            "serve",
            "--cps=1/2",
            "--performers=2",
            "--origin",
            "0",
            "--cycles=4",
        ],
        Asked::Serve(2, 4, (1, 2, 0)),
    ),
    (
        &[
            "serve",
            "--cycles",
            "4",
            "--origin",
            "4294967295",
            "--performers",
            "8",
            "--cps=65535",
        ],
        Asked::Serve(8, 4, (65_535, 1, 4_294_967_295)),
    ),
    // drills
    (&["drill", "0", "1"], Asked::Drill(0, 1)),
    (
        &["drill", "2147483647", "16384"],
        Asked::Drill(2_147_483_647, 16_384),
    ),
    (
        &["drill", "0000000001", "--", "0000000004"],
        Asked::Drill(1, 4),
    ),
    (&["drill", "--", "1", "4"], Asked::Drill(1, 4)),
];

fn is_query(query: &QueryWords, asked: &Asked) -> bool {
    match asked {
        Asked::Query(pattern, from, to) => {
            query.pattern == pattern.as_bytes()
                && query.from == from.as_bytes()
                && query.to == to.as_bytes()
        }
        _ => false,
    }
}

fn is_tempo(tempo: Tempo, cycles: i128, seconds: u64, origin: u32) -> bool {
    tempo.cps().numerator() == cycles
        && tempo.cps().denominator() == seconds
        && tempo.origin() == origin
}

fn is_play(tempo: Tempo, asked: &Asked) -> bool {
    match asked {
        Asked::Play(cycles, seconds, origin) => is_tempo(tempo, *cycles, *seconds, *origin),
        _ => false,
    }
}

fn is_serve(serve: &ServeWords, asked: &Asked) -> bool {
    match asked {
        Asked::Serve(performers, cycles, (beats, seconds, origin)) => {
            serve.performers == *performers
                && serve.cycles == *cycles
                && is_tempo(serve.tempo, *beats, *seconds, *origin)
        }
        _ => false,
    }
}

fn is_drill(drill: &DrillWords, asked: &Asked) -> bool {
    match asked {
        Asked::Drill(start, lines) => drill.start == *start && drill.lines == *lines,
        _ => false,
    }
}

fn asks_for(alloc: Global, words: &[&str], asked: &Asked) -> bool {
    let Ok(words) = words_of(alloc, words) else {
        return false;
    };
    match mode_words(alloc, &words) {
        Ok(ModeWords::Query(query)) => is_query(&query, asked),
        Ok(ModeWords::Play(play)) => is_play(play.tempo, asked),
        Ok(ModeWords::Serve(serve)) => is_serve(&serve, asked),
        Ok(ModeWords::Drill(drill)) => is_drill(&drill, asked),
        Err(_) => false,
    }
}

#[test]
fn takes_words(rt: HostRuntime) {
    for (words, asked) in &TAKEN {
        assert!(rt; asks_for(rt.alloc(), words, asked));
    }
}

// Words that are not in the word grammar.
static BAD: [Words; 31] = [
    &[],
    &["--", "play"],
    &["Query", "bd", "0", "1"],
    &["query", "bd", "0"],
    &["query", "bd", "0", "1", "--", "2"],
    &["query", "bd", "0", "-1"],
    &["play", "--cps", "--origin", "5"],
    &["play", "--origin", "5", "--cps", "1", "--origin=5"],
    &["play", "--cps", "1/65536"],
    &["play", "--origin", "00000000005"],
    &["serve"],
    &["serve", "--performers", "2"],
    &["serve", "--cycles", "4"],
    &["serve", "--performers", "0", "--cycles", "4"],
    &["serve", "--performers", "9", "--cycles", "4"],
    &["serve", "--performers", "2", "--cycles", "0"],
    &["serve", "--performers", "2", "--cycles", "65537"],
    &["serve", "--performers=2", "--cycles=+4"],
    &["serve", "--performers=2", "--cycles=4", "--performers=2"],
    &["serve", "--performers=2", "--cycles=4", "x"],
    &["serve", "--performers=2", "--cycles=4", "--cps", "0"],
    &["drill"],
    &["drill", "1"],
    &["drill", "1", "4", "5"],
    &["drill", "2147483648", "4"],
    &["drill", "1", "0"],
    &["drill", "1", "16385"],
    &["drill", "00000000001", "4"],
    &["drill", "+1", "4"],
    &["drill", "1", "4", "--cps=1"],
    &["drill", "-1", "4"],
];

fn are_bad(alloc: Global, words: &[&str]) -> bool {
    let Ok(words) = words_of(alloc, words) else {
        return false;
    };
    matches!(mode_words(alloc, &words), Err(WordsFault::BadWords))
}

#[test]
fn refuses_other_words(rt: HostRuntime) {
    for words in &BAD {
        assert!(rt; are_bad(rt.alloc(), words));
    }
}

// Words, and how many cycles over how many seconds they ask for.
static CPS: [(Words, i128, u64); 6] = [
    (&["query", "bd", "0", "1"], 9, 16),
    (&["play"], 9, 16),
    (&["play", "--cps=2/4"], 1, 2),
    (&["serve", "--performers=2", "--cycles=4"], 9, 16),
    (
        &["serve", "--performers=2", "--cycles=4", "--cps", "3"],
        3,
        1,
    ),
    (&["drill", "1", "4"], 9, 16),
];

fn asks_for_cps(alloc: Global, words: &[&str], cycles: i128, seconds: u64) -> bool {
    let Ok(words) = words_of(alloc, words) else {
        return false;
    };
    match cps_of(alloc, &words) {
        Ok(cps) => cps.numerator() == cycles && cps.denominator() == seconds,
        Err(_) => false,
    }
}

#[test]
fn tells_the_cps(rt: HostRuntime) {
    for (words, cycles, seconds) in &CPS {
        assert!(rt; asks_for_cps(rt.alloc(), words, *cycles, *seconds));
    }
}
