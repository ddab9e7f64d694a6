ghost use Rattle.std.specs.Prelude.{◌≡◌, ℕ, drop, map, option_map, string_bytes, IfOk, IfErr, IfSome, IfNone};
ghost use Rattle.tdl_fraction.specs.Rational.{Rational};
ghost use Rattle.tdl_tempo.specs.Tempo.{IsCps, Pace};
ghost use Rattle.tdl_words.specs.Words.{IsGivenAs, IsGivenOnce};
ghost use Rattle.tdl_words.specs.Modes.{Asked, Asks, AsksDrill, AsksPlay, AsksQuery, AsksServe, IsCpsText, IsOriginText, IsWholeText, Query, cps_of, ports_of, usual_pace};
ghost use Rattle.tdl_words.specs.View.{asked_of, query_of};
ghost use Rattle.tdl_words.specs.inside.Tells.{IsQueryOf, NamesDrill, NamesServe, NamesTempo, TellsDrill, TellsPlay, TellsQuery, TellsServe, only};

use crate::commands::{
    CPS, CYCLES, FROM, LINES, ORIGIN, PATTERN, PERFORMERS, START, TO, drill_command, found,
    play_command, query_command, serve_command,
};
use crate::faults::WordsFault;
use crate::numbers::{read_cps, read_whole};
use std::alloc::Global;
use tdl_fraction::Frac;
use tdl_tempo::Tempo;

// Cycles a second where the words do not say so: 9/16.
const USUAL_CPS: (i128, u64) = (9, 16);

// The first second of 1970, in seconds since 1900.
const USUAL_ORIGIN: u32 = 2_208_988_800;

const MAX_PERFORMERS: u32 = 8;

const MAX_CYCLES: u32 = 65_536;

const MAX_START: u32 = 2_147_483_647;

const MAX_LINES: u32 = 16_384;

/// What the words ask for.
#[derive(Clone, Copy)]
pub enum ModeWords<'a> {
    /// `query PATTERN FROM TO`.
    Query(QueryWords<'a>),
    /// `play [--cps CPS] [--origin N]`.
    Play(PlayWords),
    /// `serve --performers K --cycles N [--cps CPS] [--origin N]`.
    Serve(ServeWords),
    /// `drill START LINES`.
    Drill(DrillWords),
}

/// The words of a query: a pattern, and the two ends of an arc in cycles, as written.
#[derive(Clone, Copy)]
pub struct QueryWords<'a> {
    pub pattern: &'a [u8],
    pub from: &'a [u8],
    pub to: &'a [u8],
}

/// At which tempo to play: 9/16 cycles a second from the first second of 1970 on, where the words do
/// not say otherwise.
#[derive(Clone, Copy)]
pub struct PlayWords {
    pub tempo: Tempo,
}

/// How many performers to serve, 1 to 8, for how many cycles, 1 to 65,536, and at which tempo, as in
/// `play`.
#[derive(Clone, Copy)]
pub struct ServeWords {
    pub tempo: Tempo,
    pub performers: u32,
    pub cycles: u32,
}

/// From which number a drill makes its lines, 0 to 2,147,483,647, and how many, 1 to 16,384, before the
/// finish.
#[derive(Clone, Copy)]
pub struct DrillWords {
    pub start: u32,
    pub lines: u32,
}

/// What the words after the program's name ask for. `BadWords` comes where they are not in the word
/// grammar.
pub fn mode_words<'a>(alloc: Global, words: &'a [String]) -> Result<ModeWords<'a>, WordsFault>
    ensures asks { IfOk result (λ mode. Asks (map string_bytes words.entry.now) (asked_of mode)) }
    ensures bad { IfErr result (λ fault.
        fault ≡ WordsFault.BadWords → (asked : Asked) → Asks (map string_bytes words.entry.now) asked → ⊥) }
{
    match words {
        [mode, ..] if mode.as_str() == "query" => match query_words(alloc, words) {
            Ok(words) => Ok(ModeWords::Query(words)),
            Err(fault) => Err(fault),
        },
        [mode, ..] if mode.as_str() == "play" => match play_words(alloc, words) {
            Ok(words) => Ok(ModeWords::Play(words)),
            Err(fault) => Err(fault),
        },
        [mode, ..] if mode.as_str() == "serve" => match serve_words(alloc, words) {
            Ok(words) => Ok(ModeWords::Serve(words)),
            Err(fault) => Err(fault),
        },
        [mode, ..] if mode.as_str() == "drill" => match drill_words(alloc, words) {
            Ok(words) => Ok(ModeWords::Drill(words)),
            Err(fault) => Err(fault),
        },
        _ => Err(WordsFault::BadWords),
    }
}

/// How many ports the words ask for: one for each performer, and none where nobody is served.
/// `BadWords` comes where the words are not in the word grammar.
pub fn ports_of(alloc: Global, words: &[String]) -> Result<u32, WordsFault>
    ensures ports { IfOk result (λ ports. (asked : Asked) × (Asks (map string_bytes words.now) asked × (ports ≡ ports_of asked))) }
    ensures bad { IfErr result (λ fault.
        fault ≡ WordsFault.BadWords → (asked : Asked) → Asks (map string_bytes words.now) asked → ⊥) }
{
    match mode_words(alloc, words) {
        Ok(ModeWords::Query(_) | ModeWords::Play(_) | ModeWords::Drill(_)) => Ok(0),
        Ok(ModeWords::Serve(words)) => Ok(words.performers),
        Err(fault) => Err(fault),
    }
}

/// The tempo where the words do not say otherwise, and that of a drill.
pub fn usual_tempo() -> Tempo
    ensures { result ≡ usual_pace }
{
    Tempo::of(usual_cps(), USUAL_ORIGIN).unwrap()
}

/// The cycles a second that the words ask for, and 9/16 where they do not say so. `BadWords` comes
/// where the words are not in the word grammar.
pub fn cps_of(alloc: Global, words: &[String]) -> Result<Frac, WordsFault>
    ensures cps { IfOk result (λ cps. (asked : Asked) × (Asks (map string_bytes words.now) asked × (cps ≡ cps_of asked))) }
    ensures allowed { IfOk result (λ cps. IsCps cps) }
    ensures bad { IfErr result (λ fault.
        fault ≡ WordsFault.BadWords → (asked : Asked) → Asks (map string_bytes words.now) asked → ⊥) }
{
    match mode_words(alloc, words) {
        Ok(ModeWords::Query(_) | ModeWords::Drill(_)) => Ok(usual_cps()),
        Ok(ModeWords::Play(words)) => Ok(words.tempo.cps()),
        Ok(ModeWords::Serve(words)) => Ok(words.tempo.cps()),
        Err(fault) => Err(fault),
    }
}

// The texts that were found for the arguments of `query`.
#[derive(Clone, Copy)]
struct QueryTexts<'a> {
    pattern: Option<&'a str>,
    from: Option<&'a str>,
    to: Option<&'a str>,
}

fn query_texts<'a>(alloc: Global, words: &'a [String]) -> Result<QueryTexts<'a>, WordsFault>
    ensures tells { IfOk result (λ texts. TellsQuery (drop 1 (map string_bytes words.entry.now))
        (option_map (λ t. t.now) texts.pattern) (option_map (λ t. t.now) texts.from) (option_map (λ t. t.now) texts.to)) }
    ensures bad { IfErr result (λ fault.
        fault ≡ WordsFault.BadWords → (query : Query) → AsksQuery (drop 1 (map string_bytes words.entry.now)) query → ⊥) }
{
    let command = query_command(alloc)?;
    let matches = found(command, words)?;
    Ok(QueryTexts {
        pattern: matches.get_str(PATTERN),
        from: matches.get_str(FROM),
        to: matches.get_str(TO),
    })
}

fn query_words<'a>(alloc: Global, words: &'a [String]) -> Result<QueryWords<'a>, WordsFault>
    ensures asks { IfOk result (λ query. AsksQuery (drop 1 (map string_bytes words.entry.now)) (query_of query)) }
    ensures bad { IfErr result (λ fault.
        fault ≡ WordsFault.BadWords → (query : Query) → AsksQuery (drop 1 (map string_bytes words.entry.now)) query → ⊥) }
{
    match query_texts(alloc, words) {
        Ok(texts) => match three_of(texts) {
            Some(words) => Ok(words),
            None => Err(WordsFault::BadWords),
        },
        Err(fault) => Err(fault),
    }
}

// The three texts of a query, if each was found.
fn three_of<'a>(texts: QueryTexts<'a>) -> Option<QueryWords<'a>>
    ensures some { IfSome result (λ words. IsQueryOf
        (option_map (λ t. t.now) texts.entry.pattern) (option_map (λ t. t.now) texts.entry.from) (option_map (λ t. t.now) texts.entry.to) (query_of words)) }
    ensures none { IfNone result ((query : Query) → IsQueryOf
        (option_map (λ t. t.now) texts.entry.pattern) (option_map (λ t. t.now) texts.entry.from) (option_map (λ t. t.now) texts.entry.to) query → ⊥) }
{
    Some(QueryWords {
        pattern: texts.pattern?.as_bytes(),
        from: texts.from?.as_bytes(),
        to: texts.to?.as_bytes(),
    })
}

// The texts that were found for the options of a tempo.
#[derive(Clone, Copy)]
struct TempoTexts<'a> {
    cps: Option<&'a str>,
    origin: Option<&'a str>,
}

fn play_texts<'a>(alloc: Global, words: &'a [String]) -> Result<TempoTexts<'a>, WordsFault>
    ensures tells { IfOk result (λ texts. TellsPlay (drop 1 (map string_bytes words.entry.now))
        (option_map (λ t. t.now) texts.cps) (option_map (λ t. t.now) texts.origin)) }
    ensures bad { IfErr result (λ fault.
        fault ≡ WordsFault.BadWords → (pace : Pace) → AsksPlay (drop 1 (map string_bytes words.entry.now)) pace → ⊥) }
{
    let command = play_command(alloc)?;
    let matches = found(command, words)?;
    Ok(TempoTexts {
        cps: matches.get_str(CPS),
        origin: matches.get_str(ORIGIN),
    })
}

fn play_words<'a>(alloc: Global, words: &'a [String]) -> Result<PlayWords, WordsFault>
    ensures asks { IfOk result (λ play. AsksPlay (drop 1 (map string_bytes words.entry.now)) play.tempo) }
    ensures bad { IfErr result (λ fault.
        fault ≡ WordsFault.BadWords → (pace : Pace) → AsksPlay (drop 1 (map string_bytes words.entry.now)) pace → ⊥) }
{
    match play_texts(alloc, words) {
        Ok(texts) => match tempo_of(texts) {
            Some(tempo) => Ok(PlayWords { tempo }),
            None => Err(WordsFault::BadWords),
        },
        Err(fault) => Err(fault),
    }
}

// The texts that were found for the options of `serve`.
#[derive(Clone, Copy)]
struct ServeTexts<'a> {
    performers: Option<&'a str>,
    cycles: Option<&'a str>,
    tempo: TempoTexts<'a>,
}

fn serve_texts<'a>(alloc: Global, words: &'a [String]) -> Result<ServeTexts<'a>, WordsFault>
    ensures tells { IfOk result (λ texts. TellsServe (drop 1 (map string_bytes words.entry.now))
        (option_map (λ t. t.now) texts.performers) (option_map (λ t. t.now) texts.cycles)
        (option_map (λ t. t.now) texts.tempo.cps) (option_map (λ t. t.now) texts.tempo.origin)) }
    ensures bad { IfErr result (λ fault. fault ≡ WordsFault.BadWords
        → (pace : Pace) (performers cycles : ℕ) → AsksServe (drop 1 (map string_bytes words.entry.now)) pace performers cycles → ⊥) }
{
    let command = serve_command(alloc)?;
    let matches = found(command, words)?;
    Ok(ServeTexts {
        performers: matches.get_str(PERFORMERS),
        cycles: matches.get_str(CYCLES),
        tempo: TempoTexts {
            cps: matches.get_str(CPS),
            origin: matches.get_str(ORIGIN),
        },
    })
}

fn serve_words<'a>(alloc: Global, words: &'a [String]) -> Result<ServeWords, WordsFault>
    ensures asks { IfOk result (λ serve.
        AsksServe (drop 1 (map string_bytes words.entry.now)) serve.tempo serve.performers serve.cycles) }
    ensures bad { IfErr result (λ fault. fault ≡ WordsFault.BadWords
        → (pace : Pace) (performers cycles : ℕ) → AsksServe (drop 1 (map string_bytes words.entry.now)) pace performers cycles → ⊥) }
{
    match serve_texts(alloc, words) {
        Ok(texts) => match served(texts) {
            Some(words) => Ok(words),
            None => Err(WordsFault::BadWords),
        },
        Err(fault) => Err(fault),
    }
}

// What the options of `serve` name.
fn served(texts: ServeTexts<'_>) -> Option<ServeWords>
    ensures some { IfSome result (λ serve. NamesServe
        (option_map (λ t. t.now) texts.entry.performers) (option_map (λ t. t.now) texts.entry.cycles)
        (option_map (λ t. t.now) texts.entry.tempo.cps) (option_map (λ t. t.now) texts.entry.tempo.origin) serve.tempo serve.performers serve.cycles) }
    ensures none { IfNone result ((pace : Pace) (performers cycles : ℕ) → NamesServe
        (option_map (λ t. t.now) texts.entry.performers) (option_map (λ t. t.now) texts.entry.cycles)
        (option_map (λ t. t.now) texts.entry.tempo.cps) (option_map (λ t. t.now) texts.entry.tempo.origin) pace performers cycles → ⊥) }
{
    let performers = required(texts.performers, 1, MAX_PERFORMERS)?;
    let cycles = required(texts.cycles, 1, MAX_CYCLES)?;
    let tempo = tempo_of(texts.tempo)?;
    Some(ServeWords {
        tempo,
        performers,
        cycles,
    })
}

// The texts that were found for the arguments of `drill`.
#[derive(Clone, Copy)]
struct DrillTexts<'a> {
    start: Option<&'a str>,
    lines: Option<&'a str>,
}

fn drill_texts<'a>(alloc: Global, words: &'a [String]) -> Result<DrillTexts<'a>, WordsFault>
    ensures tells { IfOk result (λ texts. TellsDrill (drop 1 (map string_bytes words.entry.now))
        (option_map (λ t. t.now) texts.start) (option_map (λ t. t.now) texts.lines)) }
    ensures bad { IfErr result (λ fault. fault ≡ WordsFault.BadWords
        → (start lines : ℕ) → AsksDrill (drop 1 (map string_bytes words.entry.now)) start lines → ⊥) }
{
    let command = drill_command(alloc)?;
    let matches = found(command, words)?;
    Ok(DrillTexts {
        start: matches.get_str(START),
        lines: matches.get_str(LINES),
    })
}

fn drill_words<'a>(alloc: Global, words: &'a [String]) -> Result<DrillWords, WordsFault>
    ensures asks { IfOk result (λ drill. AsksDrill (drop 1 (map string_bytes words.entry.now)) drill.start drill.lines) }
    ensures bad { IfErr result (λ fault. fault ≡ WordsFault.BadWords
        → (start lines : ℕ) → AsksDrill (drop 1 (map string_bytes words.entry.now)) start lines → ⊥) }
{
    match drill_texts(alloc, words) {
        Ok(texts) => match drilled(texts) {
            Some(words) => Ok(words),
            None => Err(WordsFault::BadWords),
        },
        Err(fault) => Err(fault),
    }
}

// What the two words of `drill` name.
fn drilled(texts: DrillTexts<'_>) -> Option<DrillWords>
    ensures some { IfSome result (λ drill. NamesDrill
        (option_map (λ t. t.now) texts.entry.start) (option_map (λ t. t.now) texts.entry.lines) drill.start drill.lines) }
    ensures none { IfNone result ((start lines : ℕ) → NamesDrill
        (option_map (λ t. t.now) texts.entry.start) (option_map (λ t. t.now) texts.entry.lines) start lines → ⊥) }
{
    let start = required(texts.start, 0, MAX_START)?;
    let lines = required(texts.lines, 1, MAX_LINES)?;
    Some(DrillWords { start, lines })
}

// A whole number from `least` to `most`, by a text that has to be given.
fn required(text: Option<&str>, least: u32, most: u32) -> Option<u32>
    ensures value { IfSome result (λ n. IsGivenOnce (IsWholeText least most) (only (option_map (λ t. t.now) text.entry)) n) }
    ensures none { IfNone result ((n : ℕ) → IsGivenOnce (IsWholeText least most) (only (option_map (λ t. t.now) text.entry)) n → ⊥) }
{
    read_whole(text?, least, most)
}

// The tempo that the options name.
fn tempo_of(texts: TempoTexts<'_>) -> Option<Tempo>
    ensures some { IfSome result (λ tempo. NamesTempo (option_map (λ t. t.now) texts.entry.cps) (option_map (λ t. t.now) texts.entry.origin) tempo) }
    ensures none { IfNone result ((pace : Pace) → NamesTempo (option_map (λ t. t.now) texts.entry.cps) (option_map (λ t. t.now) texts.entry.origin) pace → ⊥) }
{
    let cps = named_cps(texts.cps)?;
    let origin = named_origin(texts.origin)?;
    Tempo::of(cps, origin)
}

// Cycles a second, by the option's text if it is given.
fn named_cps(text: Option<&str>) -> Option<Frac>
    ensures value { IfSome result (λ cps. IsGivenAs IsCpsText usual_pace.cps (only (option_map (λ t. t.now) text.entry)) cps) }
    ensures none { IfNone result ((cps : Rational) → IsGivenAs IsCpsText usual_pace.cps (only (option_map (λ t. t.now) text.entry)) cps → ⊥) }
{
    match text {
        Some(text) => read_cps(text),
        None => Some(usual_cps()),
    }
}

fn usual_cps() -> Frac
    ensures { result ≡ usual_pace.cps }
{
    let (cycles, seconds) = USUAL_CPS;
    Frac::of(cycles, seconds).unwrap()
}

// The second since 1900-01-01 of cycle 0, by the option's text if it is given.
fn named_origin(text: Option<&str>) -> Option<u32>
    ensures value { IfSome result (λ origin. IsGivenAs IsOriginText usual_pace.origin (only (option_map (λ t. t.now) text.entry)) origin) }
    ensures none { IfNone result ((origin : ℕ) → IsGivenAs IsOriginText usual_pace.origin (only (option_map (λ t. t.now) text.entry)) origin → ⊥) }
{
    match text {
        Some(text) => read_whole(text, 0, u32::MAX),
        None => Some(USUAL_ORIGIN),
    }
}
