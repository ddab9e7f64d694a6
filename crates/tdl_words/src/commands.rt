// The modes as commands of the parser of command lines, and what it finds.
ghost use Rattle.std.specs.Prelude.{◌≡◌, ◌≢◌, [], map, string_bytes, false, true, IfOk, IfErr};
ghost use Rattle.clap.specs.Words.{app_of, fault_of, found_of, is_simple_and_free, matches_of, rows_of, rule_of};
ghost use Rattle.tdl_words.specs.inside.Commands.{bare_app, drill_app, play_app, query_app, serve_app, wanted_option, wanted_word};

use crate::faults::WordsFault;
use clap::error::ErrorKind;
use clap::{Arg, ArgAction, ArgMatches, Command};
use std::alloc::{AllocError, Global};

pub(crate) const PATTERN: &str = "pattern";

pub(crate) const FROM: &str = "from";

pub(crate) const TO: &str = "to";

pub(crate) const CPS: &str = "cps";

pub(crate) const ORIGIN: &str = "origin";

pub(crate) const PERFORMERS: &str = "performers";

pub(crate) const CYCLES: &str = "cycles";

pub(crate) const START: &str = "start";

pub(crate) const LINES: &str = "lines";

// `query PATTERN FROM TO`.
pub(crate) fn query_command<'a>(alloc: Global) -> Result<Command<'a>, AllocError>
    ensures { IfOk result (λ command. app_of command ≡ query_app) }
{
    bare_command(alloc, "query")
        .arg(positional(alloc, PATTERN))?
        .arg(positional(alloc, FROM))?
        .arg(positional(alloc, TO))
}

// `play [--cps CPS] [--origin N]`.
pub(crate) fn play_command<'a>(alloc: Global) -> Result<Command<'a>, AllocError>
    ensures { IfOk result (λ command. app_of command ≡ play_app) }
{
    bare_command(alloc, "play")
        .arg(option(alloc, CPS))?
        .arg(option(alloc, ORIGIN))
}

// `serve --performers K --cycles N [--cps CPS] [--origin N]`.
pub(crate) fn serve_command<'a>(alloc: Global) -> Result<Command<'a>, AllocError>
    ensures { IfOk result (λ command. app_of command ≡ serve_app) }
{
    bare_command(alloc, "serve")
        .arg(option(alloc, PERFORMERS))?
        .arg(option(alloc, CYCLES))?
        .arg(option(alloc, CPS))?
        .arg(option(alloc, ORIGIN))
}

// `drill START LINES`.
pub(crate) fn drill_command<'a>(alloc: Global) -> Result<Command<'a>, AllocError>
    ensures { IfOk result (λ command. app_of command ≡ drill_app) }
{
    bare_command(alloc, "drill")
        .arg(positional(alloc, START))?
        .arg(positional(alloc, LINES))
}

// A command that takes nothing, not even `--help` and `--version`.
fn bare_command<'a>(alloc: Global, mode: &'a str) -> Command<'a>
    ensures { app_of result ≡ bare_app mode.entry.now }
{
    Command::new(alloc, mode)
        .disable_help_flag(true)
        .disable_version_flag(true)
}

// An option with a value, whose id is its name. None is required here: whoever reads the values has
// to look at what is missing anyway.
fn option<'a>(alloc: Global, name: &'a str) -> Arg<'a>
    ensures rule { rule_of result ≡ wanted_option name.entry.now }
    ensures local { result.global ≡ false }
{
    Arg::new(alloc, name).long(name).action(ArgAction::Set)
}

// A positional word, which is not required here either.
fn positional<'a>(alloc: Global, id: &'a str) -> Arg<'a>
    ensures rule { rule_of result ≡ wanted_word id.entry.now }
    ensures local { result.global ≡ false }
{
    Arg::new(alloc, id).action(ArgAction::Set)
}

// What the words say for the arguments of a command; the first of them is the mode.
pub(crate) fn found<'a>(
    command: Command<'a>,
    words: &'a [String],
) -> Result<ArgMatches<'a>, WordsFault>
    requires { is_simple_and_free (app_of command) ≡ true }
    ensures taken { IfOk result (λ _. fault_of (app_of command.entry) (map string_bytes words.entry.now) ≡ []) }
    ensures rows { IfOk result (λ m. rows_of (found_of m) ≡ matches_of (app_of command.entry) (map string_bytes words.entry.now)) }
    ensures bad { IfErr result (λ fault.
        fault ≡ WordsFault.BadWords → fault_of (app_of command.entry) (map string_bytes words.entry.now) ≢ []) }
{
    match command.try_get_matches_from(words) {
        Ok(matches) => Ok(matches),
        Err(error) => Err(fault_of_kind(error.kind())),
    }
}

// Every error of the parser but out of memory says that the words do not fit.
fn fault_of_kind(kind: ErrorKind) -> WordsFault
    ensures { result ≡ WordsFault.BadWords → kind ≢ ErrorKind.OutOfMemory }
{
    match kind {
        ErrorKind::OutOfMemory => WordsFault::NoMemory,
        _ => WordsFault::BadWords,
    }
}
