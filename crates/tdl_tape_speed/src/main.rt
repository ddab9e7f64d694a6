//! How fast calls go through a session: so many threads make so many calls each of one tape. What it puts is how many
//! entries the tape has then; standard error gets the nanoseconds that all calls took.
#![tactic(auto)]

ghost use Rattle.std.specs.Prelude.{◌≡◌, ◌≤◌, length, IfOk, IfSome};

use std::alloc::{AllocError, Global};
use std::env;
use std::process::ExitCode;
use std::rt::Env;
use std::sync::Wait;
use std::thread::Threads;
use std::time::{Clock, Duration, Instant};
use tdl_session::{Caller, Hall, Leader, Pass, gather};
use tdl_tape::Tape;

const BAD_WORDS: u8 = 1;

const OUT_OF_MEMORY: u8 = 3;

/// Calls with the numbers from 0 to 99, over and over.
#[derive(Drop)]
struct Repeater {
    calls: u64,
}

impl Caller<Tape> for Repeater {
    type End = ();

    ghost did = { λ fixed number history old new end. Unit {0} };

    fn did_law() {}

    fn make_calls<R: Wait>(&mut self, rt: &R, hall: &Hall<Tape>, pass: &mut Pass<Tape>) {
        for call in 0..self.calls {
            let _ = hall.shared.call(rt, hall.alloc, pass, call % 100);
        }
    }
}

/// Makes no calls.
#[derive(Drop)]
struct Silent;

impl Leader<Tape> for Silent {
    type End = ();

    ghost did = { λ fixed history old new end. Unit {0} };

    fn did_law() {}

    fn lead<R: Wait>(&mut self, _rt: &R, _hall: &Hall<Tape>, _pass: &mut Pass<Tape>) {}
}

/// How many threads, and how many calls each makes.
#[derive(Drop)]
struct Asked {
    threads: usize,
    calls: u64,
}

// None where the words are not two numbers, the first from 1 to 8.
fn read_words<R: Env + AllocGlobal>(rt: &R) -> Option<Asked>
    ensures { IfSome result (λ asked. asked.threads ≤ 8) }
{
    let words: Vec<String> = env::args(rt).ok()?.skip(1).collect(rt.alloc()).ok()?;
    let [threads, calls] = words.as_slice() else {
        return None;
    };
    let threads = threads.as_str().parse::<usize>().ok()?;
    let calls = calls.as_str().parse::<u64>().ok()?;
    if threads < 1 || threads > 8 {
        return None;
    }
    Some(Asked { threads, calls })
}

// A caller for each thread.
fn callers_of(alloc: Global, asked: &Asked) -> Result<Vec<Repeater>, AllocError>
    ensures { IfOk result (λ v. length v.items ≡ asked.now.threads) }
{
    let mut callers = Vec::new(alloc);
    while callers.len() < asked.threads {
        callers.push(Repeater { calls: asked.calls })?;
    }
    Ok(callers)
}

// The tape once all calls are made, and how long they took. None where memory runs out, or there is no clock.
fn measure<R: Threads + Wait + Sync + Clock>(
    rt: &R,
    alloc: Global,
    asked: &Asked,
) -> Option<(Tape, Duration)>
    requires { asked.now.threads ≤ 8 }
{
    let Ok(mut callers) = callers_of(alloc, asked) else {
        return None;
    };
    let begin = Instant::now(rt).ok()?;
    let gathered = gather(
        rt,
        alloc,
        Tape::new(alloc),
        &mut Silent,
        callers.as_mut_slice(),
    )?;
    let took = begin.elapsed(rt).ok()?;
    Some((gathered.machine, took))
}

fn main(rt: HostRuntime) -> ExitCode {
    let Some(asked) = read_words(&rt) else {
        let _ = eprintln!(rt; "usage: tdl_tape_speed THREADS CALLS");
        return ExitCode::from(BAD_WORDS);
    };
    let Some((tape, took)) = measure(&rt, rt.alloc(), &asked) else {
        return ExitCode::from(OUT_OF_MEMORY);
    };
    let _ = eprintln!(rt; "{}", took.as_nanos());
    let _ = println!(rt; "{} entries", tape.as_slice().len());
    ExitCode::SUCCESS
}
