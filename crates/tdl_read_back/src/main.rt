//! Reads back what runs leave: `tdl_read_back logs` or `tdl_read_back bundles`. Standard input has texts one after
//! another, each after its size in four bytes, the highest first. What it puts is a line for each: what was read, or the
//! first fault and its place.
#![tactic(auto)]

mod bundles;
mod logs;

use crate::bundles::show_bundle;
use crate::logs::show_log;
use byteorder::{BigEndian, ByteOrder};
use std::env;
use std::io::{self, Read};
use std::process::ExitCode;
use std::rt::{Env, HostRuntime};

const BAD_WORDS: u8 = 1;

const NOT_READ: u8 = 2;

// How many bytes a size has.
const SIZE: usize = 4;

/// What the texts are.
#[derive(Clone, Copy)]
enum Texts {
    Logs,
    Bundles,
}

// None where the words are not one that names texts.
fn read_words<R: Env + AllocGlobal>(rt: &R) -> Option<Texts> {
    let words: Vec<String> = env::args(rt).ok()?.skip(1).collect(rt.alloc()).ok()?;
    let [word] = words.as_slice() else {
        return None;
    };
    match word.as_str() {
        "logs" => Some(Texts::Logs),
        "bundles" => Some(Texts::Bundles),
        _ => None,
    }
}

// All of standard input.
fn read_input(rt: &HostRuntime) -> io::Result<Vec<u8>> {
    let mut bytes = Vec::new(rt.alloc());
    rt.stdin().read_to_end(&mut bytes)?;
    Ok(bytes)
}

// The next text, and what follows it. None where there is none that is whole.
fn next_text(rest: &[u8]) -> Option<(&[u8], &[u8])> {
    if rest.len() < SIZE {
        return None;
    }
    let (size, rest) = rest.split_at(SIZE);
    let size = BigEndian::read_u32(size) as usize;
    if rest.len() < size {
        return None;
    }
    Some(rest.split_at(size))
}

// A line for each text. Each has its size before it, so that there are fewer texts than bytes.
fn show_all(rt: &HostRuntime, texts: Texts, input: &[u8]) {
    let mut rest = input;
    for _ in 0..input.len() {
        let Some((text, others)) = next_text(rest) else {
            break;
        };
        match texts {
            Texts::Logs => show_log(rt, text),
            Texts::Bundles => show_bundle(rt, text),
        }
        rest = others;
    }
}

fn main(rt: HostRuntime) -> ExitCode {
    let Some(texts) = read_words(&rt) else {
        let _ = eprintln!(rt; "usage: tdl_read_back logs|bundles");
        return ExitCode::from(BAD_WORDS);
    };
    let Ok(input) = read_input(&rt) else {
        return ExitCode::from(NOT_READ);
    };
    show_all(&rt, texts, &input);
    ExitCode::SUCCESS
}
