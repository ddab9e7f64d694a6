// The words that the program is given.
use std::env;
use std::rt::Env;

// So many lines of each of eight performers are as many changes and looks as a history may have.
const MOST_LINES: u32 = 2_000;

const MOST_TICKS: u32 = 100_000;

/// How many lines each performer says, and how many ticks there are.
#[derive(Clone, Copy)]
pub struct Asked {
    pub lines: u32,
    pub ticks: u32,
}

/// None where the words are not two numbers, or where a number is too large.
pub fn read_words<R: Env + AllocGlobal>(rt: &R) -> Option<Asked> {
    let words: Vec<String> = env::args(rt).ok()?.skip(1).collect(rt.alloc()).ok()?;
    let [lines, ticks] = words.as_slice() else {
        return None;
    };
    let lines = lines.as_str().parse::<u32>().ok()?;
    let ticks = ticks.as_str().parse::<u32>().ok()?;
    if lines > MOST_LINES || ticks > MOST_TICKS {
        return None;
    }
    Some(Asked { lines, ticks })
}
