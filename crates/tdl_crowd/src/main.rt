//! Eight performers and a ticker share one core, each on a thread of its own. What it puts is how many entries the
//! history has, a line for each accepted call with its place in it, and what is to be sent.
#![tactic(auto)]

mod calls;
mod crowd;
mod lines;
mod performers;
mod texts;
mod ticker;
mod words;

use crate::calls::Fault;
use crate::crowd::perform;
use crate::lines::put_show;
use crate::words::read_words;
use std::process::ExitCode;

const BAD_WORDS: u8 = 1;

const OUT_OF_MEMORY: u8 = 3;

const OTHER_REPLY: u8 = 4;

fn status_of(fault: Fault) -> ExitCode {
    match fault {
        Fault::NoMemory => ExitCode::from(OUT_OF_MEMORY),
        Fault::OtherReply => ExitCode::from(OTHER_REPLY),
    }
}

fn main(rt: HostRuntime) -> ExitCode {
    let Some(asked) = read_words(&rt) else {
        let _ = eprintln!(rt; "usage: tdl_crowd LINES TICKS");
        return ExitCode::from(BAD_WORDS);
    };
    let shown = perform(&rt, rt.alloc(), asked);
    match shown {
        Ok(show) => match put_show(&rt, &show) {
            Ok(()) => ExitCode::SUCCESS,
            Err(fault) => status_of(fault),
        },
        Err(fault) => status_of(fault),
    }
}
