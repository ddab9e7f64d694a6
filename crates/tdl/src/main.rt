//! The program `tdl`: it makes the devices, calls `run` and ends with its status.
#![tactic(auto)]

mod devices;
mod records;

use crate::devices::devices_for;
use crate::records::Unmade;
use std::alloc::AllocError;
use std::io::ErrorKind;
use std::process::ExitCode;
use std::rt::Env;
use std::{env, mem};
use tdl_app::run;

const OUT_OF_MEMORY: u8 = 3;

const NO_DEVICE: u8 = 8;

fn main(rt: HostRuntime) -> ExitCode {
    let Ok(words) = words(&rt) else {
        return ExitCode::from(OUT_OF_MEMORY);
    };
    let mut outside = match devices_for(rt, &words) {
        Ok(outside) => outside,
        Err(Unmade::NoMemory) => return ExitCode::from(OUT_OF_MEMORY),
        Err(Unmade::NoDevice { name, reason }) => {
            let _ = eprintln!(rt; "no device\n{name}: {reason}");
            return ExitCode::from(NO_DEVICE);
        }
    };
    let outcome = run(&rt, rt.alloc(), &words, &mut outside);
    let status = outcome.status;
    // The system takes back what the history holds at once, however long it is.
    mem::forget(outcome);
    ExitCode::from(status)
}

// The words after the program's name, and none where one of them is no text. The error is out of
// memory.
fn words<R: Env + AllocGlobal>(rt: &R) -> Result<Vec<String>, AllocError> {
    let alloc = rt.alloc();
    match env::args(rt) {
        Ok(words) => words.skip(1).collect(alloc),
        Err(error) if error.kind() == ErrorKind::OutOfMemory => Err(AllocError),
        Err(_) => Ok(Vec::new(alloc)),
    }
}
