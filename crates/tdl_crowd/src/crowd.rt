// All callers, from the start of their session to its end.
ghost use Rattle.std.specs.Prelude.{◌≡◌, [], IfOk};

use crate::calls::{Ended, Fault};
use crate::performers::{Performer, performers_of};
use crate::ticker::Ticker;
use crate::words::Asked;
use std::alloc::Global;
use std::sync::Wait;
use std::thread::Threads;
use tdl_core::Core;
use tdl_fraction::Frac;
use tdl_session::gather;
use tdl_tempo::Tempo;

// The time tag of the first cycle's begin, in seconds.
const ORIGIN: u32 = 7;

/// What all were answered, and how many entries the history has.
#[derive(Drop)]
pub struct Show {
    pub entries: u32,
    pub performers: Vec<Performer>,
    pub ticker: Ticker,
}

/// All say and play what is asked for, side by side.
pub fn perform<R: Threads + Wait + Sync>(
    rt: &R,
    alloc: Global,
    asked: Asked,
) -> Result<Show, Fault> {
    let mut performers = performers_of(alloc, asked.lines)?;
    let mut ticker = Ticker::of(alloc, asked.ticks);
    let core = new_core(alloc)?;
    let Some(gathered) = gather(rt, alloc, core, &mut ticker, performers.as_mut_slice()) else {
        return Err(Fault::NoMemory);
    };
    gathered.led?;
    first_fault(&gathered.ends)?;
    Ok(Show {
        entries: gathered.machine.history().len(),
        performers,
        ticker,
    })
}

// A core that has accepted nothing, at the usual tempo.
fn new_core(alloc: Global) -> Result<Core, Fault>
    ensures { IfOk result (λ core. core.history ≡ []) }
{
    let Some(tempo) = Frac::of(9, 16).and_then(|cps| Tempo::of(cps, ORIGIN)) else {
        return Err(Fault::OtherReply);
    };
    Ok(Core::start(alloc, tempo)?)
}

// The first fault of those that ended.
fn first_fault(ends: &[Ended]) -> Ended {
    for end in ends {
        (*end)?;
    }
    Ok(())
}
