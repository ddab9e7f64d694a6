// What is put of a show.
use crate::calls::{Accepted, Called, Fault};
use crate::crowd::Show;
use std::rt::HostRuntime;
use tdl_core::Reply;

/// Puts how many entries the history has, the calls, and what is to be sent.
pub fn put_show(rt: &HostRuntime, show: &Show) -> Result<(), Fault> {
    let _ = println!(rt; "entries {}", show.entries);
    for performer in &show.performers {
        put_calls(rt, performer.told());
    }
    put_calls(rt, show.ticker.told());
    for reply in show.ticker.replies() {
        put_sent(rt, reply)?;
    }
    Ok(())
}

fn put_calls(rt: &HostRuntime, calls: &[Accepted]) {
    for Accepted { place, called } in calls {
        let _ = match called {
            Called::Line { who, text } => println!(rt; "{place} p{who} {text}"),
            Called::Tick { to } => println!(rt; "{place} tick {to}"),
            Called::Finish => println!(rt; "{place} finish"),
        };
    }
}

// Puts what goes to the wires with the reply.
fn put_sent(rt: &HostRuntime, reply: &Reply) -> Result<(), Fault> {
    match reply {
        Reply::Ticked { osc, midi, .. } => {
            for place in 0..osc.len() {
                put_bytes(rt, "osc", osc.get(place).bytes())?;
            }
            for place in 0..midi.len() {
                put_bytes(rt, "midi", midi.get(place))?;
            }
        }
        Reply::Finished { midi, .. } => {
            for place in 0..midi.len() {
                put_bytes(rt, "midi", midi.get(place))?;
            }
        }
        Reply::Swapped { .. } | Reply::Looked { .. } => {}
    }
    Ok(())
}

// Puts bytes that go to a wire.
fn put_bytes(rt: &HostRuntime, wire: &str, bytes: &[u8]) -> Result<(), Fault> {
    let digits = hex::encode(rt.alloc(), bytes)?;
    let _ = println!(rt; "{wire} {}", digits.as_str());
    Ok(())
}
