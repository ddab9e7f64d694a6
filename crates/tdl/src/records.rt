// What a run that plays sends and writes, and why devices are not there.
use std::fs::{File, OpenOptions};
use std::io;
use tdl_io::UdpWire;

const LOG: &str = "tdl.log";

const MIDI: &str = "midi.out";

// Why devices are not there: one cannot be made, for the system's reason, or memory ran out.
#[derive(Drop)]
pub(crate) enum Unmade {
    NoDevice {
        name: &'static str,
        reason: io::Error,
    },
    NoMemory,
}

// A device, by this name where it cannot be made.
pub(crate) fn named<T>(name: &'static str, made: io::Result<T>) -> Result<T, Unmade> {
    match made {
        Ok(device) => Ok(device),
        Err(reason) => Err(Unmade::NoDevice { name, reason }),
    }
}

// A socket of UDP.
pub(crate) fn bound(rt: &HostRuntime) -> Result<UdpWire, Unmade> {
    named("socket", UdpWire::bind(rt))
}

// The wire to the sound engine, and the files of the log and of MIDI messages.
#[derive(Drop)]
pub(crate) struct Records {
    pub osc: UdpWire,
    pub log: File,
    pub midi: File,
}

impl Records {
    // The files have what the last run left.
    pub fn open(rt: &HostRuntime) -> Result<Records, Unmade> {
        Ok(Records {
            osc: bound(rt)?,
            log: named(LOG, opened(rt, LOG))?,
            midi: named(MIDI, opened(rt, MIDI))?,
        })
    }

    // Takes away what the last run left.
    pub fn empty(&self) -> Result<(), Unmade> {
        named(LOG, empty(&self.log))?;
        named(MIDI, empty(&self.midi))
    }
}

fn opened(rt: &HostRuntime, name: &'static str) -> io::Result<File> {
    OpenOptions::new().write(true).create(true).open(rt, name)
}

// A pipe or a terminal keeps nothing that would be taken away.
fn empty(file: &File) -> io::Result<()> {
    if file.metadata()?.is_file() {
        file.set_len(0)
    } else {
        Ok(())
    }
}
