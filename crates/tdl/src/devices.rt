// The devices of a run. No file of the last run is emptied before every device is there.
ghost use Rattle.std.specs.Prelude.{◌≡◌, [], length, map, string_bytes, IfOk};
ghost use Rattle.tdl_app.specs.Ran.{HasPorts};

use crate::records::{Records, Unmade, bound, named};
use std::io;
use std::net::{Ipv4Addr, TcpListener, TcpStream};
use std::time::Duration;
use tdl_app::{Outside, Port, Ports, WordsFault, cps_of, ports_of};
use tdl_io::{
    Absent, AnyClock, AnySink, AnySource, AnyWire, Plain, SleepClock, StdSink, StdSource, UdpWire,
};

// Where performers connect.
const LISTENER: (Ipv4Addr, u16) = (Ipv4Addr::LOCALHOST, 6110);

const LISTENER_NAME: &str = "port 6110";

const CONNECTION: &str = "connection";

// A put fails that a performer's connection does not take for so many seconds.
const PATIENCE: u64 = 5;

pub(crate) type Devices = Outside<AnySource, AnySink, AnyWire, AnyClock>;

type PerformerPorts = Ports<AnySource, AnySink>;

// The devices that the words ask for; where they are not in the word grammar, standard output alone.
pub(crate) fn devices_for(rt: HostRuntime, words: &[String]) -> Result<Devices, Unmade>
    ensures { IfOk result (λ devices. HasPorts (map string_bytes words.now) devices) }
{
    match ports_of(rt.alloc(), words) {
        Ok(0) => without_ports(rt, words),
        Ok(performers) => of_serve(rt, words, performers),
        Err(WordsFault::BadWords) => Ok(none(rt)),
        Err(WordsFault::NoMemory) => Err(Unmade::NoMemory),
    }
}

// The devices of a mode that serves nobody.
fn without_ports(rt: HostRuntime, words: &[String]) -> Result<Devices, Unmade>
    ensures { IfOk result (λ devices. devices.ports.items ≡ []) }
{
    if has_mode(words, "play") {
        of_script(rt, AnySource::Standard(StdSource::of(rt.stdin())))
    } else if has_mode(words, "drill") {
        of_script(rt, AnySource::Absent(Absent))
    } else {
        Ok(none(rt))
    }
}

// Whether the first word is this mode.
fn has_mode(words: &[String], mode: &str) -> bool {
    matches!(words, [first, ..] if first.as_str() == mode)
}

// Standard output alone.
fn none(rt: HostRuntime) -> Devices
    ensures { result.ports.items ≡ [] }
{
    Outside {
        input: AnySource::Absent(Absent),
        out: AnySink::Standard(StdSink::of(rt.stdout())),
        log: AnySink::Absent(Absent),
        osc: AnyWire::Absent(Absent),
        midi: AnyWire::Absent(Absent),
        clock: AnyClock::Absent(Absent),
        ports: Ports::new(rt.alloc()),
    }
}

// What plays: the wires, the file of MIDI messages and the log, with this input, this clock and these ports.
fn playing(
    rt: HostRuntime,
    records: Records,
    input: AnySource,
    clock: AnyClock,
    ports: PerformerPorts,
) -> Devices
    ensures { result.ports ≡ ports }
{
    let Records { osc, log, midi } = records;
    Outside {
        input,
        out: AnySink::Standard(StdSink::of(rt.stdout())),
        log: AnySink::File(StdSink::of(log)),
        osc: AnyWire::Udp(osc),
        midi: AnyWire::Plain(Plain::of(StdSink::of(midi))),
        clock,
        ports,
    }
}

// A device takes the lowest descriptor that is free, which is that of a standard stream where this is closed: so
// sockets that are dropped again take these first.
fn standard(rt: HostRuntime) -> Result<[UdpWire; 3], Unmade> {
    Ok([bound(&rt)?, bound(&rt)?, bound(&rt)?])
}

// A script, which this input has if the run does not make it.
fn of_script(rt: HostRuntime, script: AnySource) -> Result<Devices, Unmade>
    ensures { IfOk result (λ devices. devices.ports.items ≡ []) }
{
    let standard = standard(rt)?;
    let records = Records::open(&rt)?;
    records.empty()?;
    drop(standard);
    let ports = Ports::new(rt.alloc());
    Ok(playing(rt, records, script, AnyClock::Absent(Absent), ports))
}

// So many performers, beside the clock.
fn of_serve(rt: HostRuntime, words: &[String], performers: u32) -> Result<Devices, Unmade>
    ensures { IfOk result (λ devices. length devices.ports.items ≡ performers) }
{
    let clock = clock_for(rt, words)?;
    let standard = standard(rt)?;
    let records = Records::open(&rt)?;
    let ports = connected(rt, performers)?;
    records.empty()?;
    drop(standard);
    Ok(playing(rt, records, AnySource::Absent(Absent), clock, ports))
}

// The clock at the cycles a second that the words ask for, which are in the word grammar.
fn clock_for(rt: HostRuntime, words: &[String]) -> Result<AnyClock, Unmade> {
    match cps_of(rt.alloc(), words) {
        Ok(cps) => Ok(AnyClock::Sleep(SleepClock::of(rt, cps))),
        Err(_) => Err(Unmade::NoMemory),
    }
}

// The ports of so many performers, in the order in which they connect. Once they are there nobody else is let in.
fn connected(rt: HostRuntime, performers: u32) -> Result<PerformerPorts, Unmade>
    ensures { IfOk result (λ ports. length ports.items ≡ performers) }
{
    let listener = named(LISTENER_NAME, TcpListener::bind(&rt, LISTENER))?;
    let mut ports = Ports::new(rt.alloc());
    for _ in 0..performers {
        let (stream, _) = named(CONNECTION, listener.accept())?;
        let port = named(CONNECTION, port_of(stream))?;
        let Ok(()) = ports.push(port) else {
            return Err(Unmade::NoMemory);
        };
    }
    Ok(ports)
}

// A performer's port: each reply goes out at once.
fn port_of(stream: TcpStream) -> io::Result<Port<AnySource, AnySink>> {
    stream.set_nodelay(true)?;
    stream.set_write_timeout(Some(Duration::from_secs(PATIENCE)))?;
    let replies = stream.try_clone()?;
    Ok(Port {
        source: AnySource::Stream(StdSource::of(stream)),
        sink: AnySink::Stream(StdSink::of(replies)),
    })
}
