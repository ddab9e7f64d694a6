// Bundles of OSC.
use std::rt::HostRuntime;
use tdl_control::Faulted;
use tdl_osc::{Arg, Message, OscBundle, OscKind, read};

// No longer text is read.
const MAX_BUNDLE: usize = 1 << 24;

/// Puts what a bundle has, or its first fault.
pub fn show_bundle(rt: &HostRuntime, bytes: &[u8]) {
    if bytes.len() > MAX_BUNDLE {
        let _ = println!(rt; "too long");
        return;
    }
    match read(rt.alloc(), bytes) {
        Ok(bundle) => show_messages(rt, &bundle),
        Err(Faulted::At { kind, at }) => {
            let _ = println!(rt; "refused {} {at}", name_of(kind));
        }
        Err(Faulted::NoMemory) => {
            let _ = println!(rt; "no memory");
        }
    }
}

// The time tag, and each message.
fn show_messages(rt: &HostRuntime, bundle: &OscBundle) {
    let _ = print!(rt; "{}", bundle.timetag);
    for place in 0..bundle.messages.len() {
        show_message(rt, bundle.messages.get(place));
    }
    let _ = println!(rt);
}

// The sizes of the address and of each text, and each number.
fn show_message(rt: &HostRuntime, message: &Message) {
    let _ = print!(rt; " /{}", message.address.bytes().len());
    for place in 0..message.args.len() {
        let _ = match message.args.get(place) {
            Arg::Int(number) => print!(rt; " i{number}"),
            Arg::Word(text) => print!(rt; " s{}", text.bytes().len()),
        };
    }
}

fn name_of(kind: OscKind) -> &'static str {
    match kind {
        OscKind::BadHead => "BadHead",
        OscKind::Short => "Short",
        OscKind::BadPad => "BadPad",
        OscKind::BadTag => "BadTag",
        OscKind::BadSize => "BadSize",
        OscKind::BadAddress => "BadAddress",
        OscKind::NotAscii => "NotAscii",
    }
}
