// Logs.
use std::rt::HostRuntime;
use tdl_answer::SaidLines;
use tdl_control::Faulted;
use tdl_log::{LogKind, read_log};

// No longer text is read.
const MAX_LOG: usize = 1 << 30;

/// Puts what a log has, or its first fault.
pub fn show_log(rt: &HostRuntime, text: &[u8]) {
    if text.len() > MAX_LOG {
        let _ = println!(rt; "too long");
        return;
    }
    let _ = match read_log::<SaidLines>(rt.alloc(), text) {
        Ok(sheet) => {
            println!(rt;
                "entries {} ports {}",
                sheet.history.len(),
                sheet.ends.len()
            )
        }
        Err(Faulted::At { kind, at }) => println!(rt; "refused {} {at}", name_of(kind)),
        Err(Faulted::NoMemory) => println!(rt; "no memory"),
    };
}

fn name_of(kind: LogKind) -> &'static str {
    match kind {
        LogKind::Head => "Head",
        LogKind::Form => "Form",
        LogKind::Order => "Order",
        LogKind::Count => "Count",
    }
}
