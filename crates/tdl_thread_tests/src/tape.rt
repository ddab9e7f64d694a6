use std::alloc::Global;
use std::sync::Wait;
use tdl_session::Shared;
use tdl_tape::{Refusal, Tape};

// Whether 100 is refused, and the next call, with 5, succeeds.
fn refuses_a_hundred<R: Wait>(rt: &R, alloc: Global) -> bool {
    let Ok((shared, mut pass)) = Shared::start(alloc, Tape::new(alloc)) else {
        return false;
    };
    let before = shared.call(rt, alloc, &mut pass, 7);
    let refused = shared.call(rt, alloc, &mut pass, 100);
    let after = shared.call(rt, alloc, &mut pass, 5);
    before == Ok(0) && refused == Err(Refusal::TooLarge { entries: 1 }) && after == Ok(1)
}

#[test]
fn a_number_above_99_is_refused(rt: HostRuntime) {
    assert!(rt; refuses_a_hundred(&rt, rt.alloc()));
}
