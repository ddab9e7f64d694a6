// What queries print.
use super::{AMPLE, devices, run_without_ports};
use crate::words::words_of;
use std::alloc::Global;

// Words, a status, and what is printed.
static QUERIES: [(&[&str], u8, &str); 6] = [
    (
        &["query", "bd/3 sn", "1", "2"],
        0,
        "1/2 2 1 3/2 s=bd\n3/2 2 3/2 2 s=sn\n",
    ),
    (
        &["query", "s \"bd*2 sn\" # n \"<1 2>\"", "0", "2"],
        0,
        "0 1/4 0 1/4 n=1 s=bd\n1/4 1/2 1/4 1/2 n=1 s=bd\n1/2 1 1/2 1 n=1 s=sn\n\
         1 5/4 1 5/4 n=2 s=bd\n5/4 3/2 5/4 3/2 n=2 s=bd\n3/2 2 3/2 2 n=2 s=sn\n",
    ),
    (&["query", "bd?", "1", "0"], 2, "refused Random 2\n"),
    (&["query", "bd", "x", "0"], 2, "refused Fraction from\n"),
    (
        &["query", "bd*512*256", "0", "1"],
        2,
        "refused TooDense 131329\n",
    ),
    (&[], 1, "usage: tdl query|play|serve|drill\n"),
];

fn prints(alloc: Global, words: &[&str], status: u8, text: &str) -> bool {
    let Ok(words) = words_of(alloc, words) else {
        return false;
    };
    let Ok(mut devices) = devices(alloc, b"", AMPLE) else {
        return false;
    };
    let Some(outcome) = run_without_ports(alloc, &words, &mut devices) else {
        return false;
    };
    outcome.status == status
        && outcome.history.is_empty()
        && outcome.ends.is_empty()
        && devices.out.bytes.as_slice() == text.as_bytes()
}

#[test]
fn answers_queries(rt: HostRuntime) {
    for (words, status, text) in &QUERIES {
        assert!(rt; prints(rt.alloc(), words, *status, text));
    }
}
