// Euclidean rhythms.
use tdl_euclid::{Bits, EuclidFault, rhythm};

// Rhythms: hits, steps, the step that they begin at, and the values, `x` for true.
static RHYTHMS: [(i32, u32, i32, &str); 42] = [
    (1, 2, 0, "x."),
    (2, 5, 0, "x.x.."),
    (3, 4, 0, "xxx."),
    (3, 5, 0, "x.x.x"),
    (3, 7, 0, "x.x.x.."),
    (3, 8, 0, "x..x..x."),
    (4, 7, 0, "x.x.x.x"),
    (4, 9, 0, "x.x.x.x.."),
    (4, 11, 0, "x..x..x..x."),
    (5, 6, 0, "xxxxx."),
    (5, 7, 0, "x.xx.xx"),
    (5, 8, 0, "x.xx.xx."),
    (5, 9, 0, "x.x.x.x.x"),
    (5, 11, 0, "x.x.x.x.x.."),
    (5, 12, 0, "x..x.x..x.x."),
    (5, 13, 0, "x..x.x..x.x.."),
    (5, 16, 0, "x..x..x..x..x..."),
    (7, 8, 0, "xxxxxxx."),
    (7, 12, 0, "x.xx.x.xx.x."),
    (7, 16, 0, "x..x.x.x..x.x.x."),
    (9, 16, 0, "x.xx.x.x.xx.x.x."),
    (11, 24, 0, "x..x.x.x.x.x..x.x.x.x.x."),
    (13, 24, 0, "x.xx.x.x.x.x.xx.x.x.x.x."),
    // turned, and with hits and rests exchanged
    (3, 8, 2, ".x..x.x."),
    (3, 8, -1, ".x..x..x"),
    (3, 8, 8, "x..x..x."),
    (3, 8, i32::MAX, ".x..x..x"),
    (3, 8, i32::MIN, "x..x..x."),
    (4, 11, -1, ".x..x..x..x"),
    (-3, 8, 0, ".xx.xx.x"),
    (-5, 12, 3, ".x.xx.x.x.xx"),
    (0, 1, 0, "."),
    (1, 1, 3, "x"),
    (-1, 1, 0, "."),
    (0, 4, 1, "...."),
    (-4, 4, 0, "...."),
    (4, 4, 1, "xxxx"),
    // the most steps
    (
        61,
        128,
        0,
        "x..x.x.x.x.x.x.x.x.x.x..x.x.x.x.x.x.x.x.x.x..x.x.x.x.x.x.x.x.x.x..\
         x.x.x.x.x.x.x.x.x.x..x.x.x.x.x.x.x.x.x.x..x.x.x.x.x.x.x.x.x.x.",
    ),
    (
        -61,
        128,
        77,
        "x.x.x.x.xx.x.x.x.x.x.x.x.x.x.xx.x.x.x.x.x.x.x.x.x.x.xx.x.x.x.x.x.x\
         .x.x.x.xx.x.x.x.x.x.x.x.x.x.xx.x.x.x.x.x.x.x.x.x.xx.x.x.x.x.x.",
    ),
    (
        128,
        128,
        127,
        "xxxxxxxxxxxxxxxxxxxxxxxxxxxxxxxxxxxxxxxxxxxxxxxxxxxxxxxxxxxxxxxx\
         xxxxxxxxxxxxxxxxxxxxxxxxxxxxxxxxxxxxxxxxxxxxxxxxxxxxxxxxxxxxxxxx",
    ),
    (
        -128,
        128,
        127,
        "................................................................\
         ................................................................",
    ),
    (
        0,
        128,
        127,
        "................................................................\
         ................................................................",
    ),
];

// Whether the list has the values of a text.
fn shows(bits: Bits, text: &str) -> bool {
    let letters = text.as_bytes();
    if bits.len() as usize != letters.len() {
        return false;
    }
    for (i, letter) in letters.iter().enumerate() {
        if bits.get(i as u32) != (*letter == b'x') {
            return false;
        }
    }
    true
}

fn plays(k: i32, n: u32, r: i32, text: &str) -> bool {
    match rhythm(k, n, r) {
        Ok(bits) => shows(bits, text),
        Err(_) => false,
    }
}

#[test]
fn spreads_hits(rt: HostRuntime) {
    for (k, n, r, text) in &RHYTHMS {
        assert!(rt; plays(*k, *n, *r, text));
    }
}

static REFUSED: [(i32, u32, EuclidFault); 9] = [
    (0, 0, EuclidFault::ZeroSteps),
    (i32::MIN, 0, EuclidFault::ZeroSteps),
    (1, 129, EuclidFault::TooManySteps { n: 129 }),
    (1_000, 129, EuclidFault::TooManySteps { n: 129 }),
    (1, u32::MAX, EuclidFault::TooManySteps { n: u32::MAX }),
    (9, 8, EuclidFault::TooManyHits { k: 9, n: 8 }),
    (-9, 8, EuclidFault::TooManyHits { k: -9, n: 8 }),
    (129, 128, EuclidFault::TooManyHits { k: 129, n: 128 }),
    (
        i32::MIN,
        128,
        EuclidFault::TooManyHits {
            k: i32::MIN,
            n: 128,
        },
    ),
];

#[test]
fn refuses_other_numbers(rt: HostRuntime) {
    for (k, n, fault) in &REFUSED {
        assert!(rt; rhythm(*k, *n, 0).err() == Some(*fault));
    }
}
