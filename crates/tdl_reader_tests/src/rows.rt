// Rows that are made of others, by the sizes of their tables.
use crate::patterns::{Size, have_sizes};

static RATES: [Size; 5] = [
    Size(b"fast 1 $ s \"bd\"", 1, 0),
    Size(b"fast 2 $ s \"bd\"", 2, 1),
    Size(b"fast (-1) $ s \"bd\"", 2, 1),
    Size(b"fast (-2) $ s \"bd\"", 3, 2),
    Size(b"fast 0 $ s \"bd\"", 2, 0),
];

// Each row that is joined is named once.
static JOINS: [Size; 3] = [
    Size(b"const (fastcat []) $ s \"bd\"", 2, 0),
    Size(b"fastcat [s \"bd\"]", 1, 0),
    Size(b"fastcat [s \"bd\", s \"bd\", s \"bd\"]", 4, 3),
];

#[test]
fn pushes_what_rates_and_joins_need(rt: HostRuntime) {
    assert!(rt; have_sizes(rt.alloc(), &RATES));
    assert!(rt; have_sizes(rt.alloc(), &JOINS));
}
