// Fractions, arcs and tick units. A text that is no fraction, as `-`, stands for none.
ghost use Rattle.std.specs.Prelude.{◌≡◌, ◌≢◌, ◌<◌, ◌≤◌, pos, IfSome, unsigned_abs};

use std::cmp::Ordering;
use tdl_fraction::{Frac, LAST_UNITS, TimeArc, print_units, units_of};

fn number(text: &str) -> Option<Frac> {
    Frac::read(text.as_bytes())
}

// Whether each number is that of its text.
fn are(numbers: &[Option<Frac>], texts: &[&str]) -> bool {
    for (number, text) in numbers.iter().zip(texts) {
        if *number != Frac::read(text.as_bytes()) {
            return false;
        }
    }
    true
}

// Numbers over others, and what they come to.
static MADE: [(i128, u64, &str); 16] = [
    (1, 2, "1/2"),
    (-3, 6, "-1/2"),
    (0, 7, "0"),
    (0, u64::MAX, "0"),
    (1, 0, "-"),
    (0, 0, "-"),
    (68719476736, 1, "68719476736"),
    (-68719476736, 1, "-68719476736"),
    (68719476737, 1, "-"),
    (-68719476737, 1, "-"),
    (1, 17592186044416, "1/17592186044416"),
    (1, 17592186044417, "-"),
    (2, 35184372088832, "1/17592186044416"),
    (i128::MIN, 1, "-"),
    (i128::MIN, u64::MAX, "-"),
    (i128::MAX, u64::MAX, "-"),
];

fn prints(number: Option<Frac>, text: &str) -> bool {
    match number {
        Some(number) => number.print().bytes() == text.as_bytes(),
        None => text == "-",
    }
}

#[test]
fn makes_lowest_terms_in_range(rt: HostRuntime) {
    for (num, den, text) in &MADE {
        assert!(rt; prints(Frac::of(*num, *den), text));
    }
    assert!(rt; prints(Some(Frac::whole(-3)), "-3"));
    assert!(rt; prints(Some(Frac::ten_thousandths(-15000)), "-3/2"));
}

// A fraction whose parts are at most 1,000.
fn small(text: &str) -> Option<Frac>
    ensures { IfSome result (λ x. (unsigned_abs x.num ≤ 1000) × (x.den ≤ 1000)) }
{
    let x = Frac::read(text.as_bytes())?;
    if x.numerator().unsigned_abs() > 1000 || x.denominator() > 1000 {
        return None;
    }
    Some(x)
}

// The sum, the difference, the product and the quotient.
fn results(x: Frac, y: Frac) -> [Option<Frac>; 4]
    requires x_num { unsigned_abs x.num ≤ 1000 }
    requires x_den { x.den ≤ 1000 }
    requires y_num { unsigned_abs y.num ≤ 1000 }
    requires y_den { y.den ≤ 1000 }
    requires y_nonzero { y.num ≢ pos 0 }
{
    let sum = x.add(y);
    let difference = x.sub(y);
    let product = x.mul(y);
    let quotient = x.div(y);
    [Some(sum), Some(difference), Some(product), Some(quotient)]
}

// Two numbers; their sum, difference, product and quotient.
static EXACT: [(&str, &str, [&str; 4]); 6] = [
    ("1/2", "1/3", ["5/6", "1/6", "1/6", "3/2"]),
    ("-7/8", "1/8", ["-3/4", "-1", "-7/64", "-7"]),
    ("3", "-2", ["1", "5", "-6", "-3/2"]),
    ("5/12", "-5/12", ["0", "5/6", "-25/144", "-1"]),
    ("0", "-1/3", ["-1/3", "1/3", "0", "0"]),
    ("7/6", "3/4", ["23/12", "5/12", "7/8", "14/9"]),
];

fn is_exact(x: &str, y: &str, texts: &[&str; 4]) -> bool {
    match (small(x), small(y)) {
        (Some(x), Some(y)) if y.numerator() != 0 => are(&results(x, y), texts),
        _ => false,
    }
}

#[test]
fn computes_exactly(rt: HostRuntime) {
    for (x, y, texts) in &EXACT {
        assert!(rt; is_exact(x, y, texts));
    }
}

// With `plus` added, taken from `plus`, and times a number with `plus` added, over another.
fn moved(x: Frac, times: u64, plus: i64, over: u64) -> [Option<Frac>; 3]
    requires x_num { unsigned_abs x.num ≤ 1000 }
    requires x_den { x.den ≤ 1000 }
    requires times { times ≤ 1000 }
    requires plus { unsigned_abs plus ≤ 1000 }
    requires positive { 0 < over }
    requires over { over ≤ 1000 }
{
    let more = x.add_whole(plus);
    let rest = x.taken_from(plus);
    let all = x.times_plus_over(times, plus, over);
    [Some(more), Some(rest), Some(all)]
}

// A number; by what it is moved; and what it comes to.
static MOVED: [(&str, (u8, i8, u8), [&str; 3]); 6] = [
    ("5/12", (8, -1, 7), ["-7/12", "-17/12", "1/3"]),
    ("-7/8", (1, 2, 3), ["9/8", "23/8", "3/8"]),
    ("0", (5, 0, 4), ["0", "0", "0"]),
    ("3/4", (4, -3, 9), ["-9/4", "-15/4", "0"]),
    ("7/6", (9, 1, 1), ["13/6", "-1/6", "23/2"]),
    ("-5/6", (0, 4, 6), ["19/6", "29/6", "2/3"]),
];

fn is_moved(x: &str, (times, plus, over): (u8, i8, u8), texts: &[&str; 3]) -> bool {
    match small(x) {
        Some(x) if over > 0 => are(
            &moved(x, u64::from(times), i64::from(plus), u64::from(over)),
            texts,
        ),
        _ => false,
    }
}

#[test]
fn moves_by_whole_numbers(rt: HostRuntime) {
    for (x, by, texts) in &MOVED {
        assert!(rt; is_moved(x, *by, texts));
    }
}

// Two numbers; their sum, difference, product and quotient, where these are in range.
static TRIED: [(&str, &str, [&str; 4]); 6] = [
    ("7/6", "3/4", ["23/12", "5/12", "7/8", "14/9"]),
    ("1/2", "0", ["1/2", "1/2", "0", "-"]),
    (
        "68719476736",
        "1/2",
        ["-", "137438953471/2", "34359738368", "-"],
    ),
    (
        "68719476736",
        "-2",
        ["68719476734", "-", "-", "-34359738368"],
    ),
    (
        "1/17592186044416",
        "1/3",
        ["-", "-", "-", "3/17592186044416"],
    ),
    (
        "1/17592186044416",
        "68719476736",
        [
            "-",
            "-1208925819614629174706175/17592186044416",
            "1/256",
            "-",
        ],
    ),
];

fn is_tried(x: &str, y: &str, texts: &[&str; 4]) -> bool {
    let (Some(x), Some(y)) = (number(x), number(y)) else {
        return false;
    };
    are(
        &[x.try_add(y), x.try_sub(y), x.try_mul(y), x.try_div(y)],
        texts,
    )
}

#[test]
fn answers_none_out_of_range(rt: HostRuntime) {
    for (x, y, texts) in &TRIED {
        assert!(rt; is_tried(x, y, texts));
    }
}

static ORDERS: [(&str, &str, Ordering); 4] = [
    ("1/3", "1/2", Ordering::Less),
    ("-1/3", "-1/2", Ordering::Greater),
    ("2/4", "1/2", Ordering::Equal),
    ("-1", "0", Ordering::Less),
];

fn is_ordered(x: &str, y: &str, order: Ordering) -> bool {
    let (Some(x), Some(y)) = (number(x), number(y)) else {
        return false;
    };
    let (low, high) = if order == Ordering::Greater {
        (y, x)
    } else {
        (x, y)
    };
    x.compare(y) == order
        && x.is_less(y) == (order == Ordering::Less)
        && (x == y) == (order == Ordering::Equal)
        && x.min(y) == low
        && x.max(y) == high
}

// A number, and the whole numbers next to it, below and above.
static ROUNDED: [(&str, i64, i64); 4] = [
    ("7/2", 3, 4),
    ("-7/2", -4, -3),
    ("4", 4, 4),
    ("-1/3", -1, 0),
];

fn is_rounded(x: &str, down: i64, up: i64) -> bool {
    match number(x) {
        Some(x) => x.floor() == down && x.ceil() == up,
        None => false,
    }
}

#[test]
fn orders_and_rounds(rt: HostRuntime) {
    for (x, y, order) in &ORDERS {
        assert!(rt; is_ordered(x, y, *order));
    }
    for (x, down, up) in &ROUNDED {
        assert!(rt; is_rounded(x, *down, *up));
    }
}

type Ends = (&'static str, &'static str);

fn arc((start, stop): Ends) -> Option<TimeArc> {
    TimeArc::of(number(start)?, number(stop)?)
}

fn has_ends(arc: Option<TimeArc>, ends: Option<Ends>) -> bool {
    match (arc, ends) {
        (Some(arc), Some((start, stop))) => {
            Some(arc.start()) == number(start) && Some(arc.stop()) == number(stop)
        }
        (None, None) => true,
        _ => false,
    }
}

// Two arcs, and the ends of what they share.
static MEETINGS: [(Ends, Ends, Option<Ends>); 5] = [
    (("0", "1"), ("0", "1"), Some(("0", "1"))),
    (("0", "1"), ("1/2", "3/2"), Some(("1/2", "1"))),
    (("0", "1"), ("1", "2"), None),
    (("0", "1"), ("1/4", "1/3"), Some(("1/4", "1/3"))),
    (("1", "2"), ("1/4", "1/3"), None),
];

fn meet_in(left: Ends, right: Ends, ends: Option<Ends>) -> bool {
    match (arc(left), arc(right)) {
        (Some(left), Some(right)) => {
            has_ends(left.meet(right), ends) && has_ends(right.meet(left), ends)
        }
        _ => false,
    }
}

#[test]
fn arcs_have_width_and_meet_in_their_overlap(rt: HostRuntime) {
    for (left, right, ends) in &MEETINGS {
        assert!(rt; meet_in(*left, *right, *ends));
    }
    assert!(rt; arc(("1/2", "2/4")).is_none());
    assert!(rt; arc(("1/2", "1/3")).is_none());
}

// Texts, and the parts of their fractions.
static READ: [(&str, i128, u64); 7] = [
    ("1/2", 1, 2),
    ("-3/6", -1, 2),
    ("007", 7, 1),
    ("-0/5", 0, 1),
    ("0000000000000000000000012/00000000000016", 3, 4),
    ("68719476736", 68719476736, 1),
    ("-1/17592186044416", -1, 17592186044416),
];

fn reads(text: &str, num: i128, den: u64) -> bool {
    match number(text) {
        Some(number) => number.numerator() == num && number.denominator() == den,
        None => false,
    }
}

static REFUSED: [&str; 13] = [
    "",
    "-",
    "1/",
    "/2",
    "1/0",
    "+1",
    " 1",
    "--1",
    "1/-2",
    "00000000000000000000000001",
    "1/000000000000001",
    "68719476737",
    "1/17592186044417",
];

// Numbers over others, and their texts.
static PRINTED: [(i128, u64, &str); 5] = [
    (-7, 8, "-7/8"),
    (0, 3, "0"),
    (12, 1, "12"),
    (6, 4, "3/2"),
    (
        -1208925819614629174706175,
        17592186044416,
        "-1208925819614629174706175/17592186044416",
    ),
];

#[test]
fn reads_and_prints_texts(rt: HostRuntime) {
    for (text, num, den) in &READ {
        assert!(rt; reads(text, *num, *den));
    }
    for text in &REFUSED {
        assert!(rt; number(text).is_none());
    }
    for (num, den, text) in &PRINTED {
        assert!(rt; prints(Frac::of(*num, *den), text));
    }
}

// Times, and their tick units.
static UNITS: [(&str, Option<u64>); 7] = [
    ("0", Some(0)),
    ("1/46080", Some(1)),
    ("3/2", Some(69_120)),
    ("1048576", Some(LAST_UNITS)),
    ("-1/2", None),
    ("1/7", None),
    ("1/92160", None),
];

// The units of a time, if it prints as they do.
fn count_units(time: &str) -> Option<u64> {
    let units = units_of(number(time)?)?;
    if print_units(units).bytes() == time.as_bytes() {
        Some(units)
    } else {
        None
    }
}

// Arcs, and whether they are those of queries.
static QUERY_ARCS: [(Ends, bool); 5] = [
    (("0", "1048576"), true),
    (("1/3", "1/2"), true),
    (("-1/3", "1/2"), false),
    (("0", "1048577"), false),
    (("0", "1/7"), false),
];

fn is_query_arc(ends: Ends) -> Option<bool> {
    Some(arc(ends)?.is_query_arc())
}

#[test]
fn counts_and_prints_units(rt: HostRuntime) {
    for (time, units) in &UNITS {
        assert!(rt; count_units(time) == *units);
    }
    for (ends, wanted) in &QUERY_ARCS {
        assert!(rt; is_query_arc(*ends) == Some(*wanted));
    }
}
