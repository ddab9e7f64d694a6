// Numbers that stand outside a text of mini-notation.
use tdl_mini::number_of;
use tdl_mini_tree::{Number, Tail, is_ratio, is_weight};

fn number(is_negative: bool, whole: u32, tail: Tail) -> Number {
    Number {
        is_negative,
        whole,
        tail,
    }
}

#[test]
fn reads_numbers(rt: HostRuntime) {
    assert!(rt; number_of(b"12") == number(false, 12, Tail::Whole));
    assert!(rt; number_of(b"-3.25") == number(true, 3, Tail::Decimals(2500)));
    assert!(rt; number_of(b"5%8") == number(false, 5, Tail::Over(8)));
}

// The parts of a number, whether it may be a ratio, and whether it may be a weight.
#[derive(Clone, Copy)]
struct Rule(bool, u32, Tail, bool, bool);

// A ratio is at most 65,535 in size and divides by no 0; a weight is a decimal above 0 and below 16,384.
static RULES: [Rule; 7] = [
    Rule(true, 65535, Tail::Whole, true, false),
    Rule(false, 65536, Tail::Whole, false, false),
    Rule(false, 1, Tail::Over(3), true, false),
    Rule(false, 1, Tail::Over(0), false, false),
    Rule(false, 0, Tail::Decimals(1), true, true),
    Rule(false, 0, Tail::Decimals(0), true, false),
    Rule(true, 1, Tail::Whole, true, false),
];

fn are_kept(rules: &[Rule]) -> bool {
    for Rule(is_negative, whole, tail, ratio, weight) in rules {
        let number = number(*is_negative, *whole, *tail);
        if is_ratio(number) != *ratio || is_weight(number) != *weight {
            return false;
        }
    }
    true
}

#[test]
fn tells_what_numbers_may_be(rt: HostRuntime) {
    assert!(rt; are_kept(&RULES));
}
