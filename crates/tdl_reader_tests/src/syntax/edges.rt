// Faults at the edges of the rules, with their offsets.
use super::faults::Fault;
use tdl_mini_tree::MiniKind;

pub static SOUNDS: [Fault; 44] = [
    Fault(MiniKind::Random, b"bd? sn", 2),
    Fault(MiniKind::Unexpected, b"[bd", 3),
    Fault(MiniKind::Variable, b"bd ^x", 3),
    Fault(MiniKind::BadFactor, b"bd*70000", 3),
    Fault(MiniKind::BadFactor, b"bd@16384", 3),
    Fault(MiniKind::TooManySteps, b"bd@9000 sn@9000", 8),
    Fault(MiniKind::Unexpected, b"bd!3!2", 5),
    Fault(MiniKind::Unexpected, b"! bd", 0),
    Fault(MiniKind::BadFactor, b"bd!1.5", 3),
    Fault(MiniKind::Unexpected, b"bd!3a", 3),
    Fault(MiniKind::FloatValue, b"bd:1.5", 3),
    Fault(MiniKind::Unexpected, b"bd:-1", 3),
    Fault(
        MiniKind::Unexpected,
        b"000000000000000000000000000000001",
        0,
    ),
    Fault(MiniKind::TooManySteps, b"bd!1024 sn!3", 8),
    Fault(MiniKind::TooManySteps, b"bd!1023 sn!3", 10),
    Fault(MiniKind::UnknownSign, b"bd -a", 3),
    Fault(MiniKind::UnknownSign, b"bd -3a", 3),
    Fault(MiniKind::Unexpected, b"bd [sn", 6),
    Fault(MiniKind::Unexpected, b"bd [sn>", 6),
    Fault(MiniKind::Random, b"bd?", 2),
    Fault(MiniKind::Random, b"bd | sn", 3),
    Fault(MiniKind::Variable, b"^bd", 0),
    Fault(MiniKind::BadEuclid, b"bd(3,129)", 8),
    Fault(MiniKind::BadEuclid, b"bd(9,<16 8>)", 11),
    Fault(MiniKind::Unexpected, b"bd(3)", 4),
    Fault(MiniKind::Unexpected, b"bd(3,8,0,1)", 8),
    Fault(MiniKind::FloatValue, b"bd(1.5,8)", 3),
    Fault(MiniKind::BadFactor, b"bd*1%0", 3),
    Fault(MiniKind::BadFactor, b"bd@0", 3),
    Fault(MiniKind::BadFactor, b"bd!0", 3),
    Fault(MiniKind::TooManySteps, b"bd!1024 sn", 8),
    Fault(MiniKind::TooManySteps, b"bd@16383 sn@2", 9),
    Fault(MiniKind::Unexpected, b"_ bd", 0),
    Fault(MiniKind::Unexpected, b"{bd}%", 5),
    Fault(MiniKind::Unexpected, b"c#4", 0),
    Fault(MiniKind::FloatValue, b"1.5", 0),
    Fault(MiniKind::UnknownSign, b"bd a-b", 4),
    Fault(MiniKind::TooDeep, b"[[[[[[[[[[[[[[[[[bd", 16),
    Fault(MiniKind::Unexpected, b"b!1023 b!3a", 9),
    Fault(MiniKind::Unexpected, b"b!1024!2", 7),
    Fault(MiniKind::Unexpected, b"b@16383 _!2", 10),
    Fault(MiniKind::Unexpected, b"b@16383 b!3a", 10),
    Fault(MiniKind::TooManySteps, b"b!1023 b! 3a", 8),
    Fault(MiniKind::TooManySteps, b"b!1024 ! ]", 7),
];

pub static NOTES: [Fault; 11] = [
    Fault(MiniKind::FloatValue, b"1.5", 0),
    Fault(MiniKind::NumberTooLarge, b"-2147483648", 0),
    Fault(MiniKind::FloatValue, b"-1.5", 0),
    Fault(MiniKind::FloatValue, b"1.5 .. 2", 0),
    Fault(MiniKind::FloatValue, b"0 .. 1.5", 5),
    Fault(MiniKind::Unexpected, b"c .. e", 2),
    Fault(MiniKind::Unexpected, b"0 .. e", 5),
    Fault(MiniKind::Unexpected, b"c4s", 0),
    Fault(MiniKind::Unexpected, b"c123", 0),
    Fault(MiniKind::Unexpected, b"h", 0),
    Fault(MiniKind::TooManySteps, b"0 .. 1024", 0),
];

pub static INTEGERS: [Fault; 2] = [
    Fault(MiniKind::FloatValue, b"1 .. 2.5", 5),
    Fault(MiniKind::Unexpected, b"e", 0),
];

pub static WORDS: [Fault; 1] = [Fault(MiniKind::Unexpected, b"3", 0)];

pub static TRUTHS: [Fault; 4] = [
    Fault(MiniKind::Unexpected, b"01", 0),
    Fault(MiniKind::Unexpected, b"-0", 0),
    Fault(MiniKind::Unexpected, b"t fo", 2),
    Fault(MiniKind::Unexpected, b"2", 0),
];

pub static COUNTS: [Fault; 3] = [
    Fault(MiniKind::FloatValue, b"1.5 .. 2", 0),
    Fault(MiniKind::BadFactor, b"0 .. 65536", 5),
    Fault(MiniKind::BadFactor, b"65536", 0),
];

pub static RATIOS: [Fault; 6] = [
    Fault(MiniKind::BadFactor, b"-70000", 0),
    Fault(MiniKind::Unexpected, b"1.2%3", 3),
    Fault(MiniKind::Unexpected, b"1.5 .. 2", 4),
    Fault(MiniKind::Unexpected, b"1 .. 2.5", 5),
    Fault(MiniKind::BadFactor, b"65536 .. 0", 0),
    Fault(MiniKind::BadFactor, b"1.5 3%0", 4),
];
