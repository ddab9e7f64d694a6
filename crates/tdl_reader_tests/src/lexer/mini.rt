// Texts of mini-notation, and what they are cut into, or their first fault.
use super::{Case, Fault, Piece};
use tdl_lexer::{LexKind, Sign};

pub static CASES: [Case; 16] = [
    Case(b"", &[Piece(Sign::End, 0, 0)]),
    Case(b"  ", &[Piece(Sign::End, 2, 2)]),
    Case(
        b"bd*2 ~",
        &[
            Piece(Sign::Word, 0, 2),
            Piece(Sign::Mark, 2, 3),
            Piece(Sign::Number, 3, 4),
            Piece(Sign::Mark, 5, 6),
            Piece(Sign::End, 6, 6),
        ],
    ),
    Case(
        b" 1..2",
        &[
            Piece(Sign::Number, 1, 2),
            Piece(Sign::Mark, 2, 4),
            Piece(Sign::Number, 4, 5),
            Piece(Sign::End, 5, 5),
        ],
    ),
    Case(
        b"-1.5 -02",
        &[
            Piece(Sign::Number, 0, 4),
            Piece(Sign::Number, 5, 8),
            Piece(Sign::End, 8, 8),
        ],
    ),
    Case(
        b"a-1",
        &[
            Piece(Sign::Word, 0, 1),
            Piece(Sign::Number, 1, 3),
            Piece(Sign::End, 3, 3),
        ],
    ),
    Case(
        b"3%8%2",
        &[
            Piece(Sign::Number, 0, 3),
            Piece(Sign::Mark, 3, 4),
            Piece(Sign::Number, 4, 5),
            Piece(Sign::End, 5, 5),
        ],
    ),
    Case(
        b"1%a",
        &[
            Piece(Sign::Number, 0, 1),
            Piece(Sign::Mark, 1, 2),
            Piece(Sign::Word, 2, 3),
            Piece(Sign::End, 3, 3),
        ],
    ),
    Case(
        b"a . ...",
        &[
            Piece(Sign::Word, 0, 1),
            Piece(Sign::Mark, 2, 3),
            Piece(Sign::Mark, 4, 6),
            Piece(Sign::Mark, 6, 7),
            Piece(Sign::End, 7, 7),
        ],
    ),
    Case(
        b"_ a_# 1a",
        &[
            Piece(Sign::Mark, 0, 1),
            Piece(Sign::Word, 2, 5),
            Piece(Sign::Word, 6, 8),
            Piece(Sign::End, 8, 8),
        ],
    ),
    Case(
        b"<!?|^",
        &[
            Piece(Sign::Mark, 0, 1),
            Piece(Sign::Mark, 1, 2),
            Piece(Sign::Mark, 2, 3),
            Piece(Sign::Mark, 3, 4),
            Piece(Sign::Mark, 4, 5),
            Piece(Sign::End, 5, 5),
        ],
    ),
    Case(
        b"2147483647.9999",
        &[Piece(Sign::Number, 0, 15), Piece(Sign::End, 15, 15)],
    ),
    Case(
        b"00000000000007",
        &[Piece(Sign::Number, 0, 14), Piece(Sign::End, 14, 14)],
    ),
    Case(
        b"1%65535",
        &[Piece(Sign::Number, 0, 7), Piece(Sign::End, 7, 7)],
    ),
    Case(b"1%0", &[Piece(Sign::Number, 0, 3), Piece(Sign::End, 3, 3)]),
    Case(
        b"abcdefghijklmnopqrstuvwxyz_12345",
        &[Piece(Sign::Word, 0, 32), Piece(Sign::End, 32, 32)],
    ),
];

pub static FAULTS: [Fault; 22] = [
    Fault(b"a \x80", LexKind::NotAscii, 2),
    Fault(b"1.5\xff", LexKind::NotAscii, 3),
    Fault(b"a\t", LexKind::UnknownSign, 1),
    Fault(b"\x7f", LexKind::UnknownSign, 0),
    Fault(b"a\"", LexKind::UnknownSign, 1),
    Fault(b"1.5a", LexKind::UnknownSign, 3),
    Fault(b"1%2#", LexKind::UnknownSign, 3),
    Fault(b"1.", LexKind::UnknownSign, 1),
    Fault(b"1...2", LexKind::UnknownSign, 3),
    Fault(b"1.2.3", LexKind::UnknownSign, 3),
    Fault(b"a.b", LexKind::UnknownSign, 1),
    Fault(b"- 1", LexKind::UnknownSign, 0),
    Fault(b"1 -1a", LexKind::UnknownSign, 2),
    Fault(b"#a", LexKind::UnknownSign, 0),
    Fault(b"__", LexKind::UnknownSign, 0),
    Fault(b"1_", LexKind::UnknownSign, 0),
    Fault(b"2147483648", LexKind::NumberTooLarge, 0),
    Fault(b"a -2147483648.5", LexKind::NumberTooLarge, 2),
    Fault(b"1.23456a", LexKind::NumberTooLarge, 0),
    Fault(b"1%65536", LexKind::NumberTooLarge, 0),
    Fault(
        b"a abcdefghijklmnopqrstuvwxyz_123456",
        LexKind::WordTooLong,
        2,
    ),
    Fault(b"99999999999999999999", LexKind::NumberTooLarge, 0),
];
