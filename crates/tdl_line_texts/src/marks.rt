// What the bytes of marks mean.
ghost use Rattle.std.specs.Prelude.{◌≡◌};
ghost use Rattle.tdl_line_texts.specs.Texts.{operator, sign_of, byte_mark, pair_mark, mark_of};

use tdl_command::{Operator, Way};
use tdl_control::MapOp;
use tdl_expr::Side;
use tdl_line_machine::Mark;

fn operator(side: Side, op: MapOp) -> Mark
    ensures { result ≡ operator side op }
{
    Mark::Operator(Operator { side, op })
}

// The operator of a sign with bars round it.
fn sign_of(byte: u8) -> MapOp
    ensures { result ≡ sign_of byte }
{
    match byte {
        b'+' => MapOp::Add,
        b'-' => MapOp::Sub,
        _ => MapOp::Mul,
    }
}

fn byte_mark(byte: u8) -> Mark
    ensures { result ≡ byte_mark byte }
{
    match byte {
        b'$' => Mark::Dollar,
        b'(' => Mark::OpenRound,
        b')' => Mark::CloseRound,
        b'[' => Mark::OpenSquare,
        b']' => Mark::CloseSquare,
        b',' => Mark::Comma,
        b'.' => Mark::Dot,
        b'/' => Mark::Slash,
        b'-' => Mark::Minus,
        _ => operator(Side::Left, MapOp::Union),
    }
}

// A shift, or an operator with a bar on one side.
fn pair_mark(one: u8, two: u8) -> Mark
    ensures { result ≡ pair_mark one two }
{
    match one {
        b'<' => Mark::Shift(Way::Earlier),
        b'~' => Mark::Shift(Way::Later),
        b'|' => operator(Side::Left, sign_of(two)),
        _ => operator(Side::Right, sign_of(one)),
    }
}

/// The mark that bytes are.
pub fn mark_of(bytes: &[u8]) -> Mark
    ensures { result ≡ mark_of bytes.now }
{
    match bytes {
        [] => operator(Side::Left, MapOp::Union),
        [byte] => byte_mark(*byte),
        [one, two] => pair_mark(*one, *two),
        [_, sign, ..] => operator(Side::Both, sign_of(*sign)),
    }
}
