// The rules on numbers, as the reader asks for them.
ghost use Rattle.std.specs.Prelude.{◌≡◌, ℕ};
ghost use Rattle.tdl_mini_machine.specs.NumberForms.{is_end, is_sample};
ghost use Rattle.tdl_mini_machine.specs.Rules.{number_tests};
ghost use Rattle.tdl_mini_reader.specs.inside.Calls.{fault_in};

use tdl_mini_tree::{Kind, MiniKind, Number, is_ratio};

// Whether a text of this kind has ranges that begin with this number.
pub(crate) fn is_end(kind: Kind, number: Number) -> bool
    ensures { result ≡ is_end kind number }
{
    match kind {
        Kind::Note { .. } | Kind::Int { .. } | Kind::Count => true,
        Kind::Sound | Kind::Word { .. } | Kind::Bool => false,
        Kind::Ratio => number.is_whole(),
    }
}

// Whether a number can stand after `:`; that it is whole is tested apart.
pub(crate) fn is_sample(number: Number) -> bool
    ensures { result ≡ is_sample number }
{
    !number.is_negative || !number.is_whole()
}

// The first rule that a number breaks as a value, or as an end of a range.
pub(crate) fn number_fault(kind: Kind, number: Number) -> Option<MiniKind>
    ensures { (at : ℕ) → result ≡ fault_in (number_tests kind at number) }
{
    match kind {
        Kind::Ratio => ratio_fault(number),
        Kind::Count if number.is_whole() => ratio_fault(number),
        _ if number.is_whole() => None,
        _ => Some(MiniKind::FloatValue),
    }
}

fn ratio_fault(number: Number) -> Option<MiniKind>
    ensures { result ≡ fault_in (number_tests Kind.Ratio 0 number) }
{
    if is_ratio(number) {
        None
    } else {
        Some(MiniKind::BadFactor)
    }
}
