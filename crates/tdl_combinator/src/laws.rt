// What functions on patterns make, said of the patterns that it means.
ghost use Rattle.tdl_combinator.specs.FunctionLaws.{CycleLaws, EventLaws};

use tdl_meaning::{patterns_keep_their_laws, times_of_trees_are_bounded};

/// The laws by which functions on patterns are known: of those that differ from cycle to cycle, as `every`,
/// `palindrome` and `iter`; and of those of times, of events and of other functions, as `off`, `jux` and `ply`.
pub fn functions_keep_their_laws()
    ensures cycles { CycleLaws }
    ensures events { EventLaws }
{
    patterns_keep_their_laws();
    times_of_trees_are_bounded();
}
