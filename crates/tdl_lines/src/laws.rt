ghost use Rattle.std.specs.Prelude.{◌≡◌, ℕ, List, [], ◌++◌, All};
ghost use Rattle.tdl_lines.specs.Lines.{HasNoFeed, pieces_from, rest_from, with_feeds};
ghost use Rattle.tdl_lines.specs.Reading.{HasGivenSome, HasRead, Reading};

/// Of any bytes, the pieces with their line feeds, and then the rest, are those bytes, and neither
/// a piece nor the rest has a line feed.
pub fn lines_join_to_what_was_taken()
    ensures join { (bytes : List ℕ) → with_feeds (pieces_from [] bytes) ++ rest_from [] bytes ≡ bytes }
    ensures pieces { (bytes : List ℕ) → All HasNoFeed (pieces_from [] bytes) }
    ensures rest { (bytes : List ℕ) → HasNoFeed (rest_from [] bytes) }
{}

/// The lines that a reader has given are the first ones of what was taken.
pub fn given_lines_are_the_first()
    ensures { (reading : Reading) (taken : List ℕ) (given : List (List ℕ)) → HasRead reading taken given
        → HasGivenSome reading.ended taken given }
{}
