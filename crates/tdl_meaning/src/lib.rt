//! What a pattern tree means: the events that it has in any arc of time, and an evaluator that works
//! them out as they are defined.
#![tactic(auto)]

mod cycle;
mod evaluator;
mod joins;
mod motions;
mod plies;
mod repeats;
mod step_count;
mod turns;
mod windows;

ghost use Rattle.std.specs.Prelude.{◌≡◌, ◌↔◌, ℤ, ◌<ℤ◌, Contains, AllPairs, IsSome, true};
ghost use Rattle.tdl_fraction.specs.Arc.{Arc, IsArc, meet};
ghost use Rattle.tdl_meaning.specs.Pattern.{cycles_of, cycle_arc};
ghost use Rattle.tdl_meaning.specs.Proper.{ProperLaw};
ghost use Rattle.tdl_meaning.specs.Ranges.{RangeLaw, SizeLaw, NumberLaw, GridLaw};
ghost use Rattle.tdl_meaning.specs.Asks.{AskLaw};
ghost use Rattle.tdl_meaning.specs.Enough.{EnoughLaw};
ghost use Rattle.tdl_meaning.specs.Heard.{HeardLaws};
ghost use Rattle.tdl_event.specs.Event.{Event, HasOnset};
ghost use Rattle.tdl_meaning.specs.Onsets.{has_onset, SplitLaw, CountLaw};
ghost use Rattle.tdl_meaning.specs.Repeats.{RepeatLaw};
ghost use Rattle.tdl_meaning.specs.PatternLaws.{RateLaws, MixLaws};

pub use cycle::Cycle;
pub use evaluator::plain;
pub use joins::{add_joined, add_with_each};
pub use motions::Motion;
pub use plies::add_plied;
pub use repeats::repeats_after;
pub use step_count::StepCount;
pub use turns::{turn, turned};
pub use windows::Window;

/// The cycles of an arc are those that share an interval of positive width with it, each once, in
/// rising order.
pub fn cycles_share_time_with_the_arc()
    ensures shared { (a : Arc) (c : ℤ) → IsArc a → (Contains (cycles_of a) c ↔ IsSome (meet a (cycle_arc c))) }
    ensures rising { (a : Arc) → AllPairs ◌<ℤ◌ (cycles_of a) }
{}

/// The times of a valid tree's events in an arc, and of the arcs that its meaning asks of its children.
pub fn times_of_trees_are_bounded()
    ensures proper { ProperLaw }
    ensures in_arc { RangeLaw }
    ensures sizes { SizeLaw }
    ensures numbers { NumberLaw }
    ensures counts { GridLaw }
    ensures asks { AskLaw }
{}

/// What a tree has in an arc depends on what its children have in the arcs that it asks them for, and on nothing else of them.
pub fn trees_ask_for_what_they_use()
    ensures { EnoughLaw }
{}

/// What each kind of pattern has at a time, by what its children have then.
pub fn what_is_heard()
    ensures { HeardLaws }
{}

/// An arc that is cut in two has the same onsets as its two parts, each as often: as many of them pass
/// each test of a whole and a value.
pub fn cut_arcs_keep_their_onsets()
    ensures test { (e : Event) → ((has_onset e ≡ true) ↔ HasOnset e) }
    ensures split { SplitLaw }
    ensures count { CountLaw }
{}

/// A pattern that repeats after some cycles has, in an arc that is so many later, the same events so many later.
pub fn patterns_repeat()
    ensures { RepeatLaw }
{}

/// The laws by which patterns are known: of rates, shifts and pieces; and of joins, of patterns together, one
/// after another and by turns, and of gates.
pub fn patterns_keep_their_laws()
    ensures rates { RateLaws }
    ensures mixes { MixLaws }
{}
