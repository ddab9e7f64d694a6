//! The ticks of a run beside a clock, by the beats that the clock gives: a beat plays up to its time, in
//! steps of at most a cycle, unless it is too near to what was played already.
//!
//! `beat` plays so, and finishes. The other functions run nothing, and have for their contracts what the
//! definitions say by themselves.
#![tactic(auto)]

mod calls;
mod plays;
mod runs;

ghost use Rattle.std.specs.Prelude.{◌≡◌, ◌*◌, ◌≤◌, ◌∷◌, ◌++◌, ℕ, List, min, IsTrue};
ghost use Rattle.tdl_fraction.specs.Units.{tick_units};
ghost use Rattle.tdl_io.specs.Memory.{rise_above};
ghost use Rattle.tdl_io.specs.Sleep.{next_beats};
ghost use Rattle.tdl_beats.specs.Beats.{ticks};
ghost use Rattle.tdl_beats.specs.Rising.{reached, RiseByCycles};

pub use runs::{BeatEnd, beat, beaten_stays};

/// Ticks rise, each by at most a cycle, and none is above the goal. Where a beat comes to the goal they do
/// too; and by beats that rise they come to the last one, or to the goal where that is smaller.
pub fn ticks_rise_to_the_goal()
    ensures rise { (beats : List ℕ) (cycles : ℕ) → RiseByCycles 0 (ticks beats cycles) }
    ensures within { (beats : List ℕ) (cycles : ℕ) → reached 0 (ticks beats cycles) ≤ tick_units * cycles }
    ensures goal { (before : List ℕ) (beat : ℕ) (after : List ℕ) (cycles : ℕ) → tick_units * cycles ≤ beat
        → reached 0 (ticks (before ++ beat ∷ after) cycles) ≡ tick_units * cycles }
    ensures last { (beats : List ℕ) (cycles : ℕ) → IsTrue (rise_above 0 beats)
        → reached 0 (ticks beats cycles) ≡ min (reached 0 beats) (tick_units * cycles) }
{}

/// Beside a clock that waits, with enough beats left, each beat is a tick, up to the goal.
pub fn each_waited_beat_is_a_tick()
    ensures { (cycles count : ℕ) → 32 * cycles ≤ count → ticks (next_beats count 0) cycles ≡ next_beats (32 * cycles) 0 }
{}
