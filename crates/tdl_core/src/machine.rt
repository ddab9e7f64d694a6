// The core.
ghost use Rattle.std.specs.Prelude.{◌≡◌, ◌+◌, ◌*◌, ◌≤◌, ℕ, List, length, [], IfOk, IfSome, OnOk, OnErr, ◌++◌};
ghost use Rattle.std.specs.Int.{◌∣◌};
ghost use Rattle.tdl_control.specs.Limits.{max_every};
ghost use Rattle.tdl_fraction.specs.Units.{last_units, tick_units};
ghost use Rattle.tdl_desk.specs.Changes.{map_change};
ghost use Rattle.tdl_score.specs.History.{boundary_of, entries_of, frontier, is_finished, max_performed, max_ticks};
ghost use Rattle.tdl_score.specs.Programs.{program_tree};
ghost use Rattle.tdl_core.specs.Said.{HasMidi, HasOsc, IsLegal, Says};
ghost use Rattle.tdl_core.specs.ReplyLines.{HasFrontier};
ghost use Rattle.tdl_core.specs.Replies.{Accepts, Answers, IsPerformer, MayCall, MayPlay, performer_refusal, tick_refusal};

use crate::calls::Call;
use crate::laws::lines_make_histories;
use crate::looks::look_text;
use crate::replies::{Refusal, Reply};
use crate::tallies::{NOTHING, Tally};
use std::alloc::Global;
use std::marker::Model;
use tdl_compile::Program;
use tdl_control::{NoMemory, Text};
use tdl_desk::{Change, Desk};
use tdl_fraction::{LAST_UNITS, TICK_UNITS, time_of};
use tdl_notes::Sounding;
use tdl_score::{Deed, Due, Entry, History, due_between, programs_are_seen_as_trees};
use tdl_tempo::Tempo;

const MAX_PERFORMED: u32 = 1 << 14;

const MAX_TICKS: u32 = 1 << 22;

/// The machine of a run: its tempo and its history, which alone says what is played.
#[derive(Drop)]
pub struct Core {
    // what its calls take memory from
    alloc: Global,
    tempo: Tempo,
    history: History,
    desk: Desk<Program>,
    sounding: Sounding,
    frontier: u64,
    tally: Tally,
}

impl Model for Core {
    ghost use Rattle.tdl_core.specs.Replies.{CoreState};

    ghost Value = { CoreState };

    ghost use Rattle.tdl_core.specs.Core.{KeepsHistory};

    ghost view = { λ c. record { tempo = c.tempo; history = c.history.entries } };

    ghost invariant = { λ c. KeepsHistory c.tempo c.history.entries c.desk c.sounding (record {
      units = c.frontier;
      performed = c.tally.performed;
      ticks = c.tally.ticks;
      packets = c.tally.packets;
      messages = c.tally.messages;
      finished = c.tally.finished;
    }) };
}

impl Core {
    /// A core that has accepted nothing.
    pub fn start(alloc: Global, tempo: Tempo) -> Result<Core, NoMemory>
        ensures { IfOk result (λ core. core ≡ record { tempo = tempo; history = [] }) }
    {
        lines_make_histories();
        Ok(Core {
            alloc,
            tempo,
            history: History::new(alloc),
            desk: Desk::new(alloc),
            sounding: Sounding::new(alloc),
            frontier: 0,
            tally: NOTHING,
        })
    }

    /// The tempo that the core was started with.
    pub fn tempo(&self) -> Tempo
        ensures { result ≡ self.now.tempo }
    {
        self.tempo
    }

    /// The time up to which was played, in tick units.
    pub fn frontier(&self) -> u64
        ensures value { result ≡ frontier self.now.history }
        ensures to_last { result ≤ last_units }
        ensures few { length self.now.history ≤ max_performed + max_ticks + 1 }
    {
        self.frontier
    }

    /// How many packets the history sends to the wire of OSC.
    pub fn packets(&self) -> u128
        ensures { (packets : List (List ℕ)) → HasOsc self.now.tempo self.now.history packets → result ≡ length packets }
    {
        self.tally.packets
    }

    /// How many messages the history sends to the wire of MIDI.
    pub fn messages(&self) -> u128
        ensures { (messages : List (List ℕ)) → HasMidi self.now.history messages → result ≡ length messages }
    {
        self.tally.messages
    }

    /// Whether the finish was accepted; it is the caller's with the number 0.
    pub fn is_finished(&self) -> bool
        ensures value { result ≡ is_finished self.now.history }
        ensures own { result ≡ is_finished (entries_of 0 self.now.history) }
    {
        self.tally.finished
    }

    /// What was accepted.
    pub fn history(&self) -> &History
        ensures value { result.now.entries ≡ self.now.history }
        ensures legal { IsLegal self.now.history }
    {
        &self.history
    }

    /// What was accepted; the core is given up.
    pub fn into_history(self) -> History
        ensures value { result.entries ≡ self.history }
        ensures legal { IsLegal result.entries }
    {
        let Core { history, .. } = self;
        history
    }

    /// Answers a call by a caller, 0 for ticks and the finish and 1 to 8 for performers. The refusals are tested in
    /// this order: a swap or a look is `Full` at 16,384 of them together; a tick is `PastLast`,
    /// `Backward`, `TooLong`, or `Full` at 4,194,304 ticks. Only what is allowed can run out of memory, and the finish
    /// takes none.
    pub fn apply(&mut self, who: u32, call: Call) -> Result<Reply, Refusal>
        requires { MayCall (entries_of who self.old.history) who call }
        ensures answers { Answers self.old self.new who call result }
        ensures legal { OnOk result (IsLegal self.new.history) }
        ensures still_legal { OnErr result (IsLegal self.new.history) }
    {
        let result = match call {
            Call::Swap {
                text,
                every,
                change,
            } => self.swap(who, text, every, change),
            Call::Look => self.look(who),
            Call::Tick { to } => self.tick(who, to),
            Call::Finish => Ok(self.finish(who)),
        };
        // What a core keeps is of a legal history.
        self.history();
        result
    }

    // Changes what is played, from the next multiple of `every` cycles on.
    fn swap(
        &mut self,
        who: u32,
        text: Text,
        every: u32,
        change: Change<Program>,
    ) -> Result<Reply, Refusal>
        requires performer { IsPerformer who }
        requires says { Says text every (map_change program_tree change) }
        ensures { Answers self.old self.new who (Call.Swap text every change) result }
    {
        lines_make_histories();
        if let Some(refusal) = performer_refusal(self.tally.performed) {
            return Err(refusal);
        }
        let place = self.history.len();
        let frontier = self.frontier;
        let boundary = boundary(frontier, every);
        self.desk.reserve()?;
        self.history.reserve()?;
        self.history.push(Entry {
            who,
            frontier,
            deed: Deed::Swap { boundary, text },
        });
        self.desk.add(boundary, change);
        self.desk.settle((frontier / TICK_UNITS) as u32);
        self.tally = self.tally.and_performed();
        Ok(Reply::Swapped { place, boundary })
    }

    // Looks at what is played in the cycle of the frontier.
    fn look(&mut self, who: u32) -> Result<Reply, Refusal>
        requires { IsPerformer who }
        ensures { Answers self.old self.new who Call.Look result }
    {
        lines_make_histories();
        programs_are_seen_as_trees();
        if let Some(refusal) = performer_refusal(self.tally.performed) {
            return Err(refusal);
        }
        let place = self.history.len();
        let frontier = self.frontier;
        let cycle = (frontier / TICK_UNITS) as u32;
        let text = look_text(self.alloc, &self.desk, cycle, frontier, place)?;
        self.history.reserve()?;
        self.history.push(Entry {
            who,
            frontier,
            deed: Deed::Look,
        });
        self.tally = self.tally.and_performed();
        Ok(Reply::Looked { place, text })
    }

    // Plays up to a time.
    fn tick(&mut self, who: u32, to: u64) -> Result<Reply, Refusal>
        requires { MayPlay (entries_of who self.old.history) who }
        ensures { Answers self.old self.new who (Call.Tick to) result }
    {
        lines_make_histories();
        if let Some(refusal) = tick_refusal(self.frontier, self.tally.ticks, to) {
            return Err(refusal);
        }
        let place = self.history.len();
        let frontier = self.frontier;
        let Due { osc, tones } = due_between(self.alloc, &self.desk, frontier, to, self.tempo)?;
        self.history.reserve()?;
        let midi = self.sounding.tick(&tones, time_of(to))?;
        self.history.push(Entry {
            who,
            frontier,
            deed: Deed::Tick { to },
        });
        self.desk.settle((to / TICK_UNITS) as u32);
        self.frontier = to;
        self.tally = self.tally.and_tick(osc.len(), midi.len());
        Ok(Reply::Ticked { place, osc, midi })
    }

    // Ends all notes that sound.
    fn finish(&mut self, who: u32) -> Reply
        requires { MayPlay (entries_of who self.old.history) who }
        ensures { Accepts self.old self.new who Call.Finish result }
    {
        lines_make_histories();
        let place = self.history.len();
        let midi = self.sounding.finish();
        self.history.push_finish(Entry {
            who,
            frontier: self.frontier,
            deed: Deed::Finish,
        });
        self.tally = self.tally.and_finish(midi.len());
        Reply::Finished { place, midi }
    }
}

/// The least multiple of `every` cycles that is not below a time in tick units, in cycles.
pub fn boundary(frontier: u64, every: u32) -> u32
    requires frontier { frontier ≤ last_units }
    requires every_from { 1 ≤ every }
    requires every_to { every ≤ max_every }
    ensures value { result ≡ boundary_of frontier every }
    ensures multiple { every ∣ result }
    ensures not_below { frontier ≤ result * tick_units }
    ensures least { (cycle : ℕ) → every ∣ cycle → frontier ≤ cycle * tick_units → result ≤ cycle }
{
    every * frontier.div_ceil(every as u64 * TICK_UNITS) as u32
}

// Why a swap or a look is refused after so many.
fn performer_refusal(performed: u32) -> Option<Refusal>
    ensures value { result ≡ performer_refusal performed }
    ensures frontier { IfSome result HasFrontier }
{
    if performed >= MAX_PERFORMED {
        return Some(Refusal::Full {
            entries: MAX_PERFORMED,
        });
    }
    None
}

// Why a tick up to so many units is refused, after so many ticks up to a frontier.
fn tick_refusal(frontier: u64, ticks: u32, to: u64) -> Option<Refusal>
    requires { frontier ≤ last_units }
    ensures value { result ≡ tick_refusal frontier ticks to }
    ensures frontier { IfSome result HasFrontier }
{
    if to > LAST_UNITS {
        return Some(Refusal::PastLast { frontier });
    }
    if to <= frontier {
        return Some(Refusal::Backward { frontier });
    }
    if to > frontier + TICK_UNITS {
        return Some(Refusal::TooLong { frontier });
    }
    if ticks >= MAX_TICKS {
        return Some(Refusal::Full { entries: MAX_TICKS });
    }
    None
}
