// The ticker.
ghost use Rattle.std.specs.Prelude.{OnOk};
ghost use Rattle.tdl_score.specs.declared.histories.Entry.{Entry};
ghost use Rattle.tdl_session.specs.Passes.{IsPassOf, SamePass, mine};
ghost use Rattle.tdl_core.specs.Replies.{MayPlay};

use crate::calls::{Accepted, Called, Ended, Fault};
use std::alloc::Global;
use std::sync::Wait;
use tdl_core::{Call, Core, Reply, tickers_go_on};
use tdl_session::{Hall, Leader, Pass};

// An eighth of a cycle, in tick units.
const STEP: u64 = 5_760;

/// What ticks so many times and then finishes, and what it was answered.
#[derive(Drop)]
pub struct Ticker {
    ticks: u32,
    told: Vec<Accepted>,
    replies: Vec<Reply>,
}

impl Ticker {
    /// Before its first tick.
    pub fn of(alloc: Global, ticks: u32) -> Ticker {
        Ticker {
            ticks,
            told: Vec::new(alloc),
            replies: Vec::new(alloc),
        }
    }

    /// The ticks that were accepted, in their order, and the finish.
    pub fn told(&self) -> &[Accepted] {
        &self.told
    }

    /// What they were answered.
    pub fn replies(&self) -> &[Reply] {
        &self.replies
    }

    fn tick<R: Wait>(&mut self, rt: &R, hall: &Hall<Core>, pass: &mut Pass<Core>, to: u64) -> Ended
        requires pass { IsPassOf hall.now.shared pass.old }
        requires may { MayPlay (mine (λ (e : Entry). e.who) pass.old) pass.old.number }
        ensures pass { SamePass pass.old pass.new }
        ensures may { OnOk result (MayPlay (mine (λ (e : Entry). e.who) pass.new) pass.new.number) }
    {
        tickers_go_on();
        let reply = hall.shared.call(rt, hall.alloc, pass, Call::Tick { to })?;
        let Reply::Ticked { place, .. } = &reply else {
            return Err(Fault::OtherReply);
        };
        let place = *place;
        self.keep(place, Called::Tick { to }, reply)
    }

    fn finish<R: Wait>(&mut self, rt: &R, hall: &Hall<Core>, pass: &mut Pass<Core>) -> Ended
        requires pass { IsPassOf hall.now.shared pass.old }
        requires may { MayPlay (mine (λ (e : Entry). e.who) pass.old) pass.old.number }
        ensures { SamePass pass.old pass.new }
    {
        let reply = hall.shared.call(rt, hall.alloc, pass, Call::Finish)?;
        let Reply::Finished { place, .. } = &reply else {
            return Err(Fault::OtherReply);
        };
        let place = *place;
        self.keep(place, Called::Finish, reply)
    }

    fn keep(&mut self, place: u32, called: Called, reply: Reply) -> Ended {
        self.told.push(Accepted { place, called })?;
        self.replies.push(reply)?;
        Ok(())
    }
}

impl Leader<Core> for Ticker {
    type End = Ended;

    ghost did = { λ tempo history old new end. Unit {0} };

    fn did_law() {}

    fn lead<R: Wait>(&mut self, rt: &R, hall: &Hall<Core>, pass: &mut Pass<Core>) -> Ended {
        for tick in 0..self.ticks {
            let to = (u64::from(tick) + 1) * STEP;
            self.tick(rt, hall, pass, to)?;
        }
        self.finish(rt, hall, pass)
    }
}
